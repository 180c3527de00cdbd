//! Sums and products of copies.

ghost use Rattle.std.specs.Prelude.{◌≡◌, IfOk};
ghost use Rattle.term_tree.specs.Syntax as tree;
ghost use Rattle.term_tree.specs.declared.term.Term as spec;

use fact_list::CertRefusal;
use owned_values::two;
use rule_parts::build::{add, copied, mul};
use sqlite_items::Boxed;
use std::alloc::Global;
use term_tree::Term;

pub fn literal(alloc: Global, word: u64) -> Result<Boxed<Term>, CertRefusal>
    ensures { IfOk result (λ e. e ≡ spec.Lit word) }
{
    let term = Boxed::new(alloc, Term::Lit(word))?;
    Ok(term)
}

pub fn added(alloc: Global, a: &Term, b: &Term) -> Result<Boxed<Term>, CertRefusal>
    ensures { IfOk result (λ e. e ≡ tree.add a.now b.now) }
{
    let (a, b) = two(copied(alloc, a), copied(alloc, b))?;
    add(alloc, a, b)
}

pub fn multiplied(alloc: Global, a: &Term, b: &Term) -> Result<Boxed<Term>, CertRefusal>
    ensures { IfOk result (λ e. e ≡ tree.mul a.now b.now) }
{
    let (a, b) = two(copied(alloc, a), copied(alloc, b))?;
    mul(alloc, a, b)
}
