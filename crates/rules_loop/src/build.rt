//! Terms made of terms.

ghost use Rattle.std.specs.Prelude.{◌≡◌, IfOk};
ghost use Rattle.term_tree.specs.Shape.{same_form};
ghost use Rattle.term_tree.specs.Syntax as tree;

use affine_index::Aff;
use fact_list::CertRefusal;
use rule_parts::build::{copied, copied_form, generated, index, sum};
use sqlite_items::Boxed;
use std::alloc::Global;
use term_tree::Term;

pub fn boxed(alloc: Global, term: Term) -> Result<Boxed<Term>, CertRefusal>
    ensures { IfOk result (λ e. e ≡ term) }
{
    let term = Boxed::new(alloc, term)?;
    Ok(term)
}

#[tactic(auto, using(term_tree::proofs::Forms::term_forms))]
pub fn concat(alloc: Global, a: Boxed<Term>, b: Boxed<Term>) -> Result<Boxed<Term>, CertRefusal>
    ensures { IfOk result (λ e. e ≡ tree.concat a b) }
{
    boxed(alloc, Term::Concat(a, b))
}

#[tactic(auto, using(term_tree::proofs::Forms::term_forms))]
pub fn transpose(alloc: Global, body: Boxed<Term>) -> Result<Boxed<Term>, CertRefusal>
    ensures { IfOk result (λ e. e ≡ tree.transpose body) }
{
    boxed(alloc, Term::Transpose(body))
}

#[tactic(auto, using(term_tree::proofs::Forms::term_forms))]
pub fn flatten(alloc: Global, body: Boxed<Term>) -> Result<Boxed<Term>, CertRefusal>
    ensures { IfOk result (λ e. e ≡ tree.flatten body) }
{
    boxed(alloc, Term::Flatten(body))
}

/// A copy of a term at a copy of an index.
pub fn row(alloc: Global, array: &Term, x: &Aff) -> Result<Boxed<Term>, CertRefusal>
    ensures { IfOk result (λ e. e ≡ tree.index array.now x.now) }
{
    let array = copied(alloc, array)?;
    let x = copied_form(alloc, x)?;
    index(alloc, array, x)
}

/// The gen of a copy of a term.
pub fn generating(alloc: Global, n: &Aff, body: &Term) -> Result<Boxed<Term>, CertRefusal>
    ensures { IfOk result (λ e. e ≡ tree.gen n.now body.now) }
{
    let body = copied(alloc, body)?;
    let n = copied_form(alloc, n)?;
    generated(alloc, n, body)
}

/// The sum of a copy of a term.
pub fn summed(alloc: Global, n: &Aff, body: &Term) -> Result<Boxed<Term>, CertRefusal>
    ensures { IfOk result (λ e. e ≡ tree.sum n.now body.now) }
{
    let body = copied(alloc, body)?;
    let n = copied_form(alloc, n)?;
    sum(alloc, n, body)
}

#[tactic(auto, using(crate::proofs::PatternLaws::same_is))]
pub fn is_same(x: &Aff, y: &Aff) -> bool
    ensures { result ≡ same_form x.now y.now }
{
    x.same(y)
}
