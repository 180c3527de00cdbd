//! Copies, which equal what they copy.

ghost use Rattle.std.specs.Prelude.{◌≡◌, IfOk, MatchResult};
ghost use Rattle.term_tree.specs.Kinds.{pair_of, row_of};
ghost use Rattle.term_tree.specs.declared.term.Term.{Term};

use crate::kinds::{PairKind, RowKind, guard_node, pair_node, row_node};
use crate::refusal::TreeRefusal;
use crate::term::Term;
use affine_index::{Aff, Cmp, Cond};
use sqlite_items::{Boxed, Items};
use std::alloc::Global;

fn copy_form(alloc: Global, form: &Aff) -> Result<Aff, TreeRefusal>
    ensures { IfOk result (λ copy. copy ≡ form.now) }
{
    match form.copy(alloc) {
        Ok(copy) => Ok(copy),
        Err(_) => Err(TreeRefusal::Memory),
    }
}

fn copy_cmp(alloc: Global, cmp: &Cmp) -> Result<Cmp, TreeRefusal>
    ensures { IfOk result (λ copy. copy ≡ cmp.now) }
{
    match cmp {
        Cmp::Ge(x) => Ok(Cmp::Ge(copy_form(alloc, x)?)),
        Cmp::Eq(x) => Ok(Cmp::Eq(copy_form(alloc, x)?)),
    }
}

fn copy_cond(alloc: Global, cond: &Cond) -> Result<Cond, TreeRefusal>
    ensures { IfOk result (λ copy. copy ≡ cond.now) }
{
    let mut all = Items::new(alloc);
    for cmp in cond.all.as_slice() {
        all.push(copy_cmp(alloc, cmp)?)?;
    }
    Ok(Cond { all })
}

#[cycle(copy)]
fn boxed(alloc: Global, term: &Boxed<Term>) -> Result<Boxed<Term>, TreeRefusal>
    ensures { IfOk result (λ copy. copy ≡ term.now) }
{
    let copy = copied(alloc, term.get())?;
    Ok(Boxed::new(alloc, copy)?)
}

/// A node of a form and a part.
#[cycle(copy)]
fn row(alloc: Global, kind: RowKind, form: &Aff, part: &Boxed<Term>) -> Result<Term, TreeRefusal>
    ensures { IfOk result (λ copy. copy ≡ row_of kind form.now part.now) }
{
    row_node(kind, copy_form(alloc, form), boxed(alloc, part))
}

/// A node of two parts, of which the first is copied before.
#[cycle(copy)]
fn pair(
    alloc: Global,
    kind: PairKind,
    left: Result<Boxed<Term>, TreeRefusal>,
    right: &Boxed<Term>,
) -> Result<Term, TreeRefusal>
    ensures { (a : Term) → IfOk left (λ copy. copy ≡ a) → IfOk result (λ copy. copy ≡ pair_of kind a right.now) }
{
    pair_node(kind, left, boxed(alloc, right))
}

/// A term equal to this one.
pub fn copy(alloc: Global, term: &Term) -> Result<Term, TreeRefusal>
    ensures { MatchResult result (λ copy. copy ≡ term.now) (λ e. e ≡ TreeRefusal.Memory) }
{
    match copied(alloc, term) {
        Ok(copy) => Ok(copy),
        Err(_) => Err(TreeRefusal::Memory),
    }
}

#[cycle(copy)]
fn copied(alloc: Global, term: &Term) -> Result<Term, TreeRefusal>
    ensures { IfOk result (λ copy. copy ≡ term.now) }
{
    match term {
        Term::Lit(word) => Ok(Term::Lit(*word)),
        Term::TVar(var) => Ok(Term::TVar(*var)),
        Term::WordOf(x) => Ok(Term::WordOf(copy_form(alloc, x)?)),
        Term::Flatten(e) => Ok(Term::Flatten(boxed(alloc, e)?)),
        Term::Transpose(e) => Ok(Term::Transpose(boxed(alloc, e)?)),
        Term::Split(k, e) => Ok(Term::Split(*k, boxed(alloc, e)?)),
        Term::Guard(cond, e) => guard_node(copy_cond(alloc, cond), boxed(alloc, e)),
        Term::Index(e, x) => row(alloc, RowKind::Index, x, e),
        Term::Gen(x, e) => row(alloc, RowKind::Gen, x, e),
        Term::Sum(x, e) => row(alloc, RowKind::Sum, x, e),
        Term::TruncL(x, e) => row(alloc, RowKind::TruncL, x, e),
        Term::TruncR(x, e) => row(alloc, RowKind::TruncR, x, e),
        Term::PadL(x, e) => row(alloc, RowKind::PadL, x, e),
        Term::PadR(x, e) => row(alloc, RowKind::PadR, x, e),
        Term::Let(left, right) => pair(alloc, PairKind::Let, boxed(alloc, left), right),
        Term::Add(left, right) => pair(alloc, PairKind::Add, boxed(alloc, left), right),
        Term::Sub(left, right) => pair(alloc, PairKind::Sub, boxed(alloc, left), right),
        Term::Mul(left, right) => pair(alloc, PairKind::Mul, boxed(alloc, left), right),
        Term::Concat(left, right) => pair(alloc, PairKind::Concat, boxed(alloc, left), right),
    }
}
