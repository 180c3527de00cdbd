//! Terms made of terms.

ghost use Rattle.std.specs.Prelude.{◌≡◌, IfOk};
ghost use Rattle.affine_index.specs.Form.{var_form};
ghost use Rattle.rules_let.specs.Table as table;
ghost use Rattle.term_tree.specs.Syntax as tree;
ghost use Rattle.term_tree.specs.declared.term.Term as spec;

use affine_index::{Aff, Cond};
use fact_list::CertRefusal;
use rule_parts::build::{copied, copied_form, generated, guard, index, sum};
use rule_parts::conds::copied_cond;
use sqlite_items::Boxed;
use std::alloc::Global;
use term_tree::{Term, copy};

pub fn boxed(alloc: Global, term: Term) -> Result<Boxed<Term>, CertRefusal>
    ensures { IfOk result (λ e. e ≡ term) }
{
    let term = Boxed::new(alloc, term)?;
    Ok(term)
}

#[tactic(auto, using(term_tree::proofs::Forms::term_forms))]
pub fn let_in(alloc: Global, a: Boxed<Term>, b: Boxed<Term>) -> Result<Boxed<Term>, CertRefusal>
    ensures { IfOk result (λ e. e ≡ tree.let_in a b) }
{
    boxed(alloc, Term::Let(a, b))
}

pub fn tensor_variable(alloc: Global, var: u32) -> Result<Boxed<Term>, CertRefusal>
    ensures { IfOk result (λ e. e ≡ spec.TVar var) }
{
    boxed(alloc, Term::TVar(var))
}

/// The innermost index variable.
fn innermost(alloc: Global) -> Result<Aff, CertRefusal>
    ensures { IfOk result (λ x. x ≡ var_form 0) }
{
    match Aff::var(alloc, 0) {
        Ok(form) => Ok(form),
        Err(_) => Err(CertRefusal::Memory),
    }
}

/// The row of the innermost tensor variable at the innermost index variable.
pub fn row_of_variable(alloc: Global) -> Result<Boxed<Term>, CertRefusal>
    ensures { IfOk result (λ e. e ≡ table.row_of_variable) }
{
    let array = tensor_variable(alloc, 0)?;
    let x = innermost(alloc)?;
    index(alloc, array, x)
}

/// A let of a copy of a definition.
pub fn let_over(
    alloc: Global,
    definition: &Term,
    body: Boxed<Term>,
) -> Result<Boxed<Term>, CertRefusal>
    ensures { IfOk result (λ e. e ≡ tree.let_in definition.now body) }
{
    let definition = copied(alloc, definition)?;
    let_in(alloc, definition, body)
}

/// A row of a copy of an array.
pub fn row_over(alloc: Global, array: &Term, x: &Aff) -> Result<Boxed<Term>, CertRefusal>
    ensures { IfOk result (λ e. e ≡ tree.index array.now x.now) }
{
    let array = copied(alloc, array)?;
    let x = copied_form(alloc, x)?;
    index(alloc, array, x)
}

/// A guard of a copy of a body.
pub fn guard_over(alloc: Global, cond: &Cond, body: &Term) -> Result<Boxed<Term>, CertRefusal>
    ensures { IfOk result (λ e. e ≡ tree.guard cond.now body.now) }
{
    let body = copied(alloc, body)?;
    let cond = copied_cond(alloc, cond)?;
    guard(alloc, cond, body)
}

/// A gen of a copy of a body.
pub fn gen_over(alloc: Global, n: &Aff, body: &Term) -> Result<Boxed<Term>, CertRefusal>
    ensures { IfOk result (λ e. e ≡ tree.gen n.now body.now) }
{
    let body = copied(alloc, body)?;
    let n = copied_form(alloc, n)?;
    generated(alloc, n, body)
}

/// A sum of a copy of a body.
pub fn sum_over(alloc: Global, n: &Aff, body: &Term) -> Result<Boxed<Term>, CertRefusal>
    ensures { IfOk result (λ e. e ≡ tree.sum n.now body.now) }
{
    let body = copied(alloc, body)?;
    let n = copied_form(alloc, n)?;
    sum(alloc, n, body)
}

/// A copy that is not boxed.
pub fn plain_copy(alloc: Global, term: &Term) -> Result<Term, CertRefusal>
    ensures { IfOk result (λ e. e ≡ term.now) }
{
    match copy(alloc, term) {
        Ok(copy) => Ok(copy),
        Err(_) => Err(CertRefusal::Memory),
    }
}
