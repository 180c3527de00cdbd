//! A term by the cases of a comparison.

ghost use Rattle.std.specs.Prelude.{◌≡◌, pos, IfOk};
ghost use Rattle.affine_index.specs.Form.{literal_form};
ghost use Rattle.path_focus.specs.Outcome.{IsDraft, IsOutcome};
ghost use Rattle.rule_parts.specs.Conds.{at_least, below_zero};
ghost use Rattle.rules_guard.specs.Table as table;
ghost use Rattle.term_tree.specs.Syntax as tree;

use crate::arguments::bound_of;
use crate::outward::whole;
use affine_index::{Aff, AffRefusal, Cmp, Cond};
use fact_list::CertRefusal;
use owned_values::two;
use path_focus::forms::rest_below;
use path_focus::{Arg, Draft, Focus, Outcome};
use rule_parts::build::{add, copied, copied_form, drafted, guard};
use rule_parts::goals::vars_at;
use sqlite_items::{Boxed, Items};
use std::alloc::Global;
use term_tree::{Term, told};

/// A copy of a term where a form is at least 0.
fn case(alloc: Global, form: &Aff, body: &Term) -> Result<Boxed<Term>, CertRefusal>
    ensures { IfOk result (λ e. e ≡ tree.guard (at_least form.now) body.now) }
{
    let body = copied(alloc, body)?;
    let mut all = Items::new(alloc);
    all.push(Cmp::Ge(copied_form(alloc, form)?))?;
    guard(alloc, Cond { all }, body)
}

/// Both cases, where the form of the other has one within the limits.
fn both(alloc: Global, form: &Aff, other: &Aff, body: &Term) -> Result<Draft, CertRefusal>
    ensures { IfOk result (IsDraft (tree.add (tree.guard (at_least form.now) body.now) (tree.guard (at_least other.now) body.now))) }
{
    let (a, b) = two(case(alloc, form, body), case(alloc, other, body))?;
    let term = add(alloc, a, b)?;
    Ok(whole(term))
}

fn zero(alloc: Global) -> Result<Aff, CertRefusal>
    ensures { IfOk result (λ x. x ≡ literal_form (pos 0)) }
{
    match Aff::literal(alloc, 0) {
        Ok(form) => Ok(form),
        Err(_) => Err(CertRefusal::Memory),
    }
}

#[tactic(auto, using(crate::proofs::CaseLaws::case_limits))]
fn cases(alloc: Global, form: &Aff, body: &Term) -> Result<Draft, CertRefusal>
    ensures { IfOk result (IsDraft (tree.add (tree.guard (at_least form.now) body.now) (tree.guard (below_zero form.now) body.now))) }
{
    form.told();
    told(body);
    let zero = zero(alloc)?;
    match rest_below(alloc, &zero, form) {
        Ok(other) => both(alloc, form, &other, body),
        Err(AffRefusal::CoefficientTooLarge) => Ok(Draft::TooLarge),
        Err(AffRefusal::IndexTooLong) => Ok(Draft::TooLong),
        Err(AffRefusal::NotAffine) | Err(AffRefusal::Memory) => Err(CertRefusal::Memory),
    }
}

/// A term by the cases of one comparison `g >= 0`.
pub fn guard_cases(alloc: Global, focus: &Focus, args: &[Arg]) -> Result<Outcome, CertRefusal>
    ensures { IfOk result (IsOutcome (table.guard_cases focus.now args.now)) }
{
    let Some(form) = bound_of(args) else {
        return Ok(Outcome::WrongArgument);
    };
    let vars = vars_at(focus.facts.path.as_slice());
    if !form.is_scoped(focus.facts.sizes.len(), vars) {
        return Ok(Outcome::WrongArgument);
    }
    let draft = cases(alloc, form, focus.term.get())?;
    Ok(drafted(alloc, draft))
}
