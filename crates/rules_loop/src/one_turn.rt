//! Sums of which one turn counts.

ghost use Rattle.std.specs.Prelude.{◌≡◌, IfOk, IsTrue, MatchOption, MatchResult, None, Some, pos};
ghost use Rattle.affine_index.specs.Form.{literal_form};
ghost use Rattle.affine_index.specs.Normal.{Refused, coefficient_fits};
ghost use Rattle.affine_index.specs.Put.{numbers_fit};
ghost use Rattle.affine_index.specs.Sum.{difference_of, sum_of};
ghost use Rattle.affine_index.specs.declared.form.Items as form;
ghost use Rattle.fact_list.specs.Facts.{where_normal};
ghost use Rattle.path_focus.specs.Focus.{IsProper};
ghost use Rattle.path_focus.specs.Making.{with_index};
ghost use Rattle.path_focus.specs.Outcome.{IsDraft, IsOutcome};
ghost use Rattle.rules_loop.specs.OneTurn as table;
ghost use Rattle.term_tree.specs.Shape.{same_form};
ghost use Rattle.term_tree.specs.Syntax as tree;

use crate::build::is_same;
use crate::drafts::var;
use affine_index::{Aff, AffRefusal, Cmp, Cond};
use fact_list::CertRefusal;
use path_focus::making::{lowered, one_of_rows, with_index};
use path_focus::{Arg, Draft, Focus, Outcome, Rewrite};
use rule_parts::build::{drafted, raised_form};
use rule_parts::patterns::{as_guard, as_sum};
use std::alloc::Global;
use term_tree::Term;

fn literal(alloc: Global, number: i64) -> Result<Aff, CertRefusal>
    requires { IsTrue (coefficient_fits number) }
    ensures { IfOk result (λ x. x ≡ literal_form number) }
{
    match Aff::literal(alloc, number) {
        Ok(form) => Ok(form),
        Err(_) => Err(CertRefusal::Memory),
    }
}

fn is_one(alloc: Global, n: &Aff) -> Result<bool, CertRefusal>
    ensures { IfOk result (λ b. b ≡ same_form n.now (literal_form (pos 1))) }
{
    let one = literal(alloc, 1)?;
    Ok(is_same(n, &one))
}

/// What index arithmetic has made, where it is within the limits.
fn if_normal(made: Result<Aff, AffRefusal>) -> Result<Option<Aff>, CertRefusal>
    ensures { (raw : form.Items) → MatchResult made (λ x. x ≡ raw) (Refused raw) → IfOk result (λ o. o ≡ where_normal raw) }
{
    match made {
        Ok(form) => {
            form.told();
            Ok(Some(form))
        }
        Err(AffRefusal::Memory) => Err(CertRefusal::Memory),
        Err(AffRefusal::CoefficientTooLarge) => Ok(None),
        Err(AffRefusal::IndexTooLong) => Ok(None),
        Err(AffRefusal::NotAffine) => Ok(None),
    }
}

/// Whether a form is what index arithmetic has made; a form beyond the limits is none.
fn is_form(g: &Aff, made: Option<Aff>) -> bool
    ensures { (raw : form.Items) → made ≡ where_normal raw → result ≡ same_form g.now raw }
{
    g.told();
    match made {
        Some(y) => is_same(g, &y),
        None => false,
    }
}

fn sum_if_normal(alloc: Global, a: &Aff, b: &Aff) -> Result<Option<Aff>, CertRefusal>
    ensures { IfOk result (λ o. o ≡ where_normal (sum_of a.now b.now)) }
{
    if_normal(a.add(alloc, b))
}

fn difference_if_normal(alloc: Global, a: &Aff, b: &Aff) -> Result<Option<Aff>, CertRefusal>
    ensures { IfOk result (λ o. o ≡ where_normal (difference_of a.now b.now)) }
{
    if_normal(a.sub(alloc, b))
}

fn is_sum(alloc: Global, g: &Aff, a: &Aff, b: &Aff) -> Result<bool, CertRefusal>
    ensures { IfOk result (λ o. o ≡ same_form g.now (sum_of a.now b.now)) }
{
    let made = sum_if_normal(alloc, a, b)?;
    Ok(is_form(g, made))
}

fn is_difference(alloc: Global, g: &Aff, a: &Aff, b: &Aff) -> Result<bool, CertRefusal>
    ensures { IfOk result (λ o. o ≡ same_form g.now (difference_of a.now b.now)) }
{
    let made = difference_if_normal(alloc, a, b)?;
    Ok(is_form(g, made))
}

/// What is left of a form where the innermost variable is 0.
fn at_zero(alloc: Global, g: &Aff) -> Result<Option<Aff>, CertRefusal>
    ensures { IfOk result (λ o. o ≡ where_normal (table.at_zero g.now)) }
{
    let zero = literal(alloc, 0)?;
    if_normal(g.put_var(alloc, 0, &zero))
}

/// `sum i < 1. b`
pub fn sum_one(alloc: Global, focus: &Focus, args: &[Arg]) -> Result<Outcome, CertRefusal>
    requires { IsProper focus.now }
    ensures { IfOk result (IsOutcome (table.sum_one focus.now args.now)) }
{
    let Some((n, body)) = as_sum(focus.term.get()) else {
        return Ok(Outcome::NoPattern);
    };
    if !is_one(alloc, n)? {
        return Ok(Outcome::NoPattern);
    }
    if args.len() > 0 {
        return Ok(Outcome::WrongArgument);
    }
    let draft = lowered(alloc, body)?;
    Ok(drafted(alloc, draft))
}

/// 0 - r
fn negated(alloc: Global, r: &Aff) -> Result<Option<Aff>, CertRefusal>
    ensures { IfOk result (λ o. o ≡ where_normal (difference_of (literal_form (pos 0)) r.now)) }
{
    let zero = literal(alloc, 0)?;
    difference_if_normal(alloc, &zero, r)
}

/// What the innermost variable i is where a form is 0 that is i + r, or r - i, or neither.
fn solution(
    alloc: Global,
    is_sum: bool,
    is_difference: bool,
    r: Aff,
) -> Result<Option<Aff>, CertRefusal>
    ensures { IfOk result (λ o. o ≡ table.solution is_sum is_difference r) }
{
    if is_sum {
        negated(alloc, &r)
    } else if is_difference {
        Ok(Some(r))
    } else {
        Ok(None)
    }
}

/// The same of a form, with what is left of it without i.
fn solved_from(alloc: Global, g: &Aff, rest: Aff) -> Result<Option<Aff>, CertRefusal>
    requires { IsTrue (numbers_fit 0 1 rest) }
    ensures { IfOk result (λ o. o ≡ table.solved_from g.now rest) }
{
    let i = var(alloc, 0)?;
    let raised = raised_form(alloc, &rest)?;
    let sum = is_sum(alloc, g, &i, &raised)?;
    let difference = is_difference(alloc, g, &raised, &i)?;
    solution(alloc, sum, difference, rest)
}

/// What the innermost variable is where a form is 0.
fn solved(alloc: Global, g: &Aff) -> Result<Option<Aff>, CertRefusal>
    requires { IsTrue (numbers_fit 0 1 (table.at_zero g.now)) }
    ensures { IfOk result (λ o. o ≡ table.solved g.now) }
{
    match at_zero(alloc, g)? {
        None => Ok(None),
        Some(rest) => solved_from(alloc, g, rest),
    }
}

/// The form of a condition that is one equation.
fn equation(cond: &Cond) -> Option<&Aff>
    ensures { MatchOption result (table.equation cond.now.all ≡ None) (λ g. table.equation cond.now.all ≡ Some g.now) }
{
    match cond.all.as_slice() {
        [Cmp::Eq(g)] => Some(g),
        _ => None,
    }
}

/// What the equation under a sum is solved for.
fn named_turn(
    alloc: Global,
    focus: &Focus,
    n: &Aff,
    c: &Cond,
    b: &Term,
    g: &Aff,
) -> Result<Option<Aff>, CertRefusal>
    requires proper { IsProper focus.now }
    requires term { focus.now.term ≡ tree.sum n.now (tree.guard c.now b.now) }
    requires equal { table.equation c.now.all ≡ Some g.now }
    ensures { IfOk result (λ o. o ≡ table.solved g.now) }
{
    solved(alloc, g)
}

/// The body at the turn that the equation names.
fn body_there(
    alloc: Global,
    focus: &Focus,
    n: &Aff,
    c: &Cond,
    b: &Term,
    g: &Aff,
    x: Aff,
) -> Result<Draft, CertRefusal>
    requires proper { IsProper focus.now }
    requires term { focus.now.term ≡ tree.sum n.now (tree.guard c.now b.now) }
    requires equal { table.equation c.now.all ≡ Some g.now }
    requires solved { table.solved g.now ≡ Some x }
    ensures { IfOk result (IsDraft (with_index x b.now)) }
{
    with_index(alloc, x, b)
}

/// `sum i < n. guard c. b`, where c is an equation that names one turn.
pub fn sum_pick(alloc: Global, focus: &Focus, args: &[Arg]) -> Result<Outcome, CertRefusal>
    requires { IsProper focus.now }
    ensures { IfOk result (IsOutcome (table.sum_pick focus.now args.now)) }
{
    let Some((n, body)) = as_sum(focus.term.get()) else {
        return Ok(Outcome::NoPattern);
    };
    let Some((c, b)) = as_guard(body) else {
        return Ok(Outcome::NoPattern);
    };
    let Some(g) = equation(c) else {
        return Ok(Outcome::NoPattern);
    };
    let Some(x) = named_turn(alloc, focus, n, c, b, g)? else {
        return Ok(Outcome::NoPattern);
    };
    if args.len() > 0 {
        return Ok(Outcome::WrongArgument);
    }
    let conditions = one_of_rows(alloc, &focus.facts, n, &x)?;
    let draft = body_there(alloc, focus, n, c, b, g, x)?;
    Ok(Outcome::Made(Rewrite { conditions, draft }))
}
