//! Guards around sums, differences and products of two terms.

ghost use Rattle.std.specs.Prelude.{◌≡◌, [], IfOk};
ghost use Rattle.path_focus.specs.Outcome.{IsOutcome, Makes, without_arguments};
ghost use Rattle.rules_guard.specs.Table as table;
ghost use Rattle.term_tree.specs.Syntax as tree;

use affine_index::Cond;
use fact_list::CertRefusal;
use owned_values::two;
use path_focus::{Arg, Focus, Outcome};
use rule_parts::build::{add, copied, guard, made, mul, sub};
use rule_parts::conds::copied_cond;
use rule_parts::patterns::{as_guard, as_mul};
use sqlite_items::Boxed;
use std::alloc::Global;
use term_tree::Term;

/// A copy of a term under a copy of a guard.
pub fn guarded(alloc: Global, cond: &Cond, body: &Term) -> Result<Boxed<Term>, CertRefusal>
    ensures { IfOk result (λ e. e ≡ tree.guard cond.now body.now) }
{
    let body = copied(alloc, body)?;
    let cond = copied_cond(alloc, cond)?;
    guard(alloc, cond, body)
}

/// `guard c. a + b`
fn guarded_sum(
    alloc: Global,
    cond: &Cond,
    a: &Term,
    b: &Term,
    args: &[Arg],
) -> Result<Outcome, CertRefusal>
    ensures { IfOk result (IsOutcome (without_arguments args.now (Makes (tree.add (tree.guard cond.now a.now) (tree.guard cond.now b.now)) []))) }
{
    if args.len() > 0 {
        return Ok(Outcome::WrongArgument);
    }
    let (a, b) = two(guarded(alloc, cond, a), guarded(alloc, cond, b))?;
    let term = add(alloc, a, b)?;
    Ok(made(alloc, term))
}

/// `guard c. a - b`
fn guarded_difference(
    alloc: Global,
    cond: &Cond,
    a: &Term,
    b: &Term,
    args: &[Arg],
) -> Result<Outcome, CertRefusal>
    ensures { IfOk result (IsOutcome (without_arguments args.now (Makes (tree.sub (tree.guard cond.now a.now) (tree.guard cond.now b.now)) []))) }
{
    if args.len() > 0 {
        return Ok(Outcome::WrongArgument);
    }
    let (a, b) = two(guarded(alloc, cond, a), guarded(alloc, cond, b))?;
    let term = sub(alloc, a, b)?;
    Ok(made(alloc, term))
}

/// `guard c. a + b` or `guard c. a - b`
pub fn guard_add(alloc: Global, focus: &Focus, args: &[Arg]) -> Result<Outcome, CertRefusal>
    ensures { IfOk result (IsOutcome (table.guard_add focus.now args.now)) }
{
    let Some((cond, body)) = as_guard(focus.term.get()) else {
        return Ok(Outcome::NoPattern);
    };
    match body {
        Term::Add(a, b) => guarded_sum(alloc, cond, a.get(), b.get(), args),
        Term::Sub(a, b) => guarded_difference(alloc, cond, a.get(), b.get(), args),
        _ => Ok(Outcome::NoPattern),
    }
}

/// `guard c. a * b`
pub fn guard_mul(alloc: Global, focus: &Focus, args: &[Arg]) -> Result<Outcome, CertRefusal>
    ensures { IfOk result (IsOutcome (table.guard_mul focus.now args.now)) }
{
    let Some((cond, body)) = as_guard(focus.term.get()) else {
        return Ok(Outcome::NoPattern);
    };
    let Some((a, b)) = as_mul(body) else {
        return Ok(Outcome::NoPattern);
    };
    if args.len() > 0 {
        return Ok(Outcome::WrongArgument);
    }
    let (a, b) = two(guarded(alloc, cond, a), copied(alloc, b))?;
    let term = mul(alloc, a, b)?;
    Ok(made(alloc, term))
}
