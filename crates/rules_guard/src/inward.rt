//! Guards around gens, sums and rows.

ghost use Rattle.std.specs.Prelude.{IfOk};
ghost use Rattle.path_focus.specs.Focus.{IsProper};
ghost use Rattle.path_focus.specs.Outcome.{IsOutcome};
ghost use Rattle.rules_guard.specs.Table as table;

use fact_list::CertRefusal;
use path_focus::{Arg, Focus, Outcome};
use rule_parts::build::{copied, copied_form, generated, guard, index, made, sum};
use rule_parts::conds::{copied_cond, raised};
use rule_parts::patterns::{as_gen, as_guard, as_index, as_sum};
use std::alloc::Global;

/// `guard c. gen i < n. e`
pub fn guard_gen(alloc: Global, focus: &Focus, args: &[Arg]) -> Result<Outcome, CertRefusal>
    requires { IsProper focus.now }
    ensures { IfOk result (IsOutcome (table.guard_gen focus.now args.now)) }
{
    let Some((cond, rows)) = as_guard(focus.term.get()) else {
        return Ok(Outcome::NoPattern);
    };
    let Some((n, body)) = as_gen(rows) else {
        return Ok(Outcome::NoPattern);
    };
    if args.len() > 0 {
        return Ok(Outcome::WrongArgument);
    }
    let body = copied(alloc, body)?;
    let cond = raised(alloc, cond)?;
    let row = guard(alloc, cond, body)?;
    let n = copied_form(alloc, n)?;
    let term = generated(alloc, n, row)?;
    Ok(made(alloc, term))
}

/// `guard c. sum i < n. e`
pub fn guard_sum(alloc: Global, focus: &Focus, args: &[Arg]) -> Result<Outcome, CertRefusal>
    requires { IsProper focus.now }
    ensures { IfOk result (IsOutcome (table.guard_sum focus.now args.now)) }
{
    let Some((cond, rows)) = as_guard(focus.term.get()) else {
        return Ok(Outcome::NoPattern);
    };
    let Some((n, body)) = as_sum(rows) else {
        return Ok(Outcome::NoPattern);
    };
    if args.len() > 0 {
        return Ok(Outcome::WrongArgument);
    }
    let body = copied(alloc, body)?;
    let cond = raised(alloc, cond)?;
    let row = guard(alloc, cond, body)?;
    let n = copied_form(alloc, n)?;
    let term = sum(alloc, n, row)?;
    Ok(made(alloc, term))
}

/// `(guard c. e)[x]`
pub fn guard_index(alloc: Global, focus: &Focus, args: &[Arg]) -> Result<Outcome, CertRefusal>
    ensures { IfOk result (IsOutcome (table.guard_index focus.now args.now)) }
{
    let Some((array, x)) = as_index(focus.term.get()) else {
        return Ok(Outcome::NoPattern);
    };
    let Some((cond, body)) = as_guard(array) else {
        return Ok(Outcome::NoPattern);
    };
    if args.len() > 0 {
        return Ok(Outcome::WrongArgument);
    }
    let body = copied(alloc, body)?;
    let x = copied_form(alloc, x)?;
    let row = index(alloc, body, x)?;
    let cond = copied_cond(alloc, cond)?;
    let term = guard(alloc, cond, row)?;
    Ok(made(alloc, term))
}
