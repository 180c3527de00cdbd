//! Lets moved out of rows and guards.

ghost use Rattle.std.specs.Prelude.{IfOk};
ghost use Rattle.path_focus.specs.Outcome.{IsOutcome};
ghost use Rattle.rules_let.specs.Table as table;

use crate::build::{guard_over, let_over, row_over};
use crate::patterns::as_let;
use fact_list::CertRefusal;
use path_focus::{Arg, Focus, Outcome};
use rule_parts::build::made;
use rule_parts::patterns::{as_guard, as_index};
use std::alloc::Global;

/// `(let t = a in b)[x]`
pub fn let_index(alloc: Global, focus: &Focus, args: &[Arg]) -> Result<Outcome, CertRefusal>
    ensures { IfOk result (IsOutcome (table.let_index focus.now args.now)) }
{
    let Some((array, x)) = as_index(focus.term.get()) else {
        return Ok(Outcome::NoPattern);
    };
    let Some((definition, body)) = as_let(array) else {
        return Ok(Outcome::NoPattern);
    };
    if args.len() > 0 {
        return Ok(Outcome::WrongArgument);
    }
    let row = row_over(alloc, body, x)?;
    let term = let_over(alloc, definition, row)?;
    Ok(made(alloc, term))
}

/// `guard c. let t = a in b`
pub fn let_guard(alloc: Global, focus: &Focus, args: &[Arg]) -> Result<Outcome, CertRefusal>
    ensures { IfOk result (IsOutcome (table.let_guard focus.now args.now)) }
{
    let Some((cond, inside)) = as_guard(focus.term.get()) else {
        return Ok(Outcome::NoPattern);
    };
    let Some((definition, body)) = as_let(inside) else {
        return Ok(Outcome::NoPattern);
    };
    if args.len() > 0 {
        return Ok(Outcome::WrongArgument);
    }
    let guarded = guard_over(alloc, cond, body)?;
    let term = let_over(alloc, definition, guarded)?;
    Ok(made(alloc, term))
}
