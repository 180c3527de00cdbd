//! Lets moved out of gens and sums.

ghost use Rattle.std.specs.Prelude.{IfOk};
ghost use Rattle.path_focus.specs.Focus.{IsProper};
ghost use Rattle.path_focus.specs.Outcome.{IsOutcome};
ghost use Rattle.rules_let.specs.Table as table;

use crate::build::{gen_over, sum_over};
use crate::drafts::{by_rows, gen_of, let_around, let_of};
use crate::patterns::as_let;
use binders::free_index;
use fact_list::CertRefusal;
use path_focus::making::lowered;
use path_focus::{Arg, Focus, Outcome};
use rule_parts::build::drafted;
use rule_parts::patterns::{as_gen, as_sum};
use std::alloc::Global;

/// `gen i < n. let t = a in b`, where a is free of i
pub fn let_lift_gen(alloc: Global, focus: &Focus, args: &[Arg]) -> Result<Outcome, CertRefusal>
    requires { IsProper focus.now }
    ensures { IfOk result (IsOutcome (table.let_lift_gen focus.now args.now)) }
{
    let Some((n, row)) = as_gen(focus.term.get()) else {
        return Ok(Outcome::NoPattern);
    };
    let Some((definition, body)) = as_let(row) else {
        return Ok(Outcome::NoPattern);
    };
    if !free_index(definition, 0) {
        return Ok(Outcome::NoPattern);
    }
    if args.len() > 0 {
        return Ok(Outcome::WrongArgument);
    }
    let rows = gen_over(alloc, n, body)?;
    let lifted = lowered(alloc, definition)?;
    let draft = let_around(alloc, lifted, rows.get())?;
    Ok(drafted(alloc, draft))
}

/// `sum i < n. let t = a in b`, where a is free of i
pub fn let_out_of_sum(alloc: Global, focus: &Focus, args: &[Arg]) -> Result<Outcome, CertRefusal>
    requires { IsProper focus.now }
    ensures { IfOk result (IsOutcome (table.let_out_of_sum focus.now args.now)) }
{
    let Some((n, summand)) = as_sum(focus.term.get()) else {
        return Ok(Outcome::NoPattern);
    };
    let Some((constant, body)) = as_let(summand) else {
        return Ok(Outcome::NoPattern);
    };
    if !free_index(constant, 0) {
        return Ok(Outcome::NoPattern);
    }
    if args.len() > 0 {
        return Ok(Outcome::WrongArgument);
    }
    let total = sum_over(alloc, n, body)?;
    let lifted = lowered(alloc, constant)?;
    let draft = let_around(alloc, lifted, total.get())?;
    Ok(drafted(alloc, draft))
}

/// `gen i < n. let t = a in b`
pub fn let_out_of_gen(alloc: Global, focus: &Focus, args: &[Arg]) -> Result<Outcome, CertRefusal>
    requires { IsProper focus.now }
    ensures { IfOk result (IsOutcome (table.let_out_of_gen focus.now args.now)) }
{
    let Some((n, row)) = as_gen(focus.term.get()) else {
        return Ok(Outcome::NoPattern);
    };
    let Some((definition, body)) = as_let(row) else {
        return Ok(Outcome::NoPattern);
    };
    if args.len() > 0 {
        return Ok(Outcome::WrongArgument);
    }
    let rows = gen_over(alloc, n, definition)?;
    let inside = by_rows(alloc, body)?;
    let each = gen_of(alloc, n, inside)?;
    let draft = let_of(alloc, rows.get(), each)?;
    Ok(drafted(alloc, draft))
}
