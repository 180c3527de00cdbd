//! Two gens or sums in the other order.

ghost use Rattle.std.specs.Prelude.{IfOk};
ghost use Rattle.path_focus.specs.Focus.{IsProper};
ghost use Rattle.path_focus.specs.Outcome.{IsOutcome};
ghost use Rattle.rules_loop.specs.Table as table;

use crate::drafts::{gen_of, sum_of, swapped, transpose_of};
use fact_list::CertRefusal;
use path_focus::{Arg, Focus, Outcome};
use rule_parts::build::drafted;
use rule_parts::patterns::{as_gen, as_sum};
use std::alloc::Global;

/// `gen i < n. gen j < m. b`
pub fn swap_gen(alloc: Global, focus: &Focus, args: &[Arg]) -> Result<Outcome, CertRefusal>
    requires { IsProper focus.now }
    ensures { IfOk result (IsOutcome (table.swap_gen focus.now args.now)) }
{
    let Some((n, inner)) = as_gen(focus.term.get()) else {
        return Ok(Outcome::NoPattern);
    };
    let Some((m, body)) = as_gen(inner) else {
        return Ok(Outcome::NoPattern);
    };
    if args.len() > 0 {
        return Ok(Outcome::WrongArgument);
    }
    let body = swapped(alloc, body)?;
    let rows = gen_of(alloc, n, body)?;
    let columns = gen_of(alloc, m, rows)?;
    let draft = transpose_of(alloc, columns)?;
    Ok(drafted(alloc, draft))
}

/// `sum i < n. sum j < m. b`
pub fn swap_sum(alloc: Global, focus: &Focus, args: &[Arg]) -> Result<Outcome, CertRefusal>
    requires { IsProper focus.now }
    ensures { IfOk result (IsOutcome (table.swap_sum focus.now args.now)) }
{
    let Some((n, inner)) = as_sum(focus.term.get()) else {
        return Ok(Outcome::NoPattern);
    };
    let Some((m, body)) = as_sum(inner) else {
        return Ok(Outcome::NoPattern);
    };
    if args.len() > 0 {
        return Ok(Outcome::WrongArgument);
    }
    let body = swapped(alloc, body)?;
    let rows = sum_of(alloc, n, body)?;
    let draft = sum_of(alloc, m, rows)?;
    Ok(drafted(alloc, draft))
}

/// `sum i < n. gen j < m. b`
pub fn sum_gen(alloc: Global, focus: &Focus, args: &[Arg]) -> Result<Outcome, CertRefusal>
    requires { IsProper focus.now }
    ensures { IfOk result (IsOutcome (table.sum_gen focus.now args.now)) }
{
    let Some((n, inner)) = as_sum(focus.term.get()) else {
        return Ok(Outcome::NoPattern);
    };
    let Some((m, body)) = as_gen(inner) else {
        return Ok(Outcome::NoPattern);
    };
    if args.len() > 0 {
        return Ok(Outcome::WrongArgument);
    }
    let body = swapped(alloc, body)?;
    let rows = sum_of(alloc, n, body)?;
    let draft = gen_of(alloc, m, rows)?;
    Ok(drafted(alloc, draft))
}

/// `gen i < n. sum j < m. b`
pub fn gen_sum(alloc: Global, focus: &Focus, args: &[Arg]) -> Result<Outcome, CertRefusal>
    requires { IsProper focus.now }
    ensures { IfOk result (IsOutcome (table.gen_sum focus.now args.now)) }
{
    let Some((n, inner)) = as_gen(focus.term.get()) else {
        return Ok(Outcome::NoPattern);
    };
    let Some((m, body)) = as_sum(inner) else {
        return Ok(Outcome::NoPattern);
    };
    if args.len() > 0 {
        return Ok(Outcome::WrongArgument);
    }
    let body = swapped(alloc, body)?;
    let rows = gen_of(alloc, n, body)?;
    let draft = sum_of(alloc, m, rows)?;
    Ok(drafted(alloc, draft))
}
