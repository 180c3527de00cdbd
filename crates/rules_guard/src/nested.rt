//! Guards within guards.

ghost use Rattle.std.specs.Prelude.{◌≡◌, ◌≤◌, ◌<◌, [], length, IfOk};
ghost use Rattle.path_focus.specs.Outcome.{IsOutcome, Makes};
ghost use Rattle.rule_parts.specs.Conds.{first_of, rest_of};
ghost use Rattle.rules_guard.specs.Table as table;
ghost use Rattle.term_tree.specs.Syntax as tree;

use crate::arguments::number_of;
use affine_index::Cond;
use fact_list::CertRefusal;
use path_focus::{Arg, Focus, Outcome};
use rule_parts::build::{copied, guard, made};
use rule_parts::conds::{first_of, joined, rest_of};
use rule_parts::patterns::as_guard;
use std::alloc::Global;
use term_tree::Term;

/// `guard c. guard d. e`
pub fn guard_merge(alloc: Global, focus: &Focus, args: &[Arg]) -> Result<Outcome, CertRefusal>
    ensures { IfOk result (IsOutcome (table.guard_merge focus.now args.now)) }
{
    let Some((outer, inner)) = as_guard(focus.term.get()) else {
        return Ok(Outcome::NoPattern);
    };
    let Some((more, body)) = as_guard(inner) else {
        return Ok(Outcome::NoPattern);
    };
    if args.len() > 0 {
        return Ok(Outcome::WrongArgument);
    }
    let body = copied(alloc, body)?;
    let both = joined(alloc, outer, more)?;
    let term = guard(alloc, both, body)?;
    Ok(made(alloc, term))
}

/// A guard of the first comparisons around one of the rest.
fn parted(alloc: Global, count: usize, cond: &Cond, body: &Term) -> Result<Outcome, CertRefusal>
    requires { count ≤ length cond.now.all }
    ensures { IfOk result (IsOutcome (Makes (tree.guard (first_of count cond.now) (tree.guard (rest_of count cond.now) body.now)) [])) }
{
    let body = copied(alloc, body)?;
    let rest = rest_of(alloc, count, cond)?;
    let inner = guard(alloc, rest, body)?;
    let first = first_of(alloc, count, cond)?;
    let term = guard(alloc, first, inner)?;
    Ok(made(alloc, term))
}

/// `guard c. e` with a number of comparisons
pub fn guard_part(alloc: Global, focus: &Focus, args: &[Arg]) -> Result<Outcome, CertRefusal>
    ensures { IfOk result (IsOutcome (table.guard_part focus.now args.now)) }
{
    let Some((cond, body)) = as_guard(focus.term.get()) else {
        return Ok(Outcome::NoPattern);
    };
    let Some(count) = number_of(args) else {
        return Ok(Outcome::WrongArgument);
    };
    if count < 1 || count >= cond.all.len() as u64 {
        return Ok(Outcome::WrongArgument);
    }
    parted(alloc, count as usize, cond, body)
}
