//! Guards of conditions that are shown.

ghost use Rattle.std.specs.Prelude.{IfOk};
ghost use Rattle.path_focus.specs.Outcome.{IsOutcome};
ghost use Rattle.rules_guard.specs.Table as table;

use crate::arguments::cond_of;
use crate::words::guarded;
use fact_list::CertRefusal;
use path_focus::{Arg, Focus, Outcome};
use rule_parts::build::{copied, made_under};
use rule_parts::goals::{cond_scoped, goals, vars_at};
use rule_parts::patterns::as_guard;
use std::alloc::Global;

/// A term under a condition that is shown.
pub fn guard_intro(alloc: Global, focus: &Focus, args: &[Arg]) -> Result<Outcome, CertRefusal>
    ensures { IfOk result (IsOutcome (table.guard_intro focus.now args.now)) }
{
    let Some(cond) = cond_of(args) else {
        return Ok(Outcome::WrongArgument);
    };
    let vars = vars_at(focus.facts.path.as_slice());
    if !cond_scoped(cond, focus.facts.sizes.len(), vars) {
        return Ok(Outcome::WrongArgument);
    }
    let term = guarded(alloc, cond, focus.term.get())?;
    let shown = goals(alloc, &focus.facts, cond.all.as_slice())?;
    Ok(made_under(shown, term))
}

/// `guard c. e`, where c is shown
pub fn guard_elim(alloc: Global, focus: &Focus, args: &[Arg]) -> Result<Outcome, CertRefusal>
    ensures { IfOk result (IsOutcome (table.guard_elim focus.now args.now)) }
{
    let Some((cond, body)) = as_guard(focus.term.get()) else {
        return Ok(Outcome::NoPattern);
    };
    if args.len() > 0 {
        return Ok(Outcome::WrongArgument);
    }
    let conditions = goals(alloc, &focus.facts, cond.all.as_slice())?;
    let term = copied(alloc, body)?;
    Ok(made_under(conditions, term))
}
