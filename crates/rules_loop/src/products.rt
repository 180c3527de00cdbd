//! Sums of products.

ghost use Rattle.std.specs.Prelude.{IfOk};
ghost use Rattle.path_focus.specs.Focus.{IsProper};
ghost use Rattle.path_focus.specs.Outcome.{IsOutcome};
ghost use Rattle.rules_loop.specs.Table as table;

use crate::beside::times_sum;
use binders::free_index;
use fact_list::CertRefusal;
use path_focus::making::lowered;
use path_focus::{Arg, Focus, Outcome};
use rule_parts::build::drafted;
use rule_parts::patterns::{as_mul, as_sum};
use std::alloc::Global;

/// `sum i < n. a * b`, where a is free of i
pub fn mul_out_of_sum(alloc: Global, focus: &Focus, args: &[Arg]) -> Result<Outcome, CertRefusal>
    requires { IsProper focus.now }
    ensures { IfOk result (IsOutcome (table.mul_out_of_sum focus.now args.now)) }
{
    let Some((n, body)) = as_sum(focus.term.get()) else {
        return Ok(Outcome::NoPattern);
    };
    let Some((a, b)) = as_mul(body) else {
        return Ok(Outcome::NoPattern);
    };
    if !free_index(a, 0) {
        return Ok(Outcome::NoPattern);
    }
    if args.len() > 0 {
        return Ok(Outcome::WrongArgument);
    }
    let factor = lowered(alloc, a)?;
    let draft = times_sum(alloc, factor, n, b)?;
    Ok(drafted(alloc, draft))
}
