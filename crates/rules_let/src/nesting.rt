//! New lets, and lets within lets.

ghost use Rattle.std.specs.Prelude.{IfOk};
ghost use Rattle.path_focus.specs.Focus.{IsProper};
ghost use Rattle.path_focus.specs.Outcome.{IsOutcome};
ghost use Rattle.rules_let.specs.Table as table;

use crate::build::{let_in, tensor_variable};
use crate::drafts::{let_of, under_outer_let};
use crate::patterns::as_let;
use fact_list::CertRefusal;
use path_focus::{Arg, Focus, Outcome};
use rule_parts::build::{copied, drafted, made};
use std::alloc::Global;

/// A term as the definition of a let
pub fn let_intro(alloc: Global, focus: &Focus, args: &[Arg]) -> Result<Outcome, CertRefusal>
    ensures { IfOk result (IsOutcome (table.let_intro focus.now args.now)) }
{
    if args.len() > 0 {
        return Ok(Outcome::WrongArgument);
    }
    let definition = copied(alloc, focus.term.get())?;
    let body = tensor_variable(alloc, 0)?;
    let term = let_in(alloc, definition, body)?;
    Ok(made(alloc, term))
}

/// `let t = (let u = a in b) in c`
pub fn let_let(alloc: Global, focus: &Focus, args: &[Arg]) -> Result<Outcome, CertRefusal>
    requires { IsProper focus.now }
    ensures { IfOk result (IsOutcome (table.let_let focus.now args.now)) }
{
    let Some((inside, body)) = as_let(focus.term.get()) else {
        return Ok(Outcome::NoPattern);
    };
    let Some((outer, inner)) = as_let(inside) else {
        return Ok(Outcome::NoPattern);
    };
    if args.len() > 0 {
        return Ok(Outcome::WrongArgument);
    }
    let moved = under_outer_let(alloc, body)?;
    let within = let_of(alloc, inner, moved)?;
    let draft = let_of(alloc, outer, within)?;
    Ok(drafted(alloc, draft))
}
