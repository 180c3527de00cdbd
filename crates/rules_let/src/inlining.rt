//! Definitions put for the variables of their lets, and variables for definitions.

ghost use Rattle.std.specs.Prelude.{IfOk};
ghost use Rattle.path_focus.specs.Focus.{IsProper};
ghost use Rattle.path_focus.specs.Outcome.{IsOutcome};
ghost use Rattle.rules_let.specs.Table as table;

use crate::arguments::{is_definition, variable_of};
use crate::build::tensor_variable;
use crate::drafts::inlined;
use crate::patterns::as_let;
use binders::free_tensor;
use fact_list::CertRefusal;
use path_focus::{Arg, Focus, Outcome};
use rule_parts::build::{drafted, made};
use std::alloc::Global;

/// `let t = a in b`
pub fn let_inline(alloc: Global, focus: &Focus, args: &[Arg]) -> Result<Outcome, CertRefusal>
    requires { IsProper focus.now }
    ensures { IfOk result (IsOutcome (table.let_inline focus.now args.now)) }
{
    let Some((definition, body)) = as_let(focus.term.get()) else {
        return Ok(Outcome::NoPattern);
    };
    if args.len() > 0 {
        return Ok(Outcome::WrongArgument);
    }
    let draft = inlined(alloc, definition, body)?;
    Ok(drafted(alloc, draft))
}

/// `let t = a in b`, where b is free of t
pub fn let_drop(alloc: Global, focus: &Focus, args: &[Arg]) -> Result<Outcome, CertRefusal>
    requires { IsProper focus.now }
    ensures { IfOk result (IsOutcome (table.let_drop focus.now args.now)) }
{
    let Some((definition, body)) = as_let(focus.term.get()) else {
        return Ok(Outcome::NoPattern);
    };
    if !free_tensor(body, 0) {
        return Ok(Outcome::NoPattern);
    }
    if args.len() > 0 {
        return Ok(Outcome::WrongArgument);
    }
    let draft = inlined(alloc, definition, body)?;
    Ok(drafted(alloc, draft))
}

/// A term that is the definition of a let around it
pub fn let_use(alloc: Global, focus: &Focus, args: &[Arg]) -> Result<Outcome, CertRefusal>
    ensures { IfOk result (IsOutcome (table.let_use focus.now args.now)) }
{
    let Some(var) = variable_of(args) else {
        return Ok(Outcome::WrongArgument);
    };
    if !is_definition(var, focus.term.get(), focus.bound.as_slice()) {
        return Ok(Outcome::WrongArgument);
    }
    let term = tensor_variable(alloc, var)?;
    Ok(made(alloc, term))
}
