//! Sums of sums, and rows of sums.

ghost use Rattle.std.specs.Prelude.{[], IfOk};
ghost use Rattle.path_focus.specs.Focus.{IsProper};
ghost use Rattle.path_focus.specs.Outcome.{IsOutcome, Makes, without_arguments};
ghost use Rattle.rules_loop.specs.Table as table;
ghost use Rattle.term_tree.specs.Syntax as tree;

use crate::build::{is_same, row, summed};
use crate::patterns::as_add;
use affine_index::Aff;
use fact_list::CertRefusal;
use owned_values::two;
use path_focus::{Arg, Focus, Outcome};
use rule_parts::build::{add, copied, copied_form, index, made, raised_form, sub, sum};
use rule_parts::patterns::{as_index, as_sum};
use std::alloc::Global;
use term_tree::Term;

/// `sum i < n. a + b`
pub fn sum_add(alloc: Global, focus: &Focus, args: &[Arg]) -> Result<Outcome, CertRefusal>
    ensures { IfOk result (IsOutcome (table.sum_add focus.now args.now)) }
{
    let Some((n, body)) = as_sum(focus.term.get()) else {
        return Ok(Outcome::NoPattern);
    };
    let Some((a, b)) = as_add(body) else {
        return Ok(Outcome::NoPattern);
    };
    if args.len() > 0 {
        return Ok(Outcome::WrongArgument);
    }
    let (a, b) = two(summed(alloc, n, a), summed(alloc, n, b))?;
    let term = add(alloc, a, b)?;
    Ok(made(alloc, term))
}

/// One sum of both.
fn joined(alloc: Global, n: &Aff, a: &Term, b: &Term, args: &[Arg]) -> Result<Outcome, CertRefusal>
    ensures { IfOk result (IsOutcome (without_arguments args.now (Makes (tree.sum n.now (tree.add a.now b.now)) []))) }
{
    if args.len() > 0 {
        return Ok(Outcome::WrongArgument);
    }
    let (a, b) = two(copied(alloc, a), copied(alloc, b))?;
    let n = copied_form(alloc, n)?;
    let body = add(alloc, a, b)?;
    let term = sum(alloc, n, body)?;
    Ok(made(alloc, term))
}

/// `(sum i < n. a) + (sum i < n. b)`
pub fn add_sum(alloc: Global, focus: &Focus, args: &[Arg]) -> Result<Outcome, CertRefusal>
    ensures { IfOk result (IsOutcome (table.add_sum focus.now args.now)) }
{
    let Some((left, right)) = as_add(focus.term.get()) else {
        return Ok(Outcome::NoPattern);
    };
    let Some((n, a)) = as_sum(left) else {
        return Ok(Outcome::NoPattern);
    };
    let Some((m, b)) = as_sum(right) else {
        return Ok(Outcome::NoPattern);
    };
    if !is_same(n, m) {
        return Ok(Outcome::NoPattern);
    }
    joined(alloc, n, a, b, args)
}

/// `(sum i < n. b)[x]`
pub fn sum_index(alloc: Global, focus: &Focus, args: &[Arg]) -> Result<Outcome, CertRefusal>
    requires { IsProper focus.now }
    ensures { IfOk result (IsOutcome (table.sum_index focus.now args.now)) }
{
    let Some((array, x)) = as_index(focus.term.get()) else {
        return Ok(Outcome::NoPattern);
    };
    let Some((n, body)) = as_sum(array) else {
        return Ok(Outcome::NoPattern);
    };
    if args.len() > 0 {
        return Ok(Outcome::WrongArgument);
    }
    let body = copied(alloc, body)?;
    let x = raised_form(alloc, x)?;
    let row = index(alloc, body, x)?;
    let n = copied_form(alloc, n)?;
    let term = sum(alloc, n, row)?;
    Ok(made(alloc, term))
}

/// `(a + b)[x]`
fn add_row(alloc: Global, a: &Term, b: &Term, x: &Aff, args: &[Arg]) -> Result<Outcome, CertRefusal>
    ensures { IfOk result (IsOutcome (without_arguments args.now (Makes (tree.add (tree.index a.now x.now) (tree.index b.now x.now)) []))) }
{
    if args.len() > 0 {
        return Ok(Outcome::WrongArgument);
    }
    let (a, b) = two(row(alloc, a, x), row(alloc, b, x))?;
    let term = add(alloc, a, b)?;
    Ok(made(alloc, term))
}

/// `(a - b)[x]`
fn sub_row(alloc: Global, a: &Term, b: &Term, x: &Aff, args: &[Arg]) -> Result<Outcome, CertRefusal>
    ensures { IfOk result (IsOutcome (without_arguments args.now (Makes (tree.sub (tree.index a.now x.now) (tree.index b.now x.now)) []))) }
{
    if args.len() > 0 {
        return Ok(Outcome::WrongArgument);
    }
    let (a, b) = two(row(alloc, a, x), row(alloc, b, x))?;
    let term = sub(alloc, a, b)?;
    Ok(made(alloc, term))
}

/// `(a + b)[x]` or `(a - b)[x]`
pub fn add_index(alloc: Global, focus: &Focus, args: &[Arg]) -> Result<Outcome, CertRefusal>
    ensures { IfOk result (IsOutcome (table.add_index focus.now args.now)) }
{
    let Some((array, x)) = as_index(focus.term.get()) else {
        return Ok(Outcome::NoPattern);
    };
    match array {
        Term::Add(a, b) => add_row(alloc, a.get(), b.get(), x, args),
        Term::Sub(a, b) => sub_row(alloc, a.get(), b.get(), x, args),
        _ => Ok(Outcome::NoPattern),
    }
}
