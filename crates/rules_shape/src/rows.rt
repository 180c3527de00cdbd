//! Rows of tensors of which rows are cut, and of tensors with rows of others.

ghost use Rattle.std.specs.Prelude.{◌≡◌, ◌∷◌, [], IfOk, MatchResult};
ghost use Rattle.affine_index.specs.Sum.{difference_of, sum_of};
ghost use Rattle.path_focus.specs.Focus.{IsProper};
ghost use Rattle.path_focus.specs.Making.{owed, rest_below};
ghost use Rattle.path_focus.specs.Outcome.{IsDraft, IsOutcome};
ghost use Rattle.rules_shape.specs.Indices as table;
ghost use Rattle.term_tree.specs.Syntax as tree;

use affine_index::Aff;
use fact_list::{CertRefusal, Facts};
use path_focus::making::{below, condition, not_negative};
use path_focus::{Arg, Condition, Draft, Focus, Outcome, Rewrite};
use rule_parts::build::{copied, drafted, made, made_under};
use rule_parts::patterns::as_index;
use rules_shape_tensor::build::{if_normal, row};
use rules_shape_tensor::extents::first_extent;
use rules_shape_tensor::formed::{formed, index_with, whole};
use rules_shape_tensor::patterns::{as_concat, as_pad_l, as_pad_r, as_trunc_l, as_trunc_r};
use sqlite_items::Items;
use std::alloc::Global;
use term_tree::Term;

/// A copy of a term at x + a.
fn row_after(alloc: Global, array: &Term, x: &Aff, a: &Aff) -> Result<Draft, CertRefusal>
    ensures { IfOk result (IsDraft (tree.index array.now (sum_of x.now a.now))) }
{
    let array = whole(copied(alloc, array)?);
    let at = formed(x.add(alloc, a))?;
    index_with(alloc, array, at)
}

/// A copy of a term at x - a.
fn row_before(alloc: Global, array: &Term, x: &Aff, a: &Aff) -> Result<Draft, CertRefusal>
    ensures { IfOk result (IsDraft (tree.index array.now (difference_of x.now a.now))) }
{
    let array = whole(copied(alloc, array)?);
    let at = formed(x.sub(alloc, a))?;
    index_with(alloc, array, at)
}

fn alone(alloc: Global, condition: Condition) -> Result<Items<Condition>, CertRefusal>
    ensures { IfOk result (λ all. all ≡ condition ∷ []) }
{
    let mut all = Items::new(alloc);
    all.push(condition)?;
    Ok(all)
}

/// That an index is at least another.
fn at_least(alloc: Global, facts: &Facts, x: &Aff, n: &Aff) -> Result<Condition, CertRefusal>
    ensures { IfOk result (λ c. c ≡ owed facts.now (difference_of x.now n.now)) }
{
    let goal = if_normal(x.sub(alloc, n))?;
    condition(alloc, facts, goal)
}

/// `padr(a, e)[x]`
pub fn padr_index(alloc: Global, focus: &Focus, args: &[Arg]) -> Result<Outcome, CertRefusal>
    ensures { IfOk result (IsOutcome (table.padr_index focus.now args.now)) }
{
    let Some((array, x)) = as_index(focus.term.get()) else {
        return Ok(Outcome::NoPattern);
    };
    let Some((_, e)) = as_pad_r(array) else {
        return Ok(Outcome::NoPattern);
    };
    if args.len() > 0 {
        return Ok(Outcome::WrongArgument);
    }
    let term = row(alloc, e, x)?;
    Ok(made(alloc, term))
}

/// `truncr(a, e)[x]`
pub fn truncr_index(alloc: Global, focus: &Focus, args: &[Arg]) -> Result<Outcome, CertRefusal>
    requires { IsProper focus.now }
    ensures { IfOk result (IsOutcome (table.truncr_index focus.now args.now)) }
{
    let Some((array, x)) = as_index(focus.term.get()) else {
        return Ok(Outcome::NoPattern);
    };
    let Some((_, e)) = as_trunc_r(array) else {
        return Ok(Outcome::NoPattern);
    };
    let Some(m) = first_extent(alloc, &focus.shapes, array)? else {
        return Ok(Outcome::NoPattern);
    };
    if args.len() > 0 {
        return Ok(Outcome::WrongArgument);
    }
    let conditions = alone(alloc, below(alloc, &focus.facts, &m, x)?)?;
    let term = row(alloc, e, x)?;
    Ok(made_under(conditions, term))
}

/// `padl(a, e)[x]`
pub fn padl_index(alloc: Global, focus: &Focus, args: &[Arg]) -> Result<Outcome, CertRefusal>
    ensures { IfOk result (IsOutcome (table.padl_index focus.now args.now)) }
{
    let Some((array, x)) = as_index(focus.term.get()) else {
        return Ok(Outcome::NoPattern);
    };
    let Some((a, e)) = as_pad_l(array) else {
        return Ok(Outcome::NoPattern);
    };
    if args.len() > 0 {
        return Ok(Outcome::WrongArgument);
    }
    let draft = row_before(alloc, e, x, a)?;
    Ok(drafted(alloc, draft))
}

/// `truncl(a, e)[x]`
pub fn truncl_index(alloc: Global, focus: &Focus, args: &[Arg]) -> Result<Outcome, CertRefusal>
    ensures { IfOk result (IsOutcome (table.truncl_index focus.now args.now)) }
{
    let Some((array, x)) = as_index(focus.term.get()) else {
        return Ok(Outcome::NoPattern);
    };
    let Some((a, e)) = as_trunc_l(array) else {
        return Ok(Outcome::NoPattern);
    };
    if args.len() > 0 {
        return Ok(Outcome::WrongArgument);
    }
    let conditions = alone(alloc, not_negative(alloc, &focus.facts, x)?)?;
    let draft = row_after(alloc, e, x, a)?;
    Ok(Outcome::Made(Rewrite { conditions, draft }))
}

/// `concat(a, b)[x]` in a
pub fn concat_index_left(alloc: Global, focus: &Focus, args: &[Arg]) -> Result<Outcome, CertRefusal>
    requires { IsProper focus.now }
    ensures { IfOk result (IsOutcome (table.concat_index_left focus.now args.now)) }
{
    let Some((array, x)) = as_index(focus.term.get()) else {
        return Ok(Outcome::NoPattern);
    };
    let Some((a, _)) = as_concat(array) else {
        return Ok(Outcome::NoPattern);
    };
    let Some(n) = first_extent(alloc, &focus.shapes, a)? else {
        return Ok(Outcome::NoPattern);
    };
    if args.len() > 0 {
        return Ok(Outcome::WrongArgument);
    }
    let conditions = alone(alloc, below(alloc, &focus.facts, &n, x)?)?;
    let term = row(alloc, a, x)?;
    Ok(made_under(conditions, term))
}

/// `concat(a, b)[x]` in b
pub fn concat_index_right(
    alloc: Global,
    focus: &Focus,
    args: &[Arg],
) -> Result<Outcome, CertRefusal>
    requires { IsProper focus.now }
    ensures { IfOk result (IsOutcome (table.concat_index_right focus.now args.now)) }
{
    let Some((array, x)) = as_index(focus.term.get()) else {
        return Ok(Outcome::NoPattern);
    };
    let Some((a, b)) = as_concat(array) else {
        return Ok(Outcome::NoPattern);
    };
    let Some(n) = first_extent(alloc, &focus.shapes, a)? else {
        return Ok(Outcome::NoPattern);
    };
    if args.len() > 0 {
        return Ok(Outcome::WrongArgument);
    }
    let conditions = alone(alloc, at_least(alloc, &focus.facts, x, &n)?)?;
    let draft = row_before(alloc, b, x, &n)?;
    Ok(Outcome::Made(Rewrite { conditions, draft }))
}
