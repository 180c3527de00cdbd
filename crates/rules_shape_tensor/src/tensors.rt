//! Tensors that are transposed, padded, cut, joined or split twice.

ghost use Rattle.std.specs.Prelude.{◌≡◌, ◌<◌, ◌≤◌, IfOk};
ghost use Rattle.path_focus.specs.Focus.{IsProper};
ghost use Rattle.path_focus.specs.Making.{tile_rest};
ghost use Rattle.path_focus.specs.Outcome.{IsDraft, IsOutcome};
ghost use Rattle.rules_shape_tensor.specs.Tensors as table;
ghost use Rattle.term_tree.specs.Syntax as tree;

use crate::build::{concat, is_number, is_same, joined};
use crate::extents::{first_extent, second_extent};
use crate::formed::{formed, pad_with, whole};
use crate::patterns::{
    as_concat, as_flatten, as_pad_l, as_pad_r, as_split, as_transpose, as_trunc_l, as_trunc_r,
};
use affine_index::Aff;
use fact_list::CertRefusal;
use owned_values::two;
use path_focus::forms::tile_rest;
use path_focus::{Arg, Draft, Focus, Outcome};
use rule_parts::build::{copied, drafted, made};
use sqlite_items::Boxed;
use std::alloc::Global;
use term_tree::Term;

/// `transpose(transpose(e))`
pub fn transpose_twice(alloc: Global, focus: &Focus, args: &[Arg]) -> Result<Outcome, CertRefusal>
    ensures { IfOk result (IsOutcome (table.transpose_twice focus.now args.now)) }
{
    let Some(inner) = as_transpose(focus.term.get()) else {
        return Ok(Outcome::NoPattern);
    };
    let Some(e) = as_transpose(inner) else {
        return Ok(Outcome::NoPattern);
    };
    if args.len() > 0 {
        return Ok(Outcome::WrongArgument);
    }
    let term = copied(alloc, e)?;
    Ok(made(alloc, term))
}

/// `truncl(a, padl(a, e))`
pub fn pad_trunc_l(alloc: Global, focus: &Focus, args: &[Arg]) -> Result<Outcome, CertRefusal>
    ensures { IfOk result (IsOutcome (table.pad_trunc_l focus.now args.now)) }
{
    let Some((a, inner)) = as_trunc_l(focus.term.get()) else {
        return Ok(Outcome::NoPattern);
    };
    let Some((b, e)) = as_pad_l(inner) else {
        return Ok(Outcome::NoPattern);
    };
    if !is_same(a, b) {
        return Ok(Outcome::NoPattern);
    }
    if args.len() > 0 {
        return Ok(Outcome::WrongArgument);
    }
    let term = copied(alloc, e)?;
    Ok(made(alloc, term))
}

/// `truncr(a, padr(a, e))`
pub fn pad_trunc_r(alloc: Global, focus: &Focus, args: &[Arg]) -> Result<Outcome, CertRefusal>
    ensures { IfOk result (IsOutcome (table.pad_trunc_r focus.now args.now)) }
{
    let Some((a, inner)) = as_trunc_r(focus.term.get()) else {
        return Ok(Outcome::NoPattern);
    };
    let Some((b, e)) = as_pad_r(inner) else {
        return Ok(Outcome::NoPattern);
    };
    if !is_same(a, b) {
        return Ok(Outcome::NoPattern);
    }
    if args.len() > 0 {
        return Ok(Outcome::WrongArgument);
    }
    let term = copied(alloc, e)?;
    Ok(made(alloc, term))
}

/// The rows of the first, and behind them those of both others together.
fn grouped(alloc: Global, a: &Term, b: &Term, c: &Term) -> Result<Boxed<Term>, CertRefusal>
    ensures { IfOk result (λ e. e ≡ tree.concat a.now (tree.concat b.now c.now)) }
{
    let (a, rest) = two(copied(alloc, a), joined(alloc, b, c))?;
    concat(alloc, a, rest)
}

/// `concat(concat(a, b), c)`
pub fn concat_assoc(alloc: Global, focus: &Focus, args: &[Arg]) -> Result<Outcome, CertRefusal>
    ensures { IfOk result (IsOutcome (table.concat_assoc focus.now args.now)) }
{
    let Some((inner, c)) = as_concat(focus.term.get()) else {
        return Ok(Outcome::NoPattern);
    };
    let Some((a, b)) = as_concat(inner) else {
        return Ok(Outcome::NoPattern);
    };
    if args.len() > 0 {
        return Ok(Outcome::WrongArgument);
    }
    let term = grouped(alloc, a, b, c)?;
    Ok(made(alloc, term))
}

/// `split(k, flatten(e))`
pub fn split_flatten(alloc: Global, focus: &Focus, args: &[Arg]) -> Result<Outcome, CertRefusal>
    requires { IsProper focus.now }
    ensures { IfOk result (IsOutcome (table.split_flatten focus.now args.now)) }
{
    let Some((k, inner)) = as_split(focus.term.get()) else {
        return Ok(Outcome::NoPattern);
    };
    let Some(e) = as_flatten(inner) else {
        return Ok(Outcome::NoPattern);
    };
    let Some(m) = second_extent(alloc, &focus.shapes, e)? else {
        return Ok(Outcome::NoPattern);
    };
    if !is_number(alloc, &m, k)? {
        return Ok(Outcome::NoPattern);
    }
    if args.len() > 0 {
        return Ok(Outcome::WrongArgument);
    }
    let term = copied(alloc, e)?;
    Ok(made(alloc, term))
}

/// A copy of a term of n rows, filled up to whole chunks of k rows.
fn filled_up(alloc: Global, k: u32, n: &Aff, e: &Term) -> Result<Draft, CertRefusal>
    requires positive { 0 < k }
    requires limit { k ≤ 2147483647 }
    ensures { IfOk result (IsDraft (tree.pad_r (tile_rest k n.now) e.now)) }
{
    let rest = formed(tile_rest(alloc, k, n))?;
    let e = whole(copied(alloc, e)?);
    pad_with(alloc, rest, e)
}

/// `flatten(split(k, e))`
pub fn flatten_split(alloc: Global, focus: &Focus, args: &[Arg]) -> Result<Outcome, CertRefusal>
    requires { IsProper focus.now }
    ensures { IfOk result (IsOutcome (table.flatten_split focus.now args.now)) }
{
    let Some(inner) = as_flatten(focus.term.get()) else {
        return Ok(Outcome::NoPattern);
    };
    let Some((k, e)) = as_split(inner) else {
        return Ok(Outcome::NoPattern);
    };
    let Some(n) = first_extent(alloc, &focus.shapes, e)? else {
        return Ok(Outcome::NoPattern);
    };
    if args.len() > 0 {
        return Ok(Outcome::WrongArgument);
    }
    let draft = filled_up(alloc, k, &n, e)?;
    Ok(drafted(alloc, draft))
}
