//! Rows of tensors that are transposed or split, as gens.

ghost use Rattle.std.specs.Prelude.{◌≡◌, ◌≤◌, pos, IfOk, IsTrue};
ghost use Rattle.affine_index.specs.Form.{literal_form, var_form};
ghost use Rattle.affine_index.specs.Put.{numbers_fit, shifted};
ghost use Rattle.binders.specs.Answers.{IsWithinReach};
ghost use Rattle.binders.specs.PlainMaps.{shift_reach};
ghost use Rattle.path_focus.specs.Focus.{IsProper};
ghost use Rattle.path_focus.specs.Making.{in_tile, raised};
ghost use Rattle.path_focus.specs.Outcome.{IsDraft, IsOutcome};
ghost use Rattle.rules_shape_tensor.specs.Formed.{IsFormed};
ghost use Rattle.rules_shape_tensor.specs.Rows as table;
ghost use Rattle.term_tree.specs.Counts.{node_count, node_depth};
ghost use Rattle.term_tree.specs.Syntax as tree;
ghost use Rattle.term_tree.specs.declared.term.Term as spec;

use crate::build::{number, var};
use crate::extents::first_extent;
use crate::formed::{FormDraft, formed, gen_with, index_with, whole};
use crate::patterns::{as_split, as_transpose};
use affine_index::Aff;
use fact_list::CertRefusal;
use path_focus::forms::in_tile;
use path_focus::making::raised;
use path_focus::{Arg, Draft, Focus, Outcome};
use rule_parts::build::{drafted, generated, index, made, raised_form};
use rule_parts::patterns::as_index;
use sqlite_items::Boxed;
use std::alloc::Global;
use term_tree::Term;

/// Row j of a copy of a term, with j the variable of a gen around it.
fn turned_row(alloc: Global, e: &Term) -> Result<Boxed<Term>, CertRefusal>
    requires deep { node_depth e.now ≤ 2147483647 }
    requires small { node_count e.now ≤ 20000 }
    requires within { IsWithinReach (shift_reach 1 0) e.now }
    ensures { IfOk result (λ t. t ≡ tree.index (raised e.now) (var_form 0)) }
{
    let j = var(alloc, 0)?;
    let array = raised(alloc, e)?;
    index(alloc, array, j)
}

/// The gen of place x of each of n rows.
fn column(alloc: Global, n: Aff, e: &Term, x: &Aff) -> Result<Boxed<Term>, CertRefusal>
    requires deep { node_depth e.now ≤ 2147483647 }
    requires small { node_count e.now ≤ 20000 }
    requires within { IsWithinReach (shift_reach 1 0) e.now }
    requires fits { IsTrue (numbers_fit 0 1 x.now) }
    ensures { IfOk result (λ t. t ≡ tree.gen n (tree.index (tree.index (raised e.now) (var_form 0)) (shifted 0 1 x.now))) }
{
    let x = raised_form(alloc, x)?;
    let row = turned_row(alloc, e)?;
    let place = index(alloc, row, x)?;
    generated(alloc, n, place)
}

/// `transpose(e)[x]`
pub fn transpose_index(alloc: Global, focus: &Focus, args: &[Arg]) -> Result<Outcome, CertRefusal>
    requires { IsProper focus.now }
    ensures { IfOk result (IsOutcome (table.transpose_index focus.now args.now)) }
{
    let Some((array, x)) = as_index(focus.term.get()) else {
        return Ok(Outcome::NoPattern);
    };
    let Some(e) = as_transpose(array) else {
        return Ok(Outcome::NoPattern);
    };
    let Some(n) = first_extent(alloc, &focus.shapes, e)? else {
        return Ok(Outcome::NoPattern);
    };
    if args.len() > 0 {
        return Ok(Outcome::WrongArgument);
    }
    let term = column(alloc, n, e, x)?;
    Ok(made(alloc, term))
}

/// k*x + j, with j the variable of a gen around it.
fn place(alloc: Global, k: u32, x: &Aff) -> Result<FormDraft, CertRefusal>
    requires { IsTrue (numbers_fit 0 1 x.now) }
    ensures { IfOk result (IsFormed (in_tile k (shifted 0 1 x.now) (var_form 0))) }
{
    let x = raised_form(alloc, x)?;
    let j = var(alloc, 0)?;
    formed(in_tile(alloc, k, &x, &j))
}

/// A copy of a term at k*x + j.
fn turned_place(alloc: Global, k: u32, e: &Term, x: &Aff) -> Result<Draft, CertRefusal>
    requires deep { node_depth e.now ≤ 2147483647 }
    requires small { node_count e.now ≤ 20000 }
    requires within { IsWithinReach (shift_reach 1 0) e.now }
    requires fits { IsTrue (numbers_fit 0 1 x.now) }
    ensures { IfOk result (IsDraft (tree.index (raised e.now) (in_tile k (shifted 0 1 x.now) (var_form 0)))) }
{
    let at = place(alloc, k, x)?;
    let array = whole(raised(alloc, e)?);
    index_with(alloc, array, at)
}

/// The gen of k rows.
fn chunk(alloc: Global, k: u32, row: Draft) -> Result<Draft, CertRefusal>
    ensures { (e : spec.Term) → IsDraft e row → IfOk result (IsDraft (tree.gen (literal_form (pos k)) e)) }
{
    let n = number(alloc, k)?;
    gen_with(alloc, n, row)
}

/// `split(k, e)[x]`
pub fn split_index(alloc: Global, focus: &Focus, args: &[Arg]) -> Result<Outcome, CertRefusal>
    requires { IsProper focus.now }
    ensures { IfOk result (IsOutcome (table.split_index focus.now args.now)) }
{
    let Some((array, x)) = as_index(focus.term.get()) else {
        return Ok(Outcome::NoPattern);
    };
    let Some((k, e)) = as_split(array) else {
        return Ok(Outcome::NoPattern);
    };
    if args.len() > 0 {
        return Ok(Outcome::WrongArgument);
    }
    let row = turned_place(alloc, k, e, x)?;
    let draft = chunk(alloc, k, row)?;
    Ok(drafted(alloc, draft))
}
