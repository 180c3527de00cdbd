//! Gens that are split, and gens of one row that are flattened.

ghost use Rattle.std.specs.Prelude.{◌≡◌, ◌<◌, ◌≤◌, ◌∷◌, [], pos, IfOk, IsTrue};
ghost use Rattle.affine_index.specs.Form.{literal_form, var_form};
ghost use Rattle.affine_index.specs.Normal.{coefficient_fits};
ghost use Rattle.binders.specs.Answers.{IsWithinReach};
ghost use Rattle.binders.specs.PlainMaps.{put_index_reach};
ghost use Rattle.path_focus.specs.Focus.{IsProper};
ghost use Rattle.path_focus.specs.Making.{rest_below};
ghost use Rattle.path_focus.specs.Outcome.{IsDraft, IsOutcome};
ghost use Rattle.rules_loop.specs.Tilings.{guarded, in_tiles, tile_place};
ghost use Rattle.rules_shape_gen.specs.Formed.{IsFormed};
ghost use Rattle.rules_shape_gen.specs.Table as table;
ghost use Rattle.term_tree.specs.Counts.{node_depth};
ghost use Rattle.term_tree.specs.Shape.{same_form, tiles};
ghost use Rattle.term_tree.specs.Syntax as tree;

use crate::formed::{FormDraft, formed, gen_with, guard_with};
use crate::patterns::{as_flatten, as_split};
use affine_index::Aff;
use fact_list::CertRefusal;
use path_focus::forms::{in_tile, rest_below};
use path_focus::making::{lowered, with_indices};
use path_focus::{Arg, Draft, Focus, Outcome};
use rule_parts::build::drafted;
use rule_parts::patterns::as_gen;
use shape_rules::extents::tiles;
use sqlite_items::Items;
use std::alloc::Global;
use term_tree::Term;

fn variable(alloc: Global, var: u32) -> Result<Aff, CertRefusal>
    ensures { IfOk result (λ x. x ≡ var_form var) }
{
    match Aff::var(alloc, var) {
        Ok(form) => Ok(form),
        Err(_) => Err(CertRefusal::Memory),
    }
}

/// k*p + q, whose numbers are within the limits: only memory may be wanting.
fn place(alloc: Global, k: u32) -> Result<Aff, CertRefusal>
    ensures { IfOk result (λ x. x ≡ tile_place k) }
{
    let p = variable(alloc, 1)?;
    let q = variable(alloc, 0)?;
    match in_tile(alloc, k, &p, &q) {
        Ok(form) => Ok(form),
        Err(_) => Err(CertRefusal::Memory),
    }
}

fn place_alone(alloc: Global, k: u32) -> Result<Items<Aff>, CertRefusal>
    ensures { IfOk result (λ by. by ≡ tile_place k ∷ []) }
{
    let mut by = Items::new(alloc);
    by.push(place(alloc, k)?)?;
    Ok(by)
}

/// A body with k*p + q for its variable.
fn put_place(alloc: Global, k: u32, body: &Term) -> Result<Draft, CertRefusal>
    requires deep { node_depth body.now ≤ 2147483647 }
    requires within { IsWithinReach (put_index_reach (tile_place k ∷ []) 2) body.now }
    ensures { IfOk result (IsDraft (in_tiles k body.now)) }
{
    let by = place_alone(alloc, k)?;
    with_indices(alloc, by, 2, body)
}

/// n - 1 - (k*p + q)
fn rest(alloc: Global, k: u32, n: &Aff) -> Result<FormDraft, CertRefusal>
    ensures { IfOk result (IsFormed (rest_below n.now (tile_place k))) }
{
    let x = place(alloc, k)?;
    formed(rest_below(alloc, n, &x))
}

/// A body in tiles, which is 0 from row n on.
fn guarded(alloc: Global, k: u32, n: &Aff, body: &Term) -> Result<Draft, CertRefusal>
    requires deep { node_depth body.now ≤ 2147483647 }
    requires within { IsWithinReach (put_index_reach (tile_place k ∷ []) 2) body.now }
    ensures { IfOk result (IsDraft (guarded k n.now body.now)) }
{
    let until = rest(alloc, k, n)?;
    let body = put_place(alloc, k, body)?;
    guard_with(alloc, until, body)
}

fn width(alloc: Global, k: u32) -> Result<FormDraft, CertRefusal>
    requires { k ≤ 2147483647 }
    ensures { IfOk result (IsFormed (literal_form (pos k))) }
{
    formed(Aff::literal(alloc, i64::from(k)))
}

/// The rows in tiles of k.
fn tile_rows(alloc: Global, k: u32, n: &Aff, body: &Term) -> Result<Draft, CertRefusal>
    requires positive { 0 < k }
    requires limit { k ≤ 2147483647 }
    requires deep { node_depth body.now ≤ 2147483647 }
    requires within { IsWithinReach (put_index_reach (tile_place k ∷ []) 2) body.now }
    ensures { IfOk result (IsDraft (tree.gen (tiles k n.now) (tree.gen (literal_form (pos k)) (guarded k n.now body.now)))) }
{
    let count = formed(tiles(alloc, k, n))?;
    let width = width(alloc, k)?;
    let body = guarded(alloc, k, n, body)?;
    let rows = gen_with(alloc, width, body)?;
    gen_with(alloc, count, rows)
}

/// `split(k, gen i < n. b)`
pub fn split_of_gen(alloc: Global, focus: &Focus, args: &[Arg]) -> Result<Outcome, CertRefusal>
    requires { IsProper focus.now }
    ensures { IfOk result (IsOutcome (table.split_of_gen focus.now args.now)) }
{
    let Some((k, e)) = as_split(focus.term.get()) else {
        return Ok(Outcome::NoPattern);
    };
    let Some((n, body)) = as_gen(e) else {
        return Ok(Outcome::NoPattern);
    };
    if args.len() > 0 {
        return Ok(Outcome::WrongArgument);
    }
    let draft = tile_rows(alloc, k, n, body)?;
    Ok(drafted(alloc, draft))
}

fn literal(alloc: Global, number: i64) -> Result<Aff, CertRefusal>
    requires { IsTrue (coefficient_fits number) }
    ensures { IfOk result (λ x. x ≡ literal_form number) }
{
    match Aff::literal(alloc, number) {
        Ok(form) => Ok(form),
        Err(_) => Err(CertRefusal::Memory),
    }
}

#[tactic(auto, using(rules_loop::proofs::PatternLaws::same_is))]
fn is_same(x: &Aff, y: &Aff) -> bool
    ensures { result ≡ same_form x.now y.now }
{
    x.same(y)
}

fn is_one(alloc: Global, n: &Aff) -> Result<bool, CertRefusal>
    ensures { IfOk result (λ b. b ≡ same_form n.now (literal_form (pos 1))) }
{
    let one = literal(alloc, 1)?;
    Ok(is_same(n, &one))
}

/// `flatten(gen i < 1. b)`
pub fn flatten_of_gen(alloc: Global, focus: &Focus, args: &[Arg]) -> Result<Outcome, CertRefusal>
    requires { IsProper focus.now }
    ensures { IfOk result (IsOutcome (table.flatten_of_gen focus.now args.now)) }
{
    let Some(e) = as_flatten(focus.term.get()) else {
        return Ok(Outcome::NoPattern);
    };
    let Some((n, body)) = as_gen(e) else {
        return Ok(Outcome::NoPattern);
    };
    if !is_one(alloc, n)? {
        return Ok(Outcome::NoPattern);
    }
    if args.len() > 0 {
        return Ok(Outcome::WrongArgument);
    }
    let draft = lowered(alloc, body)?;
    Ok(drafted(alloc, draft))
}
