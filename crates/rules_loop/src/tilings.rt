//! Gens and sums in tiles of k turns.

ghost use Rattle.std.specs.Prelude.{◌≡◌, ◌≤◌, ◌∷◌, [], ℕ, pos, IfOk, MatchOption};
ghost use Rattle.affine_index.specs.Form.{literal_form};
ghost use Rattle.affine_index.specs.declared.form.Items as form;
ghost use Rattle.binders.specs.Answers.{IsWithinReach};
ghost use Rattle.binders.specs.PlainMaps.{put_index_reach};
ghost use Rattle.path_focus.specs.Focus.{IsProper};
ghost use Rattle.path_focus.specs.Making.{rest_below, tile_rest};
ghost use Rattle.path_focus.specs.Outcome.{IsDraft, IsOutcome, Meant, Unfit};
ghost use Rattle.rules_loop.specs.Formed.{IsFormed};
ghost use Rattle.rules_loop.specs.Tilings as table;
ghost use Rattle.rules_loop.specs.Tilings.{IsTile};
ghost use Rattle.term_tree.specs.Counts.{node_depth};
ghost use Rattle.term_tree.specs.Syntax as tree;
ghost use Rattle.term_tree.specs.declared.term.Term as spec;

use crate::drafts::{flatten_of, var};
use crate::formed::{FormDraft, formed, gen_with, guard_with, sum_with, trunc_with};
use affine_index::Aff;
use fact_list::CertRefusal;
use path_focus::forms::{in_tile, rest_below, tile_rest};
use path_focus::making::with_indices;
use path_focus::{Arg, Draft, Focus, Outcome};
use rule_parts::build::drafted;
use rule_parts::patterns::{as_gen, as_sum};
use shape_rules::extents::tiles;
use sqlite_items::Items;
use std::alloc::Global;
use term_tree::Term;

/// The most turns in a tile.
const MOST_TURNS: i64 = 2_147_483_647;

/// The number of turns in a tile that a form is.
pub fn tile_size(x: &Aff) -> Option<u32>
    ensures { result ≡ table.tile_of x.now }
{
    let items = x.items();
    if !items.terms.is_empty() {
        return None;
    }
    let turns = items.constant;
    if turns < 1 || turns > MOST_TURNS {
        return None;
    }
    Some(turns as u32)
}

/// The number of turns in a tile as the one argument.
pub fn tile_argument(args: &[Arg]) -> Option<u32>
    ensures { MatchOption result ((f : ℕ → Meant) → table.with_tile args.now f ≡ Unfit) (λ k. IsTile k × ((f : ℕ → Meant) → table.with_tile args.now f ≡ f k)) }
{
    match args {
        [Arg::Ix(x)] => tile_size(x),
        _ => None,
    }
}

/// k*p + q, whose numbers are within the limits: only memory may be wanting.
fn place(alloc: Global, k: u32) -> Result<Aff, CertRefusal>
    ensures { IfOk result (λ x. x ≡ table.tile_place k) }
{
    let p = var(alloc, 1)?;
    let q = var(alloc, 0)?;
    match in_tile(alloc, k, &p, &q) {
        Ok(form) => Ok(form),
        Err(_) => Err(CertRefusal::Memory),
    }
}

fn place_alone(alloc: Global, k: u32) -> Result<Items<Aff>, CertRefusal>
    ensures { IfOk result (λ by. by ≡ table.tile_place k ∷ []) }
{
    let mut by = Items::new(alloc);
    by.push(place(alloc, k)?)?;
    Ok(by)
}

/// A body with k*p + q for its variable.
pub fn in_tiles(alloc: Global, k: u32, body: &Term) -> Result<Draft, CertRefusal>
    requires deep { node_depth body.now ≤ 2147483647 }
    requires within { IsWithinReach (put_index_reach (table.tile_place k ∷ []) 2) body.now }
    ensures { IfOk result (IsDraft (table.in_tiles k body.now)) }
{
    let by = place_alone(alloc, k)?;
    with_indices(alloc, by, 2, body)
}

/// n - 1 - (k*p + q)
fn rest(alloc: Global, k: u32, n: &Aff) -> Result<FormDraft, CertRefusal>
    ensures { IfOk result (IsFormed (rest_below n.now (table.tile_place k))) }
{
    let x = place(alloc, k)?;
    formed(rest_below(alloc, n, &x))
}

/// A body in tiles, which is 0 from turn n on.
fn guarded(alloc: Global, k: u32, n: &Aff, body: &Term) -> Result<Draft, CertRefusal>
    requires deep { node_depth body.now ≤ 2147483647 }
    requires within { IsWithinReach (put_index_reach (table.tile_place k ∷ []) 2) body.now }
    ensures { IfOk result (IsDraft (table.guarded k n.now body.now)) }
{
    let body = in_tiles(alloc, k, body)?;
    let rest = rest(alloc, k, n)?;
    guard_with(alloc, rest, body)
}

fn width(alloc: Global, k: u32) -> Result<FormDraft, CertRefusal>
    requires { k ≤ 2147483647 }
    ensures { IfOk result (IsFormed (literal_form (pos k))) }
{
    formed(Aff::literal(alloc, i64::from(k)))
}

/// Gens of so many tiles of k.
pub fn tile_gens(alloc: Global, k: u32, count: FormDraft, body: Draft) -> Result<Draft, CertRefusal>
    requires { k ≤ 2147483647 }
    ensures { (x : form.Items) (e : spec.Term) → IsFormed x count → IsDraft e body → IfOk result (IsDraft (tree.gen x (tree.gen (literal_form (pos k)) e))) }
{
    let width = width(alloc, k)?;
    let rows = gen_with(alloc, width, body)?;
    gen_with(alloc, count, rows)
}

/// Sums of so many tiles of k.
fn tile_sums(alloc: Global, k: u32, count: FormDraft, body: Draft) -> Result<Draft, CertRefusal>
    requires { k ≤ 2147483647 }
    ensures { (x : form.Items) (e : spec.Term) → IsFormed x count → IsDraft e body → IfOk result (IsDraft (tree.sum x (tree.sum (literal_form (pos k)) e))) }
{
    let width = width(alloc, k)?;
    let rows = sum_with(alloc, width, body)?;
    sum_with(alloc, count, rows)
}

/// The rows of tiles, without those past n.
fn cut_back(alloc: Global, k: u32, n: &Aff, rows: Draft) -> Result<Draft, CertRefusal>
    requires { IsTile k }
    ensures { (e : spec.Term) → IsDraft e rows → IfOk result (IsDraft (tree.trunc_r (tile_rest k n.now) (tree.flatten e))) }
{
    let rows = flatten_of(alloc, rows)?;
    let rest = formed(tile_rest(alloc, k, n))?;
    trunc_with(alloc, rest, rows)
}

/// `gen i < n. b` in tiles of k
pub fn split_gen(alloc: Global, focus: &Focus, args: &[Arg]) -> Result<Outcome, CertRefusal>
    requires { IsProper focus.now }
    ensures { IfOk result (IsOutcome (table.split_gen focus.now args.now)) }
{
    let Some((n, body)) = as_gen(focus.term.get()) else {
        return Ok(Outcome::NoPattern);
    };
    let Some(k) = tile_argument(args) else {
        return Ok(Outcome::WrongArgument);
    };
    let body = guarded(alloc, k, n, body)?;
    let count = formed(tiles(alloc, k, n))?;
    let rows = tile_gens(alloc, k, count, body)?;
    let draft = cut_back(alloc, k, n, rows)?;
    Ok(drafted(alloc, draft))
}

/// `sum i < n. b` in tiles of k
pub fn split_sum(alloc: Global, focus: &Focus, args: &[Arg]) -> Result<Outcome, CertRefusal>
    requires { IsProper focus.now }
    ensures { IfOk result (IsOutcome (table.split_sum focus.now args.now)) }
{
    let Some((n, body)) = as_sum(focus.term.get()) else {
        return Ok(Outcome::NoPattern);
    };
    let Some(k) = tile_argument(args) else {
        return Ok(Outcome::WrongArgument);
    };
    let body = guarded(alloc, k, n, body)?;
    let count = formed(tiles(alloc, k, n))?;
    let draft = tile_sums(alloc, k, count, body)?;
    Ok(drafted(alloc, draft))
}
