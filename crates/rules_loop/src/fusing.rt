//! Gens in tiles that hold their rows exactly, and gens of gens as one.

ghost use Rattle.std.specs.Prelude.{◌≡◌, ◌<◌, ◌≤◌, ◌∷◌, [], pos, IfOk};
ghost use Rattle.std.specs.Int.{int_rem_euclid};
ghost use Rattle.std.specs.Ordering.{int_eq};
ghost use Rattle.affine_index.specs.Form.{var_form};
ghost use Rattle.affine_index.specs.Quotient.{quotient_of, remainder_of};
ghost use Rattle.affine_index.specs.Sum.{scaled};
ghost use Rattle.binders.specs.Answers.{IsWithinReach};
ghost use Rattle.binders.specs.PlainMaps.{put_index_reach};
ghost use Rattle.path_focus.specs.Focus.{IsProper};
ghost use Rattle.path_focus.specs.Outcome.{IsDraft, IsOutcome};
ghost use Rattle.rules_loop.specs.Formed.{IsFormed};
ghost use Rattle.rules_loop.specs.Tilings as table;
ghost use Rattle.rules_loop.specs.Tilings.{IsTile};
ghost use Rattle.term_tree.specs.Counts.{node_depth};

use crate::drafts::{flatten_of, var};
use crate::formed::{FormDraft, formed, gen_with};
use crate::patterns::as_flatten;
use crate::tilings::{in_tiles, tile_argument, tile_gens, tile_size};
use affine_index::{Aff, Atom, Item};
use fact_list::CertRefusal;
use path_focus::making::with_indices;
use path_focus::{Arg, Draft, Focus, Outcome};
use rule_parts::build::drafted;
use rule_parts::patterns::as_gen;
use sqlite_items::Items;
use std::alloc::Global;
use term_tree::Term;

fn divides_number(k: u32, number: i64) -> bool
    requires { 0 < k }
    ensures { result ≡ int_eq (int_rem_euclid number (pos k)) (pos 0) }
{
    i128::from(number).rem_euclid(i128::from(k)) == 0
}

fn divides_terms(k: u32, terms: &[Item<Atom>]) -> bool
    requires { 0 < k }
    ensures { result ≡ table.divides_terms k terms.now }
{
    for term in terms {
        if !divides_number(k, term.coefficient) {
            return false;
        }
    }
    true
}

/// Whether a number divides each coefficient and the constant of a form.
fn divides(k: u32, n: &Aff) -> bool
    requires { 0 < k }
    ensures { result ≡ table.divides k n.now }
{
    let items = n.items();
    divides_terms(k, items.terms.as_slice()) && divides_number(k, items.constant)
}

/// `gen i < n. b` in tiles of k, which divides n
pub fn split_gen_exact(alloc: Global, focus: &Focus, args: &[Arg]) -> Result<Outcome, CertRefusal>
    requires { IsProper focus.now }
    ensures { IfOk result (IsOutcome (table.split_gen_exact focus.now args.now)) }
{
    let Some((n, body)) = as_gen(focus.term.get()) else {
        return Ok(Outcome::NoPattern);
    };
    let Some(k) = tile_argument(args) else {
        return Ok(Outcome::WrongArgument);
    };
    if !divides(k, n) {
        return Ok(Outcome::WrongArgument);
    }
    let body = in_tiles(alloc, k, body)?;
    let count = formed(n.div(alloc, k))?;
    let rows = tile_gens(alloc, k, count, body)?;
    let draft = flatten_of(alloc, rows)?;
    Ok(drafted(alloc, draft))
}

/// p/k, whose numbers are within the limits: only memory may be wanting.
fn part(alloc: Global, k: u32, p: &Aff) -> Result<Aff, CertRefusal>
    requires { IsTile k }
    ensures { IfOk result (λ x. x ≡ quotient_of p.now k) }
{
    match p.div(alloc, k) {
        Ok(form) => Ok(form),
        Err(_) => Err(CertRefusal::Memory),
    }
}

/// p%k, likewise.
fn left_over(alloc: Global, k: u32, p: &Aff) -> Result<Aff, CertRefusal>
    requires { IsTile k }
    ensures { IfOk result (λ x. x ≡ remainder_of p.now k) }
{
    match p.rem(alloc, k) {
        Ok(form) => Ok(form),
        Err(_) => Err(CertRefusal::Memory),
    }
}

fn parts(alloc: Global, k: u32) -> Result<Items<Aff>, CertRefusal>
    requires { IsTile k }
    ensures { IfOk result (λ by. by ≡ remainder_of (var_form 0) k ∷ quotient_of (var_form 0) k ∷ []) }
{
    let p = var(alloc, 0)?;
    let mut by = Items::new(alloc);
    by.push(left_over(alloc, k, &p)?)?;
    by.push(part(alloc, k, &p)?)?;
    Ok(by)
}

/// A body of two gens, the inner one of k turns, as that of one.
fn fused(alloc: Global, k: u32, body: &Term) -> Result<Draft, CertRefusal>
    requires tile { IsTile k }
    requires deep { node_depth body.now ≤ 2147483647 }
    requires within { IsWithinReach (put_index_reach (remainder_of (var_form 0) k ∷ quotient_of (var_form 0) k ∷ []) 1) body.now }
    ensures { IfOk result (IsDraft (table.fused k body.now)) }
{
    let by = parts(alloc, k)?;
    with_indices(alloc, by, 1, body)
}

/// k*n
fn turns(alloc: Global, k: u32, n: &Aff) -> Result<FormDraft, CertRefusal>
    ensures { IfOk result (IsFormed (scaled (pos k) n.now)) }
{
    formed(n.scale(alloc, i64::from(k)))
}

/// `flatten(gen i < n. gen j < k. b)`
pub fn fuse_gen(alloc: Global, focus: &Focus, args: &[Arg]) -> Result<Outcome, CertRefusal>
    requires { IsProper focus.now }
    ensures { IfOk result (IsOutcome (table.fuse_gen focus.now args.now)) }
{
    let Some(rows) = as_flatten(focus.term.get()) else {
        return Ok(Outcome::NoPattern);
    };
    let Some((n, inner)) = as_gen(rows) else {
        return Ok(Outcome::NoPattern);
    };
    let Some((m, body)) = as_gen(inner) else {
        return Ok(Outcome::NoPattern);
    };
    let Some(k) = tile_size(m) else {
        return Ok(Outcome::NoPattern);
    };
    if args.len() > 0 {
        return Ok(Outcome::WrongArgument);
    }
    let body = fused(alloc, k, body)?;
    let count = turns(alloc, k, n)?;
    let draft = gen_with(alloc, count, body)?;
    Ok(drafted(alloc, draft))
}
