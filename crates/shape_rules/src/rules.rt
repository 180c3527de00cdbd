//! The shape rule of each operator, on the shapes of its operands.

ghost use Rattle.std.specs.Prelude.{◌≡◌, ◌↔◌, ◌<◌, ◌≤◌, pos, [], ◌∷◌, true, IfOk, IsOk, IsTrue, MatchResult, OnOk};
ghost use Rattle.affine_index.specs.Form.{literal_form};
ghost use Rattle.affine_index.specs.Normal.{Refused};
ghost use Rattle.shape_rules.specs.Faults.{AreAnswered, IsAnswer};
ghost use Rattle.shape_rules.specs.Rules.{columns_shape, fewer_shape, flat_shape, more_shape, row_shape, rows_shape, same_shape, tiled_shape};
ghost use Rattle.shape_rules.specs.Scopes.{each_free};
ghost use Rattle.term_tree.specs.Shape.{Extents, Shaped, each_fits, each_short, limited, of_concat, of_equal, of_words, same_forms, with_child};

use crate::extents::{in_front, take_first, tiles};
use crate::fault::{Operands, Trouble, here, under};
use affine_index::{Aff, AffRefusal};
use sqlite_items::Items;
use std::alloc::Global;
use term_tree::Cause;

/// The largest rank.
pub const LARGEST_RANK: usize = 8;

/// Tells a proof that each extent is within the limits.
fn told(extents: &[Aff])
    ensures fits { each_fits extents.now ≡ true }
    ensures short { each_short extents.now ≡ true }
{
    for form in extents {
        form.told();
    }
}

/// A shape whose rank is within the limit.
pub fn limited(alloc: Global, extents: Items<Aff>) -> Result<Items<Aff>, Trouble>
    ensures { IsAnswer (limited extents) result }
{
    if extents.len() > LARGEST_RANK {
        return Err(here(alloc, Cause::RankTooLarge));
    }
    told(extents.as_slice());
    Ok(extents)
}

/// A first extent as it was made, in front of others, where the rank is within the limit.
fn with_first(
    alloc: Global,
    first: Result<Aff, AffRefusal>,
    rest: Items<Aff>,
) -> Result<Items<Aff>, Trouble>
    ensures { (form : Aff) → MatchResult first (λ n. n ≡ form) (Refused form) → IsAnswer (limited (form ∷ rest)) result }
{
    if rest.len() >= LARGEST_RANK {
        return Err(here(alloc, Cause::RankTooLarge));
    }
    told(rest.as_slice());
    match first {
        Ok(first) => {
            first.told();
            Ok(in_front(alloc, first, rest)?)
        }
        Err(AffRefusal::CoefficientTooLarge) => Err(here(alloc, Cause::CoefficientTooLarge)),
        Err(AffRefusal::IndexTooLong) => Err(here(alloc, Cause::IndexTooLong)),
        Err(AffRefusal::NotAffine) | Err(AffRefusal::Memory) => Err(Trouble::Memory),
    }
}

/// Whether extents are the same forms.
fn are_equal(a: &[Aff], b: &[Aff]) -> bool
    ensures { IsTrue result ↔ (a.now ≡ b.now) }
{
    if a.len() != b.len() {
        return false;
    }
    for i in 0..a.len() {
        if !a[i].same(&b[i]) {
            return false;
        }
    }
    true
}

fn same_forms(a: &[Aff], b: &[Aff]) -> bool
    ensures { result ≡ same_forms a.now b.now }
{
    are_equal(a, b)
}

/// The shape of a row.
pub fn row(alloc: Global, child: Result<Items<Aff>, Trouble>) -> Result<Items<Aff>, Trouble>
    ensures shape { (shape : Shaped) → IsAnswer shape child → IsAnswer (with_child 0 shape row_shape) result }
    ensures was { OnOk result (IsOk child) }
{
    let mut rest = under(0, child)?;
    match take_first(&mut rest) {
        None => Err(here(alloc, Cause::RankMismatch)),
        Some(_) => Ok(rest),
    }
}

/// The shape of n rows.
pub fn rows(
    alloc: Global,
    n: &Aff,
    child: Result<Items<Aff>, Trouble>,
) -> Result<Items<Aff>, Trouble>
    ensures shape { (shape : Shaped) → IsAnswer shape child → IsAnswer (with_child 0 shape (rows_shape n.now)) result }
    ensures was { OnOk result (IsOk child) }
{
    let rest = under(0, child)?;
    with_first(alloc, n.copy(alloc), rest)
}

/// The shape of the operand.
pub fn same(child: Result<Items<Aff>, Trouble>) -> Result<Items<Aff>, Trouble>
    ensures shape { (shape : Shaped) → IsAnswer shape child → IsAnswer (with_child 0 shape same_shape) result }
    ensures was { OnOk result (IsOk child) }
{
    under(0, child)
}

/// The shape of the rows of the rows.
pub fn flat(alloc: Global, child: Result<Items<Aff>, Trouble>) -> Result<Items<Aff>, Trouble>
    requires { IfOk child (λ ns. each_free ns ≡ true) }
    ensures shape { (shape : Shaped) → IsAnswer shape child → IsAnswer (with_child 0 shape flat_shape) result }
    ensures was { OnOk result (IsOk child) }
{
    let mut rest = under(0, child)?;
    let Some(n) = take_first(&mut rest) else {
        return Err(here(alloc, Cause::RankMismatch));
    };
    let Some(m) = take_first(&mut rest) else {
        return Err(here(alloc, Cause::RankMismatch));
    };
    with_first(alloc, n.mul(alloc, &m), rest)
}

/// A number as a form.
fn literal(alloc: Global, k: u32) -> Result<Aff, Trouble>
    requires { k ≤ 2147483647 }
    ensures { MatchResult result (λ form. form ≡ literal_form (pos k)) (λ t. t ≡ Trouble.Memory) }
{
    match Aff::literal(alloc, i64::from(k)) {
        Ok(form) => Ok(form),
        Err(_) => Err(Trouble::Memory),
    }
}

/// The shape of chunks of k rows.
pub fn tiled(
    alloc: Global,
    k: u32,
    child: Result<Items<Aff>, Trouble>,
) -> Result<Items<Aff>, Trouble>
    requires positive { 0 < k }
    requires limit { k ≤ 2147483647 }
    ensures shape { (shape : Shaped) → IsAnswer shape child → IsAnswer (with_child 0 shape (tiled_shape k)) result }
    ensures was { OnOk result (IsOk child) }
{
    let mut rest = under(0, child)?;
    let Some(n) = take_first(&mut rest) else {
        return Err(here(alloc, Cause::RankMismatch));
    };
    let chunk = in_front(alloc, literal(alloc, k)?, rest)?;
    with_first(alloc, tiles(alloc, k, &n), chunk)
}

/// The shape of the columns.
pub fn columns(alloc: Global, child: Result<Items<Aff>, Trouble>) -> Result<Items<Aff>, Trouble>
    ensures shape { (shape : Shaped) → IsAnswer shape child → IsAnswer (with_child 0 shape columns_shape) result }
    ensures was { OnOk result (IsOk child) }
{
    let mut rest = under(0, child)?;
    let Some(n) = take_first(&mut rest) else {
        return Err(here(alloc, Cause::RankMismatch));
    };
    let Some(m) = take_first(&mut rest) else {
        return Err(here(alloc, Cause::RankMismatch));
    };
    let column = in_front(alloc, n, rest)?;
    Ok(in_front(alloc, m, column)?)
}

/// The shape of `amount` rows fewer.
pub fn fewer(
    alloc: Global,
    amount: &Aff,
    child: Result<Items<Aff>, Trouble>,
) -> Result<Items<Aff>, Trouble>
    ensures shape { (shape : Shaped) → IsAnswer shape child → IsAnswer (with_child 0 shape (fewer_shape amount.now)) result }
    ensures was { OnOk result (IsOk child) }
{
    let mut rest = under(0, child)?;
    match take_first(&mut rest) {
        None => Err(here(alloc, Cause::RankMismatch)),
        Some(n) => with_first(alloc, n.sub(alloc, amount), rest),
    }
}

/// The shape of `amount` rows more.
pub fn more(
    alloc: Global,
    amount: &Aff,
    child: Result<Items<Aff>, Trouble>,
) -> Result<Items<Aff>, Trouble>
    ensures shape { (shape : Shaped) → IsAnswer shape child → IsAnswer (with_child 0 shape (more_shape amount.now)) result }
    ensures was { OnOk result (IsOk child) }
{
    let mut rest = under(0, child)?;
    match take_first(&mut rest) {
        None => Err(here(alloc, Cause::RankMismatch)),
        Some(n) => with_first(alloc, n.add(alloc, amount), rest),
    }
}

/// The shape of a sum or a difference.
pub fn equal(alloc: Global, operands: Result<Operands, Trouble>) -> Result<Items<Aff>, Trouble>
    ensures shape { (a b : Shaped) → AreAnswered a b operands → IsAnswer (with_child 0 a (λ ns. with_child 1 b (of_equal ns))) result }
    ensures was { OnOk result (IsOk operands) }
{
    let Operands { first, second } = operands?;
    if first.len() != second.len() {
        return Err(here(alloc, Cause::RankMismatch));
    }
    if !same_forms(first.as_slice(), second.as_slice()) {
        return Err(here(alloc, Cause::ShapesDiffer));
    }
    limited(alloc, first)
}

/// The shape of a product of words.
pub fn words(alloc: Global, operands: Result<Operands, Trouble>) -> Result<Items<Aff>, Trouble>
    ensures shape { (a b : Shaped) → AreAnswered a b operands → IsAnswer (with_child 0 a (λ ns. with_child 1 b (of_words ns))) result }
    ensures was { OnOk result (IsOk operands) }
{
    let Operands { first, second } = operands?;
    if first.is_empty() && second.is_empty() {
        Ok(first)
    } else {
        Err(here(alloc, Cause::RankMismatch))
    }
}

/// The shape of rows followed by rows.
pub fn followed(alloc: Global, operands: Result<Operands, Trouble>) -> Result<Items<Aff>, Trouble>
    ensures shape { (a b : Shaped) → AreAnswered a b operands → IsAnswer (with_child 0 a (λ ns. with_child 1 b (of_concat ns))) result }
    ensures was { OnOk result (IsOk operands) }
{
    let Operands {
        mut first,
        mut second,
    } = operands?;
    let Some(n) = take_first(&mut first) else {
        return Err(here(alloc, Cause::RankMismatch));
    };
    let Some(m) = take_first(&mut second) else {
        return Err(here(alloc, Cause::RankMismatch));
    };
    if first.len() != second.len() {
        return Err(here(alloc, Cause::RankMismatch));
    }
    if !same_forms(first.as_slice(), second.as_slice()) {
        return Err(here(alloc, Cause::ShapesDiffer));
    }
    with_first(alloc, n.add(alloc, &m), first)
}
