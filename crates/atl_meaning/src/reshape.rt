//! Tensors whose rows stand in another order.
#![tactic(auto, using(crate::proofs::ValueLaws::meant_laws, crate::proofs::ListLaws::last_laws))]

ghost use Rattle.std.specs.Prelude.{◌≡◌, ◌++◌, map, drop, get_or, IfOk, MatchOption};
ghost use Rattle.term_tree.specs.Tensors.{Tensor as Meant, copies, drop_last, from_rows, joined, rows_of, tabulate, zeros};
ghost use Rattle.term_tree.specs.Meaning.{chunks, columns, head_of, row_at, tail_of};
ghost use Rattle.atl_meaning.specs.Values.{meant};

use crate::build::{copied, copy, zero_rows, zeros};
use crate::tensor::Tensor;
use sqlite_items::Items;
use std::alloc::{AllocError, Global};

/// The rows of a tensor; a word has none.
pub fn rows_of(tensor: &Tensor) -> &[Tensor]
    ensures { map meant result.now ≡ rows_of (meant tensor.now) }
{
    match tensor {
        Tensor::Word(_) => &[],
        Tensor::Row(rows) => rows.as_slice(),
    }
}

/// The rows themselves.
pub fn into_rows(alloc: Global, tensor: Tensor) -> Items<Tensor>
    ensures { map meant result ≡ rows_of (meant tensor) }
{
    match tensor {
        Tensor::Word(_) => Items::new(alloc),
        Tensor::Row(rows) => rows,
    }
}

/// The row of a number, where there is one.
pub fn row_of(tensor: &Tensor, number: i128) -> Option<&Tensor>
    ensures { (z : Meant) → MatchOption result (row_at (rows_of (meant tensor.now)) number z ≡ z) (λ row. row_at (rows_of (meant tensor.now)) number z ≡ meant row.now) }
{
    let rows = rows_of(tensor);
    if number < 0 || number >= rows.len() as i128 {
        return None;
    }
    rows.get(number as usize)
}

/// The first of the extents, 0 where there is none.
pub fn head_of(extents: &[u64]) -> u64
    ensures { result ≡ head_of extents.now }
{
    match extents.split_first() {
        None => 0,
        Some((first, _)) => *first,
    }
}

/// All but the first of the extents.
pub fn tail_of(extents: &[u64]) -> &[u64]
    ensures { result.now ≡ tail_of extents.now }
{
    match extents.split_first() {
        None => &[],
        Some((_, rest)) => rest,
    }
}

/// All but the first rows.
fn after(rows: &[Tensor], count: u64) -> &[Tensor]
    ensures { result.now ≡ drop count rows.now }
{
    if count < rows.len() as u64 {
        &rows[count as usize..]
    } else {
        &[]
    }
}

/// All but the last rows.
fn before_last(rows: &[Tensor], count: u64) -> &[Tensor]
    ensures { result.now ≡ drop_last count rows.now }
{
    if count < rows.len() as u64 {
        &rows[..rows.len() - count as usize]
    } else {
        &[]
    }
}

/// The rows of a, then those of b. Moves them.
pub fn concat(alloc: Global, a: Tensor, b: Tensor) -> Result<Tensor, AllocError>
    ensures { IfOk result (λ v. meant v ≡ from_rows (rows_of (meant a) ++ rows_of (meant b))) }
{
    let mut rows = into_rows(alloc, a);
    rows.append(into_rows(alloc, b))?;
    Ok(Tensor::Row(rows))
}

/// The rows of the rows.
pub fn flatten(alloc: Global, tensor: &Tensor) -> Result<Tensor, AllocError>
    ensures { IfOk result (λ v. meant v ≡ from_rows (joined (rows_of (meant tensor.now)))) }
{
    let mut rows = Items::new(alloc);
    for row in rows_of(tensor) {
        rows.append(copied(alloc, rows_of(row))?)?;
    }
    Ok(Tensor::Row(rows))
}

/// The row of a number, or zeros of these extents.
fn row_or_zeros(
    alloc: Global,
    rows: &[Tensor],
    at: u64,
    extents: &[u64],
) -> Result<Tensor, AllocError>
    ensures { IfOk result (λ row. meant row ≡ get_or (map meant rows.now) at (zeros extents.now)) }
{
    match rows.get(at as usize) {
        Some(row) => copy(alloc, row),
        None => zeros(alloc, extents),
    }
}

/// The first k rows, filled up with zeros of these extents.
fn chunk(alloc: Global, rows: &[Tensor], k: u64, extents: &[u64]) -> Result<Tensor, AllocError>
    ensures { IfOk result (λ v. meant v ≡ from_rows (tabulate k (λ i. get_or (map meant rows.now) i (zeros extents.now)))) }
{
    let mut all = Items::new(alloc);
    for at in 0..k {
        all.push(row_or_zeros(alloc, rows, at, extents)?)?;
    }
    Ok(Tensor::Row(all))
}

/// So many chunks of k rows of these extents, filled up with zeros.
pub fn split(
    alloc: Global,
    count: u64,
    k: u64,
    extents: &[u64],
    tensor: &Tensor,
) -> Result<Tensor, AllocError>
    ensures { IfOk result (λ v. meant v ≡ from_rows (chunks count k (zeros extents.now) (rows_of (meant tensor.now)))) }
{
    let mut all = Items::new(alloc);
    let mut rest = rows_of(tensor);
    for _ in 0..count {
        all.push(chunk(alloc, rest, k, extents)?)?;
        rest = after(rest, k);
    }
    Ok(Tensor::Row(all))
}

/// The j-th row of each row, or zeros of these extents.
fn column(alloc: Global, rows: &[Tensor], j: u64, extents: &[u64]) -> Result<Tensor, AllocError>
    ensures { IfOk result (λ v. meant v ≡ from_rows (map (λ row. get_or (rows_of row) j (zeros extents.now)) (map meant rows.now))) }
{
    let mut all = Items::new(alloc);
    for row in rows {
        all.push(row_or_zeros(alloc, rows_of(row), j, extents)?)?;
    }
    Ok(Tensor::Row(all))
}

/// So many columns of entries of these extents.
pub fn transpose(
    alloc: Global,
    count: u64,
    extents: &[u64],
    tensor: &Tensor,
) -> Result<Tensor, AllocError>
    ensures { IfOk result (λ v. meant v ≡ from_rows (columns count (zeros extents.now) (rows_of (meant tensor.now)))) }
{
    let mut all = Items::new(alloc);
    for j in 0..count {
        all.push(column(alloc, rows_of(tensor), j, extents)?)?;
    }
    Ok(Tensor::Row(all))
}

/// All but the first rows.
pub fn without_first(alloc: Global, count: u64, tensor: &Tensor) -> Result<Tensor, AllocError>
    ensures { IfOk result (λ v. meant v ≡ from_rows (drop count (rows_of (meant tensor.now)))) }
{
    let rows = after(rows_of(tensor), count);
    Ok(Tensor::Row(copied(alloc, rows)?))
}

/// All but the last rows.
pub fn without_last(alloc: Global, count: u64, tensor: &Tensor) -> Result<Tensor, AllocError>
    ensures { IfOk result (λ v. meant v ≡ from_rows (drop_last count (rows_of (meant tensor.now)))) }
{
    let rows = before_last(rows_of(tensor), count);
    Ok(Tensor::Row(copied(alloc, rows)?))
}

/// So many zero rows of these extents before the rows. Moves them.
pub fn zeros_before(
    alloc: Global,
    count: u64,
    extents: &[u64],
    tensor: Tensor,
) -> Result<Tensor, AllocError>
    ensures { IfOk result (λ v. meant v ≡ from_rows (copies count (zeros extents.now) ++ rows_of (meant tensor))) }
{
    let mut rows = zero_rows(alloc, count, extents)?;
    rows.append(into_rows(alloc, tensor))?;
    Ok(Tensor::Row(rows))
}

/// So many zero rows of these extents behind the rows. Moves them.
pub fn zeros_behind(
    alloc: Global,
    count: u64,
    extents: &[u64],
    tensor: Tensor,
) -> Result<Tensor, AllocError>
    ensures { IfOk result (λ v. meant v ≡ from_rows (rows_of (meant tensor) ++ copies count (zeros extents.now))) }
{
    let mut rows = into_rows(alloc, tensor);
    rows.append(zero_rows(alloc, count, extents)?)?;
    Ok(Tensor::Row(rows))
}
