//! Copies of tensors, zero tensors, and operations by places.
#![tactic(auto, using(crate::proofs::ValueLaws::meant_laws, crate::proofs::ListLaws::last_laws, crate::proofs::PlaceLaws::place_laws))]

ghost use Rattle.std.specs.Prelude.{◌≡◌, map, IfOk};
ghost use Rattle.term_tree.specs.Tensors.{by_places, copies, zeros};
ghost use Rattle.atl_meaning.specs.Values.{meant};
ghost use Rattle.atl_meaning.specs.Operations.{on_words, rows_by_places};

use crate::operation::Operation;
use crate::tensor::Tensor;
use sqlite_items::Items;
use std::alloc::{AllocError, Global};

/// An equal tensor.
#[cycle(copy)]
pub fn copy(alloc: Global, tensor: &Tensor) -> Result<Tensor, AllocError>
    ensures { IfOk result (λ copy. copy ≡ tensor.now) }
{
    match tensor {
        Tensor::Word(word) => Ok(Tensor::Word(*word)),
        Tensor::Row(rows) => Ok(Tensor::Row(copied(alloc, rows.as_slice())?)),
    }
}

/// Equal rows.
#[cycle(copy)]
pub fn copied(alloc: Global, rows: &[Tensor]) -> Result<Items<Tensor>, AllocError>
    ensures { IfOk result (λ copies. copies ≡ rows.now) }
{
    let mut copies = Items::new(alloc);
    for row in rows {
        copies.push(copy(alloc, row)?)?;
    }
    Ok(copies)
}

/// The tensor of these extents with the word 0 everywhere.
#[cycle(zeros)]
pub fn zeros(alloc: Global, extents: &[u64]) -> Result<Tensor, AllocError>
    ensures { IfOk result (λ z. meant z ≡ zeros extents.now) }
{
    match extents.split_first() {
        None => Ok(Tensor::Word(0)),
        Some((count, rest)) => Ok(Tensor::Row(zero_rows(alloc, *count, rest)?)),
    }
}

/// So many rows of these extents with the word 0 everywhere.
#[cycle(zeros)]
pub fn zero_rows(alloc: Global, count: u64, extents: &[u64]) -> Result<Items<Tensor>, AllocError>
    ensures { IfOk result (λ rows. map meant rows ≡ copies count (zeros extents.now)) }
{
    let mut rows = Items::new(alloc);
    for _ in 0..count {
        rows.push(zeros(alloc, extents)?)?;
    }
    Ok(rows)
}

/// An operation on the words at each place; where one tensor has no such place, neither has the answer.
#[cycle(places)]
pub fn by_places(
    alloc: Global,
    operation: Operation,
    a: &Tensor,
    b: &Tensor,
) -> Result<Tensor, AllocError>
    ensures { IfOk result (λ v. meant v ≡ by_places (on_words operation) (meant a.now) (meant b.now)) }
{
    match (a, b) {
        (Tensor::Word(a), Tensor::Word(b)) => Ok(Tensor::Word(operation.apply(*a, *b))),
        (Tensor::Row(a), Tensor::Row(b)) => {
            let rows = rows_by_places(alloc, operation, a.as_slice(), b.as_slice())?;
            Ok(Tensor::Row(rows))
        }
        (Tensor::Word(_), Tensor::Row(_)) => Ok(Tensor::Row(Items::new(alloc))),
        (Tensor::Row(_), Tensor::Word(_)) => Ok(Tensor::Row(Items::new(alloc))),
    }
}

#[cycle(places)]
fn rows_by_places(
    alloc: Global,
    operation: Operation,
    a: &[Tensor],
    b: &[Tensor],
) -> Result<Items<Tensor>, AllocError>
    ensures { IfOk result (λ rows. map meant rows ≡ rows_by_places (on_words operation) (map meant a.now) (map meant b.now)) }
{
    let mut rows = Items::new(alloc);
    for at in 0..a.len().min(b.len()) {
        rows.push(by_places(alloc, operation, &a[at], &b[at])?)?;
    }
    Ok(rows)
}
