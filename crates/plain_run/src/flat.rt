//! The words of tensors.
#![tactic(auto, using(atl_meaning::proofs::ValueLaws::meant_laws))]

ghost use Rattle.std.specs.Prelude.{◌≡◌, ◌++◌, IfOk, OnOk, map};
ghost use Rattle.atl_meaning.specs.Values.{meant};
ghost use Rattle.term_tree.specs.Shaped.{flat};
ghost use Rattle.term_tree.specs.Tensors.{from_rows};

use atl_meaning::Tensor;
use sqlite_items::Items;
use std::alloc::{AllocError, Global};

#[cycle(put)]
fn put_words(words: &mut Items<u64>, tensor: &Tensor) -> Result<(), AllocError>
    ensures { OnOk result (words.new ≡ words.old ++ flat (meant tensor.now)) }
{
    match tensor {
        Tensor::Word(word) => {
            words.push(*word)?;
            Ok(())
        }
        Tensor::Row(rows) => put_rows(words, rows.as_slice()),
    }
}

#[cycle(put)]
fn put_rows(words: &mut Items<u64>, rows: &[Tensor]) -> Result<(), AllocError>
    ensures { OnOk result (words.new ≡ words.old ++ flat (from_rows (map meant rows.now))) }
{
    for row in rows {
        put_words(words, row)?;
    }
    Ok(())
}

/// The words of a tensor, from left to right.
fn words(alloc: Global, tensor: &Tensor) -> Result<Items<u64>, AllocError>
    ensures { IfOk result (λ words. words ≡ flat (meant tensor.now)) }
{
    let mut words = Items::new(alloc);
    put_words(&mut words, tensor)?;
    Ok(words)
}

/// The words of each tensor.
pub fn words_of(alloc: Global, tensors: &[Tensor]) -> Result<Items<Items<u64>>, AllocError>
    ensures { IfOk result (λ lists. lists ≡ map flat (map meant tensors.now)) }
{
    let mut lists = Items::new(alloc);
    for tensor in tensors {
        let words = words(alloc, tensor)?;
        lists.push(words)?;
    }
    Ok(lists)
}
