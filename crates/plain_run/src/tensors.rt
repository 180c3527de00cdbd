//! Tensors from words.
#![tactic(auto, using(atl_meaning::proofs::ValueLaws::meant_laws))]

ghost use Rattle.std.specs.Prelude.{◌≡◌, IfOk, drop, length, map, take};
ghost use Rattle.atl_meaning.specs.Values.{meant};
ghost use Rattle.plain_run.specs.Shapes.{tensors_of};
ghost use Rattle.term_tree.specs.Shaped.{word_count};
ghost use Rattle.word_tensors.specs.WordTensors.{first_word, rows_of_words, tensor_of};

use crate::shapes::product;
use atl_meaning::Tensor;
use sqlite_items::Items;
use std::alloc::{AllocError, Global};

fn first_word(words: &[u64]) -> u64
    ensures { result ≡ first_word words.now }
{
    match words.first() {
        Some(word) => *word,
        None => 0,
    }
}

fn count(words: &[u64]) -> u64
    ensures { result ≡ length words.now }
{
    words.len() as u64
}

/// The words of a tensor of these extents, and the others.
fn cut<'a>(words: &'a [u64], extents: &[u64]) -> (&'a [u64], &'a [u64])
    ensures first { result.0.now ≡ take (word_count extents.now) words.now }
    ensures others { result.1.now ≡ drop (word_count extents.now) words.now }
{
    let first = product(extents, 0).min(count(words));
    words.split_at(first as usize)
}

/// The tensor of these extents with these words; 0 stands for words that are not there.
#[cycle(tensor)]
fn tensor(alloc: Global, extents: &[u64], words: &[u64]) -> Result<Tensor, AllocError>
    ensures { IfOk result (λ found. meant found ≡ tensor_of extents.now words.now) }
{
    match extents.split_first() {
        None => Ok(Tensor::Word(first_word(words))),
        Some((count, rest)) => Ok(Tensor::Row(rows(alloc, *count, rest, words)?)),
    }
}

/// So many rows of these extents.
#[cycle(tensor)]
fn rows(
    alloc: Global,
    count: u64,
    extents: &[u64],
    words: &[u64],
) -> Result<Items<Tensor>, AllocError>
    ensures { IfOk result (λ rows. map meant rows ≡ rows_of_words (tensor_of extents.now) (word_count extents.now) count words.now) }
{
    let mut rows = Items::new(alloc);
    let mut left = words;
    for _ in 0..count {
        let (row, others) = cut(left, extents);
        rows.push(tensor(alloc, extents, row)?)?;
        left = others;
    }
    Ok(rows)
}

/// The tensor of each shape with its words.
pub fn tensors(
    alloc: Global,
    shapes: &[Items<u64>],
    inputs: &[Items<u64>],
) -> Result<Items<Tensor>, AllocError>
    ensures { IfOk result (λ found. map meant found ≡ tensors_of shapes.now inputs.now) }
{
    let mut found = Items::new(alloc);
    for at in 0..shapes.len().min(inputs.len()) {
        let made = tensor(alloc, shapes[at].as_slice(), inputs[at].as_slice())?;
        found.push(made)?;
    }
    Ok(found)
}
