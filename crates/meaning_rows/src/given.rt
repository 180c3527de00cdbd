//! Whether sizes are allowed, and whether inputs are tensors of their declared extents.
#![tactic(auto, using(crate::proofs::GivenLaws::given_laws))]

ghost use Rattle.std.specs.Prelude.{◌≡◌, [], IfSome, map, true};
ghost use Rattle.affine_index.specs.Condition as c;
ghost use Rattle.affine_index.specs.Value.{items_value};
ghost use Rattle.atl_meaning.specs.Values.{meant};
ghost use Rattle.meaning_rows.specs.Given.{AreGiven, IsGiven};
ghost use Rattle.term_tree.specs.Meaning.{extent};
ghost use Rattle.term_tree.specs.Tensors.{Word};
ghost use Rattle.term_tree.specs.Modules.{Allowed, AreInputs, IsWithin, extents_at};

use affine_index::{Aff, Cmp};
use atl_meaning::Tensor;
use term_tree::{InputDecl, Module, SizeDecl};

fn is_within(declared: &[SizeDecl], sizes: &[u64]) -> bool
    ensures { result ≡ true → IsWithin declared.now sizes.now }
{
    if declared.len() != sizes.len() {
        return false;
    }
    for at in 0..sizes.len() {
        if sizes[at] < declared[at].low || declared[at].high < sizes[at] {
            return false;
        }
    }
    true
}

/// The value of a form that names declared sizes alone, where it is not too large.
fn value(form: &Aff, sizes: &[u64]) -> Option<i128>
    ensures { IfSome result (λ z. z ≡ items_value sizes.now [] form.now) }
{
    if !form.is_scoped(sizes.len(), 0) {
        return None;
    }
    form.value(sizes, &[])
}

fn holds(cmp: &Cmp, sizes: &[u64]) -> bool
    ensures { result ≡ true → c.cmp_holds sizes.now [] cmp.now ≡ true }
{
    match cmp {
        Cmp::Ge(x) => match value(x, sizes) {
            Some(z) => z >= 0,
            None => false,
        },
        Cmp::Eq(x) => match value(x, sizes) {
            Some(z) => z == 0,
            None => false,
        },
    }
}

fn all_hold(cmps: &[Cmp], sizes: &[u64]) -> bool
    ensures { result ≡ true → c.all_hold sizes.now [] cmps.now ≡ true }
{
    for cmp in cmps {
        if !holds(cmp, sizes) {
            return false;
        }
    }
    true
}

pub fn is_allowed(module: &Module, sizes: &[u64]) -> bool
    ensures { result ≡ true → Allowed «module».now sizes.now }
{
    is_within(module.sizes.as_slice(), sizes) && all_hold(module.assumes.as_slice(), sizes)
}

fn is_extent(form: &Aff, sizes: &[u64], count: u64) -> bool
    ensures { result ≡ true → extent form.now sizes.now ≡ count }
{
    match value(form, sizes) {
        Some(z) => z == i128::from(count),
        None => false,
    }
}

fn is_word(word: u64, extents: &[Aff], sizes: &[u64]) -> bool
    ensures { result ≡ true → IsGiven (extents_at extents.now sizes.now) (Word word) }
{
    match extents.split_first() {
        None => true,
        Some(_) => false,
    }
}

#[cycle(shape)]
fn has_shape(tensor: &Tensor, extents: &[Aff], sizes: &[u64]) -> bool
    ensures { result ≡ true → IsGiven (extents_at extents.now sizes.now) (meant tensor.now) }
{
    match tensor {
        Tensor::Word(word) => is_word(*word, extents, sizes),
        Tensor::Row(rows) => match extents.split_first() {
            None => false,
            Some((count, rest)) => is_extent(count, sizes, rows.len() as u64)
                && have_shape(rows.as_slice(), rest, sizes),
        },
    }
}

#[cycle(shape)]
fn have_shape(rows: &[Tensor], extents: &[Aff], sizes: &[u64]) -> bool
    ensures { result ≡ true → AreGiven (extents_at extents.now sizes.now) (map meant rows.now) }
{
    for row in rows {
        if !has_shape(row, extents, sizes) {
            return false;
        }
    }
    true
}

pub fn are_inputs(declared: &[InputDecl], sizes: &[u64], inputs: &[Tensor]) -> bool
    ensures { result ≡ true → AreInputs declared.now sizes.now (map meant inputs.now) }
{
    if declared.len() != inputs.len() {
        return false;
    }
    for at in 0..inputs.len() {
        if !has_shape(&inputs[at], declared[at].extents.as_slice(), sizes) {
            return false;
        }
    }
    true
}
