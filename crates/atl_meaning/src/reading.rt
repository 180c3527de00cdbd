//! Rows of tensors that terms name, read in place.

ghost use Rattle.std.specs.Prelude.{◌≡◌, get_or, true, IfOk, IsTrue, MatchOption};
ghost use Rattle.affine_index.specs.Value.{items_value};
ghost use Rattle.term_tree.specs.Tensors.{Tensor as Meant, rows_of, zeros};
ghost use Rattle.term_tree.specs.Meaning.{no_bound, row_at, tail_of};
ghost use Rattle.atl_meaning.specs.Denoted.{extents_in, scope, tensor_in};
ghost use Rattle.atl_meaning.specs.Reads.{IsRead};
ghost use Rattle.atl_meaning.specs.Exact.{exact, is_exact};
ghost use Rattle.atl_meaning.specs.Values.{meant};

use crate::binding::Binding;
use crate::build::copy;
use crate::read::Read;
use crate::reshape::row_of;
use crate::stack::Stack;
use crate::tensor::Tensor;
use crate::values::value;
use affine_index::Aff;
use std::alloc::{AllocError, Global};
use term_tree::Term;

/// A copy of the tensor of a variable; of one that is not in scope, the word 0.
pub fn variable(alloc: Global, bindings: &Stack<Binding>, var: u32) -> Result<Tensor, AllocError>
    ensures { IfOk result (λ v. meant v ≡ (get_or (scope bindings.now) var no_bound).1) }
{
    match bindings.get(var) {
        Some(binding) => copy(alloc, &binding.value),
        None => Ok(Tensor::Word(0)),
    }
}

/// The row of an index, where there is one.
fn row_of_index<'a>(
    tensor: &'a Tensor,
    index: &Aff,
    sizes: &[u64],
    vars: &[u64],
) -> Option<&'a Tensor>
    requires { IsTrue (is_exact sizes.now vars.now index.now) }
    ensures { (z : Meant) → MatchOption result (row_at (rows_of (meant tensor.now)) (items_value sizes.now vars.now index.now) z ≡ z) (λ row. row_at (rows_of (meant tensor.now)) (items_value sizes.now vars.now index.now) z ≡ meant row.now) }
{
    let number = value(index, sizes, vars);
    row_of(tensor, number)
}

/// The tensor that a variable, or a row of one, names: none for another term, and none where there is no such row.
fn find<'a>(
    sizes: &[u64],
    vars: &[u64],
    bindings: &'a Stack<Binding>,
    term: &Term,
) -> Option<Option<&'a Tensor>>
    requires { exact sizes.now term.now vars.now ≡ true }
    ensures { MatchOption result (Unit {0}) (λ tensor. MatchOption tensor (tensor_in sizes.now term.now vars.now bindings.now ≡ zeros (extents_in sizes.now term.now bindings.now)) (λ v. tensor_in sizes.now term.now vars.now bindings.now ≡ meant v.now)) }
{
    match term {
        Term::TVar(var) => match bindings.get(*var) {
            Some(binding) => Some(Some(&binding.value)),
            None => Some(None),
        },
        Term::Index(e, x) => match find(sizes, vars, bindings, e.get()) {
            Some(Some(tensor)) => {
                let row = row_of_index(tensor, x, sizes, vars);
                Some(row)
            }
            Some(None) => Some(None),
            None => None,
        },
        Term::Lit(_)
        | Term::WordOf(_)
        | Term::Gen(_, _)
        | Term::Sum(_, _)
        | Term::Guard(_, _)
        | Term::Let(_, _)
        | Term::Add(_, _)
        | Term::Sub(_, _)
        | Term::Mul(_, _)
        | Term::Concat(_, _)
        | Term::Flatten(_)
        | Term::Split(_, _)
        | Term::Transpose(_)
        | Term::TruncL(_, _)
        | Term::TruncR(_, _)
        | Term::PadL(_, _)
        | Term::PadR(_, _) => None,
    }
}

/// A copy of the row of a number of what a term names.
pub fn read(
    alloc: Global,
    sizes: &[u64],
    vars: &[u64],
    bindings: &Stack<Binding>,
    term: &Term,
    number: i128,
) -> Result<Read, AllocError>
    requires { exact sizes.now term.now vars.now ≡ true }
    ensures { IfOk result (λ read. IsRead (row_at (rows_of (tensor_in sizes.now term.now vars.now bindings.now)) number (zeros (tail_of (extents_in sizes.now term.now bindings.now)))) (zeros (tail_of (extents_in sizes.now term.now bindings.now))) read) }
{
    match find(sizes, vars, bindings, term) {
        None => Ok(Read::Computed),
        Some(None) => Ok(Read::Missing),
        Some(Some(tensor)) => match row_of(tensor, number) {
            Some(row) => Ok(Read::Row(copy(alloc, row)?)),
            None => Ok(Read::Missing),
        },
    }
}
