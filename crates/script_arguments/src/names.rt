//! Names that an argument may have.

ghost use Rattle.std.specs.Prelude.{◌≡◌, ◌≤◌, [], ◌∷◌, bytes_eq, decimal, length, map, IfOk};
ghost use Rattle.affine_index.specs.Form.{size_form, var_form};
ghost use Rattle.reader_laws.specs.Steps.{place_from};
ghost use Rattle.script_arguments.specs.Names as spec;
ghost use Rattle.script_arguments.specs.Names.{canonical_names, form_named, let_named};

use affine_index::Aff;
use itoa::Buffer;
use path_focus::Law;
use std::alloc::{AllocError, Global};
use term_tree::SizeDecl;

/// Whether the name is this letter and then a number.
fn is_canonical(letter: u8, around: u32, name: &str) -> bool
    ensures { result ≡ bytes_eq name.now (letter ∷ decimal around) }
{
    match name.as_bytes() {
        [] => false,
        [first, digits @ ..] => {
            *first == letter && digits == Buffer::new().format(around).as_bytes()
        }
    }
}

/// Where the name is among the canonical ones.
#[tactic(auto, using(crate::proofs::NameLaws::canonical_next))]
fn canonical_place(letter: u8, count: u32, name: &str) -> Option<u32>
    ensures { result ≡ place_from 0 name.now (canonical_names (letter ∷ []) count) }
{
    let mut at = 0;
    let mut left = count;
    while left > 0 {
        left -= 1;
        if is_canonical(letter, left, name) {
            return Some(at);
        }
        at += 1;
    }
    None
}

/// Where the name is among the sizes.
fn size_place(mut sizes: &[SizeDecl], name: &str) -> Option<u32>
    requires { length sizes.now ≤ 2147483647 }
    ensures { result ≡ place_from 0 name.now (map (λ d. d.name) sizes.entry.now) }
{
    let mut at = 0;
    while let [first, rest @ ..] = sizes {
        if name == first.name.as_str() {
            return Some(at);
        }
        at += 1;
        sizes = rest;
    }
    None
}

fn var_form(alloc: Global, var: u32) -> Result<Aff, AllocError>
    ensures { IfOk result (λ x. x ≡ var_form var) }
{
    match Aff::var(alloc, var) {
        Ok(form) => Ok(form),
        Err(_) => Err(AllocError),
    }
}

fn size_form(alloc: Global, size: u32) -> Result<Aff, AllocError>
    ensures { IfOk result (λ x. x ≡ size_form size) }
{
    match Aff::size(alloc, size) {
        Ok(form) => Ok(form),
        Err(_) => Err(AllocError),
    }
}

/// The form of a name: a variable under so many gens and sums, or a size.
pub fn form_named(
    alloc: Global,
    sizes: &[SizeDecl],
    vars: u32,
    name: &str,
) -> Result<Option<Aff>, AllocError>
    requires { length sizes.now ≤ 2147483647 }
    ensures { IfOk result (λ o. o ≡ form_named (map (λ d. d.name) sizes.now) vars name.now) }
{
    if let Some(var) = canonical_place(b'i', vars, name) {
        let form = var_form(alloc, var)?;
        return Ok(Some(form));
    }
    match size_place(sizes, name) {
        Some(size) => {
            let form = size_form(alloc, size)?;
            Ok(Some(form))
        }
        None => Ok(None),
    }
}

/// The tensor variable of a let, under so many.
pub fn let_named(lets: u32, name: &str) -> Option<u32>
    ensures { result ≡ let_named lets name.now }
{
    canonical_place(b't', lets, name)
}

fn sum_law(name: &str) -> Option<Law>
    ensures { result ≡ spec.sum_law name.now }
{
    if name == "add_comm" {
        Some(Law::AddComm)
    } else if name == "add_assoc" {
        Some(Law::AddAssoc)
    } else if name == "add_assoc_back" {
        Some(Law::AddAssocBack)
    } else if name == "add_zero" {
        Some(Law::AddZero)
    } else if name == "sub_add" {
        Some(Law::SubAdd)
    } else if name == "fold" {
        Some(Law::Fold)
    } else {
        None
    }
}

fn product_law(name: &str) -> Option<Law>
    ensures { result ≡ spec.product_law name.now }
{
    if name == "mul_comm" {
        Some(Law::MulComm)
    } else if name == "mul_assoc" {
        Some(Law::MulAssoc)
    } else if name == "mul_assoc_back" {
        Some(Law::MulAssocBack)
    } else if name == "distrib" {
        Some(Law::Distrib)
    } else if name == "undistrib" {
        Some(Law::Undistrib)
    } else if name == "mul_one" {
        Some(Law::MulOne)
    } else if name == "mul_zero" {
        Some(Law::MulZero)
    } else {
        None
    }
}

pub fn law_named(name: &str) -> Option<Law>
    ensures { result ≡ spec.law_named name.now }
{
    match sum_law(name) {
        Some(law) => Some(law),
        None => product_law(name),
    }
}
