//! The tree that a normal form prints as.
#![tactic(auto, using(crate::proofs::TreeLaws::tree_laws))]

ghost use Rattle.std.specs.Prelude.{◌≡◌, ℕ, true, IfOk, IsTrue, Option, None, ◌&&◌, pos};
ghost use Rattle.std.specs.Int.RustNames.{unsigned_abs};
ghost use Rattle.index_trees.specs.Tree.{atom_fits, atoms_fit, form_fits, index_tree, item_tree, joined_atom, joined_atoms, leading, minus_constant, minus_item, minus_terms, number_fits, or_number, plus_constant, plus_item, plus_terms, terms_fit, tree_after, with_factor, with_summand};
ghost use Rattle.index_trees.specs.Value.{Computes, ComputesSum};

use affine_index::{Aff, Atom, Item, Items};
use loop_lang::Iexp;
use owned_values::two;
use sqlite_items::Boxed;
use std::alloc::{AllocError, Global};

fn with_factor(
    alloc: Global,
    product: Option<Iexp>,
    factor: Iexp,
) -> Result<Option<Iexp>, AllocError>
    ensures { IfOk result (λ r. r ≡ with_factor product factor) }
{
    match product {
        None => Ok(Some(factor)),
        Some(left) => {
            let (left, right) = two(Boxed::new(alloc, left), Boxed::new(alloc, factor))?;
            Ok(Some(Iexp::Mul(left, right)))
        }
    }
}

fn with_summand(alloc: Global, sum: Option<Iexp>, item: Iexp) -> Result<Option<Iexp>, AllocError>
    ensures { IfOk result (λ r. r ≡ with_summand sum item) }
{
    match sum {
        None => Ok(Some(item)),
        Some(left) => {
            let (left, right) = two(Boxed::new(alloc, left), Boxed::new(alloc, item))?;
            Ok(Some(Iexp::Add(left, right)))
        }
    }
}

fn minus(alloc: Global, left: Iexp, right: Iexp) -> Result<Iexp, AllocError>
    ensures { IfOk result (λ r. r ≡ Iexp.Sub left right) }
{
    let (left, right) = two(Boxed::new(alloc, left), Boxed::new(alloc, right))?;
    Ok(Iexp::Sub(left, right))
}

/// The size of a number.
fn size_of(number: i64) -> i64
    requires { IsTrue (number_fits number) }
    ensures { result ≡ pos (unsigned_abs number) }
{
    if number < 0 { 0 - number } else { number }
}

/// The size of a coefficient as a factor, left out where it is 1.
fn leading(coefficient: i64) -> Option<Iexp>
    requires { IsTrue (number_fits coefficient) }
    ensures { result ≡ leading (unsigned_abs coefficient) }
{
    let size = size_of(coefficient);
    if size == 1 {
        None
    } else {
        Some(Iexp::Lit(size))
    }
}

fn boxed(alloc: Global, tree: Result<Iexp, AllocError>) -> Result<Boxed<Iexp>, AllocError>
    ensures { (t : Iexp) → IfOk tree (λ r. r ≡ t) → IfOk result (λ r. r ≡ t) }
{
    Boxed::new(alloc, tree?)
}

/// A product with a quotient of what a form prints as.
fn with_quotient(
    alloc: Global,
    product: Option<Iexp>,
    dividend: Result<Iexp, AllocError>,
    divisor: u32,
) -> Result<Option<Iexp>, AllocError>
    ensures { (d : Iexp) → IfOk dividend (λ t. t ≡ d) → IfOk result (λ r. r ≡ with_factor product (Iexp.Div d divisor)) }
{
    let dividend = boxed(alloc, dividend)?;
    with_factor(alloc, product, Iexp::Div(dividend, u64::from(divisor)))
}

/// The product, or 1 where there is none.
fn or_one(product: Result<Option<Iexp>, AllocError>) -> Result<Iexp, AllocError>
    ensures { (p : Option Iexp) → IfOk product (λ q. q ≡ p) → IfOk result (λ r. r ≡ or_number (pos 1) p) }
{
    match product? {
        Some(tree) => Ok(tree),
        None => Ok(Iexp::Lit(1)),
    }
}

/// A sum with what an item prints as.
fn plus_tree(
    alloc: Global,
    sum: Option<Iexp>,
    item: Result<Iexp, AllocError>,
) -> Result<Option<Iexp>, AllocError>
    ensures { (i : Iexp) → IfOk item (λ t. t ≡ i) → IfOk result (λ r. r ≡ with_summand sum i) }
{
    with_summand(alloc, sum, item?)
}

/// A tree less what an item prints as.
fn minus_tree(alloc: Global, left: Iexp, item: Result<Iexp, AllocError>) -> Result<Iexp, AllocError>
    ensures { (i : Iexp) → IfOk item (λ t. t ≡ i) → IfOk result (λ r. r ≡ Iexp.Sub left i) }
{
    minus(alloc, left, item?)
}

#[cycle(tree)]
fn joined_atom(
    alloc: Global,
    loops: u32,
    product: Option<Iexp>,
    atom: &Atom,
) -> Result<Option<Iexp>, AllocError>
    requires { IsTrue (atom_fits atom.now) }
    ensures { IfOk result (λ r. r ≡ joined_atom loops atom.now product) }
{
    match atom {
        Atom::Size(size) => with_factor(alloc, product, Iexp::Size(*size)),
        Atom::Var(var) => {
            let depth = loops.saturating_sub(1).saturating_sub(*var);
            with_factor(alloc, product, Iexp::Loop(depth))
        }
        Atom::Div(form, divisor) => with_quotient(
            alloc,
            product,
            form_tree(alloc, loops, form.get()),
            *divisor,
        ),
        Atom::Mul(factors) => joined_atoms(alloc, loops, product, factors.as_slice()),
    }
}

#[cycle(tree)]
fn joined_atoms(
    alloc: Global,
    loops: u32,
    start: Option<Iexp>,
    atoms: &[Atom],
) -> Result<Option<Iexp>, AllocError>
    requires { IsTrue (atoms_fit atoms.now) }
    ensures { IfOk result (λ r. r ≡ joined_atoms loops atoms.now start) }
{
    let mut product = start;
    for atom in atoms {
        product = joined_atom(alloc, loops, product, atom)?;
    }
    Ok(product)
}

#[cycle(tree)]
fn item_tree(alloc: Global, loops: u32, coefficient: i64, atom: &Atom) -> Result<Iexp, AllocError>
    requires { IsTrue (number_fits coefficient && atom_fits atom.now) }
    ensures { IfOk result (λ r. r ≡ item_tree coefficient (joined_atom loops atom.now)) }
{
    or_one(joined_atom(alloc, loops, leading(coefficient), atom))
}

#[cycle(tree)]
fn plus_item(
    alloc: Global,
    loops: u32,
    coefficient: i64,
    atom: &Atom,
    sum: Option<Iexp>,
) -> Result<Option<Iexp>, AllocError>
    requires { IsTrue (number_fits coefficient && atom_fits atom.now) }
    ensures { IfOk result (λ r. r ≡ plus_item coefficient (joined_atom loops atom.now) sum) }
{
    if coefficient > 0 {
        plus_tree(alloc, sum, item_tree(alloc, loops, coefficient, atom))
    } else {
        Ok(sum)
    }
}

#[cycle(tree)]
fn plus_terms(
    alloc: Global,
    loops: u32,
    terms: &[Item<Atom>],
    start: Option<Iexp>,
) -> Result<Option<Iexp>, AllocError>
    requires { IsTrue (terms_fit terms.now) }
    ensures { IfOk result (λ r. r ≡ plus_terms loops terms.now start) }
{
    let mut sum = start;
    for term in terms {
        sum = plus_item(alloc, loops, term.coefficient, &term.atom, sum)?;
    }
    Ok(sum)
}

#[cycle(tree)]
fn minus_item(
    alloc: Global,
    loops: u32,
    coefficient: i64,
    atom: &Atom,
    left: Iexp,
) -> Result<Iexp, AllocError>
    requires { IsTrue (number_fits coefficient && atom_fits atom.now) }
    ensures { IfOk result (λ r. r ≡ minus_item coefficient (joined_atom loops atom.now) left) }
{
    if coefficient < 0 {
        minus_tree(alloc, left, item_tree(alloc, loops, coefficient, atom))
    } else {
        Ok(left)
    }
}

#[cycle(tree)]
fn minus_terms(
    alloc: Global,
    loops: u32,
    terms: &[Item<Atom>],
    start: Iexp,
) -> Result<Iexp, AllocError>
    requires { IsTrue (terms_fit terms.now) }
    ensures { IfOk result (λ r. r ≡ minus_terms loops terms.now start) }
{
    let mut tree = start;
    for term in terms {
        tree = minus_item(alloc, loops, term.coefficient, &term.atom, tree)?;
    }
    Ok(tree)
}

#[cycle(tree)]
fn form_after(
    alloc: Global,
    loops: u32,
    first: Option<Iexp>,
    form: &Items,
) -> Result<Iexp, AllocError>
    requires { IsTrue (form_fits form.now) }
    ensures { IfOk result (λ r. r ≡ tree_after loops first form.now) }
{
    let sum = plus_terms(alloc, loops, form.terms.as_slice(), first)?;
    let sum = with_constant(alloc, sum, form.constant)?;
    let tree = minus_terms(alloc, loops, form.terms.as_slice(), sum)?;
    without_constant(alloc, tree, form.constant)
}

#[cycle(tree)]
fn form_tree(alloc: Global, loops: u32, form: &Items) -> Result<Iexp, AllocError>
    requires { IsTrue (form_fits form.now) }
    ensures { IfOk result (λ r. r ≡ index_tree loops form.now) }
{
    form_after(alloc, loops, None, form)
}

/// A sum with a constant above 0, or the number 0 where there is no sum.
fn with_constant(alloc: Global, sum: Option<Iexp>, constant: i64) -> Result<Iexp, AllocError>
    ensures { IfOk result (λ r. r ≡ or_number (pos 0) (plus_constant constant sum)) }
{
    let sum = if constant > 0 {
        with_summand(alloc, sum, Iexp::Lit(constant))?
    } else {
        sum
    };
    match sum {
        Some(tree) => Ok(tree),
        None => Ok(Iexp::Lit(0)),
    }
}

/// A tree less the size of a constant below 0.
fn without_constant(alloc: Global, tree: Iexp, constant: i64) -> Result<Iexp, AllocError>
    requires { IsTrue (number_fits constant) }
    ensures { IfOk result (λ r. r ≡ minus_constant constant tree) }
{
    if constant < 0 {
        minus(alloc, tree, Iexp::Lit(size_of(constant)))
    } else {
        Ok(tree)
    }
}

/// The tree that the form prints as, under so many loops: the items with positive coefficient in order and then a positive constant, joined by `+`,
/// and the others, each after `-`. A coefficient of size 1 is left out before factors. Loops are counted from the outside, variables of the form from the
/// inside. Linear in the items of the form at all depths.
pub fn index_tree(alloc: Global, loops: u32, form: &Aff) -> Result<Iexp, AllocError>
    ensures tree { IfOk result (λ t. t ≡ index_tree loops form.now) }
    ensures value { IfOk result (λ t. Computes loops form.now t) }
{
    form_tree(alloc, loops, form.items())
}

/// The same behind a first summand, if any, as the larger of two lengths.
pub fn tree_after(
    alloc: Global,
    loops: u32,
    first: Option<Iexp>,
    form: &Aff,
) -> Result<Iexp, AllocError>
    ensures tree { IfOk result (λ t. t ≡ tree_after loops first form.now) }
    ensures value { IfOk result (λ t. ComputesSum loops first form.now t) }
{
    form_after(alloc, loops, first, form.items())
}
