//! Forms of index expressions and comparisons, each number and operator within the limits.

ghost use Rattle.std.specs.Prelude.{◌≡◌, ◌≤◌, length, map, IfOk};
ghost use Rattle.std.specs.Option.{option_and_then, option_map};
ghost use Rattle.affine_index.specs.Quotient.{quotient_of, remainder_of};
ghost use Rattle.fact_list.specs.Facts.{normal_product, where_normal};
ghost use Rattle.path_focus.specs.Making.{rest_below};
ghost use Rattle.script_arguments.specs.Forms as spec;
ghost use Rattle.script_arguments.specs.Forms.{form_fold, form_of, of_two};
ghost use Rattle.script_arguments.specs.Names.{form_named};

use crate::names::form_named;
use affine_index::{Aff, AffRefusal, Cmp, Rel};
use owned_values::{both, two};
use path_focus::making::rest_if_normal;
use schedule_script::{Comparison, IxTree};
use sqlite_items::Items;
use std::alloc::{AllocError, Global};
use term_tree::SizeDecl;

/// The largest number of an index.
const LARGEST: u64 = 1 << 40;

/// The largest divisor.
const LARGEST_DIVISOR: u32 = 2_147_483_647;

fn number(alloc: Global, n: u64) -> Result<Option<Aff>, AllocError>
    ensures { IfOk result (λ o. o ≡ spec.number_form n) }
{
    if n > LARGEST {
        return Ok(None);
    }
    match Aff::literal(alloc, n as i64) {
        Ok(form) => Ok(Some(form)),
        Err(_) => Err(AllocError),
    }
}

#[tactic(auto, using(crate::proofs::FormLaws::limit_laws))]
fn minus(alloc: Global, x: &Aff) -> Result<Option<Aff>, AllocError>
    ensures { IfOk result (λ o. o ≡ spec.negated x.now) }
{
    let Ok(zero) = Aff::literal(alloc, 0) else {
        return Err(AllocError);
    };
    difference(alloc, &zero, x)
}

#[tactic(auto, using(crate::proofs::FormLaws::limit_laws))]
fn total(alloc: Global, x: &Aff, y: &Aff) -> Result<Option<Aff>, AllocError>
    ensures { IfOk result (λ o. o ≡ spec.added x.now y.now) }
{
    match x.add(alloc, y) {
        Ok(form) => {
            form.told();
            Ok(Some(form))
        }
        Err(AffRefusal::CoefficientTooLarge) => Ok(None),
        Err(AffRefusal::IndexTooLong) => Ok(None),
        Err(AffRefusal::NotAffine) => Ok(None),
        Err(AffRefusal::Memory) => Err(AllocError),
    }
}

#[tactic(auto, using(crate::proofs::FormLaws::limit_laws))]
fn difference(alloc: Global, x: &Aff, y: &Aff) -> Result<Option<Aff>, AllocError>
    ensures { IfOk result (λ o. o ≡ spec.subtracted x.now y.now) }
{
    match x.sub(alloc, y) {
        Ok(form) => {
            form.told();
            Ok(Some(form))
        }
        Err(AffRefusal::CoefficientTooLarge) => Ok(None),
        Err(AffRefusal::IndexTooLong) => Ok(None),
        Err(AffRefusal::NotAffine) => Ok(None),
        Err(AffRefusal::Memory) => Err(AllocError),
    }
}

#[tactic(auto, using(crate::proofs::FormLaws::limit_laws))]
fn product(alloc: Global, x: &Aff, y: &Aff) -> Result<Option<Aff>, AllocError>
    ensures { IfOk result (λ o. o ≡ normal_product x.now y.now) }
{
    match x.mul(alloc, y) {
        Ok(form) => {
            form.told();
            Ok(Some(form))
        }
        Err(AffRefusal::CoefficientTooLarge) => Ok(None),
        Err(AffRefusal::IndexTooLong) => Ok(None),
        Err(AffRefusal::NotAffine) => Ok(None),
        Err(AffRefusal::Memory) => Err(AllocError),
    }
}

#[tactic(auto, using(crate::proofs::FormLaws::limit_laws))]
fn quotient(alloc: Global, x: &Aff, by: u32) -> Result<Option<Aff>, AllocError>
    ensures { IfOk result (λ o. o ≡ spec.over quotient_of by x.now) }
{
    if by == 0 || by > LARGEST_DIVISOR {
        return Ok(None);
    }
    match x.div(alloc, by) {
        Ok(form) => {
            form.told();
            Ok(Some(form))
        }
        Err(AffRefusal::CoefficientTooLarge) => Ok(None),
        Err(AffRefusal::IndexTooLong) => Ok(None),
        Err(AffRefusal::NotAffine) => Ok(None),
        Err(AffRefusal::Memory) => Err(AllocError),
    }
}

#[tactic(auto, using(crate::proofs::FormLaws::limit_laws))]
fn rest(alloc: Global, x: &Aff, by: u32) -> Result<Option<Aff>, AllocError>
    ensures { IfOk result (λ o. o ≡ spec.over remainder_of by x.now) }
{
    if by == 0 || by > LARGEST_DIVISOR {
        return Ok(None);
    }
    match x.rem(alloc, by) {
        Ok(form) => {
            form.told();
            Ok(Some(form))
        }
        Err(AffRefusal::CoefficientTooLarge) => Ok(None),
        Err(AffRefusal::IndexTooLong) => Ok(None),
        Err(AffRefusal::NotAffine) => Ok(None),
        Err(AffRefusal::Memory) => Err(AllocError),
    }
}

fn negated(alloc: Global, x: Option<Aff>) -> Result<Option<Aff>, AllocError>
    ensures { IfOk result (λ o. o ≡ option_and_then spec.negated x) }
{
    match x {
        Some(x) => minus(alloc, &x),
        None => Ok(None),
    }
}

fn divided(alloc: Global, x: Option<Aff>, by: u32) -> Result<Option<Aff>, AllocError>
    ensures { IfOk result (λ o. o ≡ option_and_then (spec.over quotient_of by) x) }
{
    match x {
        Some(x) => quotient(alloc, &x, by),
        None => Ok(None),
    }
}

fn left_by(alloc: Global, x: Option<Aff>, by: u32) -> Result<Option<Aff>, AllocError>
    ensures { IfOk result (λ o. o ≡ option_and_then (spec.over remainder_of by) x) }
{
    match x {
        Some(x) => rest(alloc, &x, by),
        None => Ok(None),
    }
}

#[tactic(auto, using(crate::proofs::FormLaws::pair_laws))]
fn added(alloc: Global, x: Option<Aff>, y: Option<Aff>) -> Result<Option<Aff>, AllocError>
    ensures { IfOk result (λ o. o ≡ of_two spec.added x y) }
{
    match both(x, y) {
        Some((x, y)) => total(alloc, &x, &y),
        None => Ok(None),
    }
}

#[tactic(auto, using(crate::proofs::FormLaws::pair_laws))]
fn subtracted(alloc: Global, x: Option<Aff>, y: Option<Aff>) -> Result<Option<Aff>, AllocError>
    ensures { IfOk result (λ o. o ≡ of_two spec.subtracted x y) }
{
    match both(x, y) {
        Some((x, y)) => difference(alloc, &x, &y),
        None => Ok(None),
    }
}

#[tactic(auto, using(crate::proofs::FormLaws::pair_laws))]
fn multiplied(alloc: Global, x: Option<Aff>, y: Option<Aff>) -> Result<Option<Aff>, AllocError>
    ensures { IfOk result (λ o. o ≡ of_two normal_product x y) }
{
    match both(x, y) {
        Some((x, y)) => product(alloc, &x, &y),
        None => Ok(None),
    }
}

/// The form of a tree by that of each name; the names are those of sizes, and of variables under so many gens and sums.
#[cycle(form)]
pub fn form_folded(
    alloc: Global,
    sizes: &[SizeDecl],
    vars: u32,
    tree: &IxTree,
) -> Result<Option<Aff>, AllocError>
    requires { length sizes.now ≤ 2147483647 }
    ensures { IfOk result (λ o. o ≡ form_fold (form_named (map (λ d. d.name) sizes.now) vars) tree.now) }
{
    match tree {
        IxTree::Num(n) => number(alloc, *n),
        IxTree::Name(name) => form_named(alloc, sizes, vars, name.as_str()),
        IxTree::Neg(a) => {
            let a = form_folded(alloc, sizes, vars, a.get())?;
            negated(alloc, a)
        }
        IxTree::Add(a, b) => {
            let a = form_folded(alloc, sizes, vars, a.get());
            let b = form_folded(alloc, sizes, vars, b.get());
            let (a, b) = two(a, b)?;
            added(alloc, a, b)
        }
        IxTree::Sub(a, b) => {
            let a = form_folded(alloc, sizes, vars, a.get());
            let b = form_folded(alloc, sizes, vars, b.get());
            let (a, b) = two(a, b)?;
            subtracted(alloc, a, b)
        }
        IxTree::Mul(a, b) => {
            let a = form_folded(alloc, sizes, vars, a.get());
            let b = form_folded(alloc, sizes, vars, b.get());
            let (a, b) = two(a, b)?;
            multiplied(alloc, a, b)
        }
        IxTree::Div(a, by) => {
            let a = form_folded(alloc, sizes, vars, a.get())?;
            divided(alloc, a, *by)
        }
        IxTree::Rem(a, by) => {
            let a = form_folded(alloc, sizes, vars, a.get())?;
            left_by(alloc, a, *by)
        }
    }
}

/// The form of an index expression, if each name in it has one, and each number and operator is within the limits.
#[tactic(auto, using(crate::proofs::Folds::form_fold_laws))]
pub fn form(
    alloc: Global,
    sizes: &[SizeDecl],
    vars: u32,
    tree: &IxTree,
) -> Result<Option<Aff>, AllocError>
    requires { length sizes.now ≤ 2147483647 }
    ensures { IfOk result (λ o. o ≡ form_of (form_named (map (λ d. d.name) sizes.now) vars) tree.now) }
{
    form_folded(alloc, sizes, vars, tree)
}

fn at_least(form: Option<Aff>) -> Option<Cmp>
    ensures { result ≡ option_map Cmp.Ge form }
{
    match form {
        Some(form) => Some(Cmp::Ge(form)),
        None => None,
    }
}

fn equal(form: Option<Aff>) -> Option<Cmp>
    ensures { result ≡ option_map Cmp.Eq form }
{
    match form {
        Some(form) => Some(Cmp::Eq(form)),
        None => None,
    }
}

fn below(alloc: Global, x: &Aff, y: &Aff) -> Result<Option<Aff>, AllocError>
    ensures { IfOk result (λ o. o ≡ where_normal (rest_below y.now x.now)) }
{
    match rest_if_normal(alloc, y, x) {
        Ok(form) => Ok(form),
        Err(_) => Err(AllocError),
    }
}

fn compared(alloc: Global, rel: Rel, x: &Aff, y: &Aff) -> Result<Option<Cmp>, AllocError>
    ensures { IfOk result (λ o. o ≡ spec.compared rel x.now y.now) }
{
    match rel {
        Rel::Lt => Ok(at_least(below(alloc, x, y)?)),
        Rel::Le => Ok(at_least(difference(alloc, y, x)?)),
        Rel::Gt => Ok(at_least(below(alloc, y, x)?)),
        Rel::Ge => Ok(at_least(difference(alloc, x, y)?)),
        Rel::Eq => Ok(equal(difference(alloc, x, y)?)),
    }
}

#[tactic(auto, using(crate::proofs::FormLaws::pair_laws))]
fn comparison(
    alloc: Global,
    sizes: &[SizeDecl],
    vars: u32,
    tree: &Comparison,
) -> Result<Option<Cmp>, AllocError>
    requires { length sizes.now ≤ 2147483647 }
    ensures { IfOk result (λ o. o ≡ spec.comparison_of (form_named (map (λ d. d.name) sizes.now) vars) tree.now) }
{
    let left = form(alloc, sizes, vars, tree.left.get());
    let right = form(alloc, sizes, vars, tree.right.get());
    let (left, right) = two(left, right)?;
    match both(left, right) {
        Some((left, right)) => compared(alloc, tree.rel, &left, &right),
        None => Ok(None),
    }
}

/// The comparisons, if each has a form.
#[tactic(auto, using(crate::proofs::FormLaws::list_laws))]
pub fn comparisons(
    alloc: Global,
    sizes: &[SizeDecl],
    vars: u32,
    mut trees: &[Comparison],
) -> Result<Option<Items<Cmp>>, AllocError>
    requires { length sizes.now ≤ 2147483647 }
    ensures { IfOk result (λ o. o ≡ spec.comparisons_of (form_named (map (λ d. d.name) sizes.now) vars) trees.entry.now) }
{
    let mut found = Items::new(alloc);
    while let [first, rest @ ..] = trees {
        match comparison(alloc, sizes, vars, first)? {
            Some(cmp) => found.push(cmp)?,
            None => return Ok(None),
        }
        trees = rest;
    }
    Ok(Some(found))
}
