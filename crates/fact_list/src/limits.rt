//! The bounds of sizes, variables and quotients.
#![tactic(auto, using(crate::proofs::CodeLaws::limit_laws))]

ghost use Rattle.std.specs.Prelude.{◌≡◌, ◌+◌, ◌<◌, ◌++◌, pos, IfOk, OnOk, Some};
ghost use Rattle.std.specs.Option.{option_copied};
ghost use Rattle.fact_list.specs.Facts.{NormalAtom, above_low, above_quotient, below_high, below_next_quotient, binders, extent_at, where_normal, limit_if, limits_of, quotient_limits, size_limits, var_limits};
ghost use Rattle.affine_index.specs.declared.form.Atom.TheVariants.{Div};

use crate::facts::{Facts, PathFact, SizeBounds};
use crate::forms::{difference, single, single_normal};
use crate::items::formed;
use crate::refusal::CertRefusal;
use crate::role::Side;
use affine_index::raw::copy_items;
use affine_index::{Aff, Atom};
use sqlite_items::{Boxed, Items};
use std::alloc::Global;

/// A form that is at least 0, and so bounds an atom from a side.
#[derive(Drop)]
pub struct Limit {
    pub side: Side,
    pub form: Aff,
}

/// The number of binders on a path.
pub fn binders(path: &[PathFact]) -> usize
    ensures { result ≡ binders path.now }
{
    let mut count = 0;
    for fact in path {
        match fact {
            PathFact::Bound(_) => count += 1,
            PathFact::Holds(_) => {}
        }
    }
    count
}

/// The extent of a variable at the end of a path.
fn extent_at(path: &[PathFact], var: u32) -> Option<&Aff>
    ensures { option_copied result ≡ extent_at path.now var }
{
    let mut after = binders(path);
    for fact in path {
        if let PathFact::Bound(extent) = fact {
            after -= 1;
            if var as usize == after {
                return Some(extent);
            }
        }
    }
    None
}

fn push_limit(limits: &mut Items<Limit>, side: Side, form: Option<Aff>) -> Result<(), CertRefusal>
    ensures { OnOk result (limits.new ≡ limits.old ++ limit_if side form) }
{
    if let Some(form) = form {
        limits.push(Limit { side, form })?;
    }
    Ok(())
}

/// A size less its lower bound.
pub fn above_low(alloc: Global, size: u32, low: u64) -> Result<Option<Aff>, CertRefusal>
    ensures { IfOk result (λ form. form ≡ where_normal (above_low size low)) }
{
    single_normal(alloc, 1, Atom::Size(size), -i128::from(low))
}

/// The upper bound of a size less it.
pub fn below_high(alloc: Global, size: u32, high: u64) -> Result<Option<Aff>, CertRefusal>
    ensures { IfOk result (λ form. form ≡ where_normal (below_high size high)) }
{
    single_normal(alloc, -1, Atom::Size(size), i128::from(high))
}

fn size_limits(alloc: Global, size: u32, bounds: &SizeBounds) -> Result<Items<Limit>, CertRefusal>
    ensures { IfOk result (λ limits. limits ≡ size_limits size (Some bounds.now)) }
{
    let low = above_low(alloc, size, bounds.low)?;
    let high = below_high(alloc, size, bounds.high)?;
    let mut limits = Items::new(alloc);
    push_limit(&mut limits, Side::Lower, low)?;
    push_limit(&mut limits, Side::Upper, high)?;
    Ok(limits)
}

fn var_limits(alloc: Global, var: u32, extent: &Aff) -> Result<Items<Limit>, CertRefusal>
    ensures { IfOk result (λ limits. limits ≡ var_limits var (Some extent.now)) }
{
    let next = single(alloc, 1, Atom::Var(var), 1)?;
    let below = difference(alloc, extent, &next)?;
    let mut limits = Items::new(alloc);
    push_limit(&mut limits, Side::Upper, below)?;
    Ok(limits)
}

/// A quotient times its divisor, and a remainder.
fn quotient_times(
    alloc: Global,
    dividend: &affine_index::Items,
    divisor: u32,
    rest: u32,
) -> Result<Aff, CertRefusal>
    requires normal { NormalAtom (Div dividend.now divisor) }
    requires below { rest < divisor + 1 }
    ensures { IfOk result (λ form. form ≡ Rattle.fact_list.specs.Facts.single (pos divisor) (Div dividend.now divisor) (pos rest)) }
{
    let inside = Boxed::new(alloc, copy_items(alloc, dividend)?)?;
    single(
        alloc,
        i64::from(divisor),
        Atom::Div(inside, divisor),
        i64::from(rest),
    )
}

/// A dividend less its quotient times the divisor.
fn above_quotient(
    alloc: Global,
    dividend: &affine_index::Items,
    divisor: u32,
) -> Result<Option<Aff>, CertRefusal>
    requires { NormalAtom (Div dividend.now divisor) }
    ensures { IfOk result (λ form. form ≡ where_normal (above_quotient dividend.now divisor)) }
{
    let whole = formed(alloc, dividend)?;
    let times = quotient_times(alloc, dividend, divisor, 0)?;
    difference(alloc, &whole, &times)
}

/// What a dividend may grow by before its quotient does.
fn below_next_quotient(
    alloc: Global,
    dividend: &affine_index::Items,
    divisor: u32,
) -> Result<Option<Aff>, CertRefusal>
    requires { NormalAtom (Div dividend.now divisor) }
    ensures { IfOk result (λ form. form ≡ where_normal (below_next_quotient dividend.now divisor)) }
{
    let whole = formed(alloc, dividend)?;
    let next = quotient_times(alloc, dividend, divisor, divisor - 1)?;
    difference(alloc, &next, &whole)
}

fn quotient_limits(
    alloc: Global,
    dividend: &affine_index::Items,
    divisor: u32,
) -> Result<Items<Limit>, CertRefusal>
    requires { NormalAtom (Div dividend.now divisor) }
    ensures { IfOk result (λ limits. limits ≡ quotient_limits dividend.now divisor) }
{
    let above = above_quotient(alloc, dividend, divisor)?;
    let below = below_next_quotient(alloc, dividend, divisor)?;
    let mut limits = Items::new(alloc);
    push_limit(&mut limits, Side::Upper, above)?;
    push_limit(&mut limits, Side::Lower, below)?;
    Ok(limits)
}

/// The bounds of a size, a variable or a quotient that are within the limits of normal forms.
pub fn limits_of(alloc: Global, facts: &Facts, atom: &Atom) -> Result<Items<Limit>, CertRefusal>
    requires { NormalAtom atom.now }
    ensures { IfOk result (λ limits. limits ≡ limits_of facts.now atom.now) }
{
    match atom {
        Atom::Size(size) => match facts.sizes.get(*size as usize) {
            Some(bounds) => size_limits(alloc, *size, bounds),
            None => Ok(Items::new(alloc)),
        },
        Atom::Var(var) => match extent_at(facts.path.as_slice(), *var) {
            Some(extent) => var_limits(alloc, *var, extent),
            None => Ok(Items::new(alloc)),
        },
        Atom::Div(dividend, divisor) => quotient_limits(alloc, dividend.get(), *divisor),
        Atom::Mul(_) => Ok(Items::new(alloc)),
    }
}
