//! Rows worked by hand. Size 0 is N, size 1 is M, variable 0 is i and variable 1 is j, the outer of the two.

use crate::steps::Step::{
    Add, Copied, Div, Mul, Number, PutBoth, PutVar, Rem, Scale, Shift, Size, Sub, Var,
};
use crate::steps::{Step, made};
use crate::text::text_of;
use affine_index::{Aff, AffRefusal};
use std::alloc::{AllocError, Global};
use std::process::Abort;
use std::test::Fail;

/// The text of the form that steps end with, or the name of the refusal.
fn answer(alloc: Global, steps: &[Step]) -> Result<String, AllocError> {
    match made(alloc, steps) {
        Ok(form) => text_of(alloc, form.items()),
        Err(refusal) => format!(in alloc; "{refusal:?}"),
    }
}

fn check(rt: &impl Abort, alloc: Global, rows: &[(&[Step], &str)]) -> Result<(), Fail> {
    for (steps, text) in rows {
        let found = answer(alloc, steps)?;
        assert_eq!(rt; found.as_str(), *text);
    }
    Ok(())
}

#[test]
fn operations_end_in_the_normal_form(rt: HostRuntime) -> Result<(), Fail> {
    let rows: [(&[Step], &str); 8] = [
        (
            &[Var(0), Number(3), Add, Size(0), Scale(8), Add],
            "8*n0 + 1*i0 + 3",
        ),
        (
            &[Var(0), Number(3), Add, Size(0), Scale(8), Add, Div(4)],
            "2*n0 + 1*(1*i0 + 3)/4 + 0",
        ),
        (
            &[Var(0), Number(3), Add, Div(4), Copied],
            "1*(1*i0 + 3)/4 + 0",
        ),
        (&[Size(0), Number(1), Sub, Div(2)], "1*(1*n0 + 1)/2 + -1"),
        (&[Var(0), Rem(4)], "1*i0 + -4*(1*i0 + 0)/4 + 0"),
        (
            &[Var(0), Number(3), Add, Size(0), Number(1), Sub, Mul],
            "3*n0 + -1*i0 + 1*(n0.i0.) + -3",
        ),
        (&[Number(7), Div(2)], "3"),
        (&[Number(-7), Rem(2)], "1"),
    ];
    check(&rt, rt.alloc(), &rows)
}

#[test]
fn variables_are_put_and_moved(rt: HostRuntime) -> Result<(), Fail> {
    let rows: [(&[Step], &str); 7] = [
        (&[Var(1), Var(0), Scale(5), Add], "1*i1 + 5*i0 + 0"),
        (
            &[Var(1), Var(0), Scale(5), Add, Size(0), PutVar(0)],
            "5*n0 + 1*i0 + 0",
        ),
        (
            &[Var(2), Var(0), Add, Size(0), PutVar(1)],
            "1*i1 + 1*i0 + 0",
        ),
        (
            &[Var(1), Var(0), Scale(5), Add, Var(0), Var(1), PutBoth],
            "5*i1 + 1*i0 + 0",
        ),
        (&[Var(2), Number(4), Number(5), PutBoth], "0"),
        (&[Var(1), Shift(1, 2)], "1*i3 + 0"),
        (&[Var(0), Shift(1, 2)], "1*i0 + 0"),
    ];
    check(&rt, rt.alloc(), &rows)
}

#[test]
fn forms_that_break_a_limit_are_refused(rt: HostRuntime) -> Result<(), Fail> {
    let rows: [(&[Step], &str); 6] = [
        (&[Size(0), Scale(1 << 40)], "1099511627776*n0 + 0"),
        (
            &[Size(0), Scale(1 << 40), Size(0), Add],
            "CoefficientTooLarge",
        ),
        (
            &[Size(0), Scale(1 << 40), Size(0), Scale(1 << 40), Sub],
            "0",
        ),
        (&[Var(0), Size(0), Mul, Var(1), Mul], "NotAffine"),
        (&[Var(0), Size(0), Mul, Size(1), Mul], "1*(n0.n1.i0.) + 0"),
        (
            &[Var(0), Scale(1 << 40), Scale(2), Var(0), Mul],
            "CoefficientTooLarge",
        ),
    ];
    check(&rt, rt.alloc(), &rows)
}

/// The sum of the first sizes.
fn sizes(alloc: Global, count: u32) -> Result<Aff, AffRefusal> {
    let mut sum = Aff::literal(alloc, 0)?;
    for size in 0..count {
        sum = sum.add(alloc, &Aff::size(alloc, size)?)?;
    }
    Ok(sum)
}

#[test]
fn the_atom_past_128_is_one_too_many(rt: HostRuntime) -> Result<(), Fail> {
    let alloc = rt.alloc();
    let longest = sizes(alloc, 128)?;
    assert_eq!(rt; longest.items().terms.len(), 128);
    assert!(rt; matches!(sizes(alloc, 129), Err(AffRefusal::IndexTooLong)));
    Ok(())
}

/// The value of a form whose sizes and variables are there.
fn value(form: &Aff, sizes: &[u64], vars: &[u64]) -> Option<i128> {
    if !form.is_scoped(sizes.len(), vars.len()) {
        return None;
    }
    form.value(sizes, vars)
}

/// The magnitude of a form whose sizes and variables are there.
fn mag(form: &Aff, maxima: &[u64], vars: &[u64]) -> Option<u64> {
    if !form.is_scoped(maxima.len(), vars.len()) {
        return None;
    }
    Some(form.mag(maxima, vars))
}

#[test]
fn values_stop_at_2_to_the_120(rt: HostRuntime) -> Result<(), Fail> {
    let alloc = rt.alloc();
    let product = made(alloc, &[Size(0), Size(1), Mul])?;
    let large = 1u64 << 60;
    assert!(rt; value(&product, &[large, large], &[]).is_none());
    assert!(rt; value(&product, &[large, large - 1], &[]) == Some((1 << 120) - (1 << 60)));
    let floor = made(alloc, &[Size(0), Var(0), Sub, Div(2)])?;
    assert!(rt; value(&floor, &[0], &[5]) == Some(-3));
    Ok(())
}

#[test]
fn magnitudes_stop_at_2_to_the_63(rt: HostRuntime) -> Result<(), Fail> {
    let form = made(rt.alloc(), &[Size(0), Scale(-(1 << 40))])?;
    assert!(rt; mag(&form, &[(1 << 23) - 1], &[]) == Some((1 << 63) - (1 << 40)));
    assert!(rt; mag(&form, &[1 << 23], &[]) == Some(1 << 63));
    assert!(rt; mag(&form, &[1 << 60], &[]) == Some(1 << 63));
    Ok(())
}

#[test]
fn numbers_are_compared_at_every_depth(rt: HostRuntime) -> Result<(), Fail> {
    let alloc = rt.alloc();
    let form = made(alloc, &[Var(3), Size(1), Mul, Div(2), Number(1), Add])?;
    assert!(rt; form.is_scoped(2, 4));
    assert!(rt; !form.is_scoped(2, 3));
    assert!(rt; !form.is_scoped(1, 4));
    let again = made(alloc, &[Size(1), Var(3), Mul, Number(2), Add, Div(2)])?;
    assert!(rt; form.same(&again));
    let other = made(alloc, &[Size(1), Var(3), Mul, Number(3), Add, Div(2)])?;
    assert!(rt; !form.same(&other));
    Ok(())
}
