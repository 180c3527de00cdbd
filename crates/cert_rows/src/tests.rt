//! Rows worked by hand. Size 0 is N, in 0..8, and size 1 is M, in 0..5. The variable of one gen is i; those of two are i outside and j inside.

use crate::known::Node::{AtLeastZero, Binder, Zero};
use crate::known::{Node, facts, found, list, shows};
use crate::steps::Step::{Add, Div, Mul, Number, Size, Sub, Var};
use crate::steps::{Step, made};
use crate::text::text_of;
use affine_index::{Aff, Cmp};
use fact_list::Facts;
use linear_cert::Line;
use sqlite_items::Items;
use std::alloc::Global;
use std::process::Abort;
use std::test::Fail;

fn check_facts(rt: &impl Abort, alloc: Global, list: &[Cmp], texts: &[&str]) -> Result<(), Fail> {
    assert_eq!(rt; list.len(), texts.len());
    for at in 0..texts.len() {
        let found = text_of(alloc, &list[at])?;
        assert_eq!(rt; found.as_str(), texts[at]);
    }
    Ok(())
}

fn check_lines(rt: &impl Abort, lines: &[Line], pairs: &[(u32, i64)]) {
    assert_eq!(rt; lines.len(), pairs.len());
    for at in 0..pairs.len() {
        assert_eq!(rt; (lines[at].fact, lines[at].multiplier), pairs[at]);
    }
}

/// A goal has these facts, and the procedure ends with these lines, which show it.
fn check(
    rt: &impl Abort,
    alloc: Global,
    known: &Facts,
    goal: &[Step],
    texts: &[&str],
    lines: &[(u32, i64)],
) -> Result<(), Fail> {
    let goal = made(alloc, goal)?;
    check_facts(rt, alloc, list(alloc, known, &goal)?.as_slice(), texts)?;
    check_lines(rt, found(alloc, known, &goal)?.as_slice(), lines);
    assert!(rt; shows(alloc, known, &goal, lines)? == Some(lines.len() > 0));
    Ok(())
}

/// Whether lines show a goal.
fn check_shown(
    rt: &impl Abort,
    alloc: Global,
    known: &Facts,
    goal: &[Step],
    rows: &[(&[(u32, i64)], bool)],
) -> Result<(), Fail> {
    let goal = made(alloc, goal)?;
    for (lines, answer) in rows {
        assert!(rt; shows(alloc, known, &goal, lines)? == Some(*answer));
    }
    Ok(())
}

const BELOW_N: [Step; 5] = [Size(0), Var(0), Sub, Number(1), Sub];

/// The inner read of `gen i < N. (gen j < N. A[j])[i]`.
#[test]
fn a_read_below_its_extent_is_shown(rt: HostRuntime) -> Result<(), Fail> {
    let alloc = rt.alloc();
    let known = facts(alloc, &[(0, 8)], &[], &[Binder(&[Size(0)])])?;
    let texts = [
        "1*n0 + 0 >= 0",
        "-1*n0 + 8 >= 0",
        "1*i0 + 0 >= 0",
        "1*n0 + -1*i0 + -1 >= 0",
    ];
    check(&rt, alloc, &known, &[Var(0)], &texts, &[(0, 1), (3, 1)])?;
    check(&rt, alloc, &known, &BELOW_N, &texts, &[(0, 1), (4, 1)])?;
    let rows: [(&[(u32, i64)], bool); 8] = [
        (&[(4, 1)], true),
        (&[(0, 1), (4, 1)], true),
        (&[(4, 2)], false),
        (&[(5, 1)], false),
        (&[(0, 1), (4, 1), (4, 0)], false),
        (&[(0, 1), (4, 2), (4, -1)], false),
        (&[(0, -1), (4, -1)], false),
        (&[], false),
    ];
    check_shown(&rt, alloc, &known, &BELOW_N, &rows)
}

/// Under `gen i < N. guard i < 0`, where facts 3 and 5 contradict each other and show anything.
#[test]
fn what_contradicts_itself_shows_anything(rt: HostRuntime) -> Result<(), Fail> {
    let alloc = rt.alloc();
    let nodes: [Node; 2] = [Binder(&[Size(0)]), AtLeastZero(&[Number(-1), Var(0), Sub])];
    let known = facts(alloc, &[(0, 8)], &[], &nodes)?;
    let texts = [
        "1*n0 + 0 >= 0",
        "-1*n0 + 8 >= 0",
        "1*i0 + 0 >= 0",
        "1*n0 + -1*i0 + -1 >= 0",
        "-1*i0 + -1 >= 0",
    ];
    let moved = [Var(0), Size(0), Add];
    check(
        &rt,
        alloc,
        &known,
        &moved,
        &texts,
        &[(0, 1), (1, 1), (3, 1)],
    )?;
    let below = [Number(-1), Var(0), Sub];
    check(&rt, alloc, &known, &below, &texts, &[(0, 1), (5, 1)])?;
    let rows: [(&[(u32, i64)], bool); 2] = [
        (&[(0, 0), (3, 1), (5, 1)], true),
        (&[(0, 0), (3, 1)], false),
    ];
    check_shown(&rt, alloc, &known, &below, &rows)
}

/// An equation of a guard is added or taken away, and its variables are moved under the gen after it.
#[test]
fn an_equation_is_taken_either_way(rt: HostRuntime) -> Result<(), Fail> {
    let alloc = rt.alloc();
    let nodes: [Node; 3] = [
        Binder(&[Size(0)]),
        Zero(&[Var(0), Number(3), Sub]),
        Binder(&[Size(1)]),
    ];
    let known = facts(alloc, &[(0, 8), (0, 5)], &[], &nodes)?;
    let texts = [
        "1*n0 + 0 >= 0",
        "-1*n0 + 8 >= 0",
        "1*n1 + 0 >= 0",
        "-1*n1 + 5 >= 0",
        "1*i1 + 0 >= 0",
        "1*n0 + -1*i1 + -1 >= 0",
        "1*i1 + -3 == 0",
        "1*i0 + 0 >= 0",
        "1*n1 + -1*i0 + -1 >= 0",
    ];
    let at_least = [Var(1), Number(3), Sub];
    check(&rt, alloc, &known, &at_least, &texts, &[(0, 1), (7, 1)])?;
    let at_most = [Number(3), Var(1), Sub];
    check(&rt, alloc, &known, &at_most, &texts, &[(0, 1), (7, -1)])
}

/// A quotient of the variable of a gen.
#[test]
fn a_quotient_is_bounded(rt: HostRuntime) -> Result<(), Fail> {
    let alloc = rt.alloc();
    let known = facts(alloc, &[(0, 8)], &[], &[Binder(&[Size(0)])])?;
    let texts = [
        "1*n0 + 0 >= 0",
        "-1*n0 + 8 >= 0",
        "1*i0 + 0 >= 0",
        "1*n0 + -1*i0 + -1 >= 0",
        "1*i0 + -2*(1*i0 + 0)/2 + 0 >= 0",
        "-1*i0 + 2*(1*i0 + 0)/2 + 1 >= 0",
    ];
    let goal = [Size(0), Var(0), Div(2), Sub, Number(1), Sub];
    check(
        &rt,
        alloc,
        &known,
        &goal,
        &texts,
        &[(0, 2), (1, 1), (4, 1), (5, 1)],
    )
}

/// The first place of a window, by an assume.
#[test]
fn an_assume_is_tried(rt: HostRuntime) -> Result<(), Fail> {
    let alloc = rt.alloc();
    let known = facts(
        alloc,
        &[(0, 8), (0, 5)],
        &[&[Size(0), Size(1), Sub]],
        &[Binder(&[Size(0)])],
    )?;
    let texts = [
        "1*n0 + 0 >= 0",
        "-1*n0 + 8 >= 0",
        "1*n1 + 0 >= 0",
        "-1*n1 + 5 >= 0",
        "1*n0 + -1*n1 + 0 >= 0",
        "1*i0 + 0 >= 0",
        "1*n0 + -1*i0 + -1 >= 0",
    ];
    let shown = [Size(0), Size(1), Sub, Var(0), Add];
    check(
        &rt,
        alloc,
        &known,
        &shown,
        &texts,
        &[(0, 1), (5, 1), (6, 1)],
    )?;
    let not_shown = [Size(0), Size(1), Sub, Var(0), Add, Number(1), Sub];
    check(&rt, alloc, &known, &not_shown, &texts, &[])
}

/// A read of a flattened matrix.
#[test]
fn a_product_is_bounded(rt: HostRuntime) -> Result<(), Fail> {
    let alloc = rt.alloc();
    let nodes: [Node; 2] = [Binder(&[Size(0)]), Binder(&[Size(1)])];
    let known = facts(alloc, &[(0, 8), (0, 5)], &[], &nodes)?;
    let texts = [
        "1*n0 + 0 >= 0",
        "-1*n0 + 8 >= 0",
        "1*n1 + 0 >= 0",
        "-1*n1 + 5 >= 0",
        "1*i1 + 0 >= 0",
        "1*n0 + -1*i1 + -1 >= 0",
        "1*i0 + 0 >= 0",
        "1*n1 + -1*i0 + -1 >= 0",
        "1*(n0.n1.) + 0 >= 0",
        "1*(n0.n1.) + 0 >= 0",
        "8*n1 + -1*(n0.n1.) + 0 >= 0",
        "1*(n0.n1.) + 0 >= 0",
        "5*n0 + -1*(n0.n1.) + 0 >= 0",
        "1*(n1.i1.) + 0 >= 0",
        "1*(n1.i1.) + 0 >= 0",
        "5*i1 + -1*(n1.i1.) + 0 >= 0",
        "-1*n1 + 1*(n0.n1.) + -1*(n1.i1.) + 0 >= 0",
    ];
    let goal = [
        Size(0),
        Size(1),
        Mul,
        Var(1),
        Size(1),
        Mul,
        Sub,
        Var(0),
        Sub,
        Number(1),
        Sub,
    ];
    check(
        &rt,
        alloc,
        &known,
        &goal,
        &texts,
        &[(0, 1), (8, 1), (17, 1)],
    )
}

/// The product of the first sizes.
fn product(alloc: Global, count: u32) -> Result<Aff, Fail> {
    let mut product = Aff::literal(alloc, 1)?;
    for size in 0..count {
        product = product.mul(alloc, &Aff::size(alloc, size)?)?;
    }
    Ok(product)
}

#[test]
fn a_list_ends_at_2000_facts(rt: HostRuntime) -> Result<(), Fail> {
    let alloc = rt.alloc();
    let known = facts(alloc, &[(1, 1000); 60], &[], &[])?;
    let goal = product(alloc, 60)?;
    assert_eq!(rt; list(alloc, &known, &goal)?.len(), 2000);
    Ok(())
}
