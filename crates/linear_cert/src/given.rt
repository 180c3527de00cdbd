//! Whether lines show a goal.
#![tactic(auto, using(crate::proofs::LineLaws::line_laws))]

ghost use Rattle.std.specs.Prelude.{true, ◌≡◌, ◌+◌, ◌*◌, ◌^◌, ◌<◌, ◌≤◌, length, IfOk, IsTrue};
ghost use Rattle.affine_index.specs.Sum.{scaled, sum_of};
ghost use Rattle.affine_index.specs.Wide.{norm};
ghost use Rattle.affine_index.specs.declared.form.Items.{Items};
ghost use Rattle.linear_cert.specs.Shown.{first_total, form_or_zero, is_negative_constant, line_sum, lines_good, lines_show, may_take, may_take_some, names_fact, negated, numbered};

use crate::lines::Line;
use affine_index::raw::{Wide, copied, scaled, sum};
use affine_index::{Aff, Cmp};
use fact_list::{CertRefusal, Fact, form_of, number};
use std::alloc::Global;

fn names_fact(number: u32, lines: &[Line]) -> bool
    ensures { result ≡ names_fact number lines.now }
{
    for line in lines {
        if number == line.fact {
            return true;
        }
    }
    false
}

fn may_take(multiplier: i64, cmp: &Cmp) -> bool
    ensures { result ≡ may_take multiplier cmp.now }
{
    match cmp {
        Cmp::Ge(_) => multiplier >= 0,
        Cmp::Eq(_) => true,
    }
}

fn line_good(facts: &[Fact], line: &Line) -> bool
    ensures { (goal : Items) → result ≡ may_take_some line.now.multiplier (numbered facts.now goal line.now.fact) }
{
    if line.fact == 0 {
        return line.multiplier >= 0;
    }
    match facts.get(line.fact as usize - 1) {
        Some(fact) => may_take(line.multiplier, &fact.cmp),
        None => false,
    }
}

fn lines_good(facts: &[Fact], lines: &[Line]) -> bool
    ensures { (goal : Items) → result ≡ lines_good facts.now goal lines.now }
{
    for i in 0..lines.len() {
        let line = &lines[i];
        if !line_good(facts, line) {
            return false;
        }
        if names_fact(line.fact, &lines[i + 1..]) {
            return false;
        }
    }
    true
}

/// The negated goal, which may break the limits.
fn negated(alloc: Global, goal: &Aff) -> Result<Wide, CertRefusal>
    ensures form { IfOk result (λ form. form ≡ negated goal.now) }
    ensures small { IfOk result (λ form. norm form ≤ 2 ^ 49) }
{
    let form = copied(alloc, goal)?;
    let minus = scaled(alloc, -1, form)?;
    let one = number(alloc, -1)?;
    Ok(sum(alloc, one, minus)?)
}

/// The form of a fact, or the negated goal for number 0.
fn form_at(alloc: Global, facts: &[Fact], goal: &Aff, number: u32) -> Result<Wide, CertRefusal>
    requires { number ≤ length facts.now }
    ensures form { IfOk result (λ form. form ≡ form_or_zero (numbered facts.now goal.now number)) }
    ensures small { IfOk result (λ form. norm form ≤ 2 ^ 49) }
{
    if number == 0 {
        return negated(alloc, goal);
    }
    let fact = form_of(&facts[number as usize - 1].cmp);
    let form = copied(alloc, fact)?;
    Ok(form)
}

/// A total with a form times a multiplier.
fn added(alloc: Global, total: Wide, multiplier: i64, form: Wide) -> Result<Wide, CertRefusal>
    requires room { norm total ≤ 2 ^ 126 }
    requires small { norm form ≤ 2 ^ 49 }
    ensures form { IfOk result (λ more. more ≡ sum_of total (scaled multiplier form)) }
    ensures norm { IfOk result (λ more. norm more ≤ norm total + 2 ^ 112) }
{
    let product = scaled(alloc, i128::from(multiplier), form)?;
    let more = sum(alloc, total, product)?;
    Ok(more)
}

/// The negated goal, unless it is named.
fn first_total(alloc: Global, goal: &Aff, named: bool) -> Result<Wide, CertRefusal>
    ensures form { IfOk result (λ total. total ≡ first_total goal.now named) }
    ensures norm { IfOk result (λ total. norm total ≤ 2 ^ 112) }
{
    let total = number(alloc, 0)?;
    if named {
        return Ok(total);
    }
    let form = negated(alloc, goal)?;
    added(alloc, total, 1, form)
}

/// The sum of the facts of lines times their multipliers.
fn line_sum(alloc: Global, facts: &[Fact], goal: &Aff, lines: &[Line]) -> Result<Wide, CertRefusal>
    requires few { length facts.now ≤ 2000 }
    requires good { lines_good facts.now goal.now lines.now ≡ true }
    ensures { IfOk result (λ total. total ≡ line_sum facts.now goal.now lines.now) }
{
    let mut total = first_total(alloc, goal, names_fact(0, lines))?;
    for i in 0..lines.len() {
        let line = &lines[i];
        let form = form_at(alloc, facts, goal, line.fact)?;
        total = added(alloc, total, line.multiplier, form)?;
    }
    Ok(total)
}

/// Whether lines show a goal by a list of facts.
pub fn lines_show(
    alloc: Global,
    facts: &[Fact],
    goal: &Aff,
    lines: &[Line],
) -> Result<bool, CertRefusal>
    requires { length facts.now ≤ 2000 }
    ensures { IfOk result (λ shown. shown ≡ lines_show facts.now goal.now lines.now) }
{
    if !lines_good(facts, lines) {
        return Ok(false);
    }
    let total = line_sum(alloc, facts, goal, lines)?;
    Ok(total.terms().len() == 0 && total.constant() < 0)
}
