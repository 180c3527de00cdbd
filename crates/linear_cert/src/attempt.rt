//! One attempt of the procedure of default lines.
#![tactic(auto, using(crate::proofs::AttemptLaws::attempt_laws))]

ghost use Rattle.std.specs.Prelude.{true, ◌≡◌, ◌+◌, ◌*◌, ◌^◌, ◌<◌, ◌≤◌, ◌+ℤ◌, ◌*ℤ◌, ℕ, suc, pos, eqb, if◌then◌else◌, length, IfOk, IfSome, MatchOption, None};
ghost use Rattle.std.specs.Int.{IsGcd};
ghost use Rattle.std.specs.Int.RustNames.{unsigned_abs};
ghost use Rattle.affine_index.specs.Sum.{difference_of, scaled};
ghost use Rattle.affine_index.specs.Wide.{norm};
ghost use Rattle.fact_list.specs.Normal.{AllNormal};
ghost use Rattle.linear_cert.specs.Roles.{Mapped};
ghost use Rattle.linear_cert.specs.Room.{Room, StepOf};
ghost use Rattle.linear_cert.specs.DefaultLines.{add_at, all_times, fact_form, less_fact, limited_attempt, multiplier_fits, multipliers_fit, needed, replaced};

use crate::choice::{chosen, chosen_factor, divisor_of, find_fact, side_for};
use affine_index::Aff;
use affine_index::raw::{Wide, copied, scaled, sum};
use fact_list::{CertRefusal, Fact, form_of};
use sqlite_items::Items;
use std::alloc::Global;

/// The largest multiplier.
const LARGEST: u64 = 1 << 31;

/// What is left of a goal as often as it was taken, and how often each fact was subtracted.
#[derive(Drop)]
pub struct Attempt {
    pub left: Wide,
    pub goal_times: u64,
    pub times: Items<i64>,
}

/// All times a number, and then less a fact so often.
#[derive(Drop, Clone, Copy)]
pub struct Step {
    pub by: u64,
    pub amount: u64,
    pub fact: usize,
}

fn gcd(a: u128, b: u128) -> u128
    ensures { IsGcd a b result }
{
    let mut a = a;
    let mut b = b;
    while b > 0 {
        let rest = a % b;
        a = b;
        b = rest;
    }
    a
}

/// The least number by which a coefficient has to be taken so that a divisor divides it.
fn needed(size: u128, divisor: u32) -> u64
    requires { 0 < divisor }
    ensures is { result ≡ needed size divisor }
    ensures some { 0 < result }
    ensures most { result ≤ divisor }
{
    let divisor = u128::from(divisor);
    (divisor / gcd(size, divisor)) as u64
}

/// The next step of an attempt, or None where it fails for want of a fact or for the size of a multiplier.
fn step_of(facts: &[Fact], places: &[usize], attempt: &Attempt) -> Option<Step>
    requires mapped { Mapped facts.now (length facts.now) places.now }
    requires room { Room facts.now 512 attempt.now }
    ensures { MatchOption result (replaced facts.now attempt.now ≡ None) (λ step. StepOf facts.now attempt.now step) }
{
    let at = chosen(&attempt.left)?;
    let item = attempt.left.terms().get(at);
    let factor = chosen_factor(item.atom());
    let side = side_for(item.coefficient());
    let fact = find_fact(facts, places, side, item.atom(), factor)?;
    let divisor = divisor_of(factor);
    let size = item.coefficient().unsigned_abs();
    let by = needed(size, divisor);
    if by * attempt.goal_times > LARGEST {
        return None;
    }
    let amount = size * u128::from(by) / u128::from(divisor);
    if amount > 2 * u128::from(LARGEST) {
        return None;
    }
    Some(Step {
        by,
        amount: amount as u64,
        fact,
    })
}

fn next_time(time: i64, by: u64, more: u64) -> i64
    requires time { unsigned_abs time ≤ 2 ^ 31 }
    requires few { by ≤ 2 ^ 31 }
    requires small { more ≤ 2 ^ 32 }
    ensures { result ≡ (pos by *ℤ time) +ℤ pos more }
{
    by as i64 * time + more as i64
}

fn only_at(i: usize, at: usize, amount: u64) -> u64
    ensures is { result ≡ if eqb i at then amount else 0 }
    ensures most { result ≤ amount }
{
    if i == at { amount } else { 0 }
}

/// Multipliers times a number, and one of them more.
fn more_times(
    alloc: Global,
    times: &[i64],
    by: u64,
    at: usize,
    amount: u64,
) -> Result<Items<i64>, CertRefusal>
    requires fit { multipliers_fit times.now ≡ true }
    requires few { by ≤ 2 ^ 31 }
    requires small { amount ≤ 2 ^ 32 }
    ensures { IfOk result (λ more. more ≡ add_at (all_times by times.now) at (pos amount)) }
{
    let mut more = Items::new(alloc);
    for i in 0..times.len() {
        let time = next_time(times[i], by, only_at(i, at, amount));
        more.push(time)?;
    }
    Ok(more)
}

/// One multiplier more, where all else stays as it is.
fn one_more(times: Items<i64>, at: usize, amount: u64) -> Items<i64>
    requires fit { multipliers_fit times ≡ true }
    requires within { at < length times }
    requires small { amount ≤ 2 ^ 32 }
    ensures { result ≡ add_at (all_times 1 times) at (pos amount) }
{
    let mut times = times;
    let time = next_time(times.as_slice()[at], 1, amount);
    times.set(at, time);
    times
}

/// The multipliers after a step. Constant where the number is 1, else linear.
fn next_times(alloc: Global, times: Items<i64>, step: Step) -> Result<Items<i64>, CertRefusal>
    requires fit { multipliers_fit times ≡ true }
    requires within { step.fact < length times }
    requires few { step.by ≤ 2 ^ 31 }
    requires small { step.amount ≤ 2 ^ 32 }
    ensures { IfOk result (λ more. more ≡ add_at (all_times step.by times) step.fact (pos step.amount)) }
{
    if step.by == 1 {
        return Ok(one_more(times, step.fact, step.amount));
    }
    let more = more_times(alloc, times.as_slice(), step.by, step.fact, step.amount)?;
    Ok(more)
}

fn multipliers_fit(times: &[i64]) -> bool
    ensures { result ≡ multipliers_fit times.now }
{
    for i in 0..times.len() {
        if times[i].unsigned_abs() > LARGEST {
            return false;
        }
    }
    true
}

/// A form times a number: 1 changes nothing.
fn multiplied(alloc: Global, by: u64, form: Wide) -> Result<Wide, CertRefusal>
    requires { by * norm form ≤ 2 ^ 122 }
    ensures { IfOk result (λ more. more ≡ scaled (pos by) form) }
{
    if by == 1 {
        return Ok(form);
    }
    let more = scaled(alloc, i128::from(by), form)?;
    Ok(more)
}

/// A form times a number, less another as often as given.
fn less(alloc: Global, left: Wide, by: u64, form: &Aff, amount: u64) -> Result<Wide, CertRefusal>
    requires room { by * norm left ≤ 2 ^ 122 }
    requires small { amount ≤ 2 ^ 32 }
    ensures { IfOk result (λ less. less ≡ difference_of (scaled (pos by) left) (scaled (pos amount) form.now)) }
{
    let whole = multiplied(alloc, by, left)?;
    let taken = scaled(alloc, i128::from(amount), copied(alloc, form)?)?;
    let minus = scaled(alloc, -1, taken)?;
    Ok(sum(alloc, whole, minus)?)
}

/// An attempt after a step, if its multipliers are within the limit.
fn after_step(
    alloc: Global,
    facts: &[Fact],
    attempt: Attempt,
    step: Step,
) -> Result<Option<Attempt>, CertRefusal>
    requires room { Room facts.now 512 attempt }
    requires step { StepOf facts.now attempt step }
    ensures is { IfOk result (λ next. next ≡ replaced facts.now attempt) }
    ensures room { (n : ℕ) → AllNormal facts.now → Room facts.now n attempt → IfOk result (λ next. IfSome next (λ a. Room facts.now (suc n) a)) }
{
    let Attempt {
        left,
        goal_times,
        times,
    } = attempt;
    let times = next_times(alloc, times, step)?;
    if !multipliers_fit(times.as_slice()) {
        return Ok(None);
    }
    let left = less(
        alloc,
        left,
        step.by,
        form_of(&facts[step.fact].cmp),
        step.amount,
    )?;
    Ok(Some(Attempt {
        left,
        goal_times: step.by * goal_times,
        times,
    }))
}

/// An attempt with one atom replaced by a bound of it. Moves the form: linear in its items; linear in the facts where all is taken several times.
pub fn replaced(
    alloc: Global,
    facts: &[Fact],
    places: &[usize],
    attempt: Attempt,
) -> Result<Option<Attempt>, CertRefusal>
    requires mapped { Mapped facts.now (length facts.now) places.now }
    requires room { Room facts.now 512 attempt }
    ensures is { IfOk result (λ next. next ≡ replaced facts.now attempt) }
    ensures room { (n : ℕ) → AllNormal facts.now → Room facts.now n attempt → IfOk result (λ next. IfSome next (λ a. Room facts.now (suc n) a)) }
{
    match step_of(facts, places, &attempt) {
        Some(step) => after_step(alloc, facts, attempt, step),
        None => Ok(None),
    }
}
