//! Forms as rows make them: each step puts a form on a stack, or takes one, two or three forms from it and puts what it makes of them.
//! A step whose conditions are not met, or which finds no form, is Memory: no row expects that.

ghost use Rattle.std.specs.Prelude.{◌≤◌, IsTrue};
ghost use Rattle.affine_index.specs.Limited.{items_scoped};

use affine_index::{Aff, AffRefusal};
use sqlite_items::Items;
use std::alloc::Global;

/// A step of a row.
#[derive(Drop, Clone, Copy)]
pub enum Step {
    Number(i64),
    Size(u32),
    Var(u32),
    /// Of the last form.
    Copied,
    Scale(i64),
    Div(u32),
    Rem(u32),
    /// By how much the variables from a number on move.
    Shift(u32, u32),
    /// Of the last two forms.
    Add,
    Sub,
    Mul,
    /// The last form for a variable of the one before.
    PutVar(u32),
    /// The last form for variable 0 and the one before it for variable 1, in the one before those.
    PutBoth,
}

/// The most variables of a form that is moved, and the most that it is moved by.
const MOST: u32 = 1000;

fn number(alloc: Global, number: i64) -> Result<Aff, AffRefusal> {
    if number.unsigned_abs() > 1 << 40 {
        return Err(AffRefusal::CoefficientTooLarge);
    }
    Aff::literal(alloc, number)
}

fn divided(alloc: Global, form: &Aff, divisor: u32) -> Result<Aff, AffRefusal> {
    if divisor == 0 || divisor > 2147483647 {
        return Err(AffRefusal::Memory);
    }
    form.div(alloc, divisor)
}

fn rest(alloc: Global, form: &Aff, divisor: u32) -> Result<Aff, AffRefusal> {
    if divisor == 0 || divisor > 2147483647 {
        return Err(AffRefusal::Memory);
    }
    form.rem(alloc, divisor)
}

fn shifted(alloc: Global, form: &Aff, from: u32, by: u32) -> Result<Aff, AffRefusal>
    requires small { by ≤ 1000 }
    requires scoped { IsTrue (items_scoped 1000 1000 form.now) }
{
    form.shift(alloc, from, by)
}

fn moved(alloc: Global, form: &Aff, from: u32, by: u32) -> Result<Aff, AffRefusal> {
    if by > MOST || !form.is_scoped(MOST as usize, MOST as usize) {
        return Err(AffRefusal::Memory);
    }
    shifted(alloc, form, from, by)
}

/// A step on one form.
fn on_one(alloc: Global, form: &Aff, step: Step) -> Result<Aff, AffRefusal> {
    match step {
        Step::Copied => form.copy(alloc),
        Step::Scale(by) => form.scale(alloc, by),
        Step::Div(divisor) => divided(alloc, form, divisor),
        Step::Rem(divisor) => rest(alloc, form, divisor),
        Step::Shift(from, by) => moved(alloc, form, from, by),
        _ => Err(AffRefusal::Memory),
    }
}

/// A step on two forms.
fn on_two(alloc: Global, first: &Aff, second: &Aff, step: Step) -> Result<Aff, AffRefusal> {
    match step {
        Step::Add => first.add(alloc, second),
        Step::Sub => first.sub(alloc, second),
        Step::Mul => first.mul(alloc, second),
        Step::PutVar(var) => first.put_var(alloc, var, second),
        _ => Err(AffRefusal::Memory),
    }
}

/// Two forms put for the variables 0 and 1.
fn put_both(alloc: Global, form: &Aff, outer: Aff, inner: Aff) -> Result<Aff, AffRefusal> {
    let by = [inner, outer];
    form.put_all(alloc, &by)
}

fn popped(stack: &mut Items<Aff>) -> Result<Aff, AffRefusal> {
    match stack.pop() {
        Some(form) => Ok(form),
        None => Err(AffRefusal::Memory),
    }
}

/// A step that takes forms from the stack.
fn of_stack(alloc: Global, stack: &mut Items<Aff>, step: Step) -> Result<Aff, AffRefusal> {
    let last = popped(stack)?;
    match step {
        Step::Add | Step::Sub | Step::Mul | Step::PutVar(_) => {
            let first = popped(stack)?;
            on_two(alloc, &first, &last, step)
        }
        Step::PutBoth => {
            let outer = popped(stack)?;
            let form = popped(stack)?;
            put_both(alloc, &form, outer, last)
        }
        _ => on_one(alloc, &last, step),
    }
}

/// The form that a step puts on the stack.
fn next(alloc: Global, stack: &mut Items<Aff>, step: Step) -> Result<Aff, AffRefusal> {
    match step {
        Step::Number(z) => number(alloc, z),
        Step::Size(size) => Aff::size(alloc, size),
        Step::Var(var) => Aff::var(alloc, var),
        _ => of_stack(alloc, stack, step),
    }
}

/// The form that steps end with, or the first refusal.
pub fn made(alloc: Global, steps: &[Step]) -> Result<Aff, AffRefusal> {
    let mut stack = Items::new(alloc);
    for step in steps {
        let form = next(alloc, &mut stack, *step)?;
        stack.push(form)?;
    }
    popped(&mut stack)
}
