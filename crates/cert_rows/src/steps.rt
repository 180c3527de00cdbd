//! Forms as rows make them: each step puts a form on a stack, or takes one or two forms from it and puts what it makes of them.
//! A step whose conditions are not met, or which finds no form, is Memory: no row expects that.

use affine_index::{Aff, AffRefusal};
use sqlite_items::Items;
use std::alloc::Global;

/// A step of a form.
#[derive(Drop, Clone, Copy)]
pub enum Step {
    Number(i64),
    Size(u32),
    Var(u32),
    /// Of the last form.
    Div(u32),
    /// Of the last two forms.
    Add,
    Sub,
    Mul,
}

fn number(alloc: Global, number: i64) -> Result<Aff, AffRefusal> {
    if number.unsigned_abs() > 1 << 40 {
        return Err(AffRefusal::Memory);
    }
    Aff::literal(alloc, number)
}

fn divided(alloc: Global, form: &Aff, divisor: u32) -> Result<Aff, AffRefusal> {
    if divisor == 0 || divisor > 2147483647 {
        return Err(AffRefusal::Memory);
    }
    form.div(alloc, divisor)
}

fn on_two(alloc: Global, first: &Aff, second: &Aff, step: Step) -> Result<Aff, AffRefusal> {
    match step {
        Step::Add => first.add(alloc, second),
        Step::Sub => first.sub(alloc, second),
        Step::Mul => first.mul(alloc, second),
        _ => Err(AffRefusal::Memory),
    }
}

fn popped(stack: &mut Items<Aff>) -> Result<Aff, AffRefusal> {
    match stack.pop() {
        Some(form) => Ok(form),
        None => Err(AffRefusal::Memory),
    }
}

/// A step that takes forms from the stack.
fn of_stack(alloc: Global, stack: &mut Items<Aff>, step: Step) -> Result<Aff, AffRefusal> {
    let last = popped(stack)?;
    if let Step::Div(divisor) = step {
        return divided(alloc, &last, divisor);
    }
    let first = popped(stack)?;
    on_two(alloc, &first, &last, step)
}

fn next(alloc: Global, stack: &mut Items<Aff>, step: Step) -> Result<Aff, AffRefusal> {
    match step {
        Step::Number(z) => number(alloc, z),
        Step::Size(size) => Aff::size(alloc, size),
        Step::Var(var) => Aff::var(alloc, var),
        _ => of_stack(alloc, stack, step),
    }
}

/// The form that steps end with.
pub fn made(alloc: Global, steps: &[Step]) -> Result<Aff, AffRefusal> {
    let mut stack = Items::new(alloc);
    for step in steps {
        let form = next(alloc, &mut stack, *step)?;
        stack.push(form)?;
    }
    popped(&mut stack)
}
