//! Facts as text, of each form each coefficient and its atom, then the constant. A product is in parentheses, a point after each factor.

use affine_index::{Atom, Cmp, Items};
use std::alloc::{AllocError, Global};

fn add(text: &mut String, more: String) -> Result<(), AllocError> {
    text.push_str(more.as_str())
}

#[cycle(text)]
fn add_atom(alloc: Global, text: &mut String, atom: &Atom) -> Result<(), AllocError> {
    match atom {
        Atom::Size(size) => add(text, format!(in alloc; "n{size}")?),
        Atom::Var(var) => add(text, format!(in alloc; "i{var}")?),
        Atom::Div(dividend, divisor) => {
            text.push_str("(")?;
            add_form(alloc, text, dividend.get())?;
            add(text, format!(in alloc; ")/{divisor}")?)
        }
        Atom::Mul(factors) => add_factors(alloc, text, factors.as_slice()),
    }
}

#[cycle(text)]
fn add_factors(alloc: Global, text: &mut String, factors: &[Atom]) -> Result<(), AllocError> {
    text.push_str("(")?;
    for factor in factors {
        add_atom(alloc, text, factor)?;
        text.push_str(".")?;
    }
    text.push_str(")")
}

#[cycle(text)]
fn add_form(alloc: Global, text: &mut String, form: &Items) -> Result<(), AllocError> {
    for term in form.terms.as_slice() {
        let coefficient = term.coefficient;
        add(text, format!(in alloc; "{coefficient}*")?)?;
        add_atom(alloc, text, &term.atom)?;
        text.push_str(" + ")?;
    }
    let constant = form.constant;
    add(text, format!(in alloc; "{constant}")?)
}

/// The text of a fact.
pub fn text_of(alloc: Global, fact: &Cmp) -> Result<String, AllocError> {
    let mut text = String::new(alloc);
    match fact {
        Cmp::Ge(form) => {
            add_form(alloc, &mut text, form.items())?;
            text.push_str(" >= 0")?;
        }
        Cmp::Eq(form) => {
            add_form(alloc, &mut text, form.items())?;
            text.push_str(" == 0")?;
        }
    }
    Ok(text)
}
