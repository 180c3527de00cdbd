//! Lets moved out of operators.

ghost use Rattle.std.specs.Prelude.{◌≡◌, IfOk};
ghost use Rattle.std.specs.Option.{option_copied, option_map};
ghost use Rattle.path_focus.specs.Focus.{IsProper};
ghost use Rattle.path_focus.specs.Frames.{opened};
ghost use Rattle.path_focus.specs.Making.{under_let};
ghost use Rattle.path_focus.specs.Outcome.{IsOutcome};
ghost use Rattle.path_focus.specs.Trail.{first_of, second_of};
ghost use Rattle.rules_let.specs.Operators.{BothMayMove, MayMove, is_operator, operator_around};
ghost use Rattle.rules_let.specs.Table as table;
ghost use Rattle.term_tree.specs.declared.term.Term.{out-Term};

use crate::arguments::number_of;
use crate::build::{boxed, let_over};
use crate::patterns::let_child;
use fact_list::CertRefusal;
use owned_values::two;
use path_focus::making::under_let;
use path_focus::{Arg, Focus, Outcome};
use rule_parts::build::{copied, copied_form, made};
use sqlite_items::Boxed;
use std::alloc::Global;
use term_tree::Term;

/// Whether a let may be moved over a node of this form.
fn is_operator(term: &Term) -> bool
    ensures { result ≡ is_operator term.now }
{
    match term {
        Term::Add(_, _)
        | Term::Sub(_, _)
        | Term::Mul(_, _)
        | Term::Concat(_, _)
        | Term::Flatten(_)
        | Term::Split(_, _)
        | Term::Transpose(_)
        | Term::TruncL(_, _)
        | Term::TruncR(_, _)
        | Term::PadL(_, _)
        | Term::PadR(_, _) => true,
        Term::Lit(_)
        | Term::TVar(_)
        | Term::WordOf(_)
        | Term::Index(_, _)
        | Term::Gen(_, _)
        | Term::Sum(_, _)
        | Term::Guard(_, _)
        | Term::Let(_, _) => false,
    }
}

/// The child of this number.
fn child(term: &Term, step: u64) -> Option<&Term>
    ensures { option_copied result ≡ option_map (λ o. o.child) (opened term.now step) }
{
    match term {
        Term::Lit(_) | Term::TVar(_) | Term::WordOf(_) => None,
        Term::Index(e, _)
        | Term::Gen(_, e)
        | Term::Sum(_, e)
        | Term::Guard(_, e)
        | Term::Flatten(e)
        | Term::Split(_, e)
        | Term::Transpose(e)
        | Term::TruncL(_, e)
        | Term::TruncR(_, e)
        | Term::PadL(_, e)
        | Term::PadR(_, e) => { if step == 0 { Some(e.get()) } else { None } }
        Term::Let(a, b)
        | Term::Add(a, b)
        | Term::Sub(a, b)
        | Term::Mul(a, b)
        | Term::Concat(a, b) => {
            if step == 0 {
                Some(a.get())
            } else if step == 1 {
                Some(b.get())
            } else {
                None
            }
        }
    }
}

/// A new child and the other one under one more let, in their order.
fn beside(
    alloc: Global,
    step: u64,
    a: &Term,
    b: &Term,
    new: Boxed<Term>,
) -> Result<(Boxed<Term>, Boxed<Term>), CertRefusal>
    requires { MayMove a.now × MayMove b.now }
    ensures first { IfOk result (λ both. both.0 ≡ first_of step new (under_let a.now)) }
    ensures second { IfOk result (λ both. both.1 ≡ second_of step new (under_let b.now)) }
{
    if step == 0 {
        let b = under_let(alloc, b)?;
        Ok((new, b))
    } else {
        let a = under_let(alloc, a)?;
        Ok((a, new))
    }
}

/// The operator under one more let, with a new child of this number.
fn around(
    alloc: Global,
    term: &Term,
    step: u64,
    new: Boxed<Term>,
) -> Result<Boxed<Term>, CertRefusal>
    requires { BothMayMove (out-Term term.now) }
    ensures { IfOk result (λ e. e ≡ operator_around (out-Term term.now) step new) }
{
    match term {
        Term::Add(a, b) => {
            let (a, b) = beside(alloc, step, a.get(), b.get(), new)?;
            boxed(alloc, Term::Add(a, b))
        }
        Term::Sub(a, b) => {
            let (a, b) = beside(alloc, step, a.get(), b.get(), new)?;
            boxed(alloc, Term::Sub(a, b))
        }
        Term::Mul(a, b) => {
            let (a, b) = beside(alloc, step, a.get(), b.get(), new)?;
            boxed(alloc, Term::Mul(a, b))
        }
        Term::Concat(a, b) => {
            let (a, b) = beside(alloc, step, a.get(), b.get(), new)?;
            boxed(alloc, Term::Concat(a, b))
        }
        Term::Flatten(_) => boxed(alloc, Term::Flatten(new)),
        Term::Split(k, _) => boxed(alloc, Term::Split(*k, new)),
        Term::Transpose(_) => boxed(alloc, Term::Transpose(new)),
        Term::TruncL(n, _) => {
            let (n, new) = two(copied_form(alloc, n), Ok(new))?;
            boxed(alloc, Term::TruncL(n, new))
        }
        Term::TruncR(n, _) => {
            let (n, new) = two(copied_form(alloc, n), Ok(new))?;
            boxed(alloc, Term::TruncR(n, new))
        }
        Term::PadL(n, _) => {
            let (n, new) = two(copied_form(alloc, n), Ok(new))?;
            boxed(alloc, Term::PadL(n, new))
        }
        Term::PadR(n, _) => {
            let (n, new) = two(copied_form(alloc, n), Ok(new))?;
            boxed(alloc, Term::PadR(n, new))
        }
        Term::Lit(_)
        | Term::TVar(_)
        | Term::WordOf(_)
        | Term::Index(_, _)
        | Term::Gen(_, _)
        | Term::Sum(_, _)
        | Term::Guard(_, _)
        | Term::Let(_, _) => Ok(new),
    }
}

/// An operator whose child of a given number is a let
pub fn let_op(alloc: Global, focus: &Focus, args: &[Arg]) -> Result<Outcome, CertRefusal>
    requires { IsProper focus.now }
    ensures { IfOk result (IsOutcome (table.let_op focus.now args.now)) }
{
    let term = focus.term.get();
    if !is_operator(term) {
        return Ok(Outcome::NoPattern);
    }
    let Some(step) = number_of(args) else {
        return Ok(Outcome::WrongArgument);
    };
    let Some(inside) = child(term, step) else {
        return Ok(Outcome::WrongArgument);
    };
    let Some((definition, body)) = let_child(inside) else {
        return Ok(Outcome::WrongArgument);
    };
    let body = copied(alloc, body)?;
    let operator = around(alloc, term, step, body)?;
    let term = let_over(alloc, definition, operator)?;
    Ok(made(alloc, term))
}
