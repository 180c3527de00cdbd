//! Operators on two literals.

ghost use Rattle.std.specs.Prelude.{◌≡◌, ◌+◌, ◌-◌, ◌*◌, ◌%◌, ◌^◌, [], IfOk};
ghost use Rattle.path_focus.specs.Outcome.{IsOutcome, Makes};
ghost use Rattle.rules_shape.specs.Patterns.{fits_lit};
ghost use Rattle.rules_shape.specs.Ring as table;
ghost use Rattle.term_tree.specs.declared.term.Term as spec;

use crate::patterns::as_lit;
use crate::words::literal;
use fact_list::CertRefusal;
use path_focus::Outcome;
use rule_parts::build::made;
use std::alloc::Global;
use term_tree::Term;

fn word_of_sum(alloc: Global, a: &Term, b: &Term) -> Result<Outcome, CertRefusal>
    ensures { IfOk result (IsOutcome (fits_lit a.now (λ v. fits_lit b.now (λ w. Makes (spec.Lit ((v + w) % 2 ^ 64)) [])))) }
{
    let Some(v) = as_lit(a) else {
        return Ok(Outcome::WrongArgument);
    };
    let Some(w) = as_lit(b) else {
        return Ok(Outcome::WrongArgument);
    };
    let term = literal(alloc, v.wrapping_add(w))?;
    Ok(made(alloc, term))
}

fn word_of_difference(alloc: Global, a: &Term, b: &Term) -> Result<Outcome, CertRefusal>
    ensures { IfOk result (IsOutcome (fits_lit a.now (λ v. fits_lit b.now (λ w. Makes (spec.Lit ((v + (2 ^ 64 - w)) % 2 ^ 64)) [])))) }
{
    let Some(v) = as_lit(a) else {
        return Ok(Outcome::WrongArgument);
    };
    let Some(w) = as_lit(b) else {
        return Ok(Outcome::WrongArgument);
    };
    let term = literal(alloc, v.wrapping_sub(w))?;
    Ok(made(alloc, term))
}

fn word_of_product(alloc: Global, a: &Term, b: &Term) -> Result<Outcome, CertRefusal>
    ensures { IfOk result (IsOutcome (fits_lit a.now (λ v. fits_lit b.now (λ w. Makes (spec.Lit ((v * w) % 2 ^ 64)) [])))) }
{
    let Some(v) = as_lit(a) else {
        return Ok(Outcome::WrongArgument);
    };
    let Some(w) = as_lit(b) else {
        return Ok(Outcome::WrongArgument);
    };
    let term = literal(alloc, v.wrapping_mul(w))?;
    Ok(made(alloc, term))
}

/// An operator on two literals.
#[tactic(auto, using(crate::proofs::FoldingLaws::operators))]
pub fn fold(alloc: Global, term: &Term) -> Result<Outcome, CertRefusal>
    ensures { IfOk result (IsOutcome (table.folded term.now)) }
{
    match term {
        Term::Add(a, b) => word_of_sum(alloc, a.get(), b.get()),
        Term::Sub(a, b) => word_of_difference(alloc, a.get(), b.get()),
        Term::Mul(a, b) => word_of_product(alloc, a.get(), b.get()),
        _ => Ok(Outcome::WrongArgument),
    }
}

/// Whether a term is a sum, a difference or a product.
#[tactic(auto, using(crate::proofs::FoldingLaws::operators))]
pub fn is_operator(term: &Term) -> bool
    ensures { result ≡ table.is_operator term.now }
{
    match term {
        Term::Add(_, _) => true,
        Term::Sub(_, _) => true,
        Term::Mul(_, _) => true,
        _ => false,
    }
}
