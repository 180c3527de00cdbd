//! The turns of gen and sum that a term takes, counted against a limit.
#![tactic(auto, using(crate::proofs::TurnLaws::spent_laws))]

ghost use Rattle.std.specs.Prelude.{◌≡◌, ℕ, ◌+◌, ◌∷◌, true, IfOk, IsTrue, OnOk, if◌then◌else◌};
ghost use Rattle.affine_index.specs.Condition.{all_hold};
ghost use Rattle.term_tree.specs.Meaning.{extent};
ghost use Rattle.atl_meaning.specs.Exact.{all_exact, counted, exact, exact_below, is_counted};
ghost use Rattle.atl_meaning.specs.Turns.{spent, turn_fold, total_below};

use crate::values::{extent, holds};
use crate::variables::Variables;
use affine_index::{Aff, Cond};
use std::alloc::{AllocError, Global};
use term_tree::Term;

/// What is left after each turn of a loop and the turns of its body.
#[cycle(turns)]
fn left_after_loop(
    alloc: Global,
    sizes: &[u64],
    vars: &mut Variables,
    count: &Aff,
    body: &Term,
    left: u64,
) -> Result<Option<u64>, AllocError>
    requires count { IsTrue (is_counted sizes.now count.now) }
    requires counted { counted sizes.now body.now ≡ true }
    requires exact { exact_below sizes.now (extent count.now sizes.now) body.now vars.old ≡ true }
    ensures left { IfOk result (λ rest. rest ≡ spent (total_below (extent count.now sizes.now) (λ i. 1 + turn_fold sizes.now body.now (i ∷ vars.old))) left) }
    ensures vars { OnOk result (vars.new ≡ vars.old) }
{
    let turns = extent(count, sizes);
    let mut rest = left;
    for i in 0..turns {
        if rest == 0 {
            return Ok(None);
        }
        vars.enter(alloc, i)?;
        let after = left_after(alloc, sizes, vars, body, rest - 1)?;
        vars.leave();
        match after {
            Some(after) => rest = after,
            None => return Ok(None),
        }
    }
    Ok(Some(rest))
}

/// What is left after one more term, where something is left before.
#[cycle(turns)]
fn left_after_second(
    alloc: Global,
    sizes: &[u64],
    vars: &mut Variables,
    left: Option<u64>,
    second: &Term,
) -> Result<Option<u64>, AllocError>
    requires counted { counted sizes.now second.now ≡ true }
    requires exact { exact sizes.now second.now vars.old ≡ true }
    ensures left { IfOk result (λ rest. (first before : ℕ) → left ≡ spent first before → rest ≡ spent (first + turn_fold sizes.now second.now vars.old) before) }
    ensures vars { OnOk result (vars.new ≡ vars.old) }
{
    match left {
        Some(left) => left_after(alloc, sizes, vars, second, left),
        None => Ok(None),
    }
}

/// What is left where the condition holds; nothing is taken where it doesn't.
#[cycle(turns)]
fn left_after_guard(
    alloc: Global,
    sizes: &[u64],
    vars: &mut Variables,
    condition: &Cond,
    body: &Term,
    left: u64,
) -> Result<Option<u64>, AllocError>
    requires condition { IsTrue (all_exact sizes.now vars.old condition.now.all) }
    requires counted { counted sizes.now body.now ≡ true }
    requires exact { exact sizes.now body.now vars.old ≡ true }
    ensures left { IfOk result (λ rest. rest ≡ spent (if all_hold sizes.now vars.old condition.now.all then turn_fold sizes.now body.now vars.old else 0) left) }
    ensures vars { OnOk result (vars.new ≡ vars.old) }
{
    if holds(condition, sizes, vars.as_slice()) {
        left_after(alloc, sizes, vars, body, left)
    } else {
        Ok(Some(left))
    }
}

/// What is left of a number of turns after those of the term, or nothing where they are more. It stops at the turn that
/// passes the number, and computes no tensor.
#[cycle(turns)]
pub fn left_after(
    alloc: Global,
    sizes: &[u64],
    vars: &mut Variables,
    term: &Term,
    left: u64,
) -> Result<Option<u64>, AllocError>
    requires counted { counted sizes.now term.now ≡ true }
    requires exact { exact sizes.now term.now vars.old ≡ true }
    ensures left { IfOk result (λ rest. rest ≡ spent (turn_fold sizes.now term.now vars.old) left) }
    ensures vars { OnOk result (vars.new ≡ vars.old) }
{
    match term {
        Term::Lit(_) | Term::TVar(_) | Term::WordOf(_) => Ok(Some(left)),
        Term::Gen(n, e) => left_after_loop(alloc, sizes, vars, n, e.get(), left),
        Term::Sum(n, e) => left_after_loop(alloc, sizes, vars, n, e.get(), left),
        Term::Guard(c, e) => left_after_guard(alloc, sizes, vars, c, e.get(), left),
        Term::Index(e, _)
        | Term::Flatten(e)
        | Term::Split(_, e)
        | Term::Transpose(e)
        | Term::TruncL(_, e)
        | Term::TruncR(_, e)
        | Term::PadL(_, e)
        | Term::PadR(_, e) => left_after(alloc, sizes, vars, e.get(), left),
        Term::Let(a, b)
        | Term::Add(a, b)
        | Term::Sub(a, b)
        | Term::Mul(a, b)
        | Term::Concat(a, b) => {
            let rest = left_after(alloc, sizes, vars, a.get(), left)?;
            left_after_second(alloc, sizes, vars, rest, b.get())
        }
    }
}
