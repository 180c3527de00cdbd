//! The faults that every rule has, in their order.

ghost use Rattle.std.specs.Prelude.{◌≡◌, ◌≤◌, None, true, length, IfOk, IsTrue};
ghost use Rattle.fact_list.specs.Facts.{moves_fit};
ghost use Rattle.path_focus.specs.Focus.{IsTrueGoal};
ghost use Rattle.path_focus.specs.Outcome.{AllListed, AllTrueGoals, KeepsIfMeant, Answers, IsDraft, IsOutcome, Meant, condition_shown, first_unshown, shown_by, limited, answer, MadeListed, conditions_of};

use crate::outcome::{Draft, Outcome};
use crate::rule::{Condition, RuleFault};
use fact_list::CertRefusal;
use linear_cert::{Lines, shown};
use sqlite_items::{Boxed, Items};
use std::alloc::Global;
use term_tree::{Term, nodes};

/// The most nodes of a term.
const MOST_NODES: u64 = 20_000;

fn is_shown(alloc: Global, condition: &Condition, lines: &Lines) -> Result<bool, CertRefusal>
    requires sizes { length condition.now.facts.sizes ≤ 2147483647 }
    requires path { length condition.now.facts.path ≤ 2147483647 }
    requires fit { IsTrue (moves_fit condition.now.facts.path) }
    ensures shown { IfOk result (λ b. b ≡ condition_shown condition.now lines.now) }
    ensures true_goal { IfOk result (λ b. b ≡ true → IsTrueGoal condition.now) }
{
    match &condition.goal {
        Some(goal) => shown(alloc, &condition.facts, goal, lines),
        None => Ok(false),
    }
}

/// The same with the lines at a place, or the default ones.
fn is_shown_by(
    alloc: Global,
    condition: &Condition,
    lines: &[Lines],
    place: usize,
) -> Result<bool, CertRefusal>
    requires sizes { length condition.now.facts.sizes ≤ 2147483647 }
    requires path { length condition.now.facts.path ≤ 2147483647 }
    requires fit { IsTrue (moves_fit condition.now.facts.path) }
    ensures shown { IfOk result (λ b. b ≡ shown_by lines.now place condition.now) }
    ensures true_goal { IfOk result (λ b. b ≡ true → IsTrueGoal condition.now) }
{
    if place < lines.len() {
        is_shown(alloc, condition, &lines[place])
    } else {
        is_shown(alloc, condition, &Lines::Default)
    }
}

/// The number, counted from 1, of the first condition that its lines do not show.
fn first_unshown(
    alloc: Global,
    conditions: &[Condition],
    lines: &[Lines],
) -> Result<Option<u64>, CertRefusal>
    requires { AllListed conditions.now }
    ensures first { IfOk result (λ n. n ≡ first_unshown lines.now 0 conditions.now) }
    ensures true_goals { IfOk result (λ n. n ≡ None → AllTrueGoals conditions.now) }
{
    let mut place = 0;
    for condition in conditions {
        if !is_shown_by(alloc, condition, lines, place)? {
            return Ok(Some(place as u64 + 1));
        }
        place += 1;
    }
    Ok(None)
}

fn limited(draft: Draft) -> Result<Boxed<Term>, RuleFault>
    ensures { (raw : Rattle.term_tree.specs.declared.term.Term.Term) → IsDraft raw draft → result ≡ limited raw }
{
    match draft {
        Draft::Whole(term) => {
            let count = nodes(term.get());
            if count > MOST_NODES {
                return Err(RuleFault::TooManyNodes { nodes: count });
            }
            Ok(term)
        }
        Draft::TooLarge => Err(RuleFault::CoefficientTooLarge),
        Draft::TooLong => Err(RuleFault::IndexTooLong),
        Draft::TooMany { nodes } => Err(RuleFault::TooManyNodes { nodes }),
    }
}

/// The first fault of what a rule makes, or its result. Conditions are counted from 1.
pub fn finish(alloc: Global, outcome: Outcome, lines: &[Lines]) -> Result<Boxed<Term>, RuleFault>
    requires { MadeListed outcome }
    ensures answer { (m : Meant) → IsOutcome m outcome → Answers (answer m lines.now) result }
    ensures keeps { (m : Meant) → IsOutcome m outcome → KeepsIfMeant m result }
{
    match outcome {
        Outcome::NoPattern => Err(RuleFault::PatternMismatch),
        Outcome::WrongArgument => Err(RuleFault::BadArgument),
        Outcome::Made(rewrite) => {
            if lines.len() > rewrite.conditions.len() {
                return Err(RuleFault::ExtraLines);
            }
            match first_unshown(alloc, rewrite.conditions.as_slice(), lines) {
                Ok(Some(condition)) => Err(RuleFault::ConditionNotShown { condition }),
                Ok(None) => limited(rewrite.draft),
                Err(_) => Err(RuleFault::Memory),
            }
        }
    }
}

/// The conditions of what a rule makes, or that the pattern or the arguments do not fit. No memory is wanted.
pub fn conditions(outcome: Outcome) -> Result<Items<Condition>, RuleFault>
    ensures { (m : Meant) → IsOutcome m outcome → result ≡ conditions_of m }
{
    match outcome {
        Outcome::NoPattern => Err(RuleFault::PatternMismatch),
        Outcome::WrongArgument => Err(RuleFault::BadArgument),
        Outcome::Made(rewrite) => Ok(rewrite.conditions),
    }
}
