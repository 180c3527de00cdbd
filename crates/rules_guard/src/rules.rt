//! The call of a rule.

ghost use Rattle.std.specs.Prelude.{◌≡◌, IfOk};
ghost use Rattle.path_focus.specs.Focus.{IsProper, KeepsMeaning, KeepsShape};
ghost use Rattle.path_focus.specs.Outcome.{Answers, IsOutcome, answer, conditions_of};
ghost use Rattle.rules_guard.specs.Rules.{IsConditions, rule_of};

use crate::cases::guard_cases;
use crate::inward::{guard_gen, guard_index, guard_sum};
use crate::nested::{guard_merge, guard_part};
use crate::outward::gen_guard;
use crate::rows::access_guard;
use crate::shown::{guard_elim, guard_intro};
use crate::words::{guard_add, guard_mul};
use fact_list::CertRefusal;
use linear_cert::Lines;
use path_focus::{Arg, Condition, Focus, Outcome, RuleFault, finish};
use rules_narrow::{div_zero, sum_narrow};
use sqlite_items::{Boxed, Items};
use std::alloc::Global;
use term_tree::{Term, told};

/// The rules of guards.
#[derive(Clone, Copy, Debug, PartialEq, Eq)]
pub enum GuardRule {
    GuardIntro,
    GuardElim,
    GuardMerge,
    GuardPart,
    GuardGen,
    GenGuard,
    GuardSum,
    GuardAdd,
    GuardMul,
    GuardIndex,
    GuardCases,
    AccessGuard,
    SumNarrow,
    DivZero,
}

fn outcome(
    alloc: Global,
    focus: &Focus,
    rule: GuardRule,
    args: &[Arg],
) -> Result<Outcome, CertRefusal>
    requires { IsProper focus.now }
    ensures { IfOk result (IsOutcome (rule_of focus.now rule args.now)) }
{
    match rule {
        GuardRule::GuardIntro => guard_intro(alloc, focus, args),
        GuardRule::GuardElim => guard_elim(alloc, focus, args),
        GuardRule::GuardMerge => guard_merge(alloc, focus, args),
        GuardRule::GuardPart => guard_part(alloc, focus, args),
        GuardRule::GuardGen => guard_gen(alloc, focus, args),
        GuardRule::GenGuard => gen_guard(alloc, focus, args),
        GuardRule::GuardSum => guard_sum(alloc, focus, args),
        GuardRule::GuardAdd => guard_add(alloc, focus, args),
        GuardRule::GuardMul => guard_mul(alloc, focus, args),
        GuardRule::GuardIndex => guard_index(alloc, focus, args),
        GuardRule::GuardCases => guard_cases(alloc, focus, args),
        GuardRule::AccessGuard => access_guard(alloc, focus, args),
        GuardRule::SumNarrow => sum_narrow(alloc, focus, args),
        GuardRule::DivZero => div_zero(alloc, focus, args),
    }
}

/// The term with the rule applied, or the first fault.
pub fn apply(
    alloc: Global,
    focus: &Focus,
    rule: GuardRule,
    args: &[Arg],
    lines: &[Lines],
) -> Result<Boxed<Term>, RuleFault>
    requires { IsProper focus.now }
    ensures table { Answers (answer (rule_of focus.now rule args.now) lines.now) result }
    ensures keeps { IfOk result (λ e. KeepsMeaning focus.now e × KeepsShape focus.now e) }
{
    told(focus.term.get());
    match outcome(alloc, focus, rule, args) {
        Ok(outcome) => finish(alloc, outcome, lines),
        Err(_) => Err(RuleFault::Memory),
    }
}

/// The conditions of the rule in order, each with its facts, or that pattern or arguments do not fit.
pub fn conditions(
    alloc: Global,
    focus: &Focus,
    rule: GuardRule,
    args: &[Arg],
) -> Result<Items<Condition>, RuleFault>
    requires { IsProper focus.now }
    ensures { IsConditions (conditions_of (rule_of focus.now rule args.now)) result }
{
    match outcome(alloc, focus, rule, args) {
        Ok(outcome) => path_focus::conditions(outcome),
        Err(_) => Err(RuleFault::Memory),
    }
}
