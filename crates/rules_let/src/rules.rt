//! The call of a rule.

ghost use Rattle.std.specs.Prelude.{◌≡◌, IfOk};
ghost use Rattle.path_focus.specs.Focus.{IsProper, KeepsMeaning, KeepsShape};
ghost use Rattle.path_focus.specs.Outcome.{Answers, IsOutcome, answer, conditions_of};
ghost use Rattle.rules_let.specs.Rules.{IsConditions, rule_of};

use crate::inlining::{let_drop, let_inline, let_use};
use crate::lifting::{let_lift_gen, let_out_of_gen, let_out_of_sum};
use crate::moving::{let_guard, let_index};
use crate::nesting::{let_intro, let_let};
use crate::operators::let_op;
use fact_list::CertRefusal;
use linear_cert::Lines;
use path_focus::{Arg, Condition, Focus, Outcome, RuleFault, finish};
use sqlite_items::{Boxed, Items};
use std::alloc::Global;
use term_tree::{Term, told};

/// The rules of lets.
#[derive(Clone, Copy, Debug, PartialEq, Eq)]
pub enum LetRule {
    LetIntro,
    LetInline,
    LetUse,
    LetOutOfGen,
    LetLiftGen,
    LetOutOfSum,
    LetIndex,
    LetGuard,
    LetLet,
    LetDrop,
    LetOp,
}

fn outcome(
    alloc: Global,
    focus: &Focus,
    rule: LetRule,
    args: &[Arg],
) -> Result<Outcome, CertRefusal>
    requires { IsProper focus.now }
    ensures { IfOk result (IsOutcome (rule_of focus.now rule args.now)) }
{
    match rule {
        LetRule::LetIntro => let_intro(alloc, focus, args),
        LetRule::LetInline => let_inline(alloc, focus, args),
        LetRule::LetUse => let_use(alloc, focus, args),
        LetRule::LetOutOfGen => let_out_of_gen(alloc, focus, args),
        LetRule::LetLiftGen => let_lift_gen(alloc, focus, args),
        LetRule::LetOutOfSum => let_out_of_sum(alloc, focus, args),
        LetRule::LetIndex => let_index(alloc, focus, args),
        LetRule::LetGuard => let_guard(alloc, focus, args),
        LetRule::LetLet => let_let(alloc, focus, args),
        LetRule::LetDrop => let_drop(alloc, focus, args),
        LetRule::LetOp => let_op(alloc, focus, args),
    }
}

/// The term with the rule applied, or the first fault.
pub fn apply(
    alloc: Global,
    focus: &Focus,
    rule: LetRule,
    args: &[Arg],
    lines: &[Lines],
) -> Result<Boxed<Term>, RuleFault>
    requires { IsProper focus.now }
    ensures table { Answers (answer (rule_of focus.now rule args.now) lines.now) result }
    ensures keeps { IfOk result (λ e. KeepsMeaning focus.now e × KeepsShape focus.now e) }
{
    told(focus.term.get());
    match outcome(alloc, focus, rule, args) {
        Ok(outcome) => finish(alloc, outcome, lines),
        Err(_) => Err(RuleFault::Memory),
    }
}

/// The conditions of the rule, of which there are none, or that pattern or arguments do not fit.
pub fn conditions(
    alloc: Global,
    focus: &Focus,
    rule: LetRule,
    args: &[Arg],
) -> Result<Items<Condition>, RuleFault>
    requires { IsProper focus.now }
    ensures { IsConditions (conditions_of (rule_of focus.now rule args.now)) result }
{
    match outcome(alloc, focus, rule, args) {
        Ok(outcome) => path_focus::conditions(outcome),
        Err(_) => Err(RuleFault::Memory),
    }
}
