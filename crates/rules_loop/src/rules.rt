//! The call of a rule.

ghost use Rattle.std.specs.Prelude.{◌≡◌, IfOk};
ghost use Rattle.path_focus.specs.Focus.{IsProper, KeepsMeaning, KeepsShape};
ghost use Rattle.path_focus.specs.Outcome.{Answers, IsOutcome, answer, conditions_of};
ghost use Rattle.rules_loop.specs.Rules.{IsConditions, rule_of};

use crate::cuts::{cut_gen, cut_sum};
use crate::fusing::{fuse_gen, split_gen_exact};
use crate::one_turn::{sum_one, sum_pick};
use crate::products::mul_out_of_sum;
use crate::raising::{mul_into_sum, uneta};
use crate::rows::{beta, eta};
use crate::sums::{add_index, add_sum, sum_add, sum_index};
use crate::swaps::{gen_sum, sum_gen, swap_gen, swap_sum};
use crate::tilings::{split_gen, split_sum};
use fact_list::CertRefusal;
use linear_cert::Lines;
use path_focus::{Arg, Condition, Focus, Outcome, RuleFault, finish};
use sqlite_items::{Boxed, Items};
use std::alloc::Global;
use term_tree::{Term, told};

/// The rules of gens and sums that are built.
#[derive(Clone, Copy, Debug, PartialEq, Eq)]
pub enum LoopRule {
    Beta,
    Eta,
    SwapGen,
    CutGen,
    SwapSum,
    CutSum,
    SumGen,
    GenSum,
    SumIndex,
    SumAdd,
    AddSum,
    MulOutOfSum,
    AddIndex,
    SplitGen,
    SplitSum,
    SplitGenExact,
    FuseGen,
    SumOne,
    SumPick,
    Uneta,
    MulIntoSum,
}

fn outcome(
    alloc: Global,
    focus: &Focus,
    rule: LoopRule,
    args: &[Arg],
) -> Result<Outcome, CertRefusal>
    requires { IsProper focus.now }
    ensures { IfOk result (IsOutcome (rule_of focus.now rule args.now)) }
{
    match rule {
        LoopRule::Beta => beta(alloc, focus, args),
        LoopRule::Eta => eta(alloc, focus, args),
        LoopRule::SwapGen => swap_gen(alloc, focus, args),
        LoopRule::CutGen => cut_gen(alloc, focus, args),
        LoopRule::SwapSum => swap_sum(alloc, focus, args),
        LoopRule::CutSum => cut_sum(alloc, focus, args),
        LoopRule::SumGen => sum_gen(alloc, focus, args),
        LoopRule::GenSum => gen_sum(alloc, focus, args),
        LoopRule::SumIndex => sum_index(alloc, focus, args),
        LoopRule::SumAdd => sum_add(alloc, focus, args),
        LoopRule::AddSum => add_sum(alloc, focus, args),
        LoopRule::MulOutOfSum => mul_out_of_sum(alloc, focus, args),
        LoopRule::AddIndex => add_index(alloc, focus, args),
        LoopRule::SplitGen => split_gen(alloc, focus, args),
        LoopRule::SplitSum => split_sum(alloc, focus, args),
        LoopRule::SplitGenExact => split_gen_exact(alloc, focus, args),
        LoopRule::FuseGen => fuse_gen(alloc, focus, args),
        LoopRule::SumOne => sum_one(alloc, focus, args),
        LoopRule::SumPick => sum_pick(alloc, focus, args),
        LoopRule::Uneta => uneta(alloc, focus, args),
        LoopRule::MulIntoSum => mul_into_sum(alloc, focus, args),
    }
}

/// The term with the rule applied, or the first fault.
pub fn apply(
    alloc: Global,
    focus: &Focus,
    rule: LoopRule,
    args: &[Arg],
    lines: &[Lines],
) -> Result<Boxed<Term>, RuleFault>
    requires { IsProper focus.now }
    ensures table { Answers (answer (rule_of focus.now rule args.now) lines.now) result }
    ensures keeps { IfOk result (λ e. KeepsMeaning focus.now e × KeepsShape focus.now e) }
{
    told(focus.term.get());
    match outcome(alloc, focus, rule, args) {
        Ok(outcome) => finish(alloc, outcome, lines),
        Err(_) => Err(RuleFault::Memory),
    }
}

/// The conditions of the rule in order, each with its facts, or that pattern or arguments do not fit.
pub fn conditions(
    alloc: Global,
    focus: &Focus,
    rule: LoopRule,
    args: &[Arg],
) -> Result<Items<Condition>, RuleFault>
    requires { IsProper focus.now }
    ensures { IsConditions (conditions_of (rule_of focus.now rule args.now)) result }
{
    match outcome(alloc, focus, rule, args) {
        Ok(outcome) => path_focus::conditions(outcome),
        Err(_) => Err(RuleFault::Memory),
    }
}
