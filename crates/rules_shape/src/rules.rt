//! The call of a rule.

ghost use Rattle.std.specs.Prelude.{◌≡◌, IfOk};
ghost use Rattle.path_focus.specs.Focus.{IsProper, KeepsMeaning, KeepsShape};
ghost use Rattle.path_focus.specs.Outcome.{Answers, IsOutcome, answer, conditions_of};
ghost use Rattle.rules_shape.specs.Rules.{IsConditions, rule_of};

use crate::ring::ring;
use crate::rows::{
    concat_index_left, concat_index_right, padl_index, padr_index, truncl_index, truncr_index,
};
use fact_list::CertRefusal;
use linear_cert::Lines;
use path_focus::{Arg, Condition, Focus, Outcome, RuleFault, finish};
use rules_shape_gen::{
    concat_gen, flatten_of_gen, pad_gen_l, pad_gen_r, split_of_gen, trunc_gen_l, trunc_gen_r,
};
use rules_shape_tensor::{
    concat_assoc, flatten_index, flatten_split, pad_trunc_l, pad_trunc_r, shapes_told,
    split_flatten, split_index, transpose_index, transpose_twice,
};
use sqlite_items::{Boxed, Items};
use std::alloc::Global;
use term_tree::{Term, told};

/// The rules of shapes, and laws of words.
#[derive(Clone, Copy, Debug, PartialEq, Eq)]
pub enum ShapeRule {
    Ring,
    PadlIndex,
    PadrIndex,
    TrunclIndex,
    TruncrIndex,
    ConcatIndexLeft,
    ConcatIndexRight,
    TransposeIndex,
    FlattenIndex,
    SplitIndex,
    TransposeTwice,
    SplitFlatten,
    FlattenSplit,
    PadTruncL,
    PadTruncR,
    ConcatAssoc,
    TruncGenL,
    TruncGenR,
    PadGenL,
    PadGenR,
    ConcatGen,
    SplitOfGen,
    FlattenOfGen,
}

fn outcome(
    alloc: Global,
    focus: &Focus,
    rule: ShapeRule,
    args: &[Arg],
) -> Result<Outcome, CertRefusal>
    requires { IsProper focus.now }
    ensures { IfOk result (IsOutcome (rule_of focus.now rule args.now)) }
{
    match rule {
        ShapeRule::Ring => ring(alloc, focus, args),
        ShapeRule::PadlIndex => padl_index(alloc, focus, args),
        ShapeRule::PadrIndex => padr_index(alloc, focus, args),
        ShapeRule::TrunclIndex => truncl_index(alloc, focus, args),
        ShapeRule::TruncrIndex => truncr_index(alloc, focus, args),
        ShapeRule::ConcatIndexLeft => concat_index_left(alloc, focus, args),
        ShapeRule::ConcatIndexRight => concat_index_right(alloc, focus, args),
        ShapeRule::TransposeIndex => transpose_index(alloc, focus, args),
        ShapeRule::FlattenIndex => flatten_index(alloc, focus, args),
        ShapeRule::SplitIndex => split_index(alloc, focus, args),
        ShapeRule::TransposeTwice => transpose_twice(alloc, focus, args),
        ShapeRule::SplitFlatten => split_flatten(alloc, focus, args),
        ShapeRule::FlattenSplit => flatten_split(alloc, focus, args),
        ShapeRule::PadTruncL => pad_trunc_l(alloc, focus, args),
        ShapeRule::PadTruncR => pad_trunc_r(alloc, focus, args),
        ShapeRule::ConcatAssoc => concat_assoc(alloc, focus, args),
        ShapeRule::TruncGenL => trunc_gen_l(alloc, focus, args),
        ShapeRule::TruncGenR => trunc_gen_r(alloc, focus, args),
        ShapeRule::PadGenL => pad_gen_l(alloc, focus, args),
        ShapeRule::PadGenR => pad_gen_r(alloc, focus, args),
        ShapeRule::ConcatGen => concat_gen(alloc, focus, args),
        ShapeRule::SplitOfGen => split_of_gen(alloc, focus, args),
        ShapeRule::FlattenOfGen => flatten_of_gen(alloc, focus, args),
    }
}

/// The term with the rule applied, or the first fault.
pub fn apply(
    alloc: Global,
    focus: &Focus,
    rule: ShapeRule,
    args: &[Arg],
    lines: &[Lines],
) -> Result<Boxed<Term>, RuleFault>
    requires { IsProper focus.now }
    ensures table { Answers (answer (rule_of focus.now rule args.now) lines.now) result }
    ensures keeps { IfOk result (λ e. KeepsMeaning focus.now e × KeepsShape focus.now e) }
{
    told(focus.term.get());
    shapes_told(&focus.shapes);
    match outcome(alloc, focus, rule, args) {
        Ok(outcome) => finish(alloc, outcome, lines),
        Err(_) => Err(RuleFault::Memory),
    }
}

/// The conditions of the rule in order, each with its facts, or that pattern or arguments do not fit.
pub fn conditions(
    alloc: Global,
    focus: &Focus,
    rule: ShapeRule,
    args: &[Arg],
) -> Result<Items<Condition>, RuleFault>
    requires { IsProper focus.now }
    ensures { IsConditions (conditions_of (rule_of focus.now rule args.now)) result }
{
    match outcome(alloc, focus, rule, args) {
        Ok(outcome) => path_focus::conditions(outcome),
        Err(_) => Err(RuleFault::Memory),
    }
}
