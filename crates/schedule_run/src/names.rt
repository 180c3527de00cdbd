//! Rules by their names in scripts.

ghost use Rattle.std.specs.Prelude.{◌≡◌, map};
ghost use Rattle.schedule_run.specs.Names as spec;
ghost use Rattle.script_arguments.specs.Names.{or_else};

use rules_guard::GuardRule;
use rules_let::LetRule;
use rules_loop::LoopRule;
use rules_shape::ShapeRule;

/// A rule of one of the families.
#[derive(Clone, Copy)]
pub enum Rule {
    Loop(LoopRule),
    Let(LetRule),
    Guard(GuardRule),
    Shape(ShapeRule),
}

/// The first rule of this name.
fn among(mut table: &[(&str, Rule)], name: &str) -> Option<Rule>
    ensures { result ≡ spec.among (map (λ e. (e.0.now, e.1)) table.entry.now) name.now }
{
    while let [(text, rule), rest @ ..] = table {
        if name == *text {
            return Some(*rule);
        }
        table = rest;
    }
    None
}

fn loop_rule(name: &str) -> Option<Rule>
    ensures { result ≡ spec.among spec.loop_rules name.now }
{
    among(
        &[
            ("beta", Rule::Loop(LoopRule::Beta)),
            ("eta", Rule::Loop(LoopRule::Eta)),
            ("uneta", Rule::Loop(LoopRule::Uneta)),
            ("split_gen", Rule::Loop(LoopRule::SplitGen)),
            ("split_gen_exact", Rule::Loop(LoopRule::SplitGenExact)),
            ("fuse_gen", Rule::Loop(LoopRule::FuseGen)),
            ("swap_gen", Rule::Loop(LoopRule::SwapGen)),
            ("cut_gen", Rule::Loop(LoopRule::CutGen)),
            ("split_sum", Rule::Loop(LoopRule::SplitSum)),
            ("swap_sum", Rule::Loop(LoopRule::SwapSum)),
            ("cut_sum", Rule::Loop(LoopRule::CutSum)),
            ("sum_gen", Rule::Loop(LoopRule::SumGen)),
            ("gen_sum", Rule::Loop(LoopRule::GenSum)),
            ("sum_index", Rule::Loop(LoopRule::SumIndex)),
            ("sum_one", Rule::Loop(LoopRule::SumOne)),
            ("sum_pick", Rule::Loop(LoopRule::SumPick)),
            ("sum_add", Rule::Loop(LoopRule::SumAdd)),
            ("add_sum", Rule::Loop(LoopRule::AddSum)),
            ("mul_into_sum", Rule::Loop(LoopRule::MulIntoSum)),
            ("mul_out_of_sum", Rule::Loop(LoopRule::MulOutOfSum)),
            ("add_index", Rule::Loop(LoopRule::AddIndex)),
        ],
        name,
    )
}

fn let_rule(name: &str) -> Option<Rule>
    ensures { result ≡ spec.among spec.let_rules name.now }
{
    among(
        &[
            ("let_intro", Rule::Let(LetRule::LetIntro)),
            ("let_inline", Rule::Let(LetRule::LetInline)),
            ("let_use", Rule::Let(LetRule::LetUse)),
            ("let_out_of_gen", Rule::Let(LetRule::LetOutOfGen)),
            ("let_lift_gen", Rule::Let(LetRule::LetLiftGen)),
            ("let_out_of_sum", Rule::Let(LetRule::LetOutOfSum)),
            ("let_index", Rule::Let(LetRule::LetIndex)),
            ("let_guard", Rule::Let(LetRule::LetGuard)),
            ("let_let", Rule::Let(LetRule::LetLet)),
            ("let_drop", Rule::Let(LetRule::LetDrop)),
            ("let_op", Rule::Let(LetRule::LetOp)),
        ],
        name,
    )
}

fn guard_rule(name: &str) -> Option<Rule>
    ensures { result ≡ spec.among spec.guard_rules name.now }
{
    among(
        &[
            ("guard_intro", Rule::Guard(GuardRule::GuardIntro)),
            ("guard_elim", Rule::Guard(GuardRule::GuardElim)),
            ("guard_merge", Rule::Guard(GuardRule::GuardMerge)),
            ("guard_part", Rule::Guard(GuardRule::GuardPart)),
            ("guard_gen", Rule::Guard(GuardRule::GuardGen)),
            ("gen_guard", Rule::Guard(GuardRule::GenGuard)),
            ("guard_sum", Rule::Guard(GuardRule::GuardSum)),
            ("guard_add", Rule::Guard(GuardRule::GuardAdd)),
            ("guard_mul", Rule::Guard(GuardRule::GuardMul)),
            ("guard_index", Rule::Guard(GuardRule::GuardIndex)),
            ("guard_cases", Rule::Guard(GuardRule::GuardCases)),
            ("access_guard", Rule::Guard(GuardRule::AccessGuard)),
            ("sum_narrow", Rule::Guard(GuardRule::SumNarrow)),
            ("div_zero", Rule::Guard(GuardRule::DivZero)),
        ],
        name,
    )
}

fn shape_rule(name: &str) -> Option<Rule>
    ensures { result ≡ spec.among spec.shape_rules name.now }
{
    among(
        &[
            ("transpose_index", Rule::Shape(ShapeRule::TransposeIndex)),
            ("flatten_index", Rule::Shape(ShapeRule::FlattenIndex)),
            ("split_index", Rule::Shape(ShapeRule::SplitIndex)),
            ("padl_index", Rule::Shape(ShapeRule::PadlIndex)),
            ("padr_index", Rule::Shape(ShapeRule::PadrIndex)),
            ("truncl_index", Rule::Shape(ShapeRule::TrunclIndex)),
            ("truncr_index", Rule::Shape(ShapeRule::TruncrIndex)),
            ("concat_index_left", Rule::Shape(ShapeRule::ConcatIndexLeft)),
            (
                "concat_index_right",
                Rule::Shape(ShapeRule::ConcatIndexRight),
            ),
            ("transpose_twice", Rule::Shape(ShapeRule::TransposeTwice)),
            ("split_flatten", Rule::Shape(ShapeRule::SplitFlatten)),
            ("flatten_split", Rule::Shape(ShapeRule::FlattenSplit)),
            ("pad_trunc_l", Rule::Shape(ShapeRule::PadTruncL)),
            ("pad_trunc_r", Rule::Shape(ShapeRule::PadTruncR)),
            ("trunc_gen_l", Rule::Shape(ShapeRule::TruncGenL)),
            ("trunc_gen_r", Rule::Shape(ShapeRule::TruncGenR)),
            ("pad_gen_l", Rule::Shape(ShapeRule::PadGenL)),
            ("pad_gen_r", Rule::Shape(ShapeRule::PadGenR)),
            ("concat_gen", Rule::Shape(ShapeRule::ConcatGen)),
            ("concat_assoc", Rule::Shape(ShapeRule::ConcatAssoc)),
            ("split_of_gen", Rule::Shape(ShapeRule::SplitOfGen)),
            ("flatten_of_gen", Rule::Shape(ShapeRule::FlattenOfGen)),
            ("ring", Rule::Shape(ShapeRule::Ring)),
        ],
        name,
    )
}

fn guard_or_shape_rule(name: &str) -> Option<Rule>
    ensures { result ≡ or_else (spec.among spec.guard_rules name.now) (spec.among spec.shape_rules name.now) }
{
    match guard_rule(name) {
        Some(rule) => Some(rule),
        None => shape_rule(name),
    }
}

/// The rule of this name.
pub fn rule_named(name: &str) -> Option<Rule>
    ensures { result ≡ spec.rule_named name.now }
{
    match loop_rule(name) {
        Some(rule) => Some(rule),
        None => match let_rule(name) {
            Some(rule) => Some(rule),
            None => guard_or_shape_rule(name),
        },
    }
}
