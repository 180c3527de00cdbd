// From a last version to its text.
ghost use Rattle.std.specs.Prelude.{◌≡◌, ◌≢◌, ◌≤◌, [], All, length, IfOk, MatchResult};
ghost use Rattle.c_print.specs.Program.{canonical_text};
ghost use Rattle.final_rules.specs.Rules.{final_fault};
ghost use Rattle.term_tree.specs.Counts.{node_count, node_depth};
ghost use Rattle.term_tree.specs.Modules.{IsSound};
ghost use Rattle.atl_driver.specs.Compile.{Answers, lowered_as};
ghost use Rattle.atl_driver.specs.Correct.{AreLoops};
ghost use Rattle.atl_driver.specs.declared.compile.CompileRefusal.TheVariants.{Memory};

use crate::compile::CompileRefusal;
use crate::faults::unlowerable;
use c_print::print_c;
use c_text::laws::has_small_numbers;
use final_rules::Final;
use final_verdict::judge;
use linear_cert::FinalLine;
use loop_lang::Prog;
use lowering::lower;
use owned_values::spent;
use std::alloc::Global;
use term_tree::{Module, Path};

/// The text of a program.
fn printed(alloc: Global, program: &Prog) -> Result<Vec<u8>, CompileRefusal>
    ensures { MatchResult result (λ text. text.items ≡ canonical_text program.now) (λ refusal. refusal ≡ Memory) }
{
    match print_c(alloc, program) {
        Ok(text) => Ok(text),
        Err(_) => Err(CompileRefusal::Memory),
    }
}

/// The text of the loops of a module that may be lowered.
fn text_of(alloc: Global, last: &Final) -> Result<Vec<u8>, CompileRefusal>
    requires depths { All (λ o. node_depth o.term ≤ 200) «last».now.0.outputs }
    requires sizes { length «last».now.0.sizes ≤ 2147483647 }
    requires inputs { length «last».now.0.inputs ≤ 2147483647 }
    requires outputs { length «last».now.0.outputs ≤ 2147483647 }
    ensures { MatchResult result (λ text. AreLoops «last».now.0 «last».now.1 «last».now.2 text.items) (λ refusal. refusal ≡ Memory) }
{
    last.told();
    match lower(alloc, last) {
        Ok(program) => {
            has_small_numbers(program.get());
            let text = printed(alloc, program.get());
            spent(program);
            text
        }
        Err(_) => Err(CompileRefusal::Memory),
    }
}

/// The text of a last version with these final lines and marks, or the first rule of the final form that it breaks.
pub fn last_text(
    alloc: Global,
    module: &Module,
    finals: &[FinalLine],
    marks: &[Path],
) -> Result<Vec<u8>, CompileRefusal>
    requires sound { IsSound «module».now }
    requires some { «module».now.outputs ≢ [] }
    requires sizes { length «module».now.sizes ≤ 2147483647 }
    requires outputs { length «module».now.outputs ≤ 2147483647 }
    requires nodes { All (λ o. node_count o.term ≤ 20000) «module».now.outputs }
    requires depths { All (λ o. node_depth o.term ≤ 200) «module».now.outputs }
    requires inputs { length «module».now.inputs ≤ 2147483647 }
    ensures answers { Answers (lowered_as (final_fault «module».now finals.now marks.now) «module».now marks.now) result }
    ensures loops { IfOk result (λ text. AreLoops «module».now finals.now marks.now text.items) }
{
    match judge(alloc, module, finals, marks) {
        Ok(last) => {
            let text = text_of(alloc, &last);
            spent(last);
            text
        }
        Err(fault) => Err(unlowerable(alloc, fault)),
    }
}
