//! Whether lines show a goal, and the lines that do.

ghost use Rattle.std.specs.Prelude.{true, ◌≡◌, ◌≤◌, length, IfOk, IfSome, IsTrue};
ghost use Rattle.std.specs.Option.{option_map};
ghost use Rattle.fact_list.specs.Facts.{facts_of, moves_fit};
ghost use Rattle.fact_list.specs.Truth.{HoldsAtPlace, HoldsWithFacts};
ghost use Rattle.linear_cert.specs.DefaultLines.{default_lines_of};
ghost use Rattle.linear_cert.specs.Shown.{is_shown};
ghost use Rattle.linear_cert.specs.declared.lines.Lines.TheVariants.{Given};

use crate::given::lines_show;
use crate::lines::Lines;
use crate::procedure::default_lines_of;
use affine_index::Aff;
use fact_list::told::{told, told_path};
use fact_list::{CertRefusal, Facts, facts_of};
use std::alloc::Global;

/// Whether lines show that a goal is at least 0.
pub fn shown(alloc: Global, facts: &Facts, goal: &Aff, lines: &Lines) -> Result<bool, CertRefusal>
    requires sizes { length facts.now.sizes ≤ 2147483647 }
    requires path { length facts.now.path ≤ 2147483647 }
    requires fit { IsTrue (moves_fit facts.now.path) }
    ensures exact { IfOk result (λ answer. answer ≡ is_shown facts.now goal.now lines.now) }
    ensures true_goal { IfOk result (λ answer. answer ≡ true → HoldsWithFacts facts.now goal.now) }
    ensures true_at_place { IfOk result (λ answer. answer ≡ true → HoldsAtPlace facts.now goal.now) }
{
    goal.told();
    told_path(facts.path.as_slice());
    let list = facts_of(alloc, facts, goal)?;
    match lines {
        Lines::Default => {
            let found = default_lines_of(alloc, list.as_slice(), goal)?;
            Ok(found.is_some())
        }
        Lines::Given(given) => {
            let answer = lines_show(alloc, list.as_slice(), goal, given.as_slice())?;
            Ok(answer)
        }
    }
}

/// The lines that the procedure of default lines ends with: number 0, then the facts by number, without multipliers of 0.
/// Each of its attempts takes at most 512 replacements, and each of these time linear in the facts and in what is left of the goal.
pub fn default_lines(alloc: Global, facts: &Facts, goal: &Aff) -> Result<Option<Lines>, CertRefusal>
    requires sizes { length facts.now.sizes ≤ 2147483647 }
    requires path { length facts.now.path ≤ 2147483647 }
    requires fit { IsTrue (moves_fit facts.now.path) }
    ensures exact { IfOk result (λ lines. lines ≡ option_map Given (default_lines_of (facts_of facts.now goal.now) goal.now)) }
    ensures shown { IfOk result (λ lines. IfSome lines (λ given. is_shown facts.now goal.now given ≡ true)) }
{
    goal.told();
    let list = facts_of(alloc, facts, goal)?;
    told(list.as_slice());
    match default_lines_of(alloc, list.as_slice(), goal)? {
        Some(lines) => Ok(Some(Lines::Given(lines))),
        None => Ok(None),
    }
}
