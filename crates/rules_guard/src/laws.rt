//! What each rule owes, as the contracts of functions that do nothing.

ghost use Rattle.path_focus.specs.Outcome.{RuleKeeps};
ghost use Rattle.rules_guard.specs.Table as table;

/// A guard of a condition that is shown changes nothing.
pub fn guard_intro_keeps()
    ensures { RuleKeeps table.guard_intro }
{}

/// A guard of a condition that is shown is what it guards.
pub fn guard_elim_keeps()
    ensures { RuleKeeps table.guard_elim }
{}

/// Two guards are one of all comparisons.
pub fn guard_merge_keeps()
    ensures { RuleKeeps table.guard_merge }
{}

/// A guard is one of some comparisons around one of the others.
pub fn guard_part_keeps()
    ensures { RuleKeeps table.guard_part }
{}

/// A guard of a gen guards each row.
pub fn guard_gen_keeps()
    ensures { RuleKeeps table.guard_gen }
{}

/// A guard of each row that is free of the index guards the gen.
pub fn gen_guard_keeps()
    ensures { RuleKeeps table.gen_guard }
{}

/// A guard of a sum guards each summand.
pub fn guard_sum_keeps()
    ensures { RuleKeeps table.guard_sum }
{}

/// A guard of a sum or a difference guards both terms.
pub fn guard_add_keeps()
    ensures { RuleKeeps table.guard_add }
{}

/// A guard of a product guards its first factor.
pub fn guard_mul_keeps()
    ensures { RuleKeeps table.guard_mul }
{}

/// A row of a guard is a guard of the row.
pub fn guard_index_keeps()
    ensures { RuleKeeps table.guard_index }
{}

/// A comparison holds or its opposite does.
pub fn guard_cases_keeps()
    ensures { RuleKeeps table.guard_cases }
{}

/// A row is one under a guard that says that there is such a row.
pub fn access_guard_keeps()
    ensures { RuleKeeps table.access_guard }
{}
