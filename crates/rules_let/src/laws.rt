//! What each rule owes, as the contracts of functions that do nothing.

ghost use Rattle.path_focus.specs.Outcome.{RuleKeeps};
ghost use Rattle.rules_let.specs.Rules.{DropsAlike};
ghost use Rattle.rules_let.specs.Table as table;

/// A term is the variable of a let that it defines.
pub fn let_intro_keeps()
    ensures { RuleKeeps table.let_intro }
{}

/// A let is its body with the definition for the variable.
pub fn let_inline_keeps()
    ensures { RuleKeeps table.let_inline }
{}

/// The definition of a let around a term is the let's variable.
pub fn let_use_keeps()
    ensures { RuleKeeps table.let_use }
{}

/// A let in each row is a let of all rows.
pub fn let_out_of_gen_keeps()
    ensures { RuleKeeps table.let_out_of_gen }
{}

/// A let in each row whose definition is free of the index is a let around the gen.
pub fn let_lift_gen_keeps()
    ensures { RuleKeeps table.let_lift_gen }
{}

/// A let in each summand whose definition is free of the index is a let around the sum.
pub fn let_out_of_sum_keeps()
    ensures { RuleKeeps table.let_out_of_sum }
{}

/// A row of a let is a let of the row.
pub fn let_index_keeps()
    ensures { RuleKeeps table.let_index }
{}

/// A guard of a let is a let of the guard.
pub fn let_guard_keeps()
    ensures { RuleKeeps table.let_guard }
{}

/// A let in a definition is a let around that of the definition.
pub fn let_let_keeps()
    ensures { RuleKeeps table.let_let }
{}

/// A let whose variable does not occur is its body.
pub fn let_drop_keeps()
    ensures { RuleKeeps table.let_drop }
{}

/// A let that is dropped leaves the same body, whatever its definition is.
pub fn dropped_lets_are_alike()
    ensures { DropsAlike }
{}

/// A let in a child of an operator is a let around the operator.
pub fn let_op_keeps()
    ensures { RuleKeeps table.let_op }
{}
