//! What the rule owes, as the contract of a function that does nothing.

ghost use Rattle.rules_narrow.specs.Narrow as narrow;
ghost use Rattle.rules_narrow.specs.Quotients as quotients;
ghost use Rattle.path_focus.specs.Outcome.{RuleKeeps};

/// A sum of a guard is one over the turns at which the guard may hold.
pub fn sum_narrow_keeps()
    ensures { RuleKeeps narrow.sum_narrow }
{}

/// A quotient that is shown to be 0 is 0.
pub fn div_zero_keeps()
    ensures { RuleKeeps quotients.div_zero }
{}
