//! Laws of forms with 0 for an atom, each the contract of a function that does nothing.

ghost use Rattle.zeroed_forms.specs.Laws.{ZeroedKeepsScope, ZeroedKeepsValue};

/// Where the atom is 0, the value stays.
pub fn zeroed_keeps_value()
    ensures { ZeroedKeepsValue }
{}

/// What a form names stays within its scope.
pub fn zeroed_keeps_scope()
    ensures { ZeroedKeepsScope }
{}
