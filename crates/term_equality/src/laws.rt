//! Laws of equality, each the contract of a function that does nothing.

ghost use Rattle.term_equality.specs.Equality.{SameConditionsAreEqual, SameFormsAreEqual, SameTermsAreEqual};

/// Forms are the same exactly where they are equal.
pub fn same_forms_are_equal()
    ensures { SameFormsAreEqual }
{}

/// Conditions are the same exactly where they are equal.
pub fn same_conditions_are_equal()
    ensures { SameConditionsAreEqual }
{}

/// Terms are the same exactly where they are equal.
pub fn same_terms_are_equal()
    ensures { SameTermsAreEqual }
{}
