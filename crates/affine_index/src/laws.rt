//! Laws of all forms, each the contract of a function that does nothing.

ghost use Rattle.std.specs.Cmp.{IsTotalOrder};
ghost use Rattle.affine_index.specs.Laws.{AtomsAtLeastZero, PrintsWithin};
ghost use Rattle.affine_index.specs.Order.{atom_order};

use crate::aff::Aff;

/// The order of atoms is a total order.
pub fn order_is_total()
    ensures { IsTotalOrder atom_order }
{}

/// Atoms are at least 0.
pub fn atoms_are_at_least_zero()
    ensures { AtomsAtLeastZero }
{}

impl Aff {
    /// A form whose magnitude is small is computed exactly as it is printed.
    pub fn prints_within(&self)
        ensures { PrintsWithin self.now }
    {
        self.told();
    }
}
