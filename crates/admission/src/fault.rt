//! Why a module is not admitted.

ghost use Rattle.std.specs.Prelude.{◌≡◌};

use shape_rules::ShapeFault;
use std::alloc::AllocError;

/// The first rule that a module breaks: shapes, then extents, then the example.
#[derive(Drop)]
pub enum AdmissionFault {
    /// An input of a rank over 8, or the first node that breaks a shape rule.
    Shape(ShapeFault),
    /// Default lines do not show that this extent goal, counted from 1, is at least 0.
    ExtentNotShown(u64),
    /// The example breaks this constraint, counted from 1: the bounds of the sizes in order, then the assumes.
    BadExample(u64),
    Memory,
}

impl From<AllocError> for AdmissionFault {
    ghost use Rattle.admission.specs.declared.fault.AdmissionFault.TheVariants.{Memory};

    ghost from_gives = { λ _ fault. fault ≡ Memory };

    fn from(_: AllocError) -> AdmissionFault {
        AdmissionFault::Memory
    }
}
