//! Whether single forms are small.

ghost use Rattle.std.specs.Prelude.{◌≡◌, [], IfOk, Ok, length, true};
ghost use Rattle.affine_index.specs.Limited.{items_scoped};
ghost use Rattle.reindexer.specs.Limited.{Answers, Limited};
ghost use Rattle.final_rules.specs.Printed.{at_least_one, form_small};
ghost use Rattle.final_rules.specs.Printing.{IsDue, next};
ghost use Rattle.index_limits.specs.Kept.{Enters, Keeps};

use affine_index::{Aff, AffRefusal};
use final_rules::printing::{Stop, plain};
use shape_rules::extents::in_front;
use sqlite_items::Items;
use std::alloc::Global;

/// A printed form, and the number of the next one.
#[derive(Drop)]
pub struct Kept {
    pub form: Aff,
    pub number: u64,
}

/// The greatest value of each variable inside a binder, from the innermost, and the number of the next printed index.
#[derive(Drop)]
pub struct Inner {
    pub vars: Items<u64>,
    pub number: u64,
}

/// An index that was taken form by form, and the number of the next one: a form that breaks a limit on the way counts as the index itself.
pub fn keep(
    maxima: &[u64],
    vars: &[u64],
    form: Result<Aff, AffRefusal>,
    number: u64,
) -> Result<Kept, Stop>
    requires due { IsDue form }
    requires scoped { IfOk form (λ x. items_scoped (length maxima.now) (length vars.now) x ≡ true) }
    ensures { (due : Limited Aff) → Answers due form → Keeps (next (form_small maxima.now vars.now due) number) due result }
{
    match form {
        Ok(form) => {
            form.told();
            let number = plain(maxima, vars, &form, number)?;
            Ok(Kept { form, number })
        }
        Err(AffRefusal::CoefficientTooLarge) | Err(AffRefusal::IndexTooLong) => {
            Err(Stop::Large(number))
        }
        Err(AffRefusal::Memory) => Err(Stop::Memory),
        Err(AffRefusal::NotAffine) => unreachable!(),
    }
}

/// A greatest value, counted as at least 1.
pub fn at_least_one(most: u64) -> u64
    ensures { result ≡ at_least_one most }
{
    if most >= 1 { most } else { 1 }
}

/// The bound of a binder, an extent over sizes alone. Its variable is counted as at least 1.
pub fn bound(
    alloc: Global,
    maxima: &[u64],
    vars: &[u64],
    extent: &Aff,
    number: u64,
) -> Result<Inner, Stop>
    requires { items_scoped (length maxima.now) 0 extent.now ≡ true }
    ensures { Enters maxima.now vars.now extent.now number result }
{
    let number = plain(maxima, &[], extent, number)?;
    let most = at_least_one(extent.mag(maxima, &[]));
    let outer = Items::from_slice(alloc, vars)?;
    let vars = in_front(alloc, most, outer)?;
    Ok(Inner { vars, number })
}
