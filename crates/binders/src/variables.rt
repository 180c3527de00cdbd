//! Variables of other numbers, and forms under more binders.

ghost use Rattle.std.specs.Prelude.{◌≡◌, ◌+◌, ◌^◌, IsTrue, None, cond, nat_lt, true};
ghost use Rattle.affine_index.specs.Form.{var_form};
ghost use Rattle.affine_index.specs.Put.{numbers_fit, shifted};
ghost use Rattle.binders.specs.Answers.{IsAnswer};
ghost use Rattle.binders.specs.PlainMaps.{may_move};

use crate::refusal::MapRefusal;
use affine_index::Aff;
use std::alloc::Global;

/// The form of a variable.
pub fn variable(alloc: Global, var: u32) -> Result<Aff, MapRefusal>
    ensures { IsAnswer (var_form var) None result }
{
    match Aff::var(alloc, var) {
        Ok(form) => Ok(form),
        Err(_) => Err(MapRefusal::Memory),
    }
}

/// A variable's number, where those from one on are moved up.
pub fn moved(var: u32, from: u32, by: u32) -> u32
    requires { may_move from by var ≡ true }
    ensures { result ≡ cond (nat_lt var from) var (var + by) }
{
    if var < from { var } else { var + by }
}

/// A form under so many more binders; memory alone can be wanting, since its coefficients and atoms stay as many.
pub fn under_binders(alloc: Global, form: &Aff, by: u32) -> Result<Aff, MapRefusal>
    requires { IsTrue (numbers_fit 0 by form.now) }
    ensures { IsAnswer (shifted 0 by form.now) None result }
{
    match form.shift(alloc, 0, by) {
        Ok(moved) => Ok(moved),
        Err(_) => Err(MapRefusal::Memory),
    }
}
