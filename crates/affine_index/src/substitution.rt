//! Forms put for index variables, and index variables moved.

ghost use Rattle.std.specs.Prelude.{true, ◌≡◌, ◌+◌, ◌≤◌, ◌++◌, ℕ, List, IfOk, IsTrue, MatchResult, drop, length, pos, slice_index, take};
ghost use Rattle.std.specs.List.{insert};
ghost use Rattle.affine_index.specs.Normal.{Refused, is_normal};
ghost use Rattle.affine_index.specs.Put.{given, numbers_fit, put_all, put_var, shifted};
ghost use Rattle.affine_index.specs.Puts.{AllNormal, what_put};
ghost use Rattle.affine_index.specs.Value.{items_value};

use crate::aff::{Aff, all_told, within_limits};
use crate::put::{Put, put_items};
use crate::refusal::AffRefusal;
use std::alloc::Global;

/// A form with what is put for its variables, within the limits.
fn put(alloc: Global, form: &Aff, by: &Put) -> Result<Aff, AffRefusal>
    requires { AllNormal by.now }
    ensures normal { is_normal form.now ≡ true }
    ensures form { MatchResult result (λ r. r ≡ put_all (what_put by.now) form.now) (λ e. Refused (put_all (what_put by.now) form.now) e) }
{
    let items = put_items(alloc, by, form.items())?;
    within_limits(alloc, items)
}

impl Aff {
    /// Puts `by[v]` for each variable v, all at once, and 0 for those past its end.
    pub fn put_all(&self, alloc: Global, by: &[Aff]) -> Result<Aff, AffRefusal>
        ensures form { MatchResult result (λ r. r ≡ put_all (given by.now) self.now) (λ e. Refused (put_all (given by.now) self.now) e) }
        ensures value { IfOk result (λ r. (s v w : List ℕ) → ((k : ℕ) → items_value s w (given by.now k) ≡ pos (slice_index v k)) → items_value s w r ≡ items_value s v self.now) }
    {
        all_told(by);
        put(alloc, self, &Put::Given(by))
    }

    /// Puts a form for a variable, and closes up the numbers above it. The form is numbered as the result is.
    pub fn put_var(&self, alloc: Global, var: u32, by: &Aff) -> Result<Aff, AffRefusal>
        ensures form { MatchResult result (λ r. r ≡ put_var var by.now self.now) (λ e. Refused (put_var var by.now self.now) e) }
        ensures value { IfOk result (λ r. (s w : List ℕ) (n : ℕ) → var ≤ length w → items_value s w by.now ≡ pos n → items_value s w r ≡ items_value s (insert w var n) self.now) }
    {
        by.told();
        put(alloc, self, &Put::One(var, by))
    }

    /// Adds to each variable number from one on.
    pub fn shift(&self, alloc: Global, from: u32, by: u32) -> Result<Aff, AffRefusal>
        requires { IsTrue (numbers_fit from by self.now) }
        ensures form { MatchResult result (λ r. r ≡ shifted from by self.now) (λ e. e ≡ AffRefusal.Memory) }
        ensures value { IfOk result (λ r. (s w : List ℕ) → from ≤ length w → items_value s w r ≡ items_value s (take from w ++ drop (from + by) w) self.now) }
    {
        put(alloc, self, &Put::Moved(from, by))
    }
}
