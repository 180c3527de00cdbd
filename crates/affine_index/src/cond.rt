//! Comparisons of forms with 0.
#![tactic(auto)]

ghost use Rattle.std.specs.Prelude.{◌≡◌, ℕ, length, List, IsTrue, IfSome};
ghost use Rattle.affine_index.specs.Condition.{all_hold, all_limited, all_scoped, cmp_at, cmp_form, cmp_limited};
ghost use Rattle.affine_index.specs.Limited.{items_scoped};

use crate::aff::Aff;
use sqlite_items::Items;

/// A comparison of a form with 0: at least 0, or 0.
#[derive(Drop)]
pub enum Cmp {
    Ge(Aff),
    Eq(Aff),
}

/// Comparisons that all hold.
#[derive(Drop)]
pub struct Cond {
    pub all: Items<Cmp>,
}

/// How two numbers may be compared in a text.
#[derive(Debug, Drop, Clone, Copy, PartialEq, Eq)]
pub enum Rel {
    Lt,
    Le,
    Gt,
    Ge,
    Eq,
}

impl Cond {
    /// Whether all comparisons hold, or None where a partial result of any of them is 2^120 or more in size, also after one that does not hold.
    pub fn holds(&self, sizes: &[u64], vars: &[u64]) -> Option<bool>
        requires scoped { IsTrue (all_scoped (length sizes.now) (length vars.now) self.now.all) }
        ensures limited { result ≡ all_limited sizes.now vars.now self.now.all }
        ensures value { IfSome result (λ held. held ≡ all_hold sizes.now vars.now self.now.all) }
    {
        all_hold(self.all.as_slice(), sizes, vars)
    }
}

fn cmp_holds(cmp: &Cmp, sizes: &[u64], vars: &[u64]) -> Option<bool>
    requires scoped { IsTrue (items_scoped (length sizes.now) (length vars.now) (cmp_form cmp.now)) }
    ensures { result ≡ cmp_limited sizes.now vars.now cmp.now }
{
    match cmp {
        Cmp::Ge(form) => Some(form.value(sizes, vars)? >= 0),
        Cmp::Eq(form) => Some(form.value(sizes, vars)? == 0),
    }
}

fn all_hold(cmps: &[Cmp], sizes: &[u64], vars: &[u64]) -> Option<bool>
    requires scoped { IsTrue (all_scoped (length sizes.now) (length vars.now) cmps.now) }
    ensures { result ≡ all_limited sizes.now vars.now cmps.now }
{
    let mut held = true;
    for cmp in cmps {
        let holds = cmp_holds(cmp, sizes, vars)?;
        held = held && holds;
    }
    Some(held)
}
