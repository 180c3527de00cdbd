//! Conditions of guards.

ghost use Rattle.std.specs.Prelude.{◌≡◌, ◌≤◌, drop, length, map, take, true, IfOk, IsTrue};
ghost use Rattle.affine_index.specs.Condition.{cmp_form};
ghost use Rattle.affine_index.specs.Put.{moved, numbers_fit};
ghost use Rattle.binders.specs.Maps.{put_cmp};
ghost use Rattle.rule_parts.specs.Conds.{MayRise, first_of, joined, raised, rest_of};

use crate::build::raised_form;
use affine_index::{Cmp, Cond};
use fact_list::{CertRefusal, copy_cmps};
use sqlite_items::Items;
use std::alloc::Global;

pub fn copied_cond(alloc: Global, cond: &Cond) -> Result<Cond, CertRefusal>
    ensures { IfOk result (λ c. c ≡ cond.now) }
{
    let all = copy_cmps(alloc, cond.all.as_slice())?;
    Ok(Cond { all })
}

/// Both conditions.
pub fn joined(alloc: Global, outer: &Cond, inner: &Cond) -> Result<Cond, CertRefusal>
    ensures { IfOk result (λ c. c ≡ joined outer.now inner.now) }
{
    let mut all = copy_cmps(alloc, outer.all.as_slice())?;
    let more = copy_cmps(alloc, inner.all.as_slice())?;
    all.append(more)?;
    Ok(Cond { all })
}

/// The first comparisons of a condition.
pub fn first_of(alloc: Global, count: usize, cond: &Cond) -> Result<Cond, CertRefusal>
    requires { count ≤ length cond.now.all }
    ensures { IfOk result (λ c. c ≡ first_of count cond.now) }
{
    let all = copy_cmps(alloc, &cond.all.as_slice()[..count])?;
    Ok(Cond { all })
}

/// The comparisons behind the first of them.
pub fn rest_of(alloc: Global, count: usize, cond: &Cond) -> Result<Cond, CertRefusal>
    requires { count ≤ length cond.now.all }
    ensures { IfOk result (λ c. c ≡ rest_of count cond.now) }
{
    let all = copy_cmps(alloc, &cond.all.as_slice()[count..])?;
    Ok(Cond { all })
}

fn raised_cmp(alloc: Global, cmp: &Cmp) -> Result<Cmp, CertRefusal>
    requires { IsTrue (numbers_fit 0 1 (cmp_form cmp.now)) }
    ensures { IfOk result (λ c. c ≡ put_cmp (moved 0 1) cmp.now) }
{
    match cmp {
        Cmp::Ge(x) => Ok(Cmp::Ge(raised_form(alloc, x)?)),
        Cmp::Eq(x) => Ok(Cmp::Eq(raised_form(alloc, x)?)),
    }
}

fn raised_cmps(alloc: Global, cmps: &[Cmp]) -> Result<Items<Cmp>, CertRefusal>
    requires { MayRise cmps.now }
    ensures { IfOk result (λ all. all ≡ map (put_cmp (moved 0 1)) cmps.now) }
{
    let mut all = Items::new(alloc);
    for cmp in cmps {
        all.push(raised_cmp(alloc, cmp)?)?;
    }
    Ok(all)
}

/// The condition under one more gen or sum.
pub fn raised(alloc: Global, cond: &Cond) -> Result<Cond, CertRefusal>
    requires { MayRise cond.now.all }
    ensures { IfOk result (λ c. c ≡ raised cond.now) }
{
    let all = raised_cmps(alloc, cond.all.as_slice())?;
    Ok(Cond { all })
}
