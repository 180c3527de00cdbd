//! The conditions under which comparisons hold, and whether they name what is there.

ghost use Rattle.std.specs.Prelude.{◌≡◌, ◌≤◌, ◌++◌, drop, length, negsuc, IfOk, MatchResult, OnOk};
ghost use Rattle.affine_index.specs.Condition.{all_scoped, cmp_form};
ghost use Rattle.affine_index.specs.Limited.{items_scoped};
ghost use Rattle.affine_index.specs.Normal.{Refused};
ghost use Rattle.affine_index.specs.Sum.{scaled};
ghost use Rattle.affine_index.specs.declared.form.Items as form;
ghost use Rattle.fact_list.specs.Facts.{binders, where_normal};
ghost use Rattle.rule_parts.specs.Conds.{goals_of, goals_of_cmp};
ghost use Rattle.term_tree.specs.Scope.{cond_scoped};

use affine_index::{Aff, AffRefusal, Cmp, Cond};
use fact_list::{CertRefusal, Facts, PathFact};
use path_focus::Condition;
use path_focus::making::{condition, not_negative};
use sqlite_items::Items;
use std::alloc::Global;

/// What index arithmetic has made, where it is within the limits.
fn if_normal(made: Result<Aff, AffRefusal>) -> Result<Option<Aff>, CertRefusal>
    ensures { (raw : form.Items) → MatchResult made (λ x. x ≡ raw) (Refused raw) → IfOk result (λ o. o ≡ where_normal raw) }
{
    match made {
        Ok(form) => {
            form.told();
            Ok(Some(form))
        }
        Err(AffRefusal::Memory) => Err(CertRefusal::Memory),
        Err(AffRefusal::CoefficientTooLarge) => Ok(None),
        Err(AffRefusal::IndexTooLong) => Ok(None),
        Err(AffRefusal::NotAffine) => Ok(None),
    }
}

/// The negated form, where it is within the limits.
fn opposite(alloc: Global, form: &Aff) -> Result<Option<Aff>, CertRefusal>
    ensures { IfOk result (λ o. o ≡ where_normal (scaled (negsuc 0) form.now)) }
{
    if_normal(form.scale(alloc, -1))
}

fn push_goals(
    alloc: Global,
    all: &mut Items<Condition>,
    facts: &Facts,
    cmp: &Cmp,
) -> Result<(), CertRefusal>
    ensures { OnOk result (all.new ≡ all.old ++ goals_of_cmp facts.now cmp.now) }
{
    match cmp {
        Cmp::Ge(form) => {
            all.push(not_negative(alloc, facts, form)?)?;
            Ok(())
        }
        Cmp::Eq(form) => {
            all.push(not_negative(alloc, facts, form)?)?;
            let goal = opposite(alloc, form)?;
            all.push(condition(alloc, facts, goal)?)?;
            Ok(())
        }
    }
}

/// That each comparison holds by these facts.
pub fn goals(alloc: Global, facts: &Facts, cmps: &[Cmp]) -> Result<Items<Condition>, CertRefusal>
    ensures { IfOk result (λ all. all ≡ goals_of facts.now cmps.now) }
{
    let mut all = Items::new(alloc);
    for cmp in cmps {
        push_goals(alloc, &mut all, facts, cmp)?;
    }
    Ok(all)
}

/// How many gens and sums are around a place.
pub fn vars_at(path: &[PathFact]) -> usize
    ensures { result ≡ binders path.now }
{
    let mut count = 0;
    for fact in path {
        match fact {
            PathFact::Bound(_) => count += 1,
            PathFact::Holds(_) => {}
        }
    }
    count
}

fn cmp_scoped(cmp: &Cmp, sizes: usize, vars: usize) -> bool
    ensures { result ≡ items_scoped sizes vars (cmp_form cmp.now) }
{
    match cmp {
        Cmp::Ge(form) | Cmp::Eq(form) => form.is_scoped(sizes, vars),
    }
}

fn all_scoped(cmps: &[Cmp], sizes: usize, vars: usize) -> bool
    ensures { result ≡ all_scoped sizes vars cmps.now }
{
    for cmp in cmps {
        if !cmp_scoped(cmp, sizes, vars) {
            return false;
        }
    }
    true
}

/// Whether there is a comparison, and each names what is there.
#[tactic(auto, using(crate::proofs::CondLaws::empty_is))]
pub fn cond_scoped(cond: &Cond, sizes: usize, vars: usize) -> bool
    ensures { result ≡ cond_scoped sizes vars cond.now }
{
    if cond.all.len() == 0 {
        return false;
    }
    all_scoped(cond.all.as_slice(), sizes, vars)
}
