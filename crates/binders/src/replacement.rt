//! What is put for the variables of a form, all at once.

ghost use Rattle.std.specs.Prelude.{◌≡◌, false, ℕ, true, IfSome};
ghost use Rattle.affine_index.specs.Condition.{cmp_form};
ghost use Rattle.affine_index.specs.Form.{var_form};
ghost use Rattle.affine_index.specs.Put.{given, put_all};
ghost use Rattle.binders.specs.Answers.{AreReplacements, IsCmp, IsCond, IsForm, breaks, form_beyond, form_causes, is_refusal};
ghost use Rattle.binders.specs.Maps.{put_at, put_cmp, put_cond, put_cond_at};
ghost use Rattle.binders.specs.Uses.{any_cmp};

use crate::bound::form_bound;
use crate::occurrence::form_uses;
use crate::refusal::MapRefusal;
use crate::var_map::VarMap;
use affine_index::{Aff, AffRefusal, Atom, Cmp, Cond, Items};
use std::alloc::Global;
use term_tree::Depths;

/// The replacement of each variable that occurs, by its number; 0 stands for one that does not.
fn replacements<M: VarMap>(
    alloc: Global,
    map: &M,
    depths: Depths,
    form: &Items,
) -> Result<sqlite_items::Items<Aff>, MapRefusal>
    requires within { form_beyond (M.reach map.now) depths.index depths.tensor form.now ≡ false }
    ensures { AreReplacements (M.meaning map.now) (M.refusals map.now) depths.index depths.tensor form.now result }
{
    let mut by = sqlite_items::Items::new(alloc);
    for var in 0..form_bound(form) {
        if form_uses(form, var) {
            match map.index(alloc, depths, var as u32) {
                Ok(replacement) => by.push(replacement)?,
                Err(refusal) => return Err(refusal),
            }
        } else {
            let Ok(none) = Aff::literal(alloc, 0) else {
                return Err(MapRefusal::Memory);
            };
            by.push(none)?;
        }
    }
    Ok(by)
}

/// The form with what is put for its variables, or nothing where it is too long.
fn put_given(alloc: Global, by: &[Aff], form: &Aff) -> Result<Option<Aff>, MapRefusal>
    ensures { let raw = put_all (given by.now) form.now in IsForm raw (λ e. breaks e raw) result }
{
    match form.put_all(alloc, by) {
        Ok(put) => {
            put.told();
            Ok(Some(put))
        }
        Err(AffRefusal::CoefficientTooLarge) => Err(MapRefusal::CoefficientTooLarge),
        Err(AffRefusal::IndexTooLong) => Ok(None),
        Err(_) => Err(MapRefusal::Memory),
    }
}

/// The number of the variable that a form is, if it is one and nothing else.
fn lone(form: &Items) -> Option<u32>
    ensures { IfSome result (λ var. form.now ≡ var_form var) }
{
    match form.terms.as_slice() {
        [term] => match &term.atom {
            Atom::Var(var) if term.coefficient == 1 && form.constant == 0 => Some(*var),
            _ => None,
        },
        _ => None,
    }
}

/// What is put for a variable.
fn put_lone<M: VarMap>(
    alloc: Global,
    map: &M,
    depths: Depths,
    var: u32,
) -> Result<Option<Aff>, MapRefusal>
    requires within { (M.reach map.now).has_index depths.index depths.tensor var ≡ true }
    ensures { IsForm ((M.meaning map.now).for_index depths.index depths.tensor var) (λ e. is_refusal e ((M.refusals map.now).at_index depths.index depths.tensor var)) result }
{
    match map.index(alloc, depths, var) {
        Ok(form) => {
            form.told();
            Ok(Some(form))
        }
        Err(refusal) => Err(refusal),
    }
}

fn put_listed<M: VarMap>(
    alloc: Global,
    map: &M,
    depths: Depths,
    form: &Aff,
) -> Result<Option<Aff>, MapRefusal>
    requires within { form_beyond (M.reach map.now) depths.index depths.tensor form.now ≡ false }
    ensures { IsForm (put_at (M.meaning map.now) depths.index depths.tensor form.now) (λ e. form_causes (M.meaning map.now) (M.refusals map.now) e depths.index depths.tensor form.now) result }
{
    match replacements(alloc, map, depths, form.items()) {
        Ok(by) => put_given(alloc, by.as_slice(), form),
        Err(refusal) => Err(refusal),
    }
}

/// The form with the replacement of each variable, or nothing where it is too long.
pub fn put_form<M: VarMap>(
    alloc: Global,
    map: &M,
    depths: Depths,
    form: &Aff,
) -> Result<Option<Aff>, MapRefusal>
    requires within { form_beyond (M.reach map.now) depths.index depths.tensor form.now ≡ false }
    ensures { IsForm (put_at (M.meaning map.now) depths.index depths.tensor form.now) (λ e. form_causes (M.meaning map.now) (M.refusals map.now) e depths.index depths.tensor form.now) result }
{
    match lone(form.items()) {
        Some(var) => put_lone(alloc, map, depths, var),
        None => put_listed(alloc, map, depths, form),
    }
}

fn put_cmp<M: VarMap>(
    alloc: Global,
    map: &M,
    depths: Depths,
    cmp: &Cmp,
) -> Result<Option<Cmp>, MapRefusal>
    requires within { form_beyond (M.reach map.now) depths.index depths.tensor (cmp_form cmp.now) ≡ false }
    ensures { IsCmp (put_cmp ((M.meaning map.now).for_index depths.index depths.tensor) cmp.now) (λ e. form_causes (M.meaning map.now) (M.refusals map.now) e depths.index depths.tensor (cmp_form cmp.now)) result }
{
    match cmp {
        Cmp::Ge(x) => match put_form(alloc, map, depths, x)? {
            Some(x) => Ok(Some(Cmp::Ge(x))),
            None => Ok(None),
        },
        Cmp::Eq(x) => match put_form(alloc, map, depths, x)? {
            Some(x) => Ok(Some(Cmp::Eq(x))),
            None => Ok(None),
        },
    }
}

/// The condition with the replacement of each variable, or nothing where a form of it is too long.
pub fn put_cond<M: VarMap>(
    alloc: Global,
    map: &M,
    depths: Depths,
    cond: &Cond,
) -> Result<Option<Cond>, MapRefusal>
    requires within { any_cmp (form_beyond (M.reach map.now) depths.index depths.tensor) cond.now.all ≡ false }
    ensures { IsCond (put_cond_at (M.meaning map.now) depths.index depths.tensor cond.now) (λ e. any_cmp (form_causes (M.meaning map.now) (M.refusals map.now) e depths.index depths.tensor) cond.now.all) result }
{
    let mut all = sqlite_items::Items::new(alloc);
    let mut short = true;
    for cmp in cond.all.as_slice() {
        match put_cmp(alloc, map, depths, cmp)? {
            Some(cmp) => all.push(cmp)?,
            None => short = false,
        }
    }
    if short {
        Ok(Some(Cond { all }))
    } else {
        Ok(None)
    }
}
