//! A quotient that is 0, in an index or a guard.

ghost use Rattle.std.specs.Prelude.{◌≡◌, ℕ, Some, pos, true, IfOk, MatchOption};
ghost use Rattle.affine_index.specs.Form.{literal_form};
ghost use Rattle.std.specs.Option.{option_copied};
ghost use Rattle.affine_index.specs.Normal.{is_normal};
ghost use Rattle.affine_index.specs.declared.form.Atom as form_atom;
ghost use Rattle.affine_index.specs.declared.form.Atom.TheVariants.{Div};
ghost use Rattle.affine_index.specs.declared.form.Items as form;
ghost use Rattle.fact_list.specs.Facts.{NormalAtom};
ghost use Rattle.path_focus.specs.Outcome.{IsOutcome, Meant, Unfit};
ghost use Rattle.rules_narrow.specs.Quotients as quotients;
ghost use Rattle.zeroed_forms.specs.Zeroed.{zeroed};

use affine_index::{Aff, Atom, Cmp, Cond};
use fact_list::{CertRefusal, Facts, form_of};
use path_focus::making::below;
use path_focus::{Arg, Condition, Focus, Outcome};
use rule_parts::build::{copied, guard, index, made_under};
use sqlite_items::Items;
use std::alloc::Global;
use term_tree::Term;
use zeroed_forms::{formed, occurs, zeroed};

/// The atom of a form that is one atom, once.
#[tactic(auto, using(crate::proofs::AtomLaws::atom_laws))]
fn atom_in(form: &Aff) -> Option<&Atom>
    ensures { option_copied result ≡ quotients.atom_in form.now }
{
    form.told();
    let items = form.items();
    match items.terms.as_slice() {
        [only] => {
            if only.coefficient == 1 && items.constant == 0 {
                Some(&only.atom)
            } else {
                None
            }
        }
        _ => None,
    }
}

/// The atom that is the one argument.
fn atom_of(args: &[Arg]) -> Option<&Atom>
    ensures { option_copied result ≡ quotients.atom_of args.now }
{
    match args {
        [Arg::Ix(form)] => atom_in(form),
        _ => None,
    }
}

/// The quotient that is the one argument: the atom, its dividend and its divisor.
fn quotient_of(args: &[Arg]) -> Option<(&Atom, &affine_index::Items, u32)>
    ensures { MatchOption result ((g : form_atom.Atom → form.Items → ℕ → Meant) → quotients.with_quotient (quotients.atom_of args.now) g ≡ Unfit) (λ p. (quotients.atom_of args.now ≡ Some p.0.now) × (p.0.now ≡ Div p.1.now p.2)) }
{
    let Some(atom) = atom_of(args) else {
        return None;
    };
    match atom {
        Atom::Div(dividend, divisor) => Some((atom, dividend.get(), *divisor)),
        _ => None,
    }
}

fn number(alloc: Global, number: u32) -> Result<Aff, CertRefusal>
    ensures { IfOk result (λ x. x ≡ literal_form (pos number)) }
{
    match Aff::literal(alloc, i64::from(number)) {
        Ok(form) => Ok(form),
        Err(_) => Err(CertRefusal::Memory),
    }
}

/// That a quotient is 0.
fn is_zero(
    alloc: Global,
    facts: &Facts,
    dividend: &affine_index::Items,
    divisor: u32,
) -> Result<Items<Condition>, CertRefusal>
    requires { is_normal dividend.now ≡ true }
    ensures { IfOk result (λ all. all ≡ quotients.is_zero facts.now dividend.now divisor) }
{
    let whole = formed(alloc, dividend)?;
    let most = number(alloc, divisor)?;
    let mut all = Items::new(alloc);
    all.push(below(alloc, facts, &most, &whole)?)?;
    Ok(all)
}

/// `e[x]`
fn zero_in_index(
    alloc: Global,
    facts: &Facts,
    array: &Term,
    x: &Aff,
    args: &[Arg],
) -> Result<Outcome, CertRefusal>
    ensures { IfOk result (IsOutcome (quotients.index_zeroed facts.now args.now array.now x.now)) }
{
    let Some((atom, dividend, divisor)) = quotient_of(args) else {
        return Ok(Outcome::WrongArgument);
    };
    if !occurs(atom, x) {
        return Ok(Outcome::WrongArgument);
    }
    let Some(x) = zeroed(alloc, atom, x)? else {
        return Ok(Outcome::WrongArgument);
    };
    let array = copied(alloc, array)?;
    let term = index(alloc, array, x)?;
    let conditions = is_zero(alloc, facts, dividend, divisor)?;
    Ok(made_under(conditions, term))
}

fn cmps_have(atom: &Atom, cmps: &[Cmp]) -> bool
    ensures { result ≡ quotients.cmps_have atom.now cmps.now }
{
    for cmp in cmps {
        if occurs(atom, form_of(cmp)) {
            return true;
        }
    }
    false
}

/// A comparison of another form.
fn cmp_like(cmp: &Cmp, form: Aff) -> Cmp
    ensures { Some result ≡ quotients.cmp_like cmp.now (Some form) }
{
    match cmp {
        Cmp::Ge(_) => Cmp::Ge(form),
        Cmp::Eq(_) => Cmp::Eq(form),
    }
}

fn cmps_zeroed(alloc: Global, atom: &Atom, cmps: &[Cmp]) -> Result<Option<Items<Cmp>>, CertRefusal>
    ensures { IfOk result (λ o. o ≡ quotients.cmps_zeroed atom.now cmps.now) }
{
    let mut all = Items::new(alloc);
    for cmp in cmps {
        let Some(form) = zeroed(alloc, atom, form_of(cmp))? else {
            return Ok(None);
        };
        all.push(cmp_like(cmp, form))?;
    }
    Ok(Some(all))
}

/// `guard c. e`
fn zero_in_guard(
    alloc: Global,
    facts: &Facts,
    cond: &Cond,
    body: &Term,
    args: &[Arg],
) -> Result<Outcome, CertRefusal>
    ensures { IfOk result (IsOutcome (quotients.guard_zeroed facts.now args.now cond.now body.now)) }
{
    let Some((atom, dividend, divisor)) = quotient_of(args) else {
        return Ok(Outcome::WrongArgument);
    };
    if !cmps_have(atom, cond.all.as_slice()) {
        return Ok(Outcome::WrongArgument);
    }
    let Some(all) = cmps_zeroed(alloc, atom, cond.all.as_slice())? else {
        return Ok(Outcome::WrongArgument);
    };
    let body = copied(alloc, body)?;
    let term = guard(alloc, Cond { all }, body)?;
    let conditions = is_zero(alloc, facts, dividend, divisor)?;
    Ok(made_under(conditions, term))
}

/// `e[x]` or `guard c. e` with a quotient that is 0
pub fn div_zero(alloc: Global, focus: &Focus, args: &[Arg]) -> Result<Outcome, CertRefusal>
    ensures { IfOk result (IsOutcome (quotients.div_zero focus.now args.now)) }
{
    match focus.term.get() {
        Term::Index(array, x) => zero_in_index(alloc, &focus.facts, array.get(), x, args),
        Term::Guard(cond, body) => zero_in_guard(alloc, &focus.facts, cond, body.get(), args),
        _ => Ok(Outcome::NoPattern),
    }
}
