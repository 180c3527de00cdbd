//! Which atom of a form is replaced, and by which bound.
#![tactic(auto, using(crate::proofs::ChoiceLaws::choice_laws))]

ghost use Rattle.std.specs.Prelude.{◌≡◌, ◌<◌, length, slice_get, IfSome, Option, None};
ghost use Rattle.std.specs.List.{find};
ghost use Rattle.std.specs.Option.{is_some, option_and_then, option_copied};
ghost use Rattle.affine_index.specs.declared.form.Atom.{out-Atom};
ghost use Rattle.linear_cert.specs.DefaultLines.{atom_least, chosen_factor, chosen_item, chosen_of, divisor_of, find_role, layer_is_quotient, role_for, same_var, side_for};
ghost use Rattle.linear_cert.specs.Roles.{Mapped, wanted_role};

use crate::least::{atom_least, form_least};
use crate::roles::{Wanted, find};
use affine_index::Atom;
use affine_index::raw::Wide;
use fact_list::{Fact, Side};

fn same_var(v: Option<u32>, w: Option<u32>) -> bool
    ensures { result ≡ same_var v w }
{
    match (v, w) {
        (None, None) => true,
        (Some(v), Some(w)) => v == w,
        _ => false,
    }
}

/// The place of the item to replace.
pub fn chosen(form: &Wide) -> Option<usize>
    ensures item { option_and_then (slice_get form.now.terms) result ≡ chosen_item form.now }
    ensures within { IfSome result (λ at. at < length form.now.terms) }
{
    let least = form_least(form);
    let mut at = form.terms().len();
    while at > 0 {
        at -= 1;
        if same_var(atom_least(form.terms().get(at).atom()), least) {
            return Some(at);
        }
    }
    None
}

fn first_with_var(factors: &[Atom]) -> Option<&Atom>
    ensures { option_copied result ≡ find (λ a. is_some (atom_least a)) factors.now }
{
    for factor in factors {
        if atom_least(factor).is_some() {
            return Some(factor);
        }
    }
    None
}

fn is_quotient(atom: &Atom) -> bool
    ensures { result ≡ layer_is_quotient (out-Atom atom.now) }
{
    matches!(atom, Atom::Div(_, _))
}

fn first_quotient(factors: &[Atom]) -> Option<&Atom>
    ensures { option_copied result ≡ find (λ a. layer_is_quotient (out-Atom a)) factors.now }
{
    for factor in factors {
        if is_quotient(factor) {
            return Some(factor);
        }
    }
    None
}

fn chosen_of(factors: &[Atom]) -> Option<&Atom>
    ensures { option_copied result ≡ chosen_of factors.now }
{
    if let Some(factor) = first_with_var(factors) {
        return Some(factor);
    }
    if let Some(factor) = first_quotient(factors) {
        return Some(factor);
    }
    factors.get(0)
}

/// The factor to bound, which an atom is itself where it is no product.
pub fn chosen_factor(atom: &Atom) -> &Atom
    ensures { result.now ≡ chosen_factor atom.now }
{
    match atom {
        Atom::Mul(factors) => match chosen_of(factors.as_slice()) {
            Some(factor) => factor,
            None => atom,
        },
        _ => atom,
    }
}

/// The divisor of a quotient, and 1 for what is none.
pub fn divisor_of(atom: &Atom) -> u32
    ensures { result ≡ divisor_of atom.now }
{
    match atom {
        Atom::Div(_, divisor) => *divisor,
        _ => 1,
    }
}

/// The lower bound for a positive coefficient.
pub fn side_for(coefficient: i128) -> Side
    ensures { result ≡ side_for coefficient }
{
    if coefficient >= 0 {
        Side::Lower
    } else {
        Side::Upper
    }
}

/// The bound to use for an atom with a factor, as it is looked for.
fn wanted_for<'a>(side: Side, atom: &'a Atom, factor: &'a Atom) -> Wanted<'a>
    ensures { wanted_role result ≡ role_for side atom.now factor.now }
{
    match atom {
        Atom::Mul(_) => match (side, factor) {
            (Side::Lower, Atom::Var(_)) => Wanted::Product(atom),
            _ => Wanted::Factor(side, factor, atom),
        },
        _ => Wanted::Bound(side, atom),
    }
}

/// The place of the bound to use for an atom with a factor.
pub fn find_fact(
    facts: &[Fact],
    places: &[usize],
    side: Side,
    atom: &Atom,
    factor: &Atom,
) -> Option<usize>
    requires { Mapped facts.now (length facts.now) places.now }
    ensures { result ≡ find_role (role_for side atom.now factor.now) 0 facts.now }
{
    find(facts, places, wanted_for(side, atom, factor))
}
