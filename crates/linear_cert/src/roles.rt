//! The places of facts in the order of their roles, in which the first fact of a role is found by halving.
#![tactic(auto)]

ghost use Rattle.std.specs.Prelude.{false, ◌≡◌, ◌<◌, ◌+◌, length, get_or, Some, None, IfOk, IfErr, MatchOption};
ghost use Rattle.std.specs.Ordering.{is_eq, is_lt};
ghost use Rattle.fact_list.specs.Sorted.{Splits};
ghost use Rattle.linear_cert.specs.DefaultLines.{find_role};
ghost use Rattle.linear_cert.specs.Roles.{AllWithin, Mapped, first_place, is_bound, keys, role_at, role_atom, role_order, side_order, wanted_role};
ghost use Rattle.affine_index.proofs.Factors.{SortedFactors};

use affine_index::Atom;
use affine_index::raw::order_atoms;
use fact_list::{CertRefusal, Fact, Role, Side};
use std::alloc::Global;
use std::cmp::Ordering;

/// A role that a fact is looked for by.
#[derive(Drop, Clone, Copy)]
pub enum Wanted<'a> {
    Bound(Side, &'a Atom),
    /// A factor, and the product that it bounds with the others.
    Factor(Side, &'a Atom, &'a Atom),
    Product(&'a Atom),
}

fn order_sides(a: Side, b: Side) -> Ordering
    ensures { result ≡ side_order a b }
{
    match (a, b) {
        (Side::Lower, Side::Lower) => Ordering::Equal,
        (Side::Lower, Side::Upper) => Ordering::Less,
        (Side::Upper, Side::Lower) => Ordering::Greater,
        (Side::Upper, Side::Upper) => Ordering::Equal,
    }
}

fn order_bound(role: &Role, side: Side, atom: &Atom) -> Ordering
    ensures { result ≡ role_order role.now (Role.BoundOf side atom.now) }
{
    match role {
        Role::Stated => Ordering::Less,
        Role::BoundOf(of, bounded) => match order_sides(*of, side) {
            Ordering::Equal => order_atoms(bounded, atom),
            order => order,
        },
        Role::FactorOf(_, _, _) => Ordering::Greater,
        Role::ProductOf(_) => Ordering::Greater,
    }
}

fn order_factor(role: &Role, side: Side, factor: &Atom, whole: &Atom) -> Ordering
    ensures { result ≡ role_order role.now (Role.FactorOf side factor.now whole.now) }
{
    match role {
        Role::Stated => Ordering::Less,
        Role::BoundOf(_, _) => Ordering::Less,
        Role::FactorOf(of, bounded, product) => match order_sides(*of, side) {
            Ordering::Equal => match order_atoms(product, whole) {
                Ordering::Equal => order_atoms(bounded, factor),
                order => order,
            },
            order => order,
        },
        Role::ProductOf(_) => Ordering::Greater,
    }
}

fn order_product(role: &Role, whole: &Atom) -> Ordering
    ensures { result ≡ role_order role.now (Role.ProductOf whole.now) }
{
    match role {
        Role::Stated => Ordering::Less,
        Role::BoundOf(_, _) => Ordering::Less,
        Role::FactorOf(_, _, _) => Ordering::Less,
        Role::ProductOf(product) => order_atoms(product, whole),
    }
}

/// The order of the role of a fact against one that is wanted.
fn order(role: &Role, wanted: Wanted) -> Ordering
    ensures { result ≡ role_order role.now (wanted_role wanted.entry) }
{
    match wanted {
        Wanted::Bound(side, atom) => order_bound(role, side, atom),
        Wanted::Factor(side, factor, whole) => order_factor(role, side, factor, whole),
        Wanted::Product(whole) => order_product(role, whole),
    }
}

fn is_less(role: &Role, wanted: Wanted) -> bool
    ensures { result ≡ is_lt (role_order role.now (wanted_role wanted.entry)) }
{
    match order(role, wanted) {
        Ordering::Less => true,
        Ordering::Equal => false,
        Ordering::Greater => false,
    }
}

fn is_same(role: &Role, wanted: Wanted) -> bool
    ensures { result ≡ is_eq (role_order role.now (wanted_role wanted.entry)) }
{
    match order(role, wanted) {
        Ordering::Less => false,
        Ordering::Equal => true,
        Ordering::Greater => false,
    }
}

/// A place among places of facts.
fn place_at(places: &[usize], n: usize, count: usize) -> usize
    requires within { AllWithin count places.now }
    requires some { n < length places.now }
    ensures is { result ≡ get_or places.now n 0 }
    ensures below { result < count }
{
    places[n]
}

/// The role of the fact at a place among places.
fn role_at<'a>(facts: &'a [Fact], places: &[usize], n: usize) -> &'a Role
    requires within { AllWithin (length facts.now) places.now }
    requires some { n < length places.now }
    ensures { result.now ≡ role_at facts.now (get_or places.now n 0) }
{
    &facts[place_at(places, n, facts.len())].role
}

/// The place among places in order before which a role would stand first. Halves the list at each step.
fn place(facts: &[Fact], places: &[usize], wanted: Wanted) -> usize
    requires sorted { SortedFactors (keys facts.now places.now) }
    requires within { AllWithin (length facts.now) places.now }
    ensures { Splits (role_atom (wanted_role wanted.entry)) (keys facts.now places.now) result }
{
    let mut low = 0;
    let mut high = places.len();
    while low < high {
        let middle = low + (high - low) / 2;
        if is_less(role_at(facts, places, middle), wanted) {
            low = middle + 1;
        } else {
            high = middle;
        }
    }
    low
}

/// Where a role stands among places in order, or where it would.
fn search(facts: &[Fact], places: &[usize], wanted: Wanted) -> Result<usize, usize>
    requires sorted { SortedFactors (keys facts.now places.now) }
    requires within { AllWithin (length facts.now) places.now }
    ensures within { IfOk result (λ n. n < length places.now) }
    ensures found { IfOk result (λ n. first_place facts.now (wanted_role wanted.entry) places.now ≡ Some (get_or places.now n 0)) }
    ensures none { IfErr result (λ _. first_place facts.now (wanted_role wanted.entry) places.now ≡ None) }
    ensures splits { IfErr result (λ n. Splits (role_atom (wanted_role wanted.entry)) (keys facts.now places.now) n) }
{
    let at = place(facts, places, wanted);
    if at >= places.len() {
        return Err(at);
    }
    if is_same(role_at(facts, places, at), wanted) {
        return Ok(at);
    }
    Err(at)
}

/// The place of the first fact of a role. As many comparisons as the number of facts has digits.
pub fn find(facts: &[Fact], places: &[usize], wanted: Wanted) -> Option<usize>
    requires { Mapped facts.now (length facts.now) places.now }
    ensures { result ≡ find_role (wanted_role wanted.entry) 0 facts.now }
{
    match search(facts, places, wanted) {
        Ok(at) => Some(places[at]),
        Err(_) => None,
    }
}

/// The role of a fact, unless it is a stated one.
fn as_wanted(role: &Role) -> Option<Wanted<'_>>
    ensures { MatchOption result (is_bound role.now ≡ false) (λ wanted. wanted_role wanted ≡ role.now) }
{
    match role {
        Role::Stated => None,
        Role::BoundOf(side, atom) => Some(Wanted::Bound(*side, atom)),
        Role::FactorOf(side, factor, whole) => Some(Wanted::Factor(*side, factor, whole)),
        Role::ProductOf(whole) => Some(Wanted::Product(whole)),
    }
}

/// Adds the place of a fact, unless its role stands there already.
fn put(
    facts: &[Fact],
    places: Vec<usize>,
    at: usize,
    wanted: Wanted,
) -> Result<Vec<usize>, CertRefusal>
    requires within { at < length facts.now }
    requires role { wanted_role wanted ≡ role_at facts.now at }
    requires mapped { Mapped facts.now at places.items }
    ensures { IfOk result (λ more. Mapped facts.now (at + 1) more.items) }
{
    let mut places = places;
    match search(facts, places.as_slice(), wanted) {
        Ok(_) => Ok(places),
        Err(n) => match places.insert(n, at) {
            Ok(_) => Ok(places),
            Err(_) => Err(CertRefusal::Memory),
        },
    }
}

/// The places of one fact more.
fn with_fact(facts: &[Fact], places: Vec<usize>, at: usize) -> Result<Vec<usize>, CertRefusal>
    requires within { at < length facts.now }
    requires mapped { Mapped facts.now at places.items }
    ensures { IfOk result (λ more. Mapped facts.now (at + 1) more.items) }
{
    match as_wanted(&facts[at].role) {
        Some(wanted) => put(facts, places, at, wanted),
        None => Ok(places),
    }
}

/// The places of facts in the order of their roles.
pub fn mapped(alloc: Global, facts: &[Fact]) -> Result<Vec<usize>, CertRefusal>
    ensures { IfOk result (λ places. Mapped facts.now (length facts.now) places.items) }
{
    let mut places = Vec::new(alloc);
    for at in 0..facts.len() {
        places = with_fact(facts, places, at)?;
    }
    Ok(places)
}
