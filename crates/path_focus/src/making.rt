//! What rules make: conditions, and a body with a form for its variable.

ghost use Rattle.std.specs.Prelude.{◌≡◌, ◌≤◌, [], ◌∷◌, pos, IfOk, IsTrue, MatchResult};
ghost use Rattle.affine_index.specs.Form.{literal_form};
ghost use Rattle.affine_index.specs.Normal.{Refused, coefficient_fits};
ghost use Rattle.affine_index.specs.declared.form.Items as form;
ghost use Rattle.binders.specs.Answers.{IsWithinLimits, IsWithinReach};
ghost use Rattle.binders.specs.Maps.{mapped};
ghost use Rattle.binders.specs.PlainMaps.{put_index_map, put_index_reach, shift_map, shift_reach};
ghost use Rattle.fact_list.specs.Facts.{where_normal};
ghost use Rattle.path_focus.specs.Making.{lowered, one_of_rows, owed, raised, rest_below, under_let, with_index};
ghost use Rattle.path_focus.specs.Outcome.{IsDraft};
ghost use Rattle.term_tree.specs.Counts.{node_count, node_depth};

use crate::forms::rest_below;
use crate::outcome::Draft;
use crate::rule::Condition;
use crate::trail::moved as moved_copy;
use affine_index::{Aff, AffRefusal};
use binders::{MapRefusal, PutIndex, Shift, map_term};
use fact_list::{CertRefusal, Facts, copy_facts};
use sqlite_items::{Boxed, Items};
use std::alloc::Global;
use term_tree::Term;

fn whole(alloc: Global, term: Term) -> Result<Draft, CertRefusal>
    ensures { IfOk result (λ d. d ≡ Draft.Whole term) }
{
    let term = Boxed::new(alloc, term)?;
    Ok(Draft::Whole(term))
}

/// What a mapped term or its refusal is as a draft.
fn drafted(alloc: Global, mapped: Result<Term, MapRefusal>) -> Result<Draft, CertRefusal>
    ensures { (raw : Rattle.term_tree.specs.declared.term.Term.Term) → IsWithinLimits raw mapped → IfOk result (IsDraft raw) }
{
    match mapped {
        Ok(term) => whole(alloc, term),
        Err(MapRefusal::CoefficientTooLarge) => Ok(Draft::TooLarge),
        Err(MapRefusal::IndexTooLong) => Ok(Draft::TooLong),
        Err(MapRefusal::TooManyNodes { nodes }) => Ok(Draft::TooMany { nodes }),
        Err(MapRefusal::NotAffine) | Err(MapRefusal::Memory) => Err(CertRefusal::Memory),
    }
}

fn literal(alloc: Global, number: i64) -> Result<Aff, CertRefusal>
    requires { IsTrue (coefficient_fits number) }
    ensures { IfOk result (λ x. x ≡ literal_form number) }
{
    match Aff::literal(alloc, number) {
        Ok(form) => Ok(form),
        Err(_) => Err(CertRefusal::Memory),
    }
}

fn one(alloc: Global, x: Aff) -> Result<Items<Aff>, CertRefusal>
    ensures { IfOk result (λ by. by ≡ x ∷ []) }
{
    let mut by = Items::new(alloc);
    by.push(x)?;
    Ok(by)
}

/// The body of gens and sums with forms for their variables, the innermost first, under so many others in their place.
pub fn with_indices(
    alloc: Global,
    by: Items<Aff>,
    under: u32,
    body: &Term,
) -> Result<Draft, CertRefusal>
    requires deep { node_depth body.now ≤ 2147483647 }
    requires within { IsWithinReach (put_index_reach by under) body.now }
    ensures { IfOk result (IsDraft (mapped (put_index_map by under) 0 0 body.now)) }
{
    let map = PutIndex { by, under };
    let mapped = map_term(alloc, &map, body);
    drafted(alloc, mapped)
}

/// The body of a gen or sum with a form for its variable.
pub fn with_index(alloc: Global, x: Aff, body: &Term) -> Result<Draft, CertRefusal>
    requires deep { node_depth body.now ≤ 2147483647 }
    requires within { IsWithinReach (put_index_reach (x ∷ []) 0) body.now }
    ensures { IfOk result (IsDraft (with_index x body.now)) }
{
    let by = one(alloc, x)?;
    with_indices(alloc, by, 0, body)
}

/// The body without its gen or sum, with 0 for the variable.
pub fn lowered(alloc: Global, body: &Term) -> Result<Draft, CertRefusal>
    requires deep { node_depth body.now ≤ 2147483647 }
    requires within { IsWithinReach (put_index_reach (literal_form (pos 0) ∷ []) 0) body.now }
    ensures { IfOk result (IsDraft (lowered body.now)) }
{
    let zero = literal(alloc, 0)?;
    with_index(alloc, zero, body)
}

/// A copy of a term under so many more gens and sums and lets; moving keeps its forms within the limits.
pub fn moved(alloc: Global, by: Shift, term: &Term) -> Result<Boxed<Term>, CertRefusal>
    requires deep { node_depth term.now ≤ 2147483647 }
    requires small { node_count term.now ≤ 20000 }
    requires within { IsWithinReach (shift_reach by.index by.tensor) term.now }
    ensures { IfOk result (λ e. e ≡ mapped (shift_map by.index by.tensor) 0 0 term.now) }
{
    match moved_copy(alloc, by, term) {
        Ok(term) => Ok(term),
        Err(_) => Err(CertRefusal::Memory),
    }
}

/// A copy of a term under one more gen or sum.
pub fn raised(alloc: Global, term: &Term) -> Result<Boxed<Term>, CertRefusal>
    requires deep { node_depth term.now ≤ 2147483647 }
    requires small { node_count term.now ≤ 20000 }
    requires within { IsWithinReach (shift_reach 1 0) term.now }
    ensures { IfOk result (λ e. e ≡ raised term.now) }
{
    let by = Shift {
        index: 1,
        tensor: 0,
    };
    moved(alloc, by, term)
}

/// A copy of a term under one more let.
pub fn under_let(alloc: Global, term: &Term) -> Result<Boxed<Term>, CertRefusal>
    requires deep { node_depth term.now ≤ 2147483647 }
    requires small { node_count term.now ≤ 20000 }
    requires within { IsWithinReach (shift_reach 0 1) term.now }
    ensures { IfOk result (λ e. e ≡ under_let term.now) }
{
    let by = Shift {
        index: 0,
        tensor: 1,
    };
    moved(alloc, by, term)
}

/// What index arithmetic has made, where it is within the limits.
fn if_normal(made: Result<Aff, AffRefusal>) -> Result<Option<Aff>, CertRefusal>
    ensures { (raw : form.Items) → MatchResult made (λ x. x ≡ raw) (Refused raw) → IfOk result (λ o. o ≡ where_normal raw) }
{
    match made {
        Ok(form) => {
            form.told();
            Ok(Some(form))
        }
        Err(AffRefusal::Memory) => Err(CertRefusal::Memory),
        Err(AffRefusal::CoefficientTooLarge) => Ok(None),
        Err(AffRefusal::IndexTooLong) => Ok(None),
        Err(AffRefusal::NotAffine) => Ok(None),
    }
}

/// n - 1 - x, where its form is within the limits.
pub fn rest_if_normal(alloc: Global, n: &Aff, x: &Aff) -> Result<Option<Aff>, CertRefusal>
    ensures { IfOk result (λ o. o ≡ where_normal (rest_below n.now x.now)) }
{
    if_normal(rest_below(alloc, n, x))
}

/// A copy of a form, which is within the limits.
fn kept(alloc: Global, x: &Aff) -> Result<Option<Aff>, CertRefusal>
    ensures { IfOk result (λ o. o ≡ where_normal x.now) }
{
    x.told();
    match x.copy(alloc) {
        Ok(copy) => Ok(Some(copy)),
        Err(_) => Err(CertRefusal::Memory),
    }
}

/// That the number of a goal is at least 0, by a copy of these facts.
pub fn condition(alloc: Global, facts: &Facts, goal: Option<Aff>) -> Result<Condition, CertRefusal>
    ensures { IfOk result (λ c. c ≡ record { goal = goal; facts = facts.now }) }
{
    let facts = copy_facts(alloc, facts)?;
    Ok(Condition { goal, facts })
}

/// That an index is at least 0.
pub fn not_negative(alloc: Global, facts: &Facts, x: &Aff) -> Result<Condition, CertRefusal>
    ensures { IfOk result (λ c. c ≡ owed facts.now x.now) }
{
    let goal = kept(alloc, x)?;
    condition(alloc, facts, goal)
}

/// That it is below an extent.
pub fn below(alloc: Global, facts: &Facts, n: &Aff, x: &Aff) -> Result<Condition, CertRefusal>
    ensures { IfOk result (λ c. c ≡ owed facts.now (rest_below n.now x.now)) }
{
    let goal = rest_if_normal(alloc, n, x)?;
    condition(alloc, facts, goal)
}

/// That it is one of so many rows: first that it is at least 0, then that it is below their number.
pub fn one_of_rows(
    alloc: Global,
    facts: &Facts,
    n: &Aff,
    x: &Aff,
) -> Result<Items<Condition>, CertRefusal>
    ensures { IfOk result (λ cs. cs ≡ one_of_rows facts.now n.now x.now) }
{
    let mut all = Items::new(alloc);
    all.push(not_negative(alloc, facts, x)?)?;
    all.push(below(alloc, facts, n, x)?)?;
    Ok(all)
}
