//! Goals of terms in store positions.

ghost use Rattle.std.specs.Prelude.{◌≡◌, ◌++◌, ◌∷◌, [], IfOk, OnOk, true};
ghost use Rattle.region_plan.specs.Shaped.{IsShaped};
ghost use Rattle.shape_rules.specs.Scopes.{all_free, given};
ghost use Rattle.term_tree.specs.Syntax.{add, concat, let_in};
ghost use Rattle.final_rules.specs.Form.{adds_words, is_none, no_extents, outside_word, read_under};
ghost use Rattle.final_rules.specs.Goals.{claims_of, full_read_claims_if, leaf_claims};
ghost use Rattle.final_rules.specs.Places.{alone, extents_under, inside, right_of};
ghost use Rattle.final_rules.specs.Rules.{goals_with};
ghost use Rattle.final_rules.specs.Steps.{child_spot};
ghost use Rattle.final_judge.specs.Ready.{ReadStandsIf, Stands};

use crate::leaf::{full_read_goals, leaf_goals};
use affine_index::Aff;
use fact_list::Facts;
use final_rules::form::{extents_under, outside_word};
use final_rules::read::reading;
use final_rules::spot::{alone, same};
use final_rules::steps::{child_spot, on_right};
use final_rules::{Goal, Read, Spot};
use shape_rules::Shapes;
use shape_rules::extents::{enter, leave};
use sqlite_items::Items;
use std::alloc::{AllocError, Global};
use term_tree::Term;

/// A read that is stored whole, if there is one.
fn full_read_if(
    alloc: Global,
    goals: &mut Items<Goal>,
    facts: &Facts,
    shapes: &Shapes,
    extents: &[Aff],
    read: Option<Read>,
    spot: &Spot,
) -> Result<(), AllocError>
    requires { ReadStandsIf extents.now read spot.now }
    ensures { OnOk result (goals.new ≡ goals.old ++ goals_with facts.now (full_read_claims_if extents.now read spot.now (given shapes.now))) }
{
    match read {
        None => Ok(()),
        Some(read) => {
            let spot = same(alloc, spot)?;
            full_read_goals(alloc, goals, facts, shapes, extents, read, spot)
        }
    }
}

/// A tensor variable under indices, stored whole.
fn read_stored(
    alloc: Global,
    goals: &mut Items<Goal>,
    facts: &Facts,
    shapes: &Shapes,
    spot: &Spot,
    term: &Term,
) -> Result<(), AllocError>
    requires { Stands shapes.now spot.now term.now }
    ensures { OnOk result (goals.new ≡ goals.old ++ goals_with facts.now (full_read_claims_if (extents_under term.now (given shapes.now)) (read_under term.now []) spot.now (given shapes.now))) }
{
    let extents = extents_under(alloc, shapes, term)?;
    let read = reading(alloc, term, Items::new(alloc))?;
    full_read_if(alloc, goals, facts, shapes, extents.as_slice(), read, spot)
}

/// Whether a term is in the form of words.
fn is_word(alloc: Global, term: &Term) -> Result<bool, AllocError>
    ensures { IfOk result (λ b. b ≡ is_none (outside_word term.now)) }
{
    match outside_word(alloc, term)? {
        None => Ok(true),
        Some(_) => Ok(false),
    }
}

/// Whether a sum is one word.
fn adds_words(alloc: Global, shapes: &Shapes, a: &Term, b: &Term) -> Result<bool, AllocError>
    requires shaped { IsShaped shapes.now a.now }
    requires free { all_free (given shapes.now) ≡ true }
    ensures { IfOk result (λ o. o ≡ adds_words a.now b.now (given shapes.now)) }
{
    let extents = extents_under(alloc, shapes, a)?;
    let words = is_word(alloc, a)? && is_word(alloc, b)?;
    Ok(extents.is_empty() && words)
}

/// Two parts, where each stands.
#[cycle(walk)]
fn two_goals(
    alloc: Global,
    goals: &mut Items<Goal>,
    facts: &Facts,
    shapes: &mut Shapes,
    first: &Spot,
    second: &Spot,
    a: &Term,
    b: &Term,
) -> Result<(), AllocError>
    requires left { Stands shapes.old first.now a.now }
    requires right { Stands shapes.old second.now b.now }
    ensures goals { OnOk result (goals.new ≡ goals.old ++ goals_with facts.now (claims_of a.now first.now (given shapes.old) ++ claims_of b.now second.now (given shapes.old))) }
    ensures shapes { OnOk result (shapes.new ≡ shapes.old) }
{
    term_goals(alloc, goals, facts, shapes, first, a)?;
    term_goals(alloc, goals, facts, shapes, second, b)
}

/// A sum: one word, or two stores.
#[cycle(walk)]
fn sum_goals(
    alloc: Global,
    goals: &mut Items<Goal>,
    facts: &Facts,
    shapes: &mut Shapes,
    spot: &Spot,
    term: &Term,
    a: &Term,
    b: &Term,
) -> Result<(), AllocError>
    requires is { term.now ≡ add a.now b.now }
    requires stands { Stands shapes.old spot.now term.now }
    ensures goals { OnOk result (goals.new ≡ goals.old ++ goals_with facts.now (claims_of term.now spot.now (given shapes.old))) }
    ensures shapes { OnOk result (shapes.new ≡ shapes.old) }
{
    if adds_words(alloc, shapes, a, b)? {
        return leaf_goals(alloc, goals, facts, shapes, spot, term);
    }
    two_goals(alloc, goals, facts, shapes, spot, spot, a, b)
}

/// The parts of a concat.
#[cycle(walk)]
fn joined_goals(
    alloc: Global,
    goals: &mut Items<Goal>,
    facts: &Facts,
    shapes: &mut Shapes,
    spot: &Spot,
    a: &Term,
    b: &Term,
) -> Result<(), AllocError>
    requires { Stands shapes.old spot.now (concat a.now b.now) }
    ensures goals { OnOk result (goals.new ≡ goals.old ++ goals_with facts.now (claims_of a.now spot.now (given shapes.old) ++ claims_of b.now (inside (right_of a.now (given shapes.old)) spot.now) (given shapes.old))) }
    ensures shapes { OnOk result (shapes.new ≡ shapes.old) }
{
    let right = on_right(alloc, shapes, spot, a)?;
    two_goals(alloc, goals, facts, shapes, spot, &right, a, b)
}

/// The part of a node with one part.
#[cycle(walk)]
fn part_goals(
    alloc: Global,
    goals: &mut Items<Goal>,
    facts: &Facts,
    shapes: &mut Shapes,
    spot: &Spot,
    term: &Term,
    part: &Term,
) -> Result<(), AllocError>
    requires whole { Stands shapes.old spot.now term.now }
    requires part { Stands shapes.old (child_spot term.now (given shapes.old) spot.now) part.now }
    ensures goals { OnOk result (goals.new ≡ goals.old ++ goals_with facts.now (claims_of part.now (child_spot term.now (given shapes.old) spot.now) (given shapes.old))) }
    ensures shapes { OnOk result (shapes.new ≡ shapes.old) }
{
    let inner = child_spot(alloc, shapes, spot, term)?;
    term_goals(alloc, goals, facts, shapes, &inner, part)
}

/// The definition of a let, and its body.
#[cycle(walk)]
fn let_goals(
    alloc: Global,
    goals: &mut Items<Goal>,
    facts: &Facts,
    shapes: &mut Shapes,
    spot: &Spot,
    a: &Term,
    b: &Term,
) -> Result<(), AllocError>
    requires { Stands shapes.old spot.now (let_in a.now b.now) }
    ensures goals { OnOk result (goals.new ≡ goals.old ++ goals_with facts.now (claims_of a.now (alone spot.now) (given shapes.old) ++ claims_of b.now spot.now (extents_under a.now (given shapes.old) ∷ given shapes.old))) }
    ensures shapes { OnOk result (shapes.new ≡ shapes.old) }
{
    let within = alone(alloc, spot)?;
    term_goals(alloc, goals, facts, shapes, &within, a)?;
    let extents = extents_under(alloc, shapes, a)?;
    enter(alloc, shapes, extents)?;
    term_goals(alloc, goals, facts, shapes, spot, b)?;
    leave(shapes);
    Ok(())
}

/// Adds the goals of a term in a store position, in preorder, with the facts of a module along the path of each. Each leaf has a copy of the facts for
/// each goal.
#[cycle(walk)]
#[tactic(auto, using(final_rules::proofs::ClaimForms::claim_forms))]
pub fn term_goals(
    alloc: Global,
    goals: &mut Items<Goal>,
    facts: &Facts,
    shapes: &mut Shapes,
    spot: &Spot,
    term: &Term,
) -> Result<(), AllocError>
    requires { Stands shapes.old spot.now term.now }
    ensures goals { OnOk result (goals.new ≡ goals.old ++ goals_with facts.now (claims_of term.now spot.now (given shapes.old))) }
    ensures shapes { OnOk result (shapes.new ≡ shapes.old) }
{
    match term {
        Term::Lit(_) | Term::WordOf(_) | Term::Sub(_, _) | Term::Mul(_, _) => {
            leaf_goals(alloc, goals, facts, shapes, spot, term)
        }
        Term::TVar(_) | Term::Index(_, _) => read_stored(alloc, goals, facts, shapes, spot, term),
        Term::Let(a, b) => let_goals(alloc, goals, facts, shapes, spot, a.get(), b.get()),
        Term::Add(a, b) => sum_goals(alloc, goals, facts, shapes, spot, term, a.get(), b.get()),
        Term::Concat(a, b) => joined_goals(alloc, goals, facts, shapes, spot, a.get(), b.get()),
        Term::Gen(_, part)
        | Term::Sum(_, part)
        | Term::Guard(_, part)
        | Term::Flatten(part)
        | Term::Split(_, part)
        | Term::Transpose(part)
        | Term::TruncL(_, part)
        | Term::TruncR(_, part)
        | Term::PadL(_, part)
        | Term::PadR(_, part) => { part_goals(alloc, goals, facts, shapes, spot, term, part.get()) }
    }
}
