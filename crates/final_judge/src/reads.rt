//! Goals of reads in scalar positions.

ghost use Rattle.std.specs.Prelude.{◌≡◌, ◌++◌, ◌∷◌, [], negsuc, true, IfOk, OnOk};
ghost use Rattle.affine_index.specs.Normal.{is_normal, is_ordered};
ghost use Rattle.affine_index.specs.Sum.{difference_of, scaled};
ghost use Rattle.fact_list.specs.declared.facts.PathFact.TheVariants.{Holds};
ghost use Rattle.reindexer.specs.Limited.{limited};
ghost use Rattle.shape_rules.specs.Scopes.{given};
ghost use Rattle.final_rules.specs.Form.{read_under};
ghost use Rattle.final_rules.specs.Goals.{below, index_claims, kept_goal, one, read_claims, read_claims_if, word_claims};
ghost use Rattle.final_rules.specs.Rules.{goals_with};

use affine_index::raw::{Wide, copied, scaled, sum, within_limits};
use affine_index::{Aff, AffRefusal, Cond};
use fact_list::{Facts, PathFact, copy_cmps, copy_facts};
use final_rules::printing::extents_at;
use final_rules::read::reading;
use final_rules::{Goal, GoalKind, Read};
use shape_rules::Shapes;
use shape_rules::extents::copy;
use sqlite_items::Items;
use std::alloc::{AllocError, Global};
use term_tree::Term;

/// The form, where it is within the limits of normal forms.
pub fn kept(alloc: Global, form: Wide) -> Result<Option<Aff>, AllocError>
    requires { is_ordered form ≡ true }
    ensures { IfOk result (λ o. o ≡ kept_goal (limited form)) }
{
    match within_limits(alloc, form) {
        Ok(form) => {
            form.told();
            Ok(Some(form))
        }
        Err(AffRefusal::CoefficientTooLarge) | Err(AffRefusal::IndexTooLong) => Ok(None),
        Err(AffRefusal::NotAffine) => unreachable!(),
        Err(AffRefusal::Memory) => Err(AllocError),
    }
}

/// -1 as a form to go on with.
fn minus_one(alloc: Global) -> Result<Wide, AllocError>
    ensures { IfOk result (λ form. form ≡ scaled (negsuc 0) one) }
{
    match Aff::literal(alloc, 1) {
        Ok(number) => {
            let number = copied(alloc, &number)?;
            scaled(alloc, -1, number)
        }
        Err(_) => Err(AllocError),
    }
}

/// n - 1, without limits.
fn last_row(alloc: Global, extent: &Aff) -> Result<Wide, AllocError>
    ensures form { IfOk result (λ form. form ≡ difference_of extent.now one) }
    ensures normal { is_normal extent.now ≡ true }
{
    extent.told();
    let number = minus_one(alloc)?;
    let extent = copied(alloc, extent)?;
    sum(alloc, extent, number)
}

/// n - 1 - x, where it is within the limits.
pub fn below(alloc: Global, extent: &Aff, index: &Aff) -> Result<Option<Aff>, AllocError>
    ensures { IfOk result (λ o. o ≡ kept_goal (limited (below extent.now index.now))) }
{
    let last = last_row(alloc, extent)?;
    let index = copied(alloc, index)?;
    let minus = scaled(alloc, -1, index)?;
    let form = sum(alloc, last, minus)?;
    kept(alloc, form)
}

/// One more goal.
pub fn push_goal(
    alloc: Global,
    goals: &mut Items<Goal>,
    facts: &Facts,
    kind: GoalKind,
    form: Option<Aff>,
) -> Result<(), AllocError>
    ensures { OnOk result (goals.new ≡ goals.old ++ record { kind = kind; goal = form; facts = facts.now } ∷ []) }
{
    match copy_facts(alloc, facts) {
        Ok(facts) => goals.push(Goal {
            kind,
            goal: form,
            facts,
        }),
        Err(_) => Err(AllocError),
    }
}

/// That an index is at least 0, and below its extent.
fn index_goals(
    alloc: Global,
    goals: &mut Items<Goal>,
    facts: &Facts,
    index: &Aff,
    extent: &Aff,
) -> Result<(), AllocError>
    ensures { OnOk result (goals.new ≡ goals.old ++ goals_with facts.now (index_claims facts.now.path (index.now ∷ []) (extent.now ∷ []))) }
{
    index.told();
    let least = copy(alloc, index)?;
    push_goal(alloc, goals, facts, GoalKind::Read, Some(least))?;
    let most = below(alloc, extent, index)?;
    push_goal(alloc, goals, facts, GoalKind::Read, most)
}

/// The same of each index that has an extent, from left to right.
fn indices_goals(
    alloc: Global,
    goals: &mut Items<Goal>,
    facts: &Facts,
    indices: &[Aff],
    extents: &[Aff],
) -> Result<(), AllocError>
    ensures { OnOk result (goals.new ≡ goals.old ++ goals_with facts.now (index_claims facts.now.path indices.now extents.now)) }
{
    let mut at = 0;
    while at < indices.len() && at < extents.len() {
        index_goals(alloc, goals, facts, &indices[at], &extents[at])?;
        at += 1;
    }
    Ok(())
}

/// The goals of a read.
pub fn read_goals(
    alloc: Global,
    goals: &mut Items<Goal>,
    facts: &Facts,
    shapes: &Shapes,
    read: &Read,
) -> Result<(), AllocError>
    ensures { OnOk result (goals.new ≡ goals.old ++ goals_with facts.now (read_claims read.now facts.now.path (given shapes.now))) }
{
    let extents = extents_at(shapes, read.var);
    indices_goals(alloc, goals, facts, read.indices.as_slice(), extents)
}

/// The goals of a read, if there is one.
fn read_goals_if(
    alloc: Global,
    goals: &mut Items<Goal>,
    facts: &Facts,
    shapes: &Shapes,
    read: Option<Read>,
) -> Result<(), AllocError>
    ensures { OnOk result (goals.new ≡ goals.old ++ goals_with facts.now (read_claims_if read facts.now.path (given shapes.now))) }
{
    match read {
        None => Ok(()),
        Some(read) => read_goals(alloc, goals, facts, shapes, &read),
    }
}

/// The goals of a tensor variable under indices.
fn read_term(
    alloc: Global,
    goals: &mut Items<Goal>,
    facts: &Facts,
    shapes: &Shapes,
    term: &Term,
) -> Result<(), AllocError>
    ensures { OnOk result (goals.new ≡ goals.old ++ goals_with facts.now (read_claims_if (read_under term.now []) facts.now.path (given shapes.now))) }
{
    let read = reading(alloc, term, Items::new(alloc))?;
    read_goals_if(alloc, goals, facts, shapes, read)
}

/// The facts inside the guard of these comparisons.
fn where_holds(alloc: Global, facts: &Facts, cond: &Cond) -> Result<Facts, AllocError>
    ensures { IfOk result (λ f. f ≡ record { sizes = facts.now.sizes; assumes = facts.now.assumes; path = facts.now.path ++ Holds cond.now ∷ [] }) }
{
    let Ok(facts) = copy_facts(alloc, facts) else {
        return Err(AllocError);
    };
    let Ok(all) = copy_cmps(alloc, cond.all.as_slice()) else {
        return Err(AllocError);
    };
    let mut facts = facts;
    facts.path.push(PathFact::Holds(Cond { all }))?;
    Ok(facts)
}

/// Two words, from left to right.
#[cycle(word)]
fn words(
    alloc: Global,
    goals: &mut Items<Goal>,
    facts: &Facts,
    shapes: &Shapes,
    left: &Term,
    right: &Term,
) -> Result<(), AllocError>
    ensures { OnOk result (goals.new ≡ goals.old ++ goals_with facts.now (word_claims left.now facts.now.path (given shapes.now) ++ word_claims right.now facts.now.path (given shapes.now))) }
{
    word_goals(alloc, goals, facts, shapes, left)?;
    word_goals(alloc, goals, facts, shapes, right)
}

/// A word that is chosen where comparisons hold.
#[cycle(word)]
fn chosen(
    alloc: Global,
    goals: &mut Items<Goal>,
    facts: &Facts,
    shapes: &Shapes,
    cond: &Cond,
    part: &Term,
) -> Result<(), AllocError>
    ensures { OnOk result (goals.new ≡ goals.old ++ goals_with facts.now (word_claims part.now (facts.now.path ++ Holds cond.now ∷ []) (given shapes.now))) }
{
    let inner = where_holds(alloc, facts, cond)?;
    word_goals(alloc, goals, &inner, shapes, part)
}

/// Adds the goals of a word, from left to right, with the facts that hold there. Each goal has a copy of the facts.
#[cycle(word)]
#[tactic(auto, using(crate::proofs::WordClaims::word_claim_forms, crate::proofs::ClaimLaws::claim_laws))]
pub fn word_goals(
    alloc: Global,
    goals: &mut Items<Goal>,
    facts: &Facts,
    shapes: &Shapes,
    term: &Term,
) -> Result<(), AllocError>
    ensures { OnOk result (goals.new ≡ goals.old ++ goals_with facts.now (word_claims term.now facts.now.path (given shapes.now))) }
{
    match term {
        Term::TVar(_) | Term::Index(_, _) => read_term(alloc, goals, facts, shapes, term),
        Term::Guard(cond, part) => chosen(alloc, goals, facts, shapes, cond, part.get()),
        Term::Add(a, b) | Term::Sub(a, b) | Term::Mul(a, b) => {
            words(alloc, goals, facts, shapes, a.get(), b.get())
        }
        Term::Lit(_)
        | Term::WordOf(_)
        | Term::Gen(_, _)
        | Term::Sum(_, _)
        | Term::Let(_, _)
        | Term::Concat(_, _)
        | Term::Flatten(_)
        | Term::Split(_, _)
        | Term::Transpose(_)
        | Term::TruncL(_, _)
        | Term::TruncR(_, _)
        | Term::PadL(_, _)
        | Term::PadR(_, _) => Ok(()),
    }
}
