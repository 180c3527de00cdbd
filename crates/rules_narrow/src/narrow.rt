//! A sum of a guard over fewer turns.

ghost use Rattle.std.specs.Prelude.{◌≡◌, ◌≤◌, ◌+◌, ◌-◌, ◌^◌, ◌++◌, ◌∷◌, [], min, IfOk, IsTrue, MatchOption};
ghost use Rattle.affine_index.specs.Put.{numbers_fit};
ghost use Rattle.affine_index.specs.declared.form.Items as form;
ghost use Rattle.binders.specs.Answers.{IsWithinReach};
ghost use Rattle.binders.specs.PlainMaps.{put_index_reach};
ghost use Rattle.rules_narrow.specs.Narrow as narrow;
ghost use Rattle.path_focus.specs.Focus.{IsProper};
ghost use Rattle.path_focus.specs.Outcome.{IsDraft, IsOutcome, Meant, Unfit};
ghost use Rattle.term_tree.specs.Counts.{node_depth};
ghost use Rattle.term_tree.specs.Syntax as tree;
ghost use Rattle.term_tree.specs.declared.term.Term as spec;

use crate::conditions::narrowing;
use crate::range::further;
use affine_index::{Aff, Cond};
use fact_list::{CertRefusal, Facts};
use path_focus::making::with_indices;
use path_focus::{Arg, Draft, Focus, Outcome, Rewrite};
use rule_parts::build::{copied_form, raised_form, sum};
use rule_parts::goals::vars_at;
use rule_parts::patterns::{as_guard, as_sum};
use sqlite_items::{Boxed, Items};
use std::alloc::Global;
use term_tree::{Term, told};

/// The two indices that are the arguments.
fn two_indices(args: &[Arg]) -> Option<(&Aff, &Aff)>
    ensures { MatchOption result ((g : form.Items → form.Items → Meant) → narrow.with_two args.now g ≡ Unfit) (λ p. args.now ≡ Arg.Ix p.0.now ∷ (Arg.Ix p.1.now ∷ [])) }
{
    match args {
        [Arg::Ix(a), Arg::Ix(m)] => Some((a, m)),
        _ => None,
    }
}

fn is_range(facts: &Facts, a: &Aff, m: &Aff) -> bool
    ensures { result ≡ narrow.is_range facts.now a.now m.now }
{
    a.told();
    let sizes = facts.sizes.len();
    let path = facts.path.as_slice();
    path.len() <= 2147483645 && a.is_scoped(sizes, vars_at(path)) && m.is_scoped(sizes, 0)
}

/// A term whose forms are within the limits.
#[tactic(auto, using(rule_parts::proofs::DraftLaws::whole_is))]
fn whole(term: Boxed<Term>) -> Draft
    ensures { IsDraft term result }
{
    told(term.get());
    Draft::Whole(term)
}

/// So many nodes more.
fn more(nodes: u64) -> Draft
    ensures { result ≡ Draft.TooMany (min (nodes + 1) (2 ^ 64 - 1)) }
{
    Draft::TooMany {
        nodes: nodes.saturating_add(1),
    }
}

/// A sum of so many turns of a body that may break limits.
#[tactic(auto, using(crate::proofs::SumDrafts::sum_drafts))]
fn sum_of(alloc: Global, m: &Aff, body: Draft) -> Result<Draft, CertRefusal>
    ensures { (raw : spec.Term) → IsDraft raw body → IfOk result (IsDraft (tree.sum m.now raw)) }
{
    m.told();
    match body {
        Draft::Whole(body) => {
            let m = copied_form(alloc, m)?;
            let term = sum(alloc, m, body)?;
            Ok(whole(term))
        }
        Draft::TooLarge => Ok(Draft::TooLarge),
        Draft::TooLong => Ok(Draft::TooLong),
        Draft::TooMany { nodes } => Ok(more(nodes)),
    }
}

fn one(alloc: Global, x: Aff) -> Result<Items<Aff>, CertRefusal>
    ensures { IfOk result (λ by. by ≡ x ∷ []) }
{
    let mut by = Items::new(alloc);
    by.push(x)?;
    Ok(by)
}

/// The sum of so many turns of a row with a form for its turn.
fn turned(alloc: Global, m: &Aff, turn: Aff, row: &Term) -> Result<Draft, CertRefusal>
    requires deep { node_depth row.now ≤ 2147483647 }
    requires within { IsWithinReach (put_index_reach (turn ∷ []) 1) row.now }
    ensures { IfOk result (IsDraft (tree.sum m.now (narrow.moved_to turn row.now))) }
{
    let by = one(alloc, turn)?;
    let moved = with_indices(alloc, by, 1, row)?;
    sum_of(alloc, m, moved)
}

/// The sum of the turns of a range, where i + a is within the limits.
fn narrowed(
    alloc: Global,
    facts: &Facts,
    n: &Aff,
    cond: &Cond,
    row: &Term,
    a: &Aff,
    m: &Aff,
) -> Result<Outcome, CertRefusal>
    requires fits { IsTrue (numbers_fit 0 1 a.now) }
    requires deep { node_depth row.now ≤ 2147483647 }
    requires within { IsWithinReach (put_index_reach (narrow.further (narrow.start a.now) ∷ []) 1) row.now }
    ensures { IfOk result (IsOutcome (narrow.made facts.now n.now cond.now row.now a.now m.now)) }
{
    let start = raised_form(alloc, a)?;
    let Some(turn) = further(alloc, &start)? else {
        return Ok(Outcome::WrongArgument);
    };
    let conditions = narrowing(alloc, facts, n, cond, a, &start, m)?;
    let draft = turned(alloc, m, turn, row)?;
    Ok(Outcome::Made(Rewrite { conditions, draft }))
}

/// `sum i < n. guard c. b`
pub fn sum_narrow(alloc: Global, focus: &Focus, args: &[Arg]) -> Result<Outcome, CertRefusal>
    requires { IsProper focus.now }
    ensures { IfOk result (IsOutcome (narrow.sum_narrow focus.now args.now)) }
{
    let Some((n, row)) = as_sum(focus.term.get()) else {
        return Ok(Outcome::NoPattern);
    };
    let Some((cond, _body)) = as_guard(row) else {
        return Ok(Outcome::NoPattern);
    };
    let Some((a, m)) = two_indices(args) else {
        return Ok(Outcome::WrongArgument);
    };
    if !is_range(&focus.facts, a, m) {
        return Ok(Outcome::WrongArgument);
    }
    narrowed(alloc, &focus.facts, n, cond, row, a, m)
}
