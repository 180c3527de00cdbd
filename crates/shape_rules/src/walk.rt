//! One walk of a term, which gives its shape and its goals together.

ghost use Rattle.std.specs.Prelude.{◌≡◌, ◌++◌, ◌∷◌, ◌<◌, [], get_or, length, slice_set, true, IfOk, IsOk, MatchOption, MatchResult, Ok, OnOk};
ghost use Rattle.shape_rules.specs.Faults.{AreAnswered, IsAnswer};
ghost use Rattle.shape_rules.specs.Plain.{is_plain};
ghost use Rattle.shape_rules.specs.Rules.{fewer_shape};
ghost use Rattle.shape_rules.specs.Scopes.{all_free, each_free, scope};
ghost use Rattle.shape_rules.specs.Walked.{cut_goals, walked};
ghost use Rattle.term_tree.specs.Goals.{extents_or_none};
ghost use Rattle.term_tree.specs.Shape.{Extents, Shaped, limited, with_child};

use crate::extents::{copies, copy};
use crate::fault::{Operands, Trouble, under};
use crate::rules::{
    columns, equal, fewer, flat, followed, limited, more, row, rows, same, tiled, words,
};
use crate::shapes::Shapes;
use affine_index::Aff;
use sqlite_items::Items;
use std::alloc::Global;
use term_tree::Term;

/// The shapes of the lets around the next node, the innermost last, and the goals found so far.
#[derive(Drop)]
pub struct Progress {
    pub bound: Items<Items<Aff>>,
    pub goals: Items<Aff>,
}

/// The extents of a tensor variable, where there is one.
fn found<'a>(shapes: &'a Shapes, bound: &'a [Items<Aff>], var: u32) -> Option<&'a Items<Aff>>
    ensures { MatchOption result (get_or (scope shapes.now bound.now) var [] ≡ []) (λ ns. get_or (scope shapes.now bound.now) var [] ≡ ns.now) }
{
    let at = var as usize;
    if at < bound.len() {
        return Some(&bound[bound.len() - 1 - at]);
    }
    let at = at - bound.len();
    let lets = shapes.lets.as_slice();
    if at < lets.len() {
        return Some(&lets[at]);
    }
    let at = at - lets.len();
    let inputs = shapes.inputs.as_slice();
    if at < inputs.len() {
        return Some(&inputs[at]);
    }
    None
}

/// The shape of a tensor variable.
fn variable(
    alloc: Global,
    shapes: &Shapes,
    bound: &[Items<Aff>],
    var: u32,
) -> Result<Items<Aff>, Trouble>
    ensures { IsAnswer (limited (get_or (scope shapes.now bound.now) var [])) result }
{
    match found(shapes, bound, var) {
        Some(extents) => limited(alloc, copies(alloc, extents.as_slice())?),
        None => Ok(Items::new(alloc)),
    }
}

fn add_goal(alloc: Global, goals: &mut Items<Aff>, goal: &Aff) -> Result<(), Trouble>
    ensures { MatchResult result (λ _. goals.new ≡ goals.old ++ goal.now ∷ []) (λ t. t ≡ Trouble.Memory) }
{
    goals.push(copy(alloc, goal)?)?;
    Ok(())
}

/// Puts the first extent as a goal at its place.
fn set_goal(
    alloc: Global,
    goals: &mut Items<Aff>,
    at: usize,
    extents: &[Aff],
) -> Result<(), Trouble>
    requires { at < length goals.old }
    ensures { MatchResult result (λ _. (n : Aff) (rest : Extents) → extents.now ≡ n ∷ rest → goals.new ≡ slice_set goals.old at n) (λ t. t ≡ Trouble.Memory) }
{
    if extents.is_empty() {
        return Ok(());
    }
    goals.set(at, copy(alloc, &extents[0])?);
    Ok(())
}

/// The shape of a truncation; its own goals stand before those of its operand.
#[cycle(walk)]
fn cut(
    alloc: Global,
    shapes: &Shapes,
    progress: &mut Progress,
    amount: &Aff,
    term: &Term,
) -> Result<Items<Aff>, Trouble>
    requires plain { is_plain term.now ≡ true }
    requires free { all_free (scope shapes.now progress.old.bound) ≡ true }
    ensures shape { IsAnswer (with_child 0 (walked term.now (scope shapes.now progress.old.bound)).shape (fewer_shape amount.now)) result }
    ensures bound { progress.new.bound ≡ progress.old.bound }
    ensures goals { OnOk result (progress.new.goals ≡ progress.old.goals ++ (cut_goals amount.now (walked term.now (scope shapes.now progress.old.bound)).shape ++ (walked term.now (scope shapes.now progress.old.bound)).goals)) }
{
    add_goal(alloc, &mut progress.goals, amount)?;
    let at = progress.goals.len();
    add_goal(alloc, &mut progress.goals, amount)?;
    let rows = walk(alloc, shapes, progress, term);
    let extents = fewer(alloc, amount, rows)?;
    set_goal(alloc, &mut progress.goals, at, extents.as_slice())?;
    Ok(extents)
}

/// The shape of a let, whose definition has been walked.
#[cycle(walk)]
fn let_in(
    alloc: Global,
    shapes: &Shapes,
    progress: &mut Progress,
    definition: Result<Items<Aff>, Trouble>,
    body: &Term,
) -> Result<Items<Aff>, Trouble>
    requires plain { is_plain body.now ≡ true }
    requires free { all_free (scope shapes.now progress.old.bound) ≡ true }
    requires definition { IfOk definition (λ ns. each_free ns ≡ true) }
    ensures shape { (a : Shaped) → IsAnswer a definition → IsAnswer (with_child 0 a (λ ns. with_child 1 (walked body.now (extents_or_none a ∷ scope shapes.now progress.old.bound)).shape (λ ms. Ok ms))) result }
    ensures bound { progress.new.bound ≡ progress.old.bound }
    ensures goals { (a : Shaped) → IsAnswer a definition → OnOk result (progress.new.goals ≡ progress.old.goals ++ (walked body.now (extents_or_none a ∷ scope shapes.now progress.old.bound)).goals) }
    ensures was { OnOk result (IsOk definition) }
{
    let extents = under(0, definition)?;
    progress.bound.push(extents)?;
    let second = walk(alloc, shapes, progress, body);
    let _ = progress.bound.pop();
    under(1, second)
}

/// The shapes of two operands, of which the first has been walked.
#[cycle(walk)]
fn operands(
    alloc: Global,
    shapes: &Shapes,
    progress: &mut Progress,
    first: Result<Items<Aff>, Trouble>,
    term: &Term,
) -> Result<Operands, Trouble>
    requires plain { is_plain term.now ≡ true }
    requires free { all_free (scope shapes.now progress.old.bound) ≡ true }
    ensures shape { (a : Shaped) → IsAnswer a first → AreAnswered a (walked term.now (scope shapes.now progress.old.bound)).shape result }
    ensures bound { progress.new.bound ≡ progress.old.bound }
    ensures goals { OnOk result (progress.new.goals ≡ progress.old.goals ++ (walked term.now (scope shapes.now progress.old.bound)).goals) }
    ensures was { OnOk result (IsOk first) }
{
    let first = under(0, first)?;
    let second = walk(alloc, shapes, progress, term);
    let second = under(1, second)?;
    Ok(Operands { first, second })
}

/// The shape of a term; its goals are added. Linear in the size of the term: each node is visited once.
#[cycle(walk)]
pub fn walk(
    alloc: Global,
    shapes: &Shapes,
    progress: &mut Progress,
    term: &Term,
) -> Result<Items<Aff>, Trouble>
    requires plain { is_plain term.now ≡ true }
    requires free { all_free (scope shapes.now progress.old.bound) ≡ true }
    ensures shape { IsAnswer (walked term.now (scope shapes.now progress.old.bound)).shape result }
    ensures bound { progress.new.bound ≡ progress.old.bound }
    ensures goals { OnOk result (progress.new.goals ≡ progress.old.goals ++ (walked term.now (scope shapes.now progress.old.bound)).goals) }
{
    match term {
        Term::Lit(_) | Term::WordOf(_) => Ok(Items::new(alloc)),
        Term::TVar(var) => variable(alloc, shapes, progress.bound.as_slice(), *var),
        Term::Index(e, _) => row(alloc, walk(alloc, shapes, progress, e.get())),
        Term::Guard(_, e) => same(walk(alloc, shapes, progress, e.get())),
        Term::Flatten(e) => flat(alloc, walk(alloc, shapes, progress, e.get())),
        Term::Split(k, e) => tiled(alloc, *k, walk(alloc, shapes, progress, e.get())),
        Term::Transpose(e) => columns(alloc, walk(alloc, shapes, progress, e.get())),
        Term::Gen(n, e) => {
            add_goal(alloc, &mut progress.goals, n)?;
            rows(alloc, n, walk(alloc, shapes, progress, e.get()))
        }
        Term::Sum(n, e) => {
            add_goal(alloc, &mut progress.goals, n)?;
            same(walk(alloc, shapes, progress, e.get()))
        }
        Term::PadL(n, e) | Term::PadR(n, e) => {
            add_goal(alloc, &mut progress.goals, n)?;
            more(alloc, n, walk(alloc, shapes, progress, e.get()))
        }
        Term::TruncL(n, e) | Term::TruncR(n, e) => cut(alloc, shapes, progress, n, e.get()),
        Term::Let(a, b) => {
            let definition = walk(alloc, shapes, progress, a.get());
            let_in(alloc, shapes, progress, definition, b.get())
        }
        Term::Add(a, b) | Term::Sub(a, b) => {
            let first = walk(alloc, shapes, progress, a.get());
            equal(alloc, operands(alloc, shapes, progress, first, b.get()))
        }
        Term::Mul(a, b) => {
            let first = walk(alloc, shapes, progress, a.get());
            words(alloc, operands(alloc, shapes, progress, first, b.get()))
        }
        Term::Concat(a, b) => {
            let first = walk(alloc, shapes, progress, a.get());
            followed(alloc, operands(alloc, shapes, progress, first, b.get()))
        }
    }
}
