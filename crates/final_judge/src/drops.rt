//! Goals of truncations: that what they leave out is never stored.

ghost use Rattle.std.specs.Prelude.{◌≡◌, ◌<◌, ◌≤◌, ◌++◌, ◌∷◌, [], false, true, length, pos, IfOk, Ok};
ghost use Rattle.affine_index.specs.Form.{literal_form};
ghost use Rattle.affine_index.specs.Normal.{holds_var};
ghost use Rattle.affine_index.specs.Sum.{difference_of};
ghost use Rattle.reindexer.specs.Indices.{framed};
ghost use Rattle.reindexer.specs.declared.frame.Frame.TheVariants.{Flatten, Shift, Split, Transpose};
ghost use Rattle.final_rules.specs.Goals.{below, drops, kept_by, kept_goal, of_first_index, one};
ghost use Rattle.final_rules.specs.Rules.{goals_with};
ghost use Rattle.final_rules.specs.Places.{frame_of};
ghost use Rattle.final_judge.specs.Ready.{all_ready, step_ready};

use crate::loose::Loose;
use affine_index::Aff;
use fact_list::{Facts, copy_facts};
use final_rules::frames::frame_of;
use final_rules::spot::binders;
use final_rules::{Around, Goal, GoalKind};
use reindexer::Frame;
use shape_rules::extents::{in_front, take_first};
use sqlite_items::Items;
use std::alloc::{AllocError, Global};

/// The first two indices change places.
fn swapped(alloc: Global, forms: Items<Loose>) -> Result<Items<Loose>, AllocError>
    ensures { IfOk result (λ xs. xs ≡ framed Transpose forms) }
{
    let mut rest = forms;
    let Some(x) = take_first(&mut rest) else {
        return Ok(Items::new(alloc));
    };
    let Some(y) = take_first(&mut rest) else {
        return Ok(Items::new(alloc));
    };
    let rest = in_front(alloc, x, rest)?;
    in_front(alloc, y, rest)
}

/// The first two indices make one.
fn flattened(alloc: Global, m: &Aff, forms: Items<Loose>) -> Result<Items<Loose>, AllocError>
    requires { holds_var m.now ≡ false }
    ensures { IfOk result (λ xs. xs ≡ framed (Flatten m.now) forms) }
{
    let mut rest = forms;
    let Some(x) = take_first(&mut rest) else {
        return Ok(Items::new(alloc));
    };
    let Some(y) = take_first(&mut rest) else {
        return Ok(Items::new(alloc));
    };
    let rows = x.times(alloc, m)?;
    let form = rows.plus(alloc, &y)?;
    in_front(alloc, form, rest)
}

/// The first index makes two.
fn spread(alloc: Global, k: u32, forms: Items<Loose>) -> Result<Items<Loose>, AllocError>
    requires positive { 0 < k }
    requires limit { k ≤ 2147483647 }
    ensures { IfOk result (λ xs. xs ≡ framed (Split k) forms) }
{
    let mut rest = forms;
    let Some(x) = take_first(&mut rest) else {
        return Ok(Items::new(alloc));
    };
    let left = x.remainder(alloc, k)?;
    let rest = in_front(alloc, left, rest)?;
    let whole = x.quotient(alloc, k)?;
    in_front(alloc, whole, rest)
}

/// The first index is moved.
fn moved(alloc: Global, amount: &Aff, forms: Items<Loose>) -> Result<Items<Loose>, AllocError>
    ensures { IfOk result (λ xs. xs ≡ framed (Shift amount.now) forms) }
{
    let mut rest = forms;
    let Some(x) = take_first(&mut rest) else {
        return Ok(Items::new(alloc));
    };
    let amount = Loose::new(alloc, amount)?;
    let form = x.plus(alloc, &amount)?;
    in_front(alloc, form, rest)
}

/// What one frame makes of the indices.
fn after(alloc: Global, frame: &Frame, forms: Items<Loose>) -> Result<Items<Loose>, AllocError>
    requires { step_ready frame.now ≡ true }
    ensures { IfOk result (λ xs. xs ≡ framed frame.now forms) }
{
    match frame {
        Frame::Fix(index) => in_front(alloc, Loose::new(alloc, index)?, forms),
        Frame::Transpose => swapped(alloc, forms),
        Frame::Flatten(m) => flattened(alloc, m, forms),
        Frame::Split(k) => spread(alloc, *k, forms),
        Frame::Shift(amount) => moved(alloc, amount, forms),
        Frame::Keep(_) => Ok(forms),
    }
}

/// 0 as a form.
fn zero(alloc: Global) -> Result<Option<Aff>, AllocError>
    ensures { IfOk result (λ o. o ≡ kept_goal (Ok (literal_form (pos 0)))) }
{
    match Aff::literal(alloc, 0) {
        Ok(zero) => {
            zero.told();
            Ok(Some(zero))
        }
        Err(_) => Err(AllocError),
    }
}

/// That the first index is not among as many rows as are left out in front.
fn behind(alloc: Global, amount: &Aff, forms: &[Loose]) -> Result<Option<Aff>, AllocError>
    ensures { IfOk result (λ o. o ≡ kept_goal (of_first_index (λ x. difference_of x amount.now) forms.now)) }
{
    match forms.first() {
        None => zero(alloc),
        Some(index) => {
            let amount = Loose::new(alloc, amount)?;
            index.less(alloc, &amount)?.kept(alloc)
        }
    }
}

/// That the first index is among as many rows as are kept.
fn among(alloc: Global, rows: &Aff, forms: &[Loose]) -> Result<Option<Aff>, AllocError>
    ensures { IfOk result (λ o. o ≡ kept_goal (of_first_index (below rows.now) forms.now)) }
{
    match forms.first() {
        None => zero(alloc),
        Some(index) => {
            let last = last_of(alloc, rows)?;
            last.less(alloc, index)?.kept(alloc)
        }
    }
}

/// n - 1.
fn last_of(alloc: Global, rows: &Aff) -> Result<Loose, AllocError>
    ensures { IfOk result (λ x. x ≡ difference_of rows.now one) }
{
    let rows = Loose::new(alloc, rows)?;
    let one = unit(alloc)?;
    rows.less(alloc, &one)
}

/// 1.
fn unit(alloc: Global) -> Result<Loose, AllocError>
    ensures { IfOk result (λ x. x ≡ one) }
{
    match Aff::literal(alloc, 1) {
        Ok(number) => Loose::new(alloc, &number),
        Err(_) => Err(AllocError),
    }
}

/// A drop goal in front of others.
fn goal_before(
    alloc: Global,
    facts: &Facts,
    form: Option<Aff>,
    goals: Items<Goal>,
) -> Result<Items<Goal>, AllocError>
    ensures { IfOk result (λ gs. gs ≡ record { kind = GoalKind.Drop; goal = form; facts = facts.now } ∷ goals) }
{
    let Ok(facts) = copy_facts(alloc, facts) else {
        return Err(AllocError);
    };
    let goal = Goal {
        kind: GoalKind::Drop,
        goal: form,
        facts,
    };
    in_front(alloc, goal, goals)
}

/// What one truncation has to show, in front of what those inside it have to.
fn before(
    alloc: Global,
    facts: &Facts,
    node: &Around,
    forms: &[Loose],
    goals: Items<Goal>,
) -> Result<Items<Goal>, AllocError>
    ensures { IfOk result (λ gs. gs ≡ goals_with facts.now (kept_by node.now facts.now.path forms.now) ++ goals) }
{
    match node {
        Around::Without(amount) => {
            let form = behind(alloc, amount, forms)?;
            goal_before(alloc, facts, form, goals)
        }
        Around::Before(rows) => {
            let form = among(alloc, rows, forms)?;
            goal_before(alloc, facts, form, goals)
        }
        Around::Loop(_)
        | Around::Swapped
        | Around::Joined(_)
        | Around::Tiled(_)
        | Around::Later(_) => Ok(goals),
    }
}

/// What one node around a leaf makes of the indices, under so many loops.
fn outward(
    alloc: Global,
    loops: u32,
    node: &Around,
    forms: Items<Loose>,
) -> Result<Items<Loose>, AllocError>
    requires { step_ready (frame_of 0 node.now) ≡ true }
    ensures { IfOk result (λ xs. xs ≡ framed (frame_of loops node.now) forms) }
{
    let frame = frame_of(alloc, loops, node)?;
    after(alloc, &frame, forms)
}

/// The goals of the truncations around a leaf, the outermost first. Each has a copy of the facts.
pub fn drop_goals(
    alloc: Global,
    facts: &Facts,
    around: &[Around],
) -> Result<Items<Goal>, AllocError>
    requires few { length facts.now.path ≤ 2147483647 }
    requires ready { all_ready around.now ≡ true }
    ensures { IfOk result (λ gs. gs ≡ goals_with facts.now (drops facts.now.path around.now [])) }
{
    let loops = binders(facts.path.as_slice()) as u32;
    let mut forms = Items::new(alloc);
    let mut goals = Items::new(alloc);
    for node in around {
        goals = before(alloc, facts, node, forms.as_slice(), goals)?;
        forms = outward(alloc, loops, node, forms)?;
    }
    Ok(goals)
}
