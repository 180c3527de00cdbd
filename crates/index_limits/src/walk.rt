//! The printed indices of terms in store positions.

ghost use Rattle.std.specs.Prelude.{◌≡◌, ◌≤◌, IfOk, Ok, OnOk, length, true};
ghost use Rattle.affine_index.specs.Condition.{all_scoped};
ghost use Rattle.region_plan.specs.Needed.{words_form};
ghost use Rattle.region_plan.specs.Shaped.{IsShaped};
ghost use Rattle.shape_rules.specs.Scopes.{all_free, each_free, given};
ghost use Rattle.term_tree.specs.Syntax.{add, concat, guard, let_in};
ghost use Rattle.final_rules.specs.Form.{adds_words, is_none, outside_word};
ghost use Rattle.final_rules.specs.Places.{alone};
ghost use Rattle.final_rules.specs.Printed.{form_small, printed_of};
ghost use Rattle.final_rules.specs.Printing.{Counts, and_then, compared, next, sized};
ghost use Rattle.index_limits.specs.Fills.{FillReady, Fills, LengthReady, fill_sized};
ghost use Rattle.index_limits.specs.Nodes.{IsBinder, IsReshape};
ghost use Rattle.index_limits.specs.Places.{free_of, place_at, under};
ghost use Rattle.index_limits.specs.Ready.{Ready};

use crate::forms::{Kept, bound, keep};
use crate::stores::{Room, Target, leaf_indices, read_indices};
use affine_index::{Aff, Cond};
use final_rules::Spot;
use final_rules::form::{extents_under, outside_word};
use final_rules::printing::{Scene, Stop, compared};
use final_rules::spot::alone;
use final_rules::steps::{child_spot, guarded, on_right};
use region_plan::extents::words_form;
use reindexer::forms::sum;
use shape_rules::Shapes;
use shape_rules::extents::{copy, enter, in_front, leave, take_first};
use sqlite_items::Items;
use std::alloc::{AllocError, Global};
use std::mem;
use term_tree::Term;

/// The tensor of a let, where scratch is free behind it, and the number of the next printed index.
#[derive(Drop)]
pub struct Filled {
    pub site: Target,
    pub after: Room,
    pub number: u64,
}

/// The length of a fill, whose place is known.
fn fill_length(
    alloc: Global,
    maxima: &[u64],
    vars: &[u64],
    offset: Kept,
    extents: Items<Aff>,
) -> Result<Filled, Stop>
    requires free { each_free extents ≡ true }
    requires ready { LengthReady maxima.now vars.now extents }
    ensures { Fills (next (form_small maxima.now vars.now (words_form extents)) offset.number) offset.form extents result }
{
    let length = words_form(alloc, extents.as_slice());
    let words = keep(maxima, vars, length, offset.number)?;
    let base = copy(alloc, &offset.form)?;
    let Kept {
        form: above,
        number,
    } = words;
    let Kept { form: offset, .. } = offset;
    Ok(Filled {
        site: Target { extents, offset },
        after: Room { base, above },
        number,
    })
}

/// The fill of a let: its place, and then its length.
fn fill(
    alloc: Global,
    maxima: &[u64],
    vars: &[u64],
    room: &Room,
    extents: Items<Aff>,
    number: u64,
) -> Result<Filled, Stop>
    requires free { each_free extents ≡ true }
    requires ready { FillReady maxima.now vars.now (free_of room.now) extents }
    ensures { Fills (fill_sized maxima.now vars.now (free_of room.now) extents number) (free_of room.now) extents result }
{
    let place = sum(alloc, &room.base, &room.above);
    let offset = keep(maxima, vars, place, number)?;
    fill_length(alloc, maxima, vars, offset, extents)
}

/// Enters a let.
fn enter_let(alloc: Global, scene: &mut Scene, site: Target) -> Result<(), AllocError>
    ensures { OnOk result (scene.new ≡ under site scene.old) }
{
    let Target { extents, offset } = site;
    enter(alloc, &mut scene.shapes, extents)?;
    let outer = mem::replace(&mut scene.offsets, Items::new(alloc));
    scene.offsets = in_front(alloc, offset, outer)?;
    Ok(())
}

/// Leaves the innermost let.
fn leave_let(scene: &mut Scene)
    ensures { (site : Target) (outer : Scene) → scene.old ≡ under site outer → scene.new ≡ outer }
{
    leave(&mut scene.shapes);
    let _ = take_first(&mut scene.offsets);
}

/// Whether a term is in the form of words.
fn is_word(alloc: Global, term: &Term) -> Result<bool, AllocError>
    ensures { IfOk result (λ b. b ≡ is_none (outside_word term.now)) }
{
    match outside_word(alloc, term)? {
        None => Ok(true),
        Some(_) => Ok(false),
    }
}

/// Whether a sum is one word.
fn adds_words(alloc: Global, shapes: &Shapes, a: &Term, b: &Term) -> Result<bool, AllocError>
    requires shaped { IsShaped shapes.now a.now }
    requires free { all_free (given shapes.now) ≡ true }
    ensures { IfOk result (λ o. o ≡ adds_words a.now b.now (given shapes.now)) }
{
    let extents = extents_under(alloc, shapes, a)?;
    let words = is_word(alloc, a)? && is_word(alloc, b)?;
    Ok(extents.is_empty() && words)
}

/// Two parts, where each stands.
#[cycle(walk)]
fn two_indices(
    alloc: Global,
    maxima: &[u64],
    vars: &[u64],
    scene: &mut Scene,
    target: &Target,
    room: &Room,
    first: &Spot,
    second: &Spot,
    a: &Term,
    b: &Term,
    number: u64,
) -> Result<u64, Stop>
    requires first_few { length first.now.path ≤ 2147483647 }
    requires second_few { length second.now.path ≤ 2147483647 }
    requires left { IsShaped scene.old.shapes a.now }
    requires right { IsShaped scene.old.shapes b.now }
    requires free { all_free (given scene.old.shapes) ≡ true }
    requires left_ready { Ready maxima.now vars.now scene.old target.now (free_of room.now) first.now a.now }
    requires right_ready { Ready maxima.now vars.now scene.old target.now (free_of room.now) second.now b.now }
    ensures counts { Counts (and_then (sized maxima.now (printed_of a.now (place_at scene.old target.now (free_of room.now) first.now)) number) (sized maxima.now (printed_of b.now (place_at scene.old target.now (free_of room.now) second.now)))) result }
    ensures scene { OnOk result (scene.new ≡ scene.old) }
{
    let number = term_indices(alloc, maxima, vars, scene, target, room, first, a, number)?;
    term_indices(alloc, maxima, vars, scene, target, room, second, b, number)
}

/// A sum: one word, or two stores.
#[cycle(walk)]
fn sum_indices(
    alloc: Global,
    maxima: &[u64],
    vars: &[u64],
    scene: &mut Scene,
    target: &Target,
    room: &Room,
    spot: &Spot,
    term: &Term,
    a: &Term,
    b: &Term,
    number: u64,
) -> Result<u64, Stop>
    requires few { length spot.now.path ≤ 2147483647 }
    requires is { term.now ≡ add a.now b.now }
    requires left { IsShaped scene.old.shapes a.now }
    requires right { IsShaped scene.old.shapes b.now }
    requires free { all_free (given scene.old.shapes) ≡ true }
    requires ready { Ready maxima.now vars.now scene.old target.now (free_of room.now) spot.now (add a.now b.now) }
    ensures counts { Counts (sized maxima.now (printed_of (add a.now b.now) (place_at scene.old target.now (free_of room.now) spot.now)) number) result }
    ensures scene { OnOk result (scene.new ≡ scene.old) }
{
    if adds_words(alloc, &scene.shapes, a, b)? {
        return leaf_indices(alloc, maxima, vars, scene, target, spot, term, number);
    }
    two_indices(
        alloc, maxima, vars, scene, target, room, spot, spot, a, b, number,
    )
}

/// The parts of a concat.
#[cycle(walk)]
fn joined_indices(
    alloc: Global,
    maxima: &[u64],
    vars: &[u64],
    scene: &mut Scene,
    target: &Target,
    room: &Room,
    spot: &Spot,
    a: &Term,
    b: &Term,
    number: u64,
) -> Result<u64, Stop>
    requires few { length spot.now.path ≤ 2147483647 }
    requires left { IsShaped scene.old.shapes a.now }
    requires right { IsShaped scene.old.shapes b.now }
    requires free { all_free (given scene.old.shapes) ≡ true }
    requires ready { Ready maxima.now vars.now scene.old target.now (free_of room.now) spot.now (concat a.now b.now) }
    ensures counts { Counts (sized maxima.now (printed_of (concat a.now b.now) (place_at scene.old target.now (free_of room.now) spot.now)) number) result }
    ensures scene { OnOk result (scene.new ≡ scene.old) }
{
    let right = on_right(alloc, &scene.shapes, spot, a)?;
    two_indices(
        alloc, maxima, vars, scene, target, room, spot, &right, a, b, number,
    )
}

/// A binder: its bound, and then its part.
#[cycle(walk)]
fn bound_indices(
    alloc: Global,
    maxima: &[u64],
    vars: &[u64],
    scene: &mut Scene,
    target: &Target,
    room: &Room,
    spot: &Spot,
    term: &Term,
    extent: &Aff,
    part: &Term,
    number: u64,
) -> Result<u64, Stop>
    requires few { length spot.now.path ≤ 2147483647 }
    requires is { IsBinder term.now extent.now part.now }
    requires whole { IsShaped scene.old.shapes term.now }
    requires part { IsShaped scene.old.shapes part.now }
    requires free { all_free (given scene.old.shapes) ≡ true }
    requires ready { Ready maxima.now vars.now scene.old target.now (free_of room.now) spot.now term.now }
    ensures counts { Counts (sized maxima.now (printed_of term.now (place_at scene.old target.now (free_of room.now) spot.now)) number) result }
    ensures scene { OnOk result (scene.new ≡ scene.old) }
{
    let inner = bound(alloc, maxima, vars, extent, number)?;
    let below = child_spot(alloc, &scene.shapes, spot, term)?;
    let vars = inner.vars.as_slice();
    term_indices(
        alloc,
        maxima,
        vars,
        scene,
        target,
        room,
        &below,
        part,
        inner.number,
    )
}

/// The comparisons of a guard.
fn comparisons(maxima: &[u64], vars: &[u64], cond: &Cond, number: u64) -> Result<u64, Stop>
    requires { all_scoped (length maxima.now) (length vars.now) (cond.now).all ≡ true }
    ensures { Counts (compared maxima.now vars.now (cond.now).all number) result }
{
    compared(maxima, vars, cond.all.as_slice(), number)
}

/// A guard: its comparisons, and then its part.
#[cycle(walk)]
fn guard_indices(
    alloc: Global,
    maxima: &[u64],
    vars: &[u64],
    scene: &mut Scene,
    target: &Target,
    room: &Room,
    spot: &Spot,
    cond: &Cond,
    part: &Term,
    number: u64,
) -> Result<u64, Stop>
    requires part { IsShaped scene.old.shapes part.now }
    requires free { all_free (given scene.old.shapes) ≡ true }
    requires ready { Ready maxima.now vars.now scene.old target.now (free_of room.now) spot.now (guard cond.now part.now) }
    ensures counts { Counts (sized maxima.now (printed_of (guard cond.now part.now) (place_at scene.old target.now (free_of room.now) spot.now)) number) result }
    ensures scene { OnOk result (scene.new ≡ scene.old) }
{
    let number = comparisons(maxima, vars, cond, number)?;
    let below = guarded(alloc, spot, cond)?;
    term_indices(
        alloc, maxima, vars, scene, target, room, &below, part, number,
    )
}

/// The part of a reshape operator, which prints nothing of its own.
#[cycle(walk)]
fn reshaped_indices(
    alloc: Global,
    maxima: &[u64],
    vars: &[u64],
    scene: &mut Scene,
    target: &Target,
    room: &Room,
    spot: &Spot,
    term: &Term,
    part: &Term,
    number: u64,
) -> Result<u64, Stop>
    requires few { length spot.now.path ≤ 2147483647 }
    requires is { IsReshape term.now part.now }
    requires whole { IsShaped scene.old.shapes term.now }
    requires part { IsShaped scene.old.shapes part.now }
    requires free { all_free (given scene.old.shapes) ≡ true }
    requires ready { Ready maxima.now vars.now scene.old target.now (free_of room.now) spot.now term.now }
    ensures counts { Counts (sized maxima.now (printed_of term.now (place_at scene.old target.now (free_of room.now) spot.now)) number) result }
    ensures scene { OnOk result (scene.new ≡ scene.old) }
{
    let below = child_spot(alloc, &scene.shapes, spot, term)?;
    term_indices(
        alloc, maxima, vars, scene, target, room, &below, part, number,
    )
}

/// The definition of a let, whose tensor is a buffer of its own.
#[cycle(walk)]
fn definition_indices(
    alloc: Global,
    maxima: &[u64],
    vars: &[u64],
    scene: &mut Scene,
    site: &Target,
    after: &Room,
    spot: &Spot,
    a: &Term,
    number: u64,
) -> Result<u64, Stop>
    requires few { length spot.now.path ≤ 2147483647 }
    requires shaped { IsShaped scene.old.shapes a.now }
    requires free { all_free (given scene.old.shapes) ≡ true }
    requires ready { Ready maxima.now vars.now scene.old site.now (free_of after.now) (alone spot.now) a.now }
    ensures counts { Counts (sized maxima.now (printed_of a.now (place_at scene.old site.now (free_of after.now) (alone spot.now))) number) result }
    ensures scene { OnOk result (scene.new ≡ scene.old) }
{
    let within = alone(alloc, spot)?;
    term_indices(alloc, maxima, vars, scene, site, after, &within, a, number)
}

/// The body of a let.
#[cycle(walk)]
fn body_indices(
    alloc: Global,
    maxima: &[u64],
    vars: &[u64],
    scene: &mut Scene,
    target: &Target,
    site: Target,
    after: &Room,
    spot: &Spot,
    b: &Term,
    number: u64,
) -> Result<u64, Stop>
    requires few { length spot.now.path ≤ 2147483647 }
    requires shaped { IsShaped (under site scene.old).shapes b.now }
    requires free { all_free (given (under site scene.old).shapes) ≡ true }
    requires ready { Ready maxima.now vars.now (under site scene.old) target.now (free_of after.now) spot.now b.now }
    ensures counts { Counts (sized maxima.now (printed_of b.now (place_at (under site scene.old) target.now (free_of after.now) spot.now)) number) result }
    ensures scene { OnOk result (scene.new ≡ scene.old) }
{
    enter_let(alloc, scene, site)?;
    let number = term_indices(alloc, maxima, vars, scene, target, after, spot, b, number)?;
    leave_let(scene);
    Ok(number)
}

/// A let: its fill, its definition, and its body.
#[cycle(walk)]
fn let_indices(
    alloc: Global,
    maxima: &[u64],
    vars: &[u64],
    scene: &mut Scene,
    target: &Target,
    room: &Room,
    spot: &Spot,
    a: &Term,
    b: &Term,
    number: u64,
) -> Result<u64, Stop>
    requires few { length spot.now.path ≤ 2147483647 }
    requires shaped { IsShaped scene.old.shapes (let_in a.now b.now) }
    requires free { all_free (given scene.old.shapes) ≡ true }
    requires ready { Ready maxima.now vars.now scene.old target.now (free_of room.now) spot.now (let_in a.now b.now) }
    ensures counts { Counts (sized maxima.now (printed_of (let_in a.now b.now) (place_at scene.old target.now (free_of room.now) spot.now)) number) result }
    ensures scene { OnOk result (scene.new ≡ scene.old) }
{
    let extents = extents_under(alloc, &scene.shapes, a)?;
    let filled = fill(alloc, maxima, vars, room, extents, number)?;
    let Filled {
        site,
        after,
        number: next,
    } = filled;
    let number = definition_indices(alloc, maxima, vars, scene, &site, &after, spot, a, next)?;
    body_indices(
        alloc, maxima, vars, scene, target, site, &after, spot, b, number,
    )
}

/// The number of the next printed index after those of a term in a store position, which are counted in the order of the text, or the number
/// of the first that is not small. Each leaf and each let takes the forms of its place anew.
#[cycle(walk)]
pub fn term_indices(
    alloc: Global,
    maxima: &[u64],
    vars: &[u64],
    scene: &mut Scene,
    target: &Target,
    room: &Room,
    spot: &Spot,
    term: &Term,
    number: u64,
) -> Result<u64, Stop>
    requires few { length spot.now.path ≤ 2147483647 }
    requires shaped { IsShaped scene.old.shapes term.now }
    requires free { all_free (given scene.old.shapes) ≡ true }
    requires ready { Ready maxima.now vars.now scene.old target.now (free_of room.now) spot.now term.now }
    ensures counts { Counts (sized maxima.now (printed_of term.now (place_at scene.old target.now (free_of room.now) spot.now)) number) result }
    ensures scene { OnOk result (scene.new ≡ scene.old) }
{
    match term {
        Term::Lit(_) | Term::WordOf(_) | Term::Sub(_, _) | Term::Mul(_, _) => {
            leaf_indices(alloc, maxima, vars, scene, target, spot, term, number)
        }
        Term::TVar(_) | Term::Index(_, _) => {
            read_indices(alloc, maxima, vars, scene, target, spot, term, number)
        }
        Term::Let(a, b) => let_indices(
            alloc,
            maxima,
            vars,
            scene,
            target,
            room,
            spot,
            a.get(),
            b.get(),
            number,
        ),
        Term::Add(a, b) => sum_indices(
            alloc,
            maxima,
            vars,
            scene,
            target,
            room,
            spot,
            term,
            a.get(),
            b.get(),
            number,
        ),
        Term::Concat(a, b) => joined_indices(
            alloc,
            maxima,
            vars,
            scene,
            target,
            room,
            spot,
            a.get(),
            b.get(),
            number,
        ),
        Term::Gen(extent, part) | Term::Sum(extent, part) => bound_indices(
            alloc,
            maxima,
            vars,
            scene,
            target,
            room,
            spot,
            term,
            extent,
            part.get(),
            number,
        ),
        Term::Guard(cond, part) => guard_indices(
            alloc,
            maxima,
            vars,
            scene,
            target,
            room,
            spot,
            cond,
            part.get(),
            number,
        ),
        Term::Flatten(part)
        | Term::Split(_, part)
        | Term::Transpose(part)
        | Term::TruncL(_, part)
        | Term::TruncR(_, part)
        | Term::PadL(_, part)
        | Term::PadR(_, part) => reshaped_indices(
            alloc,
            maxima,
            vars,
            scene,
            target,
            room,
            spot,
            term,
            part.get(),
            number,
        ),
    }
}
