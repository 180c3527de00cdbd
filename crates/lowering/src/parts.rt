//! Where the parts of nodes stand.

ghost use Rattle.std.specs.Prelude.{◌≡◌, ◌≤◌, ℕ, IfOk, OnOk, length, true};
ghost use Rattle.affine_index.specs.declared.form.Items.{Items};
ghost use Rattle.reindexer.specs.Limited.{limited};
ghost use Rattle.region_plan.specs.Needed.{words_form};
ghost use Rattle.region_plan.specs.Shaped.{IsShaped};
ghost use Rattle.shape_rules.specs.Scopes.{all_free, given};
ghost use Rattle.term_tree.specs.Shape.{Extents};
ghost use Rattle.final_rules.specs.declared.printing.Scene.{Scene};
ghost use Rattle.final_rules.specs.Form.{adds_words, is_none, outside_word};
ghost use Rattle.final_rules.specs.Places.{extents_under};
ghost use Rattle.lowering.specs.Made.{IsMade};
ghost use Rattle.lowering.specs.Nodes.{definition_node, definition_of, free_of, inner_node, part_node, right_node, under_let};

use crate::forms::{free_place, tensor_words};
use crate::marks::through_child;
use crate::node::{Definition, Node, Room, Target};
use final_rules::form::{extents_under, outside_word};
use final_rules::printing::Scene;
use final_rules::spot::{alone, same};
use final_rules::steps::{child_spot, on_right};
use loop_lang::Buf;
use shape_rules::Shapes;
use shape_rules::extents::{copy, enter, in_front, leave, take_first};
use std::alloc::{AllocError, Global};
use std::mem;
use term_tree::Term;

/// The part of a node with one.
pub fn inner_node(
    alloc: Global,
    shapes: &Shapes,
    node: &Node,
    adds: bool,
    term: &Term,
) -> Result<Node, AllocError>
    requires few { length node.now.spot.path ≤ 2147483647 }
    requires shaped { IsShaped shapes.now term.now }
    requires free { all_free (given shapes.now) ≡ true }
    ensures node { IfOk result (λ n. n ≡ inner_node term.now (given shapes.now) adds node.now) }
    ensures few { IfOk result (λ n. length n.spot.path ≤ 2147483647) }
{
    let spot = child_spot(alloc, shapes, &node.spot, term)?;
    let marks = through_child(alloc, 0, node.marks.as_slice())?;
    Ok(Node { adds, spot, marks })
}

/// A part that stands where its node does.
pub fn part_node(alloc: Global, node: &Node, child: u32, adds: bool) -> Result<Node, AllocError>
    ensures { IfOk result (λ n. n ≡ part_node child adds node.now) }
{
    let spot = same(alloc, &node.spot)?;
    let marks = through_child(alloc, child, node.marks.as_slice())?;
    Ok(Node { adds, spot, marks })
}

/// The right part of a concat.
pub fn right_node(
    alloc: Global,
    shapes: &Shapes,
    node: &Node,
    left: &Term,
) -> Result<Node, AllocError>
    requires shaped { IsShaped shapes.now left.now }
    requires free { all_free (given shapes.now) ≡ true }
    ensures { IfOk result (λ n. n ≡ right_node left.now (given shapes.now) node.now) }
{
    let spot = on_right(alloc, shapes, &node.spot, left)?;
    let marks = through_child(alloc, 1, node.marks.as_slice())?;
    Ok(Node {
        adds: node.adds,
        spot,
        marks,
    })
}

/// The definition of a let.
pub fn definition_node(alloc: Global, node: &Node) -> Result<Node, AllocError>
    ensures { IfOk result (λ n. n ≡ definition_node node.now) }
{
    let spot = alone(alloc, &node.spot)?;
    let marks = through_child(alloc, 0, node.marks.as_slice())?;
    Ok(Node {
        adds: false,
        spot,
        marks,
    })
}

/// What the definition of a let is stored in, and where scratch is free behind it.
pub fn definition(
    alloc: Global,
    scene: &Scene,
    room: &Room,
    term: &Term,
) -> Result<Definition, AllocError>
    requires shaped { IsShaped scene.now.shapes term.now }
    requires free { all_free (given scene.now.shapes) ≡ true }
    requires offset { IsMade (limited (free_of room.now)) }
    requires words { IsMade (words_form (extents_under term.now (given scene.now.shapes))) }
    ensures { IfOk result (λ d. d ≡ definition_of scene.now room.now term.now) }
{
    let extents = extents_under(alloc, &scene.shapes, term)?;
    let above = tensor_words(alloc, extents.as_slice())?;
    let base = free_place(alloc, room)?;
    let offset = copy(alloc, &base)?;
    let target = Target {
        buffer: Buf::Scratch(0),
        extents,
        offset,
    };
    let room = Room { base, above };
    Ok(Definition { target, room })
}

/// Enters a let whose tensor is stored there. Cost: the lets around.
pub fn enter_let(alloc: Global, scene: &mut Scene, target: Target) -> Result<(), AllocError>
    ensures { OnOk result (scene.new ≡ under_let target.extents target.offset scene.old) }
{
    let Target {
        extents,
        offset,
        ..
    } = target;
    enter(alloc, &mut scene.shapes, extents)?;
    let outer = mem::replace(&mut scene.offsets, sqlite_items::Items::new(alloc));
    scene.offsets = in_front(alloc, offset, outer)?;
    Ok(())
}

/// Leaves the innermost let.
pub fn leave_let(scene: &mut Scene)
    ensures { (ns : Extents) (offset : Items) (sc : Scene) → scene.old ≡ under_let ns offset sc → scene.new ≡ sc }
{
    leave(&mut scene.shapes);
    let _ = take_first(&mut scene.offsets);
}

/// Whether a term is in the form of words.
fn is_word(alloc: Global, term: &Term) -> Result<bool, AllocError>
    ensures { IfOk result (λ b. b ≡ is_none (outside_word term.now)) }
{
    match outside_word(alloc, term)? {
        None => Ok(true),
        Some(_) => Ok(false),
    }
}

/// Whether a sum is one word.
pub fn adds_words(alloc: Global, shapes: &Shapes, a: &Term, b: &Term) -> Result<bool, AllocError>
    requires shaped { IsShaped shapes.now a.now }
    requires free { all_free (given shapes.now) ≡ true }
    ensures { IfOk result (λ o. o ≡ adds_words a.now b.now (given shapes.now)) }
{
    let extents = extents_under(alloc, shapes, a)?;
    let words = is_word(alloc, a)? && is_word(alloc, b)?;
    Ok(extents.is_empty() && words)
}
