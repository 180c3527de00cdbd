//! The loops of terms in store positions.

ghost use Rattle.std.specs.Prelude.{◌≡◌, ◌≤◌, ◌++◌, ◌∷◌, [], IfOk, OnOk, length, map, true};
ghost use Rattle.fact_list.specs.Facts.{binders};
ghost use Rattle.index_trees.specs.Tree.{index_tree};
ghost use Rattle.loop_lang.specs.declared.stmt.Stmt.TheVariants.{For, If, Seq};
ghost use Rattle.reindexer.specs.Ready.{extents_ready};
ghost use Rattle.shape_rules.specs.Scopes.{given};
ghost use Rattle.term_tree.specs.Syntax.{add, concat, let_in};
ghost use Rattle.final_rules.specs.Form.{read_under};
ghost use Rattle.final_rules.specs.Owed.{test_of};
ghost use Rattle.final_rules.specs.Places.{extents_under};
ghost use Rattle.lowering.specs.Leaves.{full_read_if_in};
ghost use Rattle.lowering.specs.Made.{FullReadMadeIf, Ready};
ghost use Rattle.lowering.specs.Nodes.{IsEnclosing, IsPlainPart, around_ready, cleared_in, definition_node, enclosed_in, loops_in, part_node, under_let};

use crate::leaf::{full_read, leaf, row};
use crate::marks::is_marked;
use crate::node::{Definition, Node, Room, Target};
use crate::parts::{
    adds_words, definition, definition_node, enter_let, inner_node, leave_let, part_node,
    right_node,
};
use crate::words::tests;
use affine_index::{Aff, Cond};
use final_rules::form::extents_under;
use final_rules::printing::Scene;
use final_rules::read::reading;
use final_rules::spot::binders;
use final_rules::{Read, Spot};
use index_trees::index_tree;
use loop_lang::{Buf, Stmt, Test};
use owned_values::two;
use sqlite_items::{Boxed, Items};
use std::alloc::{AllocError, Global};
use term_tree::Term;

/// Adds a read that is stored whole, if there is one.
fn full_read_if(
    alloc: Global,
    all: &mut Items<Stmt>,
    scene: &Scene,
    target: &Target,
    adds: bool,
    spot: &Spot,
    extents: &[Aff],
    read: Option<Read>,
) -> Result<(), AllocError>
    requires few { length spot.now.path ≤ 2147483647 }
    requires around { around_ready spot.now.around ≡ true }
    requires extents { extents_ready target.now.extents ≡ true }
    requires made { FullReadMadeIf scene.now target.now spot.now extents.now read }
    ensures { OnOk result (all.new ≡ all.old ++ full_read_if_in scene.now target.now adds spot.now extents.now read) }
{
    match read {
        None => Ok(()),
        Some(read) => full_read(alloc, all, scene, target, adds, spot, extents, 0, &read),
    }
}

/// Adds a tensor variable under indices, stored whole.
fn read_stored(
    alloc: Global,
    all: &mut Items<Stmt>,
    scene: &Scene,
    target: &Target,
    room: &Room,
    node: &Node,
    term: &Term,
) -> Result<(), AllocError>
    requires ready { Ready scene.now target.now room.now node.now term.now }
    requires made { FullReadMadeIf scene.now target.now node.now.spot (extents_under term.now (given scene.now.shapes)) (read_under term.now []) }
    ensures { OnOk result (all.new ≡ all.old ++ full_read_if_in scene.now target.now node.now.adds node.now.spot (extents_under term.now (given scene.now.shapes)) (read_under term.now [])) }
{
    let extents = extents_under(alloc, &scene.shapes, term)?;
    let read = reading(alloc, term, Items::new(alloc))?;
    full_read_if(
        alloc,
        all,
        scene,
        target,
        node.adds,
        &node.spot,
        extents.as_slice(),
        read,
    )
}

/// Adds a fill of the words of a let.
fn clear(
    alloc: Global,
    all: &mut Items<Stmt>,
    spot: &Spot,
    definition: &Definition,
) -> Result<(), AllocError>
    requires { length spot.now.path ≤ 2147483647 }
    ensures { OnOk result (all.new ≡ all.old ++ cleared_in (binders spot.now.path) definition.now ∷ []) }
{
    let loops = binders(spot.path.as_slice()) as u32;
    let place = index_tree(alloc, loops, &definition.target.offset)?;
    let length = index_tree(alloc, loops, &definition.room.above)?;
    all.push(Stmt::Zero(Buf::Scratch(0), place, length))
}

/// Adds statements under tests.
fn tested(
    alloc: Global,
    all: &mut Items<Stmt>,
    tests: Items<Test>,
    body: Items<Stmt>,
) -> Result<(), AllocError>
    ensures { OnOk result (all.new ≡ all.old ++ If tests (Seq body) ∷ []) }
{
    let body = Boxed::new(alloc, Stmt::Seq(body))?;
    all.push(Stmt::If(tests, body))
}

/// Adds a loop around statements.
fn looped(
    alloc: Global,
    all: &mut Items<Stmt>,
    loops: u32,
    extent: &Aff,
    parallel: bool,
    body: Items<Stmt>,
) -> Result<(), AllocError>
    ensures { OnOk result (all.new ≡ all.old ++ For (index_tree loops extent.now) parallel (Seq body) ∷ []) }
{
    let bound = index_tree(alloc, loops, extent)?;
    row(alloc, all, bound, parallel, body)
}

/// Adds a choice whether statements are run.
fn guarded(
    alloc: Global,
    all: &mut Items<Stmt>,
    loops: u32,
    cond: &Cond,
    body: Items<Stmt>,
) -> Result<(), AllocError>
    ensures { OnOk result (all.new ≡ all.old ++ If (map (test_of loops) cond.now.all) (Seq body) ∷ []) }
{
    let tests = tests(alloc, loops, cond.all.as_slice())?;
    tested(alloc, all, tests, body)
}

/// Adds statements inside the statement that a node is: a loop for a gen, which is marked where a mark ends there, and for a sum, a choice for a guard, and none for others.
#[tactic(auto, using(crate::proofs::EnclosedForms::enclosed_forms))]
fn enclose(
    alloc: Global,
    all: &mut Items<Stmt>,
    node: &Node,
    term: &Term,
    body: Items<Stmt>,
) -> Result<(), AllocError>
    requires { length node.now.spot.path ≤ 2147483647 }
    ensures { OnOk result (all.new ≡ all.old ++ enclosed_in node.now term.now body) }
{
    let loops = binders(node.spot.path.as_slice()) as u32;
    match term {
        Term::Gen(extent, _) => {
            let parallel = is_marked(node.marks.as_slice());
            looped(alloc, all, loops, extent, parallel, body)
        }
        Term::Sum(extent, _) => looped(alloc, all, loops, extent, false, body),
        Term::Guard(cond, _) => guarded(alloc, all, loops, cond, body),
        Term::Lit(_)
        | Term::TVar(_)
        | Term::WordOf(_)
        | Term::Index(_, _)
        | Term::Let(_, _)
        | Term::Add(_, _)
        | Term::Sub(_, _)
        | Term::Mul(_, _)
        | Term::Concat(_, _)
        | Term::Flatten(_)
        | Term::Split(_, _)
        | Term::Transpose(_)
        | Term::TruncL(_, _)
        | Term::TruncR(_, _)
        | Term::PadL(_, _)
        | Term::PadR(_, _) => all.append(body),
    }
}

/// Two parts, where each stands.
#[cycle(walk)]
fn two_loops(
    alloc: Global,
    all: &mut Items<Stmt>,
    scene: &mut Scene,
    target: &Target,
    room: &Room,
    first: &Node,
    second: &Node,
    a: &Term,
    b: &Term,
) -> Result<(), AllocError>
    requires first { Ready scene.old target.now room.now first.now a.now }
    requires second { Ready scene.old target.now room.now second.now b.now }
    ensures loops { OnOk result (all.new ≡ all.old ++ (loops_in scene.old target.now room.now first.now a.now ++ loops_in scene.old target.now room.now second.now b.now)) }
    ensures scene { OnOk result (scene.new ≡ scene.old) }
{
    term_loops(alloc, all, scene, target, room, first, a)?;
    term_loops(alloc, all, scene, target, room, second, b)
}

/// A sum of two terms: one word, or two stores that add.
#[cycle(walk)]
fn adding_loops(
    alloc: Global,
    all: &mut Items<Stmt>,
    scene: &mut Scene,
    target: &Target,
    room: &Room,
    node: &Node,
    term: &Term,
    a: &Term,
    b: &Term,
) -> Result<(), AllocError>
    requires ready { Ready scene.old target.now room.now node.now term.now }
    requires is { term.now ≡ add a.now b.now }
    ensures loops { OnOk result (all.new ≡ all.old ++ loops_in scene.old target.now room.now node.now term.now) }
    ensures scene { OnOk result (scene.new ≡ scene.old) }
{
    let words = adds_words(alloc, &scene.shapes, a, b)?;
    if words {
        return leaf(alloc, all, scene, target, node.adds, &node.spot, term);
    }
    let (first, second) = two(
        part_node(alloc, node, 0, true),
        part_node(alloc, node, 1, true),
    )?;
    two_loops(alloc, all, scene, target, room, &first, &second, a, b)
}

/// The parts of a concat.
#[cycle(walk)]
fn concat_loops(
    alloc: Global,
    all: &mut Items<Stmt>,
    scene: &mut Scene,
    target: &Target,
    room: &Room,
    node: &Node,
    a: &Term,
    b: &Term,
) -> Result<(), AllocError>
    requires { Ready scene.old target.now room.now node.now (concat a.now b.now) }
    ensures loops { OnOk result (all.new ≡ all.old ++ loops_in scene.old target.now room.now node.now (concat a.now b.now)) }
    ensures scene { OnOk result (scene.new ≡ scene.old) }
{
    let (left, right) = two(
        part_node(alloc, node, 0, node.adds),
        right_node(alloc, &scene.shapes, node, a),
    )?;
    two_loops(alloc, all, scene, target, room, &left, &right, a, b)
}

/// A fill for the definition of a let, and the definition.
#[cycle(walk)]
fn defined_loops(
    alloc: Global,
    all: &mut Items<Stmt>,
    scene: &mut Scene,
    definition: &Definition,
    node: &Node,
    a: &Term,
) -> Result<(), AllocError>
    requires few { length node.now.spot.path ≤ 2147483647 }
    requires ready { Ready scene.old definition.now.target definition.now.room (definition_node node.now) a.now }
    ensures loops { OnOk result (all.new ≡ (all.old ++ cleared_in (binders node.now.spot.path) definition.now ∷ []) ++ loops_in scene.old definition.now.target definition.now.room (definition_node node.now) a.now) }
    ensures scene { OnOk result (scene.new ≡ scene.old) }
{
    clear(alloc, all, &node.spot, definition)?;
    let first = definition_node(alloc, node)?;
    term_loops(
        alloc,
        all,
        scene,
        &definition.target,
        &definition.room,
        &first,
        a,
    )
}

/// The body of a let.
#[cycle(walk)]
fn body_loops(
    alloc: Global,
    all: &mut Items<Stmt>,
    scene: &mut Scene,
    target: &Target,
    room: &Room,
    node: &Node,
    b: &Term,
) -> Result<(), AllocError>
    requires { Ready scene.old target.now room.now (part_node 1 node.now.adds node.now) b.now }
    ensures loops { OnOk result (all.new ≡ all.old ++ loops_in scene.old target.now room.now (part_node 1 node.now.adds node.now) b.now) }
    ensures scene { OnOk result (scene.new ≡ scene.old) }
{
    let second = part_node(alloc, node, 1, node.adds)?;
    term_loops(alloc, all, scene, target, room, &second, b)
}

/// The definition of a let, behind its fill, and then its body.
#[cycle(walk)]
fn let_loops(
    alloc: Global,
    all: &mut Items<Stmt>,
    scene: &mut Scene,
    target: &Target,
    room: &Room,
    node: &Node,
    a: &Term,
    b: &Term,
) -> Result<(), AllocError>
    requires { Ready scene.old target.now room.now node.now (let_in a.now b.now) }
    ensures loops { OnOk result (all.new ≡ all.old ++ loops_in scene.old target.now room.now node.now (let_in a.now b.now)) }
    ensures scene { OnOk result (scene.new ≡ scene.old) }
{
    let definition = definition(alloc, scene, room, a)?;
    defined_loops(alloc, all, scene, &definition, node, a)?;
    let Definition {
        target: inner,
        room: behind,
    } = definition;
    inside_let(alloc, all, scene, target, inner, &behind, node, b)
}

/// The body of a let whose tensor is stored there.
#[cycle(walk)]
fn inside_let(
    alloc: Global,
    all: &mut Items<Stmt>,
    scene: &mut Scene,
    target: &Target,
    inner: Target,
    room: &Room,
    node: &Node,
    b: &Term,
) -> Result<(), AllocError>
    requires { Ready (under_let inner.extents inner.offset scene.old) target.now room.now (part_node 1 node.now.adds node.now) b.now }
    ensures loops { OnOk result (all.new ≡ all.old ++ loops_in (under_let inner.extents inner.offset scene.old) target.now room.now (part_node 1 node.now.adds node.now) b.now) }
    ensures scene { OnOk result (scene.new ≡ scene.old) }
{
    enter_let(alloc, scene, inner)?;
    body_loops(alloc, all, scene, target, room, node, b)?;
    leave_let(scene);
    Ok(())
}

/// A gen, a sum or a guard: a statement around those of its part.
#[cycle(walk)]
fn enclosed_loops(
    alloc: Global,
    all: &mut Items<Stmt>,
    scene: &mut Scene,
    target: &Target,
    room: &Room,
    node: &Node,
    adds: bool,
    term: &Term,
    part: &Term,
) -> Result<(), AllocError>
    requires ready { Ready scene.old target.now room.now node.now term.now }
    requires is { IsEnclosing term.now part.now node.now.adds adds }
    ensures loops { OnOk result (all.new ≡ all.old ++ loops_in scene.old target.now room.now node.now term.now) }
    ensures scene { OnOk result (scene.new ≡ scene.old) }
{
    let inner = inner_node(alloc, &scene.shapes, node, adds, term)?;
    let mut body = Items::new(alloc);
    term_loops(alloc, &mut body, scene, target, room, &inner, part)?;
    enclose(alloc, all, node, term, body)
}

/// The part of a node that gives no statement of its own.
#[cycle(walk)]
fn part_loops(
    alloc: Global,
    all: &mut Items<Stmt>,
    scene: &mut Scene,
    target: &Target,
    room: &Room,
    node: &Node,
    term: &Term,
    part: &Term,
) -> Result<(), AllocError>
    requires ready { Ready scene.old target.now room.now node.now term.now }
    requires is { IsPlainPart term.now part.now }
    ensures loops { OnOk result (all.new ≡ all.old ++ loops_in scene.old target.now room.now node.now term.now) }
    ensures scene { OnOk result (scene.new ≡ scene.old) }
{
    let inner = inner_node(alloc, &scene.shapes, node, node.adds, term)?;
    term_loops(alloc, all, scene, target, room, &inner, part)
}

/// Adds the statements of a term in a store position: `for` for a gen, which is marked where a mark ends there, and for a sum, `if` for a guard, a fill and both parts for a
/// let, and a store for a leaf. Reshape operators change places alone. Linear in the term, and for each leaf in the nodes around it.
#[cycle(walk)]
pub fn term_loops(
    alloc: Global,
    all: &mut Items<Stmt>,
    scene: &mut Scene,
    target: &Target,
    room: &Room,
    node: &Node,
    term: &Term,
) -> Result<(), AllocError>
    requires { Ready scene.old target.now room.now node.now term.now }
    ensures loops { OnOk result (all.new ≡ all.old ++ loops_in scene.old target.now room.now node.now term.now) }
    ensures scene { OnOk result (scene.new ≡ scene.old) }
{
    match term {
        Term::Lit(_) | Term::WordOf(_) | Term::Sub(_, _) | Term::Mul(_, _) => {
            leaf(alloc, all, scene, target, node.adds, &node.spot, term)
        }
        Term::TVar(_) | Term::Index(_, _) => {
            read_stored(alloc, all, scene, target, room, node, term)
        }
        Term::Let(a, b) => let_loops(alloc, all, scene, target, room, node, a.get(), b.get()),
        Term::Add(a, b) => {
            adding_loops(
                alloc,
                all,
                scene,
                target,
                room,
                node,
                term,
                a.get(),
                b.get(),
            )
        }
        Term::Concat(a, b) => {
            concat_loops(alloc, all, scene, target, room, node, a.get(), b.get())
        }
        Term::Gen(_, part) | Term::Guard(_, part) => {
            let adds = node.adds;
            enclosed_loops(
                alloc,
                all,
                scene,
                target,
                room,
                node,
                adds,
                term,
                part.get(),
            )
        }
        Term::Sum(_, part) => {
            enclosed_loops(
                alloc,
                all,
                scene,
                target,
                room,
                node,
                true,
                term,
                part.get(),
            )
        }
        Term::Flatten(part)
        | Term::Split(_, part)
        | Term::Transpose(part)
        | Term::TruncL(_, part)
        | Term::TruncR(_, part)
        | Term::PadL(_, part)
        | Term::PadR(_, part) => {
            part_loops(alloc, all, scene, target, room, node, term, part.get())
        }
    }
}
