//! The loops of outputs, and the lengths of buffers.

ghost use Rattle.std.specs.Prelude.{◌≡◌, ◌≤◌, ◌++◌, ◌∷◌, [], All, IfOk, OnOk, length, map, pos, true};
ghost use Rattle.affine_index.specs.Form.{literal_form};
ghost use Rattle.index_trees.specs.Tree.{index_tree};
ghost use Rattle.region_plan.specs.Needed.{words_form};
ghost use Rattle.region_plan.specs.Shaped.{IsShaped};
ghost use Rattle.shape_rules.specs.Scopes.{all_free, each_free, given};
ghost use Rattle.final_rules.specs.Places.{extents_under};
ghost use Rattle.final_rules.specs.Rules.{any_let};
ghost use Rattle.lowering_laws.specs.Lowered.{words_tree};
ghost use Rattle.lowering_laws.specs.Marks.{output_marks};
ghost use Rattle.lowering.specs.Made.{IsMade};
ghost use Rattle.lowering.specs.Outputs.{LengthReady, OutputReady, cleared_words, no_room, output_in, output_node, outputs_in};

use crate::forms::tensor_words;
use crate::marks::output_marks;
use crate::node::{Node, Room, Target};
use crate::walk::term_loops;
use affine_index::Aff;
use final_rules::Spot;
use final_rules::form::extents_under;
use final_rules::marks::has_let;
use final_rules::printing::Scene;
use index_trees::index_tree;
use loop_lang::{Buf, Iexp, Stmt};
use owned_values::two;
use shape_rules::Shapes;
use sqlite_items::Items;
use std::alloc::{AllocError, Global};
use term_tree::{InputDecl, OutputDecl, Path, Term};

fn zero(alloc: Global) -> Result<Aff, AllocError>
    ensures { IfOk result (λ x. x ≡ literal_form (pos 0)) }
{
    match Aff::literal(alloc, 0) {
        Ok(zero) => Ok(zero),
        Err(_) => Err(AllocError),
    }
}

/// Where scratch is free outside all lets.
fn whole_room(alloc: Global) -> Result<Room, AllocError>
    ensures { IfOk result (λ r. r ≡ no_room) }
{
    let (base, above) = two(zero(alloc), zero(alloc))?;
    Ok(Room { base, above })
}

/// The node of the term of an output.
fn output_node(alloc: Global, number: u32, paths: &[Path]) -> Result<Node, AllocError>
    ensures { IfOk result (λ nd. nd ≡ output_node (output_marks number paths.now)) }
{
    let marks = output_marks(alloc, number, paths)?;
    let spot = Spot {
        path: Items::new(alloc),
        around: Items::new(alloc),
    };
    Ok(Node {
        adds: false,
        spot,
        marks,
    })
}

fn zero_tree(alloc: Global) -> Result<Iexp, AllocError>
    ensures { IfOk result (λ t. t ≡ index_tree 0 (literal_form (pos 0))) }
{
    let zero = zero(alloc)?;
    index_tree(alloc, 0, &zero)
}

/// The printed length of a tensor.
fn words_tree(alloc: Global, extents: &[Aff]) -> Result<Iexp, AllocError>
    requires free { each_free extents.now ≡ true }
    requires made { IsMade (words_form extents.now) }
    ensures { IfOk result (λ t. t ≡ words_tree extents.now) }
{
    let words = tensor_words(alloc, extents)?;
    index_tree(alloc, 0, &words)
}

/// Adds the fill of an output.
fn clear(
    alloc: Global,
    all: &mut Items<Stmt>,
    number: u32,
    extents: &[Aff],
) -> Result<(), AllocError>
    requires free { each_free extents.now ≡ true }
    requires made { IsMade (words_form extents.now) }
    ensures { OnOk result (all.new ≡ all.old ++ cleared_words number extents.now ∷ []) }
{
    let (start, length) = two(zero_tree(alloc), words_tree(alloc, extents))?;
    all.push(Stmt::Zero(Buf::Output(number), start, length))
}

/// The buffer of an output.
fn output_target(alloc: Global, number: u32, extents: Items<Aff>) -> Result<Target, AllocError>
    ensures { IfOk result (λ tg. tg ≡ record { buffer = Buf.Output number; extents = extents; offset = literal_form (pos 0) }) }
{
    let offset = zero(alloc)?;
    Ok(Target {
        buffer: Buf::Output(number),
        extents,
        offset,
    })
}

/// Adds the fill and the loops of an output.
fn output_loops(
    alloc: Global,
    all: &mut Items<Stmt>,
    scene: &mut Scene,
    number: u32,
    term: &Term,
    paths: &[Path],
) -> Result<(), AllocError>
    requires free { all_free (given scene.old.shapes) ≡ true }
    requires ready { OutputReady scene.old term.now }
    ensures loops { OnOk result (all.new ≡ all.old ++ output_in scene.old paths.now number term.now) }
    ensures scene { OnOk result (scene.new ≡ scene.old) }
{
    let extents = extents_under(alloc, &scene.shapes, term)?;
    clear(alloc, all, number, extents.as_slice())?;
    let target = output_target(alloc, number, extents)?;
    let (room, node) = two(whole_room(alloc), output_node(alloc, number, paths))?;
    term_loops(alloc, all, scene, &target, &room, &node, term)
}

/// The fills and the loops of the outputs.
pub fn outputs_loops(
    alloc: Global,
    scene: &mut Scene,
    outputs: &[OutputDecl],
    paths: &[Path],
) -> Result<Items<Stmt>, AllocError>
    requires few { length outputs.now ≤ 2147483647 }
    requires free { all_free (given scene.old.shapes) ≡ true }
    requires ready { All (λ o. OutputReady scene.old o.term) outputs.now }
    ensures { IfOk result (λ all. all ≡ outputs_in scene.old paths.now outputs.now 0) }
{
    let mut all = Items::new(alloc);
    for i in 0..outputs.len() {
        output_loops(alloc, &mut all, scene, i as u32, &outputs[i].term, paths)?;
    }
    Ok(all)
}

/// The lengths of the inputs.
pub fn input_lengths(alloc: Global, inputs: &[InputDecl]) -> Result<Items<Iexp>, AllocError>
    requires { All (λ d. LengthReady d.extents) inputs.now }
    ensures { IfOk result (λ ts. ts ≡ map (λ d. words_tree d.extents) inputs.now) }
{
    let mut all = Items::new(alloc);
    for input in inputs {
        all.push(words_tree(alloc, input.extents.as_slice())?)?;
    }
    Ok(all)
}

/// The length of an output.
fn output_length(alloc: Global, shapes: &Shapes, term: &Term) -> Result<Iexp, AllocError>
    requires shaped { IsShaped shapes.now term.now }
    requires free { all_free (given shapes.now) ≡ true }
    requires made { IsMade (words_form (extents_under term.now (given shapes.now))) }
    ensures { IfOk result (λ t. t ≡ words_tree (extents_under term.now (given shapes.now))) }
{
    let extents = extents_under(alloc, shapes, term)?;
    words_tree(alloc, extents.as_slice())
}

/// The lengths of the outputs.
pub fn output_lengths(
    alloc: Global,
    shapes: &Shapes,
    outputs: &[OutputDecl],
) -> Result<Items<Iexp>, AllocError>
    requires free { all_free (given shapes.now) ≡ true }
    requires shaped { All (λ o. IsShaped shapes.now o.term) outputs.now }
    requires made { All (λ o. IsMade (words_form (extents_under o.term (given shapes.now)))) outputs.now }
    ensures { IfOk result (λ ts. ts ≡ map (λ o. words_tree (extents_under o.term (given shapes.now))) outputs.now) }
{
    let mut all = Items::new(alloc);
    for output in outputs {
        all.push(output_length(alloc, shapes, &output.term)?)?;
    }
    Ok(all)
}

/// Whether a let stands in one of the outputs.
pub fn any_let(outputs: &[OutputDecl]) -> bool
    ensures { result ≡ any_let outputs.now }
{
    for output in outputs {
        if has_let(&output.term) {
            return true;
        }
    }
    false
}
