//! The printed indices of a module.

ghost use Rattle.std.specs.Prelude.{◌≡◌, [], IfOk, OnOk, length, map, true};
ghost use Rattle.std.specs.Option.{option_map};
ghost use Rattle.region_plan.specs.Length.{zero_form};
ghost use Rattle.region_plan.specs.Needed.{words_form};
ghost use Rattle.region_plan.specs.Shaped.{EachShaped, IsShaped};
ghost use Rattle.shape_rules.specs.Scopes.{all_free, each_free, given};
ghost use Rattle.term_tree.specs.Modules.{IsSound, input_shapes};
ghost use Rattle.final_rules.specs.Lengths.{NeedOverSizes};
ghost use Rattle.final_rules.specs.Places.{extents_under};
ghost use Rattle.final_rules.specs.Printed.{at_least_one, form_small, length_printed, printed_of};
ghost use Rattle.final_rules.specs.Printing.{Counts, next, sized};
ghost use Rattle.final_rules.specs.Rules.{any_let, large_fault, maxima, nowhere_yet, output_spot, printed};
ghost use Rattle.final_rules.specs.declared.fault.FinalFault.TheVariants.{IndexTooLarge};
ghost use Rattle.index_limits.specs.Fills.{LengthReady, fill_sized};
ghost use Rattle.index_limits.specs.Places.{place_at};
ghost use Rattle.index_limits.specs.Modules.{lengths_printed, module_sized, output_printed, output_target, outputs_printed, scratch_sized};
ghost use Rattle.index_limits.specs.Ready.{AllInScope, OutputReady, OutputsReady, Ready};

use crate::forms::at_least_one;
use crate::stores::{Room, Target};
use crate::walk::term_indices;
use affine_index::Aff;
use final_rules::Spot;
use final_rules::form::extents_under;
use final_rules::lengths::scratch;
use final_rules::marks::has_let;
use final_rules::printing::{Scene, Stop, measured, plain};
use owned_values::two;
use region_plan::extents::{outside, words_form};
use shape_rules::Shapes;
use sqlite_items::Items;
use std::alloc::{AllocError, Global};
use term_tree::{InputDecl, Module, OutputDecl, SizeDecl, Term};

/// The greatest value of each size, counted as at least 1.
fn maxima(alloc: Global, sizes: &[SizeDecl]) -> Result<Items<u64>, AllocError>
    ensures { IfOk result (λ all. all ≡ map (λ d. at_least_one d.high) sizes.now) }
{
    let mut all = Items::new(alloc);
    for size in sizes {
        all.push(at_least_one(size.high))?;
    }
    Ok(all)
}

/// The length of a buffer of these extents.
fn length_index(alloc: Global, maxima: &[u64], extents: &[Aff], number: u64) -> Result<u64, Stop>
    requires free { each_free extents.now ≡ true }
    requires ready { LengthReady maxima.now [] extents.now }
    ensures { Counts (next (form_small maxima.now [] (words_form extents.now)) number) result }
{
    let length = words_form(alloc, extents);
    measured(maxima, &[], length, number)
}

/// The lengths of the inputs.
fn input_lengths(
    alloc: Global,
    maxima: &[u64],
    inputs: &[InputDecl],
    first: u64,
) -> Result<u64, Stop>
    requires free { all_free (map (λ d. d.extents) inputs.now) ≡ true }
    requires ready { AllInScope (length maxima.now) (map (λ d. length_printed d.extents nowhere_yet) inputs.now) }
    ensures { Counts (sized maxima.now (map (λ d. length_printed d.extents nowhere_yet) inputs.now) first) result }
{
    let mut number = first;
    for input in inputs {
        number = length_index(alloc, maxima, input.extents.as_slice(), number)?;
    }
    Ok(number)
}

/// The length of an output.
fn output_length(
    alloc: Global,
    maxima: &[u64],
    shapes: &Shapes,
    output: &OutputDecl,
    number: u64,
) -> Result<u64, Stop>
    requires shaped { IsShaped shapes.now output.now.term }
    requires free { all_free (given shapes.now) ≡ true }
    requires ready { LengthReady maxima.now [] (extents_under output.now.term (given shapes.now)) }
    ensures { Counts (next (form_small maxima.now [] (words_form (extents_under output.now.term (given shapes.now)))) number) result }
{
    let extents = extents_under(alloc, shapes, &output.term)?;
    length_index(alloc, maxima, extents.as_slice(), number)
}

/// The lengths of the outputs.
fn output_lengths(
    alloc: Global,
    maxima: &[u64],
    shapes: &Shapes,
    outputs: &[OutputDecl],
    first: u64,
) -> Result<u64, Stop>
    requires shaped { EachShaped shapes.now outputs.now }
    requires free { all_free (given shapes.now) ≡ true }
    requires ready { AllInScope (length maxima.now) (lengths_printed (given shapes.now) outputs.now) }
    ensures { Counts (sized maxima.now (lengths_printed (given shapes.now) outputs.now) first) result }
{
    let mut number = first;
    for output in outputs {
        number = output_length(alloc, maxima, shapes, output, number)?;
    }
    Ok(number)
}

/// Whether a let stands in one of the outputs.
fn any_let(outputs: &[OutputDecl]) -> bool
    ensures { result ≡ any_let outputs.now }
{
    for output in outputs {
        if has_let(&output.term) {
            return true;
        }
    }
    false
}

/// The length of the scratch region, where there is a let.
fn scratch_length(alloc: Global, maxima: &[u64], module: &Module, number: u64) -> Result<u64, Stop>
    requires sound { IsSound «module».now }
    requires scoped { NeedOverSizes (length maxima.now) «module».now }
    ensures { Counts (scratch_sized maxima.now «module».now number) result }
{
    if any_let(module.outputs.as_slice()) {
        scratch(alloc, maxima, module, number)
    } else {
        Ok(number)
    }
}

fn zero(alloc: Global) -> Result<Aff, AllocError>
    ensures { IfOk result (λ x. x ≡ zero_form) }
{
    match Aff::literal(alloc, 0) {
        Ok(zero) => Ok(zero),
        Err(_) => Err(AllocError),
    }
}

/// Where an output stands.
fn output_spot(alloc: Global) -> Spot
    ensures { result ≡ output_spot }
{
    Spot {
        path: Items::new(alloc),
        around: Items::new(alloc),
    }
}

/// An output is a buffer of its own.
fn output_target(alloc: Global, extents: Items<Aff>) -> Result<Target, AllocError>
    ensures { IfOk result (λ t. t ≡ output_target extents) }
{
    let offset = zero(alloc)?;
    Ok(Target { extents, offset })
}

/// All of scratch is free.
fn whole_room(alloc: Global) -> Result<Room, AllocError>
    ensures { IfOk result (λ r. r ≡ record { base = zero_form; above = zero_form }) }
{
    let base = zero(alloc)?;
    let above = zero(alloc)?;
    Ok(Room { base, above })
}

/// The fill of an output: its place, and then its length.
fn output_fill(alloc: Global, maxima: &[u64], extents: &[Aff], number: u64) -> Result<u64, Stop>
    requires free { each_free extents.now ≡ true }
    requires ready { LengthReady maxima.now [] extents.now }
    ensures { Counts (fill_sized maxima.now [] zero_form extents.now number) result }
{
    let place = zero(alloc)?;
    let number = plain(maxima, &[], &place, number)?;
    length_index(alloc, maxima, extents, number)
}

/// The loops of an output.
fn output_body(
    alloc: Global,
    maxima: &[u64],
    scene: &mut Scene,
    extents: Items<Aff>,
    term: &Term,
    number: u64,
) -> Result<u64, Stop>
    requires shaped { IsShaped scene.old.shapes term.now }
    requires free { all_free (given scene.old.shapes) ≡ true }
    requires ready { Ready maxima.now [] scene.old (output_target extents) zero_form output_spot term.now }
    ensures counts { Counts (sized maxima.now (printed_of term.now (place_at scene.old (output_target extents) zero_form output_spot)) number) result }
    ensures scene { OnOk result (scene.new ≡ scene.old) }
{
    let (target, room) = two(output_target(alloc, extents), whole_room(alloc))?;
    let spot = output_spot(alloc);
    term_indices(
        alloc,
        maxima,
        &[],
        scene,
        &target,
        &room,
        &spot,
        term,
        number,
    )
}

/// The printed indices of an output: its fill, and then its loops.
fn output_indices(
    alloc: Global,
    maxima: &[u64],
    scene: &mut Scene,
    output: &OutputDecl,
    number: u64,
) -> Result<u64, Stop>
    requires shaped { IsShaped scene.old.shapes output.now.term }
    requires free { all_free (given scene.old.shapes) ≡ true }
    requires ready { OutputReady maxima.now scene.old output.now }
    ensures counts { Counts (sized maxima.now (output_printed scene.old output.now) number) result }
    ensures scene { OnOk result (scene.new ≡ scene.old) }
{
    let extents = extents_under(alloc, &scene.shapes, &output.term)?;
    let number = output_fill(alloc, maxima, extents.as_slice(), number)?;
    output_body(alloc, maxima, scene, extents, &output.term, number)
}

/// Those of outputs in order.
fn body(
    alloc: Global,
    maxima: &[u64],
    scene: &mut Scene,
    outputs: &[OutputDecl],
    first: u64,
) -> Result<u64, Stop>
    requires shaped { EachShaped scene.old.shapes outputs.now }
    requires free { all_free (given scene.old.shapes) ≡ true }
    requires ready { OutputsReady maxima.now scene.old outputs.now }
    ensures { Counts (sized maxima.now (outputs_printed scene.old outputs.now) first) result }
{
    let mut number = first;
    for output in outputs {
        number = output_indices(alloc, maxima, scene, output, number)?;
    }
    Ok(number)
}

/// The tensors outside all lets.
fn outside_lets(alloc: Global, inputs: &[InputDecl]) -> Result<Scene, AllocError>
    ensures shapes { IfOk result (λ scene. given scene.shapes ≡ map (λ d. d.extents) inputs.now) }
    ensures offsets { IfOk result (λ scene. scene.offsets ≡ []) }
{
    match outside(alloc, inputs) {
        Ok(shapes) => Ok(Scene {
            shapes,
            offsets: Items::new(alloc),
        }),
        Err(_) => Err(AllocError),
    }
}

/// All of them: the lengths of inputs, outputs and scratch, and then the body.
fn module_indices(alloc: Global, maxima: &[u64], module: &Module) -> Result<u64, Stop>
    requires sound { IsSound «module».now }
    requires sizes { length maxima.now ≡ length «module».now.sizes }
    ensures { Counts (module_sized maxima.now «module».now 1) result }
{
    let mut scene = outside_lets(alloc, module.inputs.as_slice())?;
    let number = input_lengths(alloc, maxima, module.inputs.as_slice(), 1)?;
    let outputs = module.outputs.as_slice();
    let number = output_lengths(alloc, maxima, &scene.shapes, outputs, number)?;
    let number = scratch_length(alloc, maxima, module, number)?;
    body(alloc, maxima, &mut scene, outputs, number)
}

/// The number, from 1 in the order of the text, of the first printed index that breaks a limit of normal forms or has a magnitude over 2^62:
/// the lengths of inputs, outputs and scratch, and then, output by output, the place and the length of its fill, bounds, comparisons, places of
/// fills, of stores and of loads, and the indices of words. A comparison is one, by its form, and a length of scratch is one. Want of memory is
/// also answered where a path has more than 2,147,483,647 facts, or there are more than 2^64 indices;
/// no memory holds such a module.
pub fn first_large(alloc: Global, module: &Module) -> Result<Option<u64>, AllocError>
    requires { IsSound «module».now }
    ensures { IfOk result (λ k. large_fault (maxima «module».now) 1 (printed «module».now) ≡ option_map IndexTooLarge k) }
{
    let maxima = maxima(alloc, module.sizes.as_slice())?;
    match module_indices(alloc, maxima.as_slice(), module) {
        Ok(_) => Ok(None),
        Err(Stop::Large(number)) => Ok(Some(number)),
        Err(Stop::Memory) => Err(AllocError),
    }
}
