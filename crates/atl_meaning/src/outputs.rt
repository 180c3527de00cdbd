//! What the outputs of a module denote.
#![tactic(auto, using(crate::proofs::TurnLaws::limit_laws, crate::proofs::ModuleLaws::shape_laws))]

ghost use Rattle.std.specs.Prelude.{◌≡◌, ◌-◌, ◌<◌, ◌^◌, length, map, true, All, IfOk, IsOk};
ghost use Rattle.term_tree.specs.Meaning.{extents_of};
ghost use Rattle.term_tree.specs.Shape.{shape_of};
ghost use Rattle.term_tree.specs.Modules.{Allowed, AreInputs, IsSound, extents_at, inputs_bound, inputs_scoped, module_den};
ghost use Rattle.atl_meaning.specs.Answers.{HasCause, IsDecided};
ghost use Rattle.atl_meaning.specs.Denoted.{outputs_fit, outputs_tensors, scope};
ghost use Rattle.atl_meaning.specs.Exact.{all_counted, inputs_counted, outputs_exact};
ghost use Rattle.atl_meaning.specs.Forms.{each_scoped, shapes_of};
ghost use Rattle.atl_meaning.specs.Scopes.{outputs_ready};
ghost use Rattle.atl_meaning.specs.Surveyed.{outputs_surveyed};
ghost use Rattle.atl_meaning.specs.Turns.{spent, turn_folds};
ghost use Rattle.atl_meaning.specs.Values.{meant};
ghost use Rattle.atl_meaning.specs.Words.{at_least_one, first_big_input, first_of};

use crate::binding::Binding;
use crate::build::copy;
use crate::evaluate::evaluate;
use crate::fault::MeaningFault;
use crate::stack::Stack;
use crate::survey::survey;
use crate::tensor::Tensor;
use crate::turns::left_after;
use crate::values::extent;
use crate::variables::Variables;
use crate::words::{too_big, words_at};
use affine_index::Aff;
use shape_rules::extents::copies;
use sqlite_items::Items;
use std::alloc::{AllocError, Global};
use term_tree::{InputDecl, Module, OutputDecl};

/// The sizes, each counted as at least 1.
fn at_least_one(alloc: Global, sizes: &[u64]) -> Result<Items<u64>, AllocError>
    ensures { IfOk result (λ floor. floor ≡ at_least_one sizes.now) }
{
    let mut floor = Items::new(alloc);
    for size in sizes {
        floor.push((*size).max(1))?;
    }
    Ok(floor)
}

/// The extents at the sizes.
fn extents_at(alloc: Global, sizes: &[u64], extents: &[Aff]) -> Result<Items<u64>, AllocError>
    requires { all_counted sizes.now extents.now ≡ true }
    ensures { IfOk result (λ ds. ds ≡ extents_at extents.now sizes.now) }
{
    let mut numbers = Items::new(alloc);
    for form in extents {
        numbers.push(extent(form, sizes))?;
    }
    Ok(numbers)
}

/// The words of the first input with over 2^24 of them.
fn first_big_input(sizes: &[u64], floor: &[u64], inputs: &[InputDecl]) -> Option<u64>
    requires floor { floor.now ≡ at_least_one sizes.now }
    requires scoped { inputs_scoped (length sizes.now) inputs.now ≡ true }
    ensures { result ≡ first_big_input inputs.now sizes.now }
{
    for input in inputs {
        let words = words_at(input.extents.as_slice(), sizes, floor, false);
        if let Some(words) = too_big(words, None) {
            return Some(words);
        }
    }
    None
}

/// The extents of the inputs in scope, the first as the innermost.
fn input_shapes(alloc: Global, inputs: &[InputDecl]) -> Result<Stack<Items<Aff>>, AllocError>
    ensures { IfOk result (λ shapes. shapes ≡ shapes_of inputs.now) }
{
    let mut shapes = Vec::new(alloc);
    for input in inputs {
        let extents = copies(alloc, input.extents.as_slice())?;
        shapes.push(extents)?;
    }
    Ok(Stack::of(shapes))
}

/// The words of the first node of the outputs with over 2^24 of them.
fn first_big_node(
    alloc: Global,
    sizes: &[u64],
    floor: &[u64],
    shapes: &mut Stack<Items<Aff>>,
    outputs: &[OutputDecl],
) -> Result<Option<u64>, AllocError>
    requires floor { floor.now ≡ at_least_one sizes.now }
    requires shapes { each_scoped (length sizes.now) shapes.old ≡ true }
    requires ready { outputs_ready (length sizes.now) outputs.now ≡ true }
    requires shaped { All (λ o. IsOk (shape_of o.term shapes.old)) outputs.now }
    ensures { IfOk result (λ big. big ≡ outputs_surveyed sizes.now outputs.now shapes.old) }
{
    let mut vars = Variables::new(alloc);
    for output in outputs {
        let found = survey(alloc, sizes, floor, &mut vars, shapes, &output.term)?;
        if let Some(words) = found.big {
            return Ok(Some(words));
        }
    }
    Ok(None)
}

/// The words of the first input or node with over 2^24 of them.
fn first_big(alloc: Global, module: &Module, sizes: &[u64]) -> Result<Option<u64>, AllocError>
    requires inputs { inputs_scoped (length sizes.now) «module».now.inputs ≡ true }
    requires outputs { outputs_ready (length sizes.now) «module».now.outputs ≡ true }
    requires shaped { All (λ o. IsOk (shape_of o.term (shapes_of «module».now.inputs))) «module».now.outputs }
    ensures { IfOk result (λ big. big ≡ first_of (first_big_input «module».now.inputs sizes.now) (outputs_surveyed sizes.now «module».now.outputs (shapes_of «module».now.inputs))) }
{
    let inputs = module.inputs.as_slice();
    let floor = at_least_one(alloc, sizes)?;
    match first_big_input(sizes, floor.as_slice(), inputs) {
        Some(words) => Ok(Some(words)),
        None => {
            let mut shapes = input_shapes(alloc, inputs)?;
            first_big_node(
                alloc,
                sizes,
                floor.as_slice(),
                &mut shapes,
                module.outputs.as_slice(),
            )
        }
    }
}

/// What is left of the limit after the turns of the outputs, or nothing where they are more.
fn left_of_limit(
    alloc: Global,
    sizes: &[u64],
    outputs: &[OutputDecl],
    limit: u64,
) -> Result<Option<u64>, AllocError>
    requires { outputs_exact sizes.now outputs.now ≡ true }
    ensures { IfOk result (λ left. left ≡ spent (turn_folds sizes.now outputs.now) limit) }
{
    let mut vars = Variables::new(alloc);
    let mut left = limit;
    for output in outputs {
        match left_after(alloc, sizes, &mut vars, &output.term, left)? {
            Some(rest) => left = rest,
            None => return Ok(None),
        }
    }
    Ok(Some(left))
}

/// The inputs in scope, the first as the innermost.
fn bound(
    alloc: Global,
    sizes: &[u64],
    declared: &[InputDecl],
    inputs: &[Tensor],
) -> Result<Stack<Binding>, AllocError>
    requires { inputs_counted sizes.now declared.now ≡ true }
    ensures { IfOk result (λ bindings. scope bindings ≡ inputs_bound declared.now sizes.now (map meant inputs.now)) }
{
    let mut bindings = Vec::new(alloc);
    for at in 0..declared.len().min(inputs.len()) {
        let extents = extents_at(alloc, sizes, declared[at].extents.as_slice())?;
        let value = copy(alloc, &inputs[at])?;
        bindings.push(Binding { extents, value })?;
    }
    Ok(Stack::of(bindings))
}

/// The tensors of the outputs.
fn evaluated(
    alloc: Global,
    sizes: &[u64],
    bindings: &mut Stack<Binding>,
    outputs: &[OutputDecl],
) -> Result<Items<Tensor>, AllocError>
    requires exact { outputs_exact sizes.now outputs.now ≡ true }
    requires fits { outputs_fit sizes.now outputs.now (extents_of (scope bindings.old)) ≡ true }
    ensures { IfOk result (λ tensors. map meant tensors ≡ outputs_tensors sizes.now outputs.now (scope bindings.old)) }
{
    let mut vars = Variables::new(alloc);
    let mut tensors = Items::new(alloc);
    for output in outputs {
        tensors.push(evaluate(alloc, sizes, &mut vars, bindings, &output.term)?)?;
    }
    Ok(tensors)
}

/// The tensors of the outputs of a module, on the inputs.
fn computed(
    alloc: Global,
    module: &Module,
    sizes: &[u64],
    inputs: &[Tensor],
) -> Result<Items<Tensor>, AllocError>
    requires inputs { inputs_counted sizes.now «module».now.inputs ≡ true }
    requires outputs { outputs_exact sizes.now «module».now.outputs ≡ true }
    requires fits { outputs_fit sizes.now «module».now.outputs (extents_of (inputs_bound «module».now.inputs sizes.now (map meant inputs.now))) ≡ true }
    ensures { IfOk result (λ tensors. map meant tensors ≡ outputs_tensors sizes.now «module».now.outputs (inputs_bound «module».now.inputs sizes.now (map meant inputs.now))) }
{
    let mut bindings = bound(alloc, sizes, module.inputs.as_slice(), inputs)?;
    evaluated(alloc, sizes, &mut bindings, module.outputs.as_slice())
}

/// The same as `denote`, by the folds.
fn answer(
    alloc: Global,
    module: &Module,
    sizes: &[u64],
    inputs: &[Tensor],
    limit: u64,
) -> Result<Items<Tensor>, MeaningFault>
    requires sound { IsSound «module».now }
    requires allowed { Allowed «module».now sizes.now }
    requires inputs { AreInputs «module».now.inputs sizes.now (map meant inputs.now) }
    requires limit { limit < 2 ^ 64 - 1 }
    ensures tensors { IfOk result (λ tensors. map meant tensors ≡ outputs_tensors sizes.now «module».now.outputs (inputs_bound «module».now.inputs sizes.now (map meant inputs.now))) }
    ensures cause { IsDecided (first_of (first_big_input «module».now.inputs sizes.now) (outputs_surveyed sizes.now «module».now.outputs (shapes_of «module».now.inputs))) (turn_folds sizes.now «module».now.outputs) limit result }
{
    match first_big(alloc, module, sizes)? {
        Some(words) => Err(MeaningFault::TooBig { words }),
        None => match left_of_limit(alloc, sizes, module.outputs.as_slice(), limit)? {
            None => Err(MeaningFault::TooMuchWork { turns: limit + 1 }),
            Some(_) => Ok(computed(alloc, module, sizes, inputs)?),
        },
    }
}

/// What the outputs denote, in order, at the sizes and on the inputs, each a tensor of its declared extents.
///
/// First it is decided whether an input or a node is too big, then whether the turns of gen and sum pass the limit;
/// only then a tensor is computed. The words of an input or node are the product of its extents, each counted as at
/// least 1; they count as 2^64 - 1 where one of its extents, or an index, extent, amount or comparison that stands
/// directly in it, has a magnitude of 2^63 or more at the sizes counted as at least 1. Time is linear in the nodes
/// visited, each once for each time that it is computed, and in the words of their tensors.
pub fn denote(
    alloc: Global,
    module: &Module,
    sizes: &[u64],
    inputs: &[Tensor],
    limit: u64,
) -> Result<Items<Tensor>, MeaningFault>
    requires sound { IsSound «module».now }
    requires allowed { Allowed «module».now sizes.now }
    requires inputs { AreInputs «module».now.inputs sizes.now (map meant inputs.now) }
    requires limit { limit < 2 ^ 64 - 1 }
    ensures tensors { IfOk result (λ tensors. map meant tensors ≡ module_den «module».now sizes.now (map meant inputs.now)) }
    ensures cause { HasCause «module».now sizes.now limit result }
{
    answer(alloc, module, sizes, inputs, limit)
}
