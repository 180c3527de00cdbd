//! Programs of modules.

ghost use Rattle.std.specs.Prelude.{◌≡◌, ◌≤◌, ◌++◌, All, IfOk, IsOk, length, map, true};
ghost use Rattle.loop_lang.specs.Form.{IsWellFormed};
ghost use Rattle.region_plan.specs.Length.{length_tree};
ghost use Rattle.region_plan.specs.Needed.{module_needed};
ghost use Rattle.shape_rules.specs.Fits.{LiteralsFit};
ghost use Rattle.term_tree.specs.Modules.{IsSound};
ghost use Rattle.final_rules.specs.Rules.{any_let, output_extents};
ghost use Rattle.lowering_laws.specs.Correct.{HasLengths, IsCorrect};
ghost use Rattle.lowering_laws.specs.Nest.{module_nest, nests_of_program};
ghost use Rattle.lowering_laws.specs.Lowered.{loops_of, program_of, region_length, scratch_lengths, scratch_many, words_tree};
ghost use Rattle.lowering.specs.Outputs.{ModuleReady, outer_scene};

use crate::literals::told_from;
use crate::outputs::{any_let, input_lengths, output_lengths, outputs_loops};
use affine_index::AffRefusal;
use final_rules::Final;
use final_rules::printing::Scene;
use loop_lang::{Iexp, Prog, Stmt};
use region_plan::{length_tree, scratch_length};
use shape_rules::Shapes;
use shape_rules::extents::input_shapes;
use sqlite_items::{Boxed, Items};
use std::alloc::{AllocError, Global};
use term_tree::{InputDecl, Module, Path};

/// The inputs alone, outside all lets.
fn outer_scene(alloc: Global, inputs: &[InputDecl]) -> Result<Scene, AllocError>
    ensures { IfOk result (λ sc. sc ≡ outer_scene inputs.now) }
{
    let inputs = input_shapes(alloc, inputs)?;
    let lets = Items::new(alloc);
    let offsets = Items::new(alloc);
    Ok(Scene {
        shapes: Shapes { lets, inputs },
        offsets,
    })
}

/// The length of the scratch region.
fn region_tree(alloc: Global, module: &Module) -> Result<Iexp, AllocError>
    requires sound { IsSound «module».now }
    requires made { IsOk (module_needed «module».now) }
    ensures { IfOk result (λ t. t ≡ length_tree (region_length (module_needed «module».now))) }
{
    match scratch_length(alloc, module) {
        Ok(length) => length_tree(alloc, &length),
        Err(AffRefusal::Memory) => Err(AllocError),
        Err(AffRefusal::CoefficientTooLarge)
        | Err(AffRefusal::IndexTooLong)
        | Err(AffRefusal::NotAffine) => unreachable!(),
    }
}

/// The lengths of scratch buffers: one where there is a let.
fn scratch_lengths(alloc: Global, module: &Module, lets: bool) -> Result<Items<Iexp>, AllocError>
    requires sound { IsSound «module».now }
    requires made { lets ≡ true → IsOk (module_needed «module».now) }
    ensures { IfOk result (λ ts. ts ≡ scratch_lengths «module».now lets) }
{
    let mut all = Items::new(alloc);
    if lets {
        all.push(region_tree(alloc, module)?)?;
    }
    Ok(all)
}

/// How many scratch buffers there are.
fn scratch_many(lets: bool) -> u32
    ensures { result ≡ scratch_many lets }
{
    if lets { 1 } else { 0 }
}

/// The lengths of all buffers.
fn lengths(
    alloc: Global,
    module: &Module,
    scene: &Scene,
    lets: bool,
) -> Result<Items<Iexp>, AllocError>
    requires ready { ModuleReady «module».now }
    requires scene { scene.now ≡ outer_scene «module».now.inputs }
    requires lets { lets ≡ any_let «module».now.outputs }
    ensures { IfOk result (λ ts. ts ≡ map (λ d. words_tree d.extents) «module».now.inputs ++ (map (λ o. words_tree (output_extents «module».now o)) «module».now.outputs ++ scratch_lengths «module».now lets)) }
{
    let mut all = input_lengths(alloc, module.inputs.as_slice())?;
    let outputs = output_lengths(alloc, &scene.shapes, module.outputs.as_slice())?;
    all.append(outputs)?;
    let scratch = scratch_lengths(alloc, module, lets)?;
    all.append(scratch)?;
    Ok(all)
}

/// The program of a module.
fn program(alloc: Global, module: &Module, paths: &[Path]) -> Result<Boxed<Prog>, AllocError>
    requires ready { ModuleReady «module».now }
    requires sizes { length «module».now.sizes ≤ 2147483647 }
    requires inputs { length «module».now.inputs ≤ 2147483647 }
    requires outputs { length «module».now.outputs ≤ 2147483647 }
    ensures { IfOk result (λ p. p ≡ program_of «module».now paths.now) }
{
    let sizes = module.sizes.len() as u32;
    let inputs = module.inputs.len() as u32;
    let outputs = module.outputs.len() as u32;
    let lets = any_let(module.outputs.as_slice());
    let mut scene = outer_scene(alloc, module.inputs.as_slice())?;
    let lengths = lengths(alloc, module, &scene, lets)?;
    let body = outputs_loops(alloc, &mut scene, module.outputs.as_slice(), paths)?;
    Boxed::new(
        alloc,
        Prog {
            sizes,
            inputs,
            outputs,
            scratch: scratch_many(lets),
            lengths,
            body: Stmt::Seq(body),
        },
    )
}

/// The loops of a module that may be lowered: for each output a fill and the statements of its term, with one scratch region for all lets. Each node costs
/// a copy of what is around it, of which at most 200 nodes are, and the shapes of its parts; beside that the time is linear in the terms and in the text.
pub fn lower(alloc: Global, last: &Final) -> Result<Boxed<Prog>, AllocError>
    requires sizes { length last.now.0.sizes ≤ 2147483647 }
    requires inputs { length last.now.0.inputs ≤ 2147483647 }
    requires outputs { length last.now.0.outputs ≤ 2147483647 }
    ensures loops { IfOk result (λ p. p ≡ loops_of last.now.0 last.now.2) }
    ensures formed { IfOk result (λ p. IsWellFormed p) }
    ensures lengths { IfOk result (λ p. HasLengths last.now.0 p) }
    ensures correct { IfOk result (λ p. IsCorrect last.now.0 p) }
    // Its loops, without places and fills, are those of the module and no others.
    ensures nests { IfOk result (λ p. nests_of_program p ≡ module_nest last.now.0 last.now.2) }
    // The literals of a module are words, by their type.
    ensures literals { All (λ o. LiteralsFit o.term) last.now.0.outputs }
{
    last.told();
    let module = last.last();
    told_from(module.outputs.as_slice(), 0);
    program(alloc, module, last.parallel())
}
