//! Whether a module is in final form.

ghost use Rattle.std.specs.Prelude.{◌≡◌, ◌≤◌, length, true, IfOk};
ghost use Rattle.region_plan.specs.Shaped.{EachShaped};
ghost use Rattle.shape_rules.specs.Scopes.{all_free, given};
ghost use Rattle.term_tree.specs.Modules.{IsSound, input_shapes};
ghost use Rattle.final_rules.specs.Rules.{form_fault, node_fault};

use crate::fault::FinalFault;
use crate::form::outside;
use region_plan::extents::outside as outside_lets;
use shape_rules::Shapes;
use sqlite_items::Items;
use std::alloc::{AllocError, Global};
use term_tree::{Module, OutputDecl, Path};

/// The fault of a node of an output.
fn node_fault(output: u32, node: Option<Items<u32>>) -> Option<FinalFault>
    ensures { result ≡ node_fault output node }
{
    match node {
        Some(steps) => Some(FinalFault::NotLowerable(Path { output, steps })),
        None => None,
    }
}

/// The fault of the first output with a node outside the form.
fn outputs_fault(
    alloc: Global,
    shapes: &mut Shapes,
    outputs: &[OutputDecl],
) -> Result<Option<FinalFault>, AllocError>
    requires few { length outputs.now ≤ 2147483647 }
    requires shaped { EachShaped shapes.old outputs.now }
    requires free { all_free (given shapes.old) ≡ true }
    ensures { IfOk result (λ fault. fault ≡ form_fault 0 outputs.now (given shapes.old)) }
{
    for i in 0..outputs.len() {
        let node = outside(alloc, shapes, &outputs[i].term)?;
        match node_fault(i as u32, node) {
            Some(fault) => return Ok(Some(fault)),
            None => {}
        }
    }
    Ok(None)
}

/// The fault of the first node in preorder, over the outputs in order, that is outside the final form. Each let and each
/// difference takes the shape of a part anew.
pub fn form_fault(alloc: Global, module: &Module) -> Result<Option<FinalFault>, AllocError>
    requires few { length «module».now.outputs ≤ 2147483647 }
    requires sound { IsSound «module».now }
    ensures { IfOk result (λ fault. fault ≡ form_fault 0 «module».now.outputs (input_shapes «module».now)) }
{
    match outside_lets(alloc, module.inputs.as_slice()) {
        Ok(shapes) => {
            let mut shapes = shapes;
            outputs_fault(alloc, &mut shapes, module.outputs.as_slice())
        }
        Err(_) => Err(AllocError),
    }
}
