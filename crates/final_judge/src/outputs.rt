//! The goals of a module.

ghost use Rattle.std.specs.Prelude.{◌≡◌, ◌≤◌, All, IfOk};
ghost use Rattle.shape_rules.specs.Scopes.{given};
ghost use Rattle.term_tree.specs.Counts.{node_count};
ghost use Rattle.term_tree.specs.Modules.{IsSound};
ghost use Rattle.final_rules.specs.Rules.{goals_with, module_goals, output_spot, outputs_claims};
ghost use Rattle.final_judge.specs.Ready.{EachStands};

use crate::walk::term_goals;
use fact_list::Facts;
use final_rules::{Goal, Spot};
use region_plan::extents::outside;
use shape_rules::{Shapes, module_facts};
use sqlite_items::Items;
use std::alloc::{AllocError, Global};
use term_tree::{Module, OutputDecl};

/// Where an output stands.
fn output_spot(alloc: Global) -> Spot
    ensures { result ≡ output_spot }
{
    Spot {
        path: Items::new(alloc),
        around: Items::new(alloc),
    }
}

/// The goals of outputs in order.
fn outputs_goals(
    alloc: Global,
    facts: &Facts,
    shapes: &mut Shapes,
    outputs: &[OutputDecl],
) -> Result<Items<Goal>, AllocError>
    requires { EachStands shapes.old output_spot outputs.now }
    ensures { IfOk result (λ gs. gs ≡ goals_with facts.now (outputs_claims outputs.now (given shapes.old))) }
{
    let mut goals = Items::new(alloc);
    let spot = output_spot(alloc);
    for output in outputs {
        term_goals(alloc, &mut goals, facts, shapes, &spot, &output.term)?;
    }
    Ok(goals)
}

/// What a sound module has to show, in order: over the outputs, each in preorder. Each goal has a copy of the facts along its path. Want of memory is
/// also answered where the numbers of a form on the way to a goal make more than 2^64 together.
pub fn goals(alloc: Global, module: &Module) -> Result<Items<Goal>, AllocError>
    requires sound { IsSound «module».now }
    requires nodes { All (λ o. node_count o.term ≤ 20000) «module».now.outputs }
    ensures { IfOk result (λ gs. gs ≡ module_goals «module».now) }
{
    let facts = module_facts(alloc, module)?;
    match outside(alloc, module.inputs.as_slice()) {
        Ok(shapes) => {
            let mut shapes = shapes;
            outputs_goals(alloc, &facts, &mut shapes, module.outputs.as_slice())
        }
        Err(_) => Err(AllocError),
    }
}
