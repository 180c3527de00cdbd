//! What a module denotes, where what `denote` asks of it is found to hold.

ghost use Rattle.std.specs.Prelude.{◌≡◌, ◌≤◌, [], IfOk, length, true};
ghost use Rattle.shape_rules.specs.Admitted.{AllShown};
ghost use Rattle.term_tree.specs.Modules.{IsSound};

use crate::given::{are_inputs, is_allowed};
use crate::scope::module_scoped;
use affine_index::Aff;
use atl_meaning::{MeaningFault, Tensor, denote};
use fact_list::Facts;
use linear_cert::{Lines, shown};
use shape_rules::{extent_goals, module_facts};
use sqlite_items::Items;
use std::alloc::Global;
use std::test::Fail;
use term_tree::Module;

/// The most inputs, and outputs, that are looked at.
const MOST: usize = 100;

fn all_shown(alloc: Global, facts: &Facts, goals: &[Aff]) -> Result<bool, Fail>
    requires sizes { length facts.now.sizes ≤ 2147483647 }
    requires path { facts.now.path ≡ [] }
    ensures { IfOk result (λ answer. answer ≡ true → AllShown facts.now goals.now) }
{
    for goal in goals {
        if !shown(alloc, facts, goal, &Lines::Default)? {
            return Ok(false);
        }
    }
    Ok(true)
}

/// Whether the module is well scoped, its shape rules hold, and default lines show each extent goal.
fn is_sound(alloc: Global, module: &Module) -> Result<bool, Fail>
    ensures { IfOk result (λ answer. answer ≡ true → IsSound «module».now) }
{
    if module.sizes.len() > MOST
        || module.inputs.len() > MOST
        || module.outputs.len() > MOST
        || !module_scoped(module)
    {
        return Ok(false);
    }
    match extent_goals(alloc, module) {
        Ok(goals) => {
            let facts = module_facts(alloc, module)?;
            all_shown(alloc, &facts, goals.as_slice())
        }
        Err(_) => Ok(false),
    }
}

/// What the module denotes, or None where it is not sound, a size is not allowed, or an input has other extents.
pub fn denoted(
    alloc: Global,
    module: &Module,
    sizes: &[u64],
    inputs: &[Tensor],
    limit: u64,
) -> Result<Option<Result<Items<Tensor>, MeaningFault>>, Fail>
    requires { limit ≤ 1000000 }
{
    if !is_sound(alloc, module)?
        || !is_allowed(module, sizes)
        || !are_inputs(module.inputs.as_slice(), sizes, inputs)
    {
        return Ok(None);
    }
    Ok(Some(denote(alloc, module, sizes, inputs, limit)))
}
