//! The focus at a place of a module.

ghost use Rattle.std.specs.Prelude.{◌≡◌, IfOk, MatchResult, map};
ghost use Rattle.std.specs.Option.{option_map};
ghost use Rattle.path_focus.specs.Focus.{IsProper, focus_at, focus_of};
ghost use Rattle.path_focus.specs.Frames.{way};
ghost use Rattle.path_focus.specs.Laws.{IsLimited, IsThere};
ghost use Rattle.path_focus.specs.Trail.{MayGo, focus_by, start_of};
ghost use Rattle.term_tree.specs.Modules.{IsSound, input_shapes};

use crate::outputs::{forms_told_of, literals_told_of};
use crate::place::{Focus, PathRefusal};
use crate::trail::Trail;
use fact_list::Facts;
use shape_rules::extents::input_shapes;
use shape_rules::{Shapes, module_facts};
use sqlite_items::{Boxed, Items, at};
use std::alloc::Global;
use term_tree::{InputDecl, Module, Path, Term};

/// The trail before its first node.
fn start(alloc: Global, declared: &[InputDecl]) -> Result<Trail, PathRefusal>
    ensures { MatchResult result (λ z. z ≡ start_of (map (λ d. d.extents) declared.now)) (λ e. e ≡ PathRefusal.Memory) }
{
    let inputs = input_shapes(alloc, declared)?;
    Ok(Trail {
        path: Items::new(alloc),
        shapes: Shapes {
            lets: Items::new(alloc),
            inputs,
        },
        over: 0,
        bound: Items::new(alloc),
    })
}

/// What the trail has told, with the bounds and assumes of the module.
fn told_by(
    alloc: Global,
    module: &Module,
    trail: Trail,
    term: Boxed<Term>,
) -> Result<Focus, PathRefusal>
    ensures { MatchResult result (λ f. f ≡ focus_by «module».now trail term) (λ e. e ≡ PathRefusal.Memory) }
{
    let facts = module_facts(alloc, module)?;
    Ok(Focus {
        facts: Facts {
            sizes: facts.sizes,
            assumes: facts.assumes,
            path: trail.path,
        },
        shapes: trail.shapes,
        bound: trail.bound,
        term,
    })
}

/// The focus at the end of the way in the term of an output.
fn found(alloc: Global, module: &Module, term: &Term, steps: &[u32]) -> Result<Focus, PathRefusal>
    requires { MayGo (start_of (input_shapes «module».now)) term.now }
    ensures { IsThere (option_map (focus_at «module».now) (way term.now steps.now)) result }
{
    let mut trail = start(alloc, module.inputs.as_slice())?;
    let term = trail.go(alloc, term, steps)?;
    told_by(alloc, module, trail, term)
}

/// What is known at a place: the facts there, the shapes of its tensor variables, the lets around it with their definitions
/// moved there, and a copy of the term. Linear in the module; each let on the way also moves the shapes of those above it.
pub fn focus(alloc: Global, module: &Module, path: &Path) -> Result<Focus, PathRefusal>
    requires sound { IsSound «module».now }
    requires limited { IsLimited «module».now }
    ensures focus { IsThere (focus_of «module».now path.now) result }
    ensures proper { IfOk result (λ f. IsProper f) }
{
    forms_told_of(module.outputs.as_slice());
    literals_told_of(module.outputs.as_slice());
    match at(module.outputs.as_slice(), path.output as usize) {
        None => Err(PathRefusal::NoSuchPath),
        Some(output) => found(alloc, module, &output.term, path.steps.as_slice()),
    }
}
