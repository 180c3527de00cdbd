//! The shape of a term.

ghost use Rattle.std.specs.Prelude.{◌≡◌, true, IfOk, MatchResult, Ok};
ghost use Rattle.shape_rules.specs.Faults.{IsFault};
ghost use Rattle.shape_rules.specs.Meant.{IsMeant};
ghost use Rattle.shape_rules.specs.Scopes.{IsScoped, all_free, given};
ghost use Rattle.term_tree.specs.Shape.{shape_of};

use crate::fault::{ShapeFault, fault};
use crate::shapes::Shapes;
use crate::walk::{Progress, walk};
use affine_index::Aff;
use sqlite_items::Items;
use std::alloc::Global;
use term_tree::Term;

/// The extents of a term, as normal forms, under the shapes of the lets and inputs around it. The path of a fault has
/// output 0, and its steps begin at the term. Linear in the size of the term.
pub fn shape(alloc: Global, shapes: &Shapes, term: &Term) -> Result<Items<Aff>, ShapeFault>
    requires scoped { IsScoped shapes.now term.now }
    requires free { all_free (given shapes.now) ≡ true }
    ensures shape { MatchResult result (λ ns. shape_of term.now (given shapes.now) ≡ Ok ns) (IsFault 0 (shape_of term.now (given shapes.now))) }
    ensures meant { IfOk result (IsMeant (given shapes.now) term.now) }
{
    let mut progress = Progress {
        bound: Items::new(alloc),
        goals: Items::new(alloc),
    };
    match walk(alloc, shapes, &mut progress, term) {
        Ok(extents) => Ok(extents),
        Err(trouble) => Err(fault(alloc, 0, trouble)),
    }
}
