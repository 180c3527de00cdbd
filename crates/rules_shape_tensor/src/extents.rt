//! The first two extents of terms.

ghost use Rattle.std.specs.Prelude.{◌≡◌, true, IfOk};
ghost use Rattle.rule_parts.specs.Patterns.{first_extent};
ghost use Rattle.rules_shape_tensor.specs.Patterns.{second_extent};
ghost use Rattle.shape_rules.specs.Scopes.{IsScoped, all_free, given};
ghost use Rattle.term_tree.specs.Shape.{shape_of};

use affine_index::Aff;
use fact_list::CertRefusal;
use shape_rules::extents::take_first;
use shape_rules::{ShapeFault, Shapes, shape};
use sqlite_items::Items;
use std::alloc::Global;
use term_tree::Term;

/// The first extent of a term of rank 1 or more.
pub fn first_extent(alloc: Global, shapes: &Shapes, term: &Term) -> Result<Option<Aff>, CertRefusal>
    requires scoped { IsScoped shapes.now term.now }
    requires free { all_free (given shapes.now) ≡ true }
    ensures { IfOk result (λ o. o ≡ first_extent (shape_of term.now (given shapes.now))) }
{
    match shape(alloc, shapes, term) {
        Ok(extents) => {
            let mut extents = extents;
            Ok(take_first(&mut extents))
        }
        Err(ShapeFault::Memory) => Err(CertRefusal::Memory),
        Err(_) => Ok(None),
    }
}

/// The second of these extents, where there is one.
fn take_second(extents: Items<Aff>) -> Option<Aff>
    ensures { result ≡ second_extent (Rattle.std.specs.Prelude.Ok extents) }
{
    let mut extents = extents;
    match take_first(&mut extents) {
        Some(_) => take_first(&mut extents),
        None => None,
    }
}

/// The second extent of a term of rank 2 or more.
pub fn second_extent(
    alloc: Global,
    shapes: &Shapes,
    term: &Term,
) -> Result<Option<Aff>, CertRefusal>
    requires scoped { IsScoped shapes.now term.now }
    requires free { all_free (given shapes.now) ≡ true }
    ensures { IfOk result (λ o. o ≡ second_extent (shape_of term.now (given shapes.now))) }
{
    match shape(alloc, shapes, term) {
        Ok(extents) => Ok(take_second(extents)),
        Err(ShapeFault::Memory) => Err(CertRefusal::Memory),
        Err(_) => Ok(None),
    }
}
