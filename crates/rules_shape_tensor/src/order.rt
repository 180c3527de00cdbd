//! What all shapes have: their forms are in order.

ghost use Rattle.std.specs.Prelude.{◌≡◌, true};
ghost use Rattle.rules_shape_tensor.specs.Tensors.{all_ordered, each_ordered};
ghost use Rattle.shape_rules.specs.Scopes.{given};

use affine_index::Aff;
use shape_rules::Shapes;
use sqlite_items::Items;

#[tactic(auto, using(crate::proofs::ShapeOrders::normal_in_order))]
fn extents_told(extents: &[Aff])
    ensures { each_ordered extents.now ≡ true }
{
    for extent in extents {
        extent.told();
    }
}

fn each_told(shapes: &[Items<Aff>])
    ensures { all_ordered shapes.now ≡ true }
{
    for extents in shapes {
        extents_told(extents.as_slice());
    }
}

/// Tells a proof that each form of the shapes is in order, and does nothing.
pub fn shapes_told(shapes: &Shapes)
    ensures { all_ordered (given shapes.now) ≡ true }
{
    each_told(shapes.lets.as_slice());
    each_told(shapes.inputs.as_slice());
}
