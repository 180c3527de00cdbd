//! Functions of a whole term, by what they answer at a node.

ghost use Rattle.std.specs.Prelude.{IfOk};
ghost use Rattle.term_tree.specs.Children.{AreRight, children};
ghost use Rattle.term_tree.specs.declared.depths.Depths.{Depths};
ghost use Rattle.term_tree.specs.declared.term.Term.{Term};

use crate::depths::Depths;
use crate::refusal::TreeRefusal;
use crate::term::Term;
use std::alloc::Global;

/// What a function of terms answers at a node, given its answers for the children in order.
pub trait Fold {
    type Out: Drop;

    // Which answers are right for a term under so many binders.
    ghost right: { Self → Depths → Term → Self.Out → Type 0 };

    fn visit(
        &self,
        alloc: Global,
        depths: Depths,
        node: &Term,
        parts: Vec<Self::Out>,
    ) -> Result<Self::Out, TreeRefusal>
        requires parts_right { AreRight (right self.now) (children depths node.now) parts.items }
        ensures { IfOk result (λ out. right self.now depths node.now out) };
}
