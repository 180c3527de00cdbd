//! Laws of index trees, each the contract of a function that does nothing.

ghost use Rattle.index_trees.specs.Exact.{PrintedTreesReckon, TreesAreExact};
ghost use Rattle.index_trees.specs.Value.{ReckonedIsTheValue};

/// What index arithmetic in 64 signed bits gives is the value of the tree.
pub fn reckoned_is_the_value()
    ensures { ReckonedIsTheValue }
{}

/// The tree of a form computes what its text computes, and so its value where the magnitude is at most 2^62.
pub fn trees_are_exact()
    ensures printed { PrintedTreesReckon }
    ensures small { TreesAreExact }
{}
