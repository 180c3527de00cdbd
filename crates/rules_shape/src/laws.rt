//! What each rule owes, as the contracts of functions that do nothing.

ghost use Rattle.path_focus.specs.Outcome.{RuleKeeps};
ghost use Rattle.rules_shape.specs.Indices as indices;
ghost use Rattle.rules_shape.specs.Ring as laws;

/// Both sides of a law of words are the same words.
pub fn ring_keeps()
    ensures { RuleKeeps laws.ring }
{}

/// A row behind zero rows is a row of the tensor, or zero.
pub fn padl_index_keeps()
    ensures { RuleKeeps indices.padl_index }
{}

/// A row of a tensor with zero rows behind it is a row of the tensor, or zero.
pub fn padr_index_keeps()
    ensures { RuleKeeps indices.padr_index }
{}

/// A row of a tensor without its first rows is a later row of the tensor.
pub fn truncl_index_keeps()
    ensures { RuleKeeps indices.truncl_index }
{}

/// A row of a tensor without its last rows is that row of the tensor.
pub fn truncr_index_keeps()
    ensures { RuleKeeps indices.truncr_index }
{}

/// A row of two tensors, one behind the other, that is one of the first is that row of it.
pub fn concat_index_left_keeps()
    ensures { RuleKeeps indices.concat_index_left }
{}

/// One behind the rows of the first is a row of the second.
pub fn concat_index_right_keeps()
    ensures { RuleKeeps indices.concat_index_right }
{}
