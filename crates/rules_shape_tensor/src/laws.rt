//! What each rule owes, as the contracts of functions that do nothing.

ghost use Rattle.path_focus.specs.Outcome.{RuleKeeps};
ghost use Rattle.rules_shape_tensor.specs.Rows as rows;
ghost use Rattle.rules_shape_tensor.specs.Tensors as tensors;
ghost use Rattle.rules_shape_tensor.specs.Tensors.{KeepsInOrder};

/// The columns of the columns are the rows.
pub fn transpose_twice_keeps()
    ensures { RuleKeeps tensors.transpose_twice }
{}

/// Rows that are put before others and cut again.
pub fn pad_trunc_l_keeps()
    ensures { KeepsInOrder tensors.pad_trunc_l }
{}

/// Rows that are put behind others and cut again.
pub fn pad_trunc_r_keeps()
    ensures { KeepsInOrder tensors.pad_trunc_r }
{}

/// Three tensors, one behind the other.
pub fn concat_assoc_keeps()
    ensures { KeepsInOrder tensors.concat_assoc }
{}

/// The rows of rows of one length, in chunks of that length.
pub fn split_flatten_keeps()
    ensures { KeepsInOrder tensors.split_flatten }
{}

/// The rows of chunks, the last of which is filled up.
pub fn flatten_split_keeps()
    ensures { KeepsInOrder tensors.flatten_split }
{}

/// A column is a place of each row.
pub fn transpose_index_keeps()
    ensures { RuleKeeps rows.transpose_index }
{}

/// A chunk is some of the rows, and zeros behind them.
pub fn split_index_keeps()
    ensures { RuleKeeps rows.split_index }
{}

/// A row of the rows, joined, is a row of one of them.
pub fn flatten_index_keeps()
    ensures { RuleKeeps rows.flatten_index }
{}
