//! What each rule owes, as the contracts of functions that do nothing.

ghost use Rattle.path_focus.specs.Outcome.{RuleKeeps};
ghost use Rattle.rules_shape_gen.specs.Table as table;

/// A gen without its first rows is the gen of the later ones.
pub fn trunc_gen_l_keeps()
    ensures { RuleKeeps table.trunc_gen_l }
{}

/// A gen without its last rows is the gen of the others.
pub fn trunc_gen_r_keeps()
    ensures { RuleKeeps table.trunc_gen_r }
{}

/// A gen behind rows of zeros is a gen of zeros and then of its rows.
pub fn pad_gen_l_keeps()
    ensures { RuleKeeps table.pad_gen_l }
{}

/// A gen before rows of zeros is a gen of its rows and then of zeros.
pub fn pad_gen_r_keeps()
    ensures { RuleKeeps table.pad_gen_r }
{}

/// Two gens, one behind the other, are the gen of the rows of the first and then of those of the second.
pub fn concat_gen_keeps()
    ensures { RuleKeeps table.concat_gen }
{}

/// A gen that is split is a gen of tiles, with zeros for the rows past its own.
pub fn split_of_gen_keeps()
    ensures { RuleKeeps table.split_of_gen }
{}

/// A gen of one row that is flattened is that row.
pub fn flatten_of_gen_keeps()
    ensures { RuleKeeps table.flatten_of_gen }
{}
