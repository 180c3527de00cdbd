//! What each rule owes, as the contracts of functions that do nothing.

ghost use Rattle.path_focus.specs.Outcome.{RuleKeeps};
ghost use Rattle.rules_loop.specs.OneTurn as one_turn;
ghost use Rattle.rules_loop.specs.Raising as raising;
ghost use Rattle.rules_loop.specs.Table as table;
ghost use Rattle.rules_loop.specs.Tilings as tilings;

/// A gen at an index that is shown to be one of its rows is its body there.
pub fn beta_keeps()
    ensures { RuleKeeps table.beta }
{}

/// A gen of the rows of a term is the term.
pub fn eta_keeps()
    ensures { RuleKeeps table.eta }
{}

/// Two gens in the other order are the columns.
pub fn swap_gen_keeps()
    ensures { RuleKeeps table.swap_gen }
{}

/// A gen in two parts is the rows of both.
pub fn cut_gen_keeps()
    ensures { RuleKeeps table.cut_gen }
{}

/// Two sums may be taken in either order.
pub fn swap_sum_keeps()
    ensures { RuleKeeps table.swap_sum }
{}

/// A sum in two parts is the sum of both.
pub fn cut_sum_keeps()
    ensures { RuleKeeps table.cut_sum }
{}

/// A sum of gens is the gen of the sums.
pub fn sum_gen_keeps()
    ensures { RuleKeeps table.sum_gen }
{}

/// A gen of sums is the sum of the gens.
pub fn gen_sum_keeps()
    ensures { RuleKeeps table.gen_sum }
{}

/// A row of a sum is the sum of the rows.
pub fn sum_index_keeps()
    ensures { RuleKeeps table.sum_index }
{}

/// A sum of sums is the sum of both.
pub fn sum_add_keeps()
    ensures { RuleKeeps table.sum_add }
{}

/// Two sums are one sum.
pub fn add_sum_keeps()
    ensures { RuleKeeps table.add_sum }
{}

/// A factor that is the same at each turn may stand outside.
pub fn mul_out_of_sum_keeps()
    ensures { RuleKeeps table.mul_out_of_sum }
{}

/// A row of a sum or a difference is that of the rows.
pub fn add_index_keeps()
    ensures { RuleKeeps table.add_index }
{}

/// The rows of a gen are those of its tiles, of which the last may be guarded in part and is cut.
pub fn split_gen_keeps()
    ensures { RuleKeeps tilings.split_gen }
{}

/// A sum is the sum of the sums of its tiles, of which the last may be guarded in part.
pub fn split_sum_keeps()
    ensures { RuleKeeps tilings.split_sum }
{}

/// Tiles that hold the rows exactly need no guard.
pub fn split_gen_exact_keeps()
    ensures { RuleKeeps tilings.split_gen_exact }
{}

/// Rows of rows, flattened, are the rows of one gen.
pub fn fuse_gen_keeps()
    ensures { RuleKeeps tilings.fuse_gen }
{}

/// A sum of one term is that term.
pub fn sum_one_keeps()
    ensures { RuleKeeps one_turn.sum_one }
{}

/// A sum whose guard is an equation for its variable is the turn that it names.
pub fn sum_pick_keeps()
    ensures { RuleKeeps one_turn.sum_pick }
{}

/// A term of rank 1 or more is the gen of its rows.
pub fn uneta_keeps()
    ensures { RuleKeeps raising.uneta }
{}

/// A word times a sum is the sum of the products.
pub fn mul_into_sum_keeps()
    ensures { RuleKeeps raising.mul_into_sum }
{}
