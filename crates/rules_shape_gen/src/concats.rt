//! Two gens, one behind the other.

ghost use Rattle.std.specs.Prelude.{◌≡◌, ◌≤◌, ◌∷◌, [], IfOk};
ghost use Rattle.affine_index.specs.Form.{var_form};
ghost use Rattle.affine_index.specs.Sum.{sum_of};
ghost use Rattle.binders.specs.Answers.{IsWithinReach};
ghost use Rattle.binders.specs.PlainMaps.{put_index_reach};
ghost use Rattle.path_focus.specs.Focus.{IsProper};
ghost use Rattle.path_focus.specs.Making.{rest_below};
ghost use Rattle.path_focus.specs.Outcome.{IsDraft, IsOutcome};
ghost use Rattle.rule_parts.specs.Conds.{at_least};
ghost use Rattle.rules_shape_gen.specs.Rows.{back, row_of};
ghost use Rattle.rules_shape_gen.specs.Table as table;
ghost use Rattle.term_tree.specs.Counts.{node_depth};
ghost use Rattle.term_tree.specs.Syntax as tree;

use crate::formed::{added, gen_with, guard_with, whole};
use crate::patterns::as_concat;
use crate::rows::{back, rest, row_of, wider};
use affine_index::Aff;
use fact_list::CertRefusal;
use path_focus::{Arg, Draft, Focus, Outcome};
use rule_parts::build::{copied, drafted};
use rule_parts::patterns::as_gen;
use std::alloc::Global;
use term_tree::Term;

/// A row of the first, and zeros from row n on.
fn first_row(alloc: Global, n: &Aff, a: &Term) -> Result<Draft, CertRefusal>
    ensures { IfOk result (IsDraft (tree.guard (at_least (rest_below n.now (var_form 0))) a.now)) }
{
    let until = rest(alloc, n)?;
    let a = whole(copied(alloc, a)?);
    guard_with(alloc, until, a)
}

/// A row of the second, and zeros before row n.
fn second_row(alloc: Global, n: &Aff, m: &Aff, b: &Term) -> Result<Draft, CertRefusal>
    requires deep { node_depth b.now ≤ 2147483647 }
    requires within { IsWithinReach (put_index_reach (back n.now ∷ []) 1) b.now }
    ensures { IfOk result (IsDraft (tree.guard (at_least (back n.now)) (row_of m.now b.now (back n.now)))) }
{
    let from = back(alloc, n)?;
    let at = back(alloc, n)?;
    let row = row_of(alloc, m, b, at)?;
    guard_with(alloc, from, row)
}

/// A row of the first, and a row of the second behind those.
fn both_rows(alloc: Global, n: &Aff, a: &Term, m: &Aff, b: &Term) -> Result<Draft, CertRefusal>
    requires deep { node_depth b.now ≤ 2147483647 }
    requires within { IsWithinReach (put_index_reach (back n.now ∷ []) 1) b.now }
    ensures { IfOk result (IsDraft (tree.gen (sum_of n.now m.now) (tree.add (tree.guard (at_least (rest_below n.now (var_form 0))) a.now) (tree.guard (at_least (back n.now)) (row_of m.now b.now (back n.now)))))) }
{
    let width = wider(alloc, n, m)?;
    let first = first_row(alloc, n, a)?;
    let second = second_row(alloc, n, m, b)?;
    let row = added(alloc, first, second)?;
    gen_with(alloc, width, row)
}

/// `concat(gen i < n. a, gen i < m. b)`
pub fn concat_gen(alloc: Global, focus: &Focus, args: &[Arg]) -> Result<Outcome, CertRefusal>
    requires { IsProper focus.now }
    ensures { IfOk result (IsOutcome (table.concat_gen focus.now args.now)) }
{
    let Some((d, e)) = as_concat(focus.term.get()) else {
        return Ok(Outcome::NoPattern);
    };
    let Some((n, a)) = as_gen(d) else {
        return Ok(Outcome::NoPattern);
    };
    let Some((m, b)) = as_gen(e) else {
        return Ok(Outcome::NoPattern);
    };
    if args.len() > 0 {
        return Ok(Outcome::WrongArgument);
    }
    let draft = both_rows(alloc, n, a, m, b)?;
    Ok(drafted(alloc, draft))
}
