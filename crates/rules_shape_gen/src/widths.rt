//! Gens of which rows are cut, and gens with rows of zeros.

ghost use Rattle.std.specs.Prelude.{◌≡◌, ◌≤◌, ◌∷◌, [], IfOk};
ghost use Rattle.affine_index.specs.Form.{var_form};
ghost use Rattle.affine_index.specs.Sum.{difference_of, sum_of};
ghost use Rattle.binders.specs.Answers.{IsWithinReach};
ghost use Rattle.binders.specs.PlainMaps.{put_index_reach};
ghost use Rattle.path_focus.specs.Focus.{IsProper};
ghost use Rattle.path_focus.specs.Making.{rest_below};
ghost use Rattle.path_focus.specs.Outcome.{IsDraft, IsOutcome};
ghost use Rattle.rule_parts.specs.Conds.{at_least};
ghost use Rattle.rules_loop.specs.Cuts.{further};
ghost use Rattle.rules_shape_gen.specs.Rows.{back, row_of};
ghost use Rattle.rules_shape_gen.specs.Table as table;
ghost use Rattle.term_tree.specs.Counts.{node_depth};
ghost use Rattle.term_tree.specs.Syntax as tree;

use crate::formed::{gen_with, guard_with, whole};
use crate::patterns::{as_pad_l, as_pad_r, as_trunc_l, as_trunc_r};
use crate::rows::{back, further, narrower, rest, row_of, wider};
use affine_index::Aff;
use fact_list::CertRefusal;
use path_focus::{Arg, Draft, Focus, Outcome};
use rule_parts::build::{copied, drafted};
use rule_parts::patterns::as_gen;
use std::alloc::Global;
use term_tree::Term;

/// The rows from a on.
fn later_rows(alloc: Global, a: &Aff, n: &Aff, body: &Term) -> Result<Draft, CertRefusal>
    requires deep { node_depth body.now ≤ 2147483647 }
    requires within { IsWithinReach (put_index_reach (further a.now ∷ []) 1) body.now }
    ensures { IfOk result (IsDraft (tree.gen (difference_of n.now a.now) (row_of n.now body.now (further a.now)))) }
{
    let at = further(alloc, a)?;
    let width = narrower(alloc, n, a)?;
    let row = row_of(alloc, n, body, at)?;
    gen_with(alloc, width, row)
}

/// The rows without the last a.
fn first_rows(alloc: Global, a: &Aff, n: &Aff, body: &Term) -> Result<Draft, CertRefusal>
    ensures { IfOk result (IsDraft (tree.gen (difference_of n.now a.now) body.now)) }
{
    let width = narrower(alloc, n, a)?;
    let body = whole(copied(alloc, body)?);
    gen_with(alloc, width, body)
}

/// The rows behind a rows of zeros.
fn rows_behind(alloc: Global, a: &Aff, n: &Aff, body: &Term) -> Result<Draft, CertRefusal>
    requires deep { node_depth body.now ≤ 2147483647 }
    requires within { IsWithinReach (put_index_reach (back a.now ∷ []) 1) body.now }
    ensures { IfOk result (IsDraft (tree.gen (sum_of n.now a.now) (tree.guard (at_least (back a.now)) (row_of n.now body.now (back a.now))))) }
{
    let width = wider(alloc, n, a)?;
    let from = back(alloc, a)?;
    let at = back(alloc, a)?;
    let row = row_of(alloc, n, body, at)?;
    let guarded = guard_with(alloc, from, row)?;
    gen_with(alloc, width, guarded)
}

/// The rows before a rows of zeros.
fn rows_before(alloc: Global, a: &Aff, n: &Aff, body: &Term) -> Result<Draft, CertRefusal>
    ensures { IfOk result (IsDraft (tree.gen (sum_of n.now a.now) (tree.guard (at_least (rest_below n.now (var_form 0))) body.now))) }
{
    let width = wider(alloc, n, a)?;
    let until = rest(alloc, n)?;
    let body = whole(copied(alloc, body)?);
    let guarded = guard_with(alloc, until, body)?;
    gen_with(alloc, width, guarded)
}

/// `truncl(a, gen i < n. b)`
pub fn trunc_gen_l(alloc: Global, focus: &Focus, args: &[Arg]) -> Result<Outcome, CertRefusal>
    requires { IsProper focus.now }
    ensures { IfOk result (IsOutcome (table.trunc_gen_l focus.now args.now)) }
{
    let Some((a, e)) = as_trunc_l(focus.term.get()) else {
        return Ok(Outcome::NoPattern);
    };
    let Some((n, body)) = as_gen(e) else {
        return Ok(Outcome::NoPattern);
    };
    if args.len() > 0 {
        return Ok(Outcome::WrongArgument);
    }
    let draft = later_rows(alloc, a, n, body)?;
    Ok(drafted(alloc, draft))
}

/// `truncr(a, gen i < n. b)`
pub fn trunc_gen_r(alloc: Global, focus: &Focus, args: &[Arg]) -> Result<Outcome, CertRefusal>
    ensures { IfOk result (IsOutcome (table.trunc_gen_r focus.now args.now)) }
{
    let Some((a, e)) = as_trunc_r(focus.term.get()) else {
        return Ok(Outcome::NoPattern);
    };
    let Some((n, body)) = as_gen(e) else {
        return Ok(Outcome::NoPattern);
    };
    if args.len() > 0 {
        return Ok(Outcome::WrongArgument);
    }
    let draft = first_rows(alloc, a, n, body)?;
    Ok(drafted(alloc, draft))
}

/// `padl(a, gen i < n. b)`
pub fn pad_gen_l(alloc: Global, focus: &Focus, args: &[Arg]) -> Result<Outcome, CertRefusal>
    requires { IsProper focus.now }
    ensures { IfOk result (IsOutcome (table.pad_gen_l focus.now args.now)) }
{
    let Some((a, e)) = as_pad_l(focus.term.get()) else {
        return Ok(Outcome::NoPattern);
    };
    let Some((n, body)) = as_gen(e) else {
        return Ok(Outcome::NoPattern);
    };
    if args.len() > 0 {
        return Ok(Outcome::WrongArgument);
    }
    let draft = rows_behind(alloc, a, n, body)?;
    Ok(drafted(alloc, draft))
}

/// `padr(a, gen i < n. b)`
pub fn pad_gen_r(alloc: Global, focus: &Focus, args: &[Arg]) -> Result<Outcome, CertRefusal>
    ensures { IfOk result (IsOutcome (table.pad_gen_r focus.now args.now)) }
{
    let Some((a, e)) = as_pad_r(focus.term.get()) else {
        return Ok(Outcome::NoPattern);
    };
    let Some((n, body)) = as_gen(e) else {
        return Ok(Outcome::NoPattern);
    };
    if args.len() > 0 {
        return Ok(Outcome::WrongArgument);
    }
    let draft = rows_before(alloc, a, n, body)?;
    Ok(drafted(alloc, draft))
}
