//! Terms under one more gen or sum.

ghost use Rattle.std.specs.Prelude.{◌≡◌, ◌≤◌, true, IfOk};
ghost use Rattle.affine_index.specs.Form.{var_form};
ghost use Rattle.binders.specs.Answers.{IsWithinReach};
ghost use Rattle.binders.specs.PlainMaps.{shift_reach};
ghost use Rattle.path_focus.specs.Focus.{IsProper};
ghost use Rattle.path_focus.specs.Making.{raised};
ghost use Rattle.path_focus.specs.Outcome.{IsOutcome};
ghost use Rattle.rule_parts.specs.Patterns as parts;
ghost use Rattle.rules_loop.specs.Raising as table;
ghost use Rattle.shape_rules.specs.Scopes.{IsScoped, all_free, given};
ghost use Rattle.term_tree.specs.Counts.{node_count, node_depth};
ghost use Rattle.term_tree.specs.Shape.{shape_of};
ghost use Rattle.term_tree.specs.Syntax as tree;

use crate::drafts::var;
use affine_index::Aff;
use fact_list::CertRefusal;
use owned_values::two;
use path_focus::making::raised;
use path_focus::{Arg, Focus, Outcome};
use rule_parts::build::{copied, copied_form, generated, index, made, mul, sum};
use rule_parts::patterns::{as_mul, as_sum};
use shape_rules::extents::take_first;
use shape_rules::{ShapeFault, Shapes, shape};
use sqlite_items::Boxed;
use std::alloc::Global;
use term_tree::Term;

/// `a * (sum i < n. b)`
pub fn mul_into_sum(alloc: Global, focus: &Focus, args: &[Arg]) -> Result<Outcome, CertRefusal>
    requires { IsProper focus.now }
    ensures { IfOk result (IsOutcome (table.mul_into_sum focus.now args.now)) }
{
    let Some((a, right)) = as_mul(focus.term.get()) else {
        return Ok(Outcome::NoPattern);
    };
    let Some((n, b)) = as_sum(right) else {
        return Ok(Outcome::NoPattern);
    };
    if args.len() > 0 {
        return Ok(Outcome::WrongArgument);
    }
    let (a, b) = two(raised(alloc, a), copied(alloc, b))?;
    let n = copied_form(alloc, n)?;
    let body = mul(alloc, a, b)?;
    let term = sum(alloc, n, body)?;
    Ok(made(alloc, term))
}

/// The first extent of a term of rank 1 or more.
fn first_extent(alloc: Global, shapes: &Shapes, term: &Term) -> Result<Option<Aff>, CertRefusal>
    requires scoped { IsScoped shapes.now term.now }
    requires free { all_free (given shapes.now) ≡ true }
    ensures { IfOk result (λ o. o ≡ parts.first_extent (shape_of term.now (given shapes.now))) }
{
    match shape(alloc, shapes, term) {
        Ok(extents) => {
            let mut extents = extents;
            Ok(take_first(&mut extents))
        }
        Err(ShapeFault::Memory) => Err(CertRefusal::Memory),
        Err(_) => Ok(None),
    }
}

/// The gen of the rows of a term of so many rows.
fn rows(alloc: Global, n: Aff, term: &Term) -> Result<Boxed<Term>, CertRefusal>
    requires deep { node_depth term.now ≤ 2147483647 }
    requires small { node_count term.now ≤ 20000 }
    requires within { IsWithinReach (shift_reach 1 0) term.now }
    ensures { IfOk result (λ e. e ≡ tree.gen n (tree.index (raised term.now) (var_form 0))) }
{
    let array = raised(alloc, term)?;
    let x = var(alloc, 0)?;
    let row = index(alloc, array, x)?;
    generated(alloc, n, row)
}

/// The first extent of the term of a focus.
fn extent_there(alloc: Global, focus: &Focus) -> Result<Option<Aff>, CertRefusal>
    requires { IsProper focus.now }
    ensures { IfOk result (λ o. o ≡ parts.first_extent (shape_of focus.now.term (given focus.now.shapes))) }
{
    first_extent(alloc, &focus.shapes, focus.term.get())
}

/// The gen of its rows.
fn rows_there(alloc: Global, focus: &Focus, n: Aff) -> Result<Boxed<Term>, CertRefusal>
    requires { IsProper focus.now }
    ensures { IfOk result (λ e. e ≡ tree.gen n (tree.index (raised focus.now.term) (var_form 0))) }
{
    rows(alloc, n, focus.term.get())
}

/// A term of rank 1 or more.
pub fn uneta(alloc: Global, focus: &Focus, args: &[Arg]) -> Result<Outcome, CertRefusal>
    requires { IsProper focus.now }
    ensures { IfOk result (IsOutcome (table.uneta focus.now args.now)) }
{
    let Some(n) = extent_there(alloc, focus)? else {
        return Ok(Outcome::NoPattern);
    };
    if args.len() > 0 {
        return Ok(Outcome::WrongArgument);
    }
    let term = rows_there(alloc, focus, n)?;
    Ok(made(alloc, term))
}
