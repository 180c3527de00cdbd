//! Rows under guards that say that there is such a row.

ghost use Rattle.std.specs.Prelude.{◌≡◌, true, IfOk};
ghost use Rattle.path_focus.specs.Focus.{IsProper};
ghost use Rattle.path_focus.specs.Outcome.{IsDraft, IsOutcome};
ghost use Rattle.rule_parts.specs.Conds.{both_at_least, within_rows};
ghost use Rattle.rule_parts.specs.Patterns.{first_extent};
ghost use Rattle.rules_guard.specs.Table as table;
ghost use Rattle.shape_rules.specs.Scopes.{IsScoped, all_free, given};
ghost use Rattle.term_tree.specs.Shape.{shape_of};
ghost use Rattle.term_tree.specs.Syntax as tree;

use crate::outward::whole;
use affine_index::{Aff, AffRefusal, Cmp, Cond};
use fact_list::CertRefusal;
use path_focus::forms::rest_below;
use path_focus::{Arg, Draft, Focus, Outcome};
use rule_parts::build::{copied, copied_form, drafted, guard, index};
use rule_parts::patterns::as_index;
use shape_rules::extents::take_first;
use shape_rules::{ShapeFault, Shapes, shape};
use sqlite_items::{Boxed, Items};
use std::alloc::Global;
use term_tree::{Term, told};

/// The first extent of a term.
fn first_extent(alloc: Global, shapes: &Shapes, term: &Term) -> Result<Option<Aff>, CertRefusal>
    requires scoped { IsScoped shapes.now term.now }
    requires free { all_free (given shapes.now) ≡ true }
    ensures { IfOk result (λ o. o ≡ first_extent (shape_of term.now (given shapes.now))) }
{
    match shape(alloc, shapes, term) {
        Ok(extents) => {
            let mut extents = extents;
            Ok(take_first(&mut extents))
        }
        Err(ShapeFault::Memory) => Err(CertRefusal::Memory),
        Err(_) => Ok(None),
    }
}

/// That two forms are at least 0.
fn bounds(alloc: Global, x: &Aff, rest: Aff) -> Result<Cond, CertRefusal>
    ensures { IfOk result (λ c. c ≡ both_at_least x.now rest) }
{
    let mut all = Items::new(alloc);
    all.push(Cmp::Ge(copied_form(alloc, x)?))?;
    all.push(Cmp::Ge(rest))?;
    Ok(Cond { all })
}

fn row(alloc: Global, array: &Term, x: &Aff) -> Result<Boxed<Term>, CertRefusal>
    ensures { IfOk result (λ e. e ≡ tree.index array.now x.now) }
{
    let array = copied(alloc, array)?;
    let x = copied_form(alloc, x)?;
    index(alloc, array, x)
}

/// The row under a guard that it and the rows behind it are at least 0.
fn guarded_row(alloc: Global, array: &Term, x: &Aff, rest: Aff) -> Result<Draft, CertRefusal>
    ensures { IfOk result (IsDraft (tree.guard (both_at_least x.now rest) (tree.index array.now x.now))) }
{
    let cond = bounds(alloc, x, rest)?;
    let row = row(alloc, array, x)?;
    let term = guard(alloc, cond, row)?;
    Ok(whole(term))
}

#[tactic(auto, using(crate::proofs::AccessLaws::row_limits))]
fn with_bounds(alloc: Global, n: &Aff, array: &Term, x: &Aff) -> Result<Draft, CertRefusal>
    ensures { IfOk result (IsDraft (tree.guard (within_rows n.now x.now) (tree.index array.now x.now))) }
{
    x.told();
    told(array);
    match rest_below(alloc, n, x) {
        Ok(rest) => guarded_row(alloc, array, x, rest),
        Err(AffRefusal::CoefficientTooLarge) => Ok(Draft::TooLarge),
        Err(AffRefusal::IndexTooLong) => Ok(Draft::TooLong),
        Err(AffRefusal::NotAffine) | Err(AffRefusal::Memory) => Err(CertRefusal::Memory),
    }
}

/// `a[x]`
pub fn access_guard(alloc: Global, focus: &Focus, args: &[Arg]) -> Result<Outcome, CertRefusal>
    requires { IsProper focus.now }
    ensures { IfOk result (IsOutcome (table.access_guard focus.now args.now)) }
{
    let Some((array, x)) = as_index(focus.term.get()) else {
        return Ok(Outcome::NoPattern);
    };
    let Some(n) = first_extent(alloc, &focus.shapes, array)? else {
        return Ok(Outcome::NoPattern);
    };
    if args.len() > 0 {
        return Ok(Outcome::WrongArgument);
    }
    let draft = with_bounds(alloc, &n, array, x)?;
    Ok(drafted(alloc, draft))
}
