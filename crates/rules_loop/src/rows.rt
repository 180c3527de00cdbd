//! Gens at an index, and gens of rows.

ghost use Rattle.std.specs.Prelude.{◌≡◌, ◌≤◌, ◌&&◌, not, true, IfOk};
ghost use Rattle.affine_index.specs.Form.{var_form};
ghost use Rattle.binders.specs.Uses.{uses_index};
ghost use Rattle.path_focus.specs.Focus.{IsProper};
ghost use Rattle.path_focus.specs.Outcome.{IsOutcome};
ghost use Rattle.rules_loop.specs.Patterns.{is_first};
ghost use Rattle.rules_loop.specs.Table as table;
ghost use Rattle.shape_rules.specs.Scopes.{IsScoped, all_free, given};
ghost use Rattle.term_tree.specs.Counts.{node_depth};
ghost use Rattle.term_tree.specs.Shape.{same_form, shape_of};

use crate::build::is_same;
use crate::drafts::var;
use affine_index::Aff;
use binders::free_index;
use fact_list::CertRefusal;
use path_focus::making::{lowered, one_of_rows, with_index};
use path_focus::{Arg, Focus, Outcome, Rewrite};
use rule_parts::build::{copied_form, drafted};
use rule_parts::patterns::{as_gen, as_index};
use shape_rules::extents::take_first;
use shape_rules::{ShapeFault, Shapes, shape};
use std::alloc::Global;
use term_tree::Term;

/// `(gen i < n. b)[x]`
pub fn beta(alloc: Global, focus: &Focus, args: &[Arg]) -> Result<Outcome, CertRefusal>
    requires { IsProper focus.now }
    ensures { IfOk result (IsOutcome (table.beta focus.now args.now)) }
{
    let Some((array, x)) = as_index(focus.term.get()) else {
        return Ok(Outcome::NoPattern);
    };
    let Some((n, body)) = as_gen(array) else {
        return Ok(Outcome::NoPattern);
    };
    if args.len() > 0 {
        return Ok(Outcome::WrongArgument);
    }
    let conditions = one_of_rows(alloc, &focus.facts, n, x)?;
    let x = copied_form(alloc, x)?;
    let draft = with_index(alloc, x, body)?;
    Ok(Outcome::Made(Rewrite { conditions, draft }))
}

fn is_innermost(alloc: Global, x: &Aff) -> Result<bool, CertRefusal>
    ensures { IfOk result (λ b. b ≡ same_form x.now (var_form 0)) }
{
    let innermost = var(alloc, 0)?;
    Ok(is_same(x, &innermost))
}

/// Whether a form is the first extent of a term.
fn has_first(alloc: Global, shapes: &Shapes, n: &Aff, term: &Term) -> Result<bool, CertRefusal>
    requires scoped { IsScoped shapes.now term.now }
    requires free { all_free (given shapes.now) ≡ true }
    ensures { IfOk result (λ b. b ≡ is_first n.now (shape_of term.now (given shapes.now))) }
{
    match shape(alloc, shapes, term) {
        Ok(extents) => {
            let mut extents = extents;
            match take_first(&mut extents) {
                Some(first) => Ok(is_same(&first, n)),
                None => Ok(false),
            }
        }
        Err(ShapeFault::Memory) => Err(CertRefusal::Memory),
        Err(_) => Ok(false),
    }
}

/// Whether a form is the variable of a gen of so many rows of an array that is free of it.
fn is_each_row(
    alloc: Global,
    shapes: &Shapes,
    n: &Aff,
    array: &Term,
    x: &Aff,
) -> Result<bool, CertRefusal>
    requires deep { node_depth array.now ≤ 2147483647 }
    requires scoped { IsScoped shapes.now array.now }
    requires free { all_free (given shapes.now) ≡ true }
    ensures { IfOk result (λ b. b ≡ table.is_each_row (given shapes.now) n.now array.now x.now) }
{
    if !is_innermost(alloc, x)? {
        return Ok(false);
    }
    if !free_index(array, 0) {
        return Ok(false);
    }
    has_first(alloc, shapes, n, array)
}

/// `gen i < n. a[i]`
pub fn eta(alloc: Global, focus: &Focus, args: &[Arg]) -> Result<Outcome, CertRefusal>
    requires { IsProper focus.now }
    ensures { IfOk result (IsOutcome (table.eta focus.now args.now)) }
{
    let Some((n, body)) = as_gen(focus.term.get()) else {
        return Ok(Outcome::NoPattern);
    };
    let Some((array, x)) = as_index(body) else {
        return Ok(Outcome::NoPattern);
    };
    if !is_each_row(alloc, &focus.shapes, n, array, x)? {
        return Ok(Outcome::NoPattern);
    }
    if args.len() > 0 {
        return Ok(Outcome::WrongArgument);
    }
    let draft = lowered(alloc, array)?;
    Ok(drafted(alloc, draft))
}
