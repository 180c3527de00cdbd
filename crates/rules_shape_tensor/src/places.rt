//! Rows of the rows of a tensor, joined.

ghost use Rattle.std.specs.Prelude.{◌≡◌, ◌&&◌, false, IfOk, MatchOption};
ghost use Rattle.affine_index.specs.Limited.{items_scoped};
ghost use Rattle.affine_index.specs.Normal.{holds_var};
ghost use Rattle.affine_index.specs.Product.{product_of};
ghost use Rattle.affine_index.specs.Sum.{sum_of};
ghost use Rattle.affine_index.specs.declared.form.Items as form;
ghost use Rattle.path_focus.specs.Focus.{IsProper};
ghost use Rattle.path_focus.specs.Outcome.{IsOutcome, Meant, Unfit};
ghost use Rattle.rules_shape_tensor.specs.Rows as table;
ghost use Rattle.term_tree.specs.Shape.{same_form};
ghost use Rattle.term_tree.specs.Syntax as tree;

use crate::build::{if_normal, is_same, row};
use crate::extents::second_extent;
use crate::patterns::as_flatten;
use affine_index::Aff;
use affine_index::raw::{Wide, copied, product, sum, within_limits};
use fact_list::CertRefusal;
use path_focus::making::one_of_rows;
use path_focus::{Arg, Focus, Outcome};
use rule_parts::build::{copied_form, index, made_under};
use rule_parts::goals::vars_at;
use rule_parts::patterns::as_index;
use sqlite_items::Boxed;
use std::alloc::{AllocError, Global};
use term_tree::Term;

/// The two forms that are the arguments.
fn pair_of(args: &[Arg]) -> Option<(&Aff, &Aff)>
    ensures { MatchOption result ((g : form.Items → form.Items → Meant) → table.with_pair args.now g ≡ Unfit) (λ p. (g : form.Items → form.Items → Meant) → table.with_pair args.now g ≡ g p.0.now p.1.now) }
{
    match args {
        [Arg::Ix(a), Arg::Ix(b)] => Some((a, b)),
        _ => None,
    }
}

/// a*m + b, of whatever length.
fn place(alloc: Global, a: &Aff, m: &Aff, b: &Aff) -> Result<Wide, AllocError>
    ensures { IfOk result (λ w. w ≡ sum_of (product_of a.now m.now) b.now) }
{
    let first = copied(alloc, a)?;
    let second = copied(alloc, m)?;
    let rows = product(alloc, &first, &second)?;
    let rest = copied(alloc, b)?;
    sum(alloc, rows, rest)
}

/// Whether an index is a*m + b.
fn is_place(alloc: Global, a: &Aff, m: &Aff, b: &Aff, x: &Aff) -> Result<bool, CertRefusal>
    requires { holds_var m.now ≡ false }
    ensures { IfOk result (λ r. r ≡ same_form (sum_of (product_of a.now m.now) b.now) x.now) }
{
    a.told();
    m.told();
    b.told();
    x.told();
    let total = place(alloc, a, m, b)?;
    let form = if_normal(within_limits(alloc, total))?;
    match form {
        Some(form) => Ok(is_same(&form, x)),
        None => Ok(false),
    }
}

/// Whether the arguments are in scope and lead to an index.
fn leads(
    alloc: Global,
    focus: &Focus,
    a: &Aff,
    m: &Aff,
    b: &Aff,
    x: &Aff,
) -> Result<bool, CertRefusal>
    requires { holds_var m.now ≡ false }
    ensures { IfOk result (λ r. r ≡ table.leads_to focus.now.facts m.now a.now b.now x.now) }
{
    let sizes = focus.facts.sizes.len();
    let vars = vars_at(focus.facts.path.as_slice());
    if !a.is_scoped(sizes, vars) {
        return Ok(false);
    }
    if !b.is_scoped(sizes, vars) {
        return Ok(false);
    }
    is_place(alloc, a, m, b, x)
}

/// Row b of row a of a copy of a term.
fn row_of_row(alloc: Global, e: &Term, a: &Aff, b: &Aff) -> Result<Boxed<Term>, CertRefusal>
    ensures { IfOk result (λ t. t ≡ tree.index (tree.index e.now a.now) b.now) }
{
    let b = copied_form(alloc, b)?;
    let outer = row(alloc, e, a)?;
    index(alloc, outer, b)
}

/// `flatten(e)[x]`
pub fn flatten_index(alloc: Global, focus: &Focus, args: &[Arg]) -> Result<Outcome, CertRefusal>
    requires { IsProper focus.now }
    ensures { IfOk result (IsOutcome (table.flatten_index focus.now args.now)) }
{
    let Some((array, x)) = as_index(focus.term.get()) else {
        return Ok(Outcome::NoPattern);
    };
    let Some(e) = as_flatten(array) else {
        return Ok(Outcome::NoPattern);
    };
    let Some(m) = second_extent(alloc, &focus.shapes, e)? else {
        return Ok(Outcome::NoPattern);
    };
    let Some((a, b)) = pair_of(args) else {
        return Ok(Outcome::WrongArgument);
    };
    if !leads(alloc, focus, a, &m, b, x)? {
        return Ok(Outcome::WrongArgument);
    }
    let conditions = one_of_rows(alloc, &focus.facts, &m, b)?;
    let term = row_of_row(alloc, e, a, b)?;
    Ok(made_under(conditions, term))
}
