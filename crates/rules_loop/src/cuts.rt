//! A gen or sum in two parts.

ghost use Rattle.std.specs.Prelude.{◌≡◌, ◌≤◌, ◌∷◌, [], length, true, IfOk, MatchOption, MatchResult};
ghost use Rattle.affine_index.specs.Limited.{items_scoped};
ghost use Rattle.affine_index.specs.Normal.{Refused, is_normal};
ghost use Rattle.affine_index.specs.Sum.{difference_of};
ghost use Rattle.affine_index.specs.declared.form.Items as form;
ghost use Rattle.binders.specs.Answers.{IsWithinReach};
ghost use Rattle.binders.specs.Maps.{mapped};
ghost use Rattle.binders.specs.PlainMaps.{put_index_map, put_index_reach};
ghost use Rattle.fact_list.specs.Facts.{where_normal};
ghost use Rattle.path_focus.specs.Focus.{IsProper};
ghost use Rattle.path_focus.specs.Making.{owed};
ghost use Rattle.path_focus.specs.Outcome.{IsDraft, IsOutcome, Meant, Unfit};
ghost use Rattle.path_focus.specs.declared.place.Focus as spec_focus;
ghost use Rattle.rules_loop.specs.Cuts as cuts;
ghost use Rattle.rules_loop.specs.Table as table;
ghost use Rattle.term_tree.specs.Counts.{node_depth};
ghost use Rattle.term_tree.specs.Syntax as tree;

use crate::beside::{beside_gen, beside_sum, rest_of_gen, rest_of_sum};
use crate::drafts::var;
use affine_index::{Aff, AffRefusal};
use fact_list::{CertRefusal, Facts, copy_bounds, copy_cmps};
use path_focus::making::{condition, not_negative, with_indices};
use path_focus::{Arg, Condition, Draft, Focus, Outcome, Rewrite};
use rule_parts::patterns::{as_gen, as_sum};
use sqlite_items::Items;
use std::alloc::Global;
use term_tree::Term;

/// What index arithmetic has made, where it is within the limits.
fn if_normal(made: Result<Aff, AffRefusal>) -> Result<Option<Aff>, CertRefusal>
    ensures { (raw : form.Items) → MatchResult made (λ x. x ≡ raw) (Refused raw) → IfOk result (λ o. o ≡ where_normal raw) }
{
    match made {
        Ok(form) => {
            form.told();
            Ok(Some(form))
        }
        Err(AffRefusal::Memory) => Err(CertRefusal::Memory),
        Err(AffRefusal::CoefficientTooLarge) => Ok(None),
        Err(AffRefusal::IndexTooLong) => Ok(None),
        Err(AffRefusal::NotAffine) => Ok(None),
    }
}

/// i + x, where its form is within the limits.
fn further(alloc: Global, x: &Aff) -> Result<Option<Aff>, CertRefusal>
    ensures { IfOk result (λ o. o ≡ where_normal (cuts.further x.now)) }
{
    let innermost = var(alloc, 0)?;
    if_normal(innermost.add(alloc, x))
}

/// What is known of sizes alone.
fn outside(alloc: Global, facts: &Facts) -> Result<Facts, CertRefusal>
    ensures { IfOk result (λ known. known ≡ cuts.outside facts.now) }
{
    let sizes = copy_bounds(alloc, facts.sizes.as_slice())?;
    let assumes = copy_cmps(alloc, facts.assumes.as_slice())?;
    Ok(Facts {
        sizes,
        assumes,
        path: Items::new(alloc),
    })
}

/// n - x, where its form is within the limits.
fn rest_if_normal(alloc: Global, n: &Aff, x: &Aff) -> Result<Option<Aff>, CertRefusal>
    ensures { IfOk result (λ o. o ≡ where_normal (difference_of n.now x.now)) }
{
    if_normal(n.sub(alloc, x))
}

/// That an index is at most an extent.
fn at_most(alloc: Global, facts: &Facts, n: &Aff, x: &Aff) -> Result<Condition, CertRefusal>
    ensures { IfOk result (λ c. c ≡ owed facts.now (difference_of n.now x.now)) }
{
    let goal = rest_if_normal(alloc, n, x)?;
    condition(alloc, facts, goal)
}

/// That the cut is within the extent: first that it is at least 0, then that it is at most the extent.
fn within_extent(
    alloc: Global,
    facts: &Facts,
    n: &Aff,
    x: &Aff,
) -> Result<Items<Condition>, CertRefusal>
    ensures { IfOk result (λ cs. cs ≡ cuts.within_extent facts.now n.now x.now) }
{
    let known = outside(alloc, facts)?;
    let mut all = Items::new(alloc);
    all.push(not_negative(alloc, &known, x)?)?;
    all.push(at_most(alloc, &known, n, x)?)?;
    Ok(all)
}

/// The one index over sizes that is given.
fn over_sizes(args: &[Arg], sizes: usize) -> Option<&Aff>
    ensures { MatchOption result ((f : spec_focus.Focus) → length f.facts.sizes ≡ sizes → (g : form.Items → Meant) → cuts.with_cut f args.now g ≡ Unfit) (λ x. (args.now ≡ Arg.Ix x.now ∷ []) × (items_scoped sizes 0 x.now ≡ true) × (is_normal x.now ≡ true)) }
{
    match args {
        [only] => match only {
            Arg::Ix(x) => {
                x.told();
                if x.is_scoped(sizes, 0) { Some(x) } else { None }
            }
            _ => None,
        },
        _ => None,
    }
}

fn one(alloc: Global, x: Aff) -> Result<Items<Aff>, CertRefusal>
    ensures { IfOk result (λ by. by ≡ x ∷ []) }
{
    let mut by = Items::new(alloc);
    by.push(x)?;
    Ok(by)
}

/// The body with a form for its variable, under another in its place.
fn moved(alloc: Global, index: Aff, body: &Term) -> Result<Draft, CertRefusal>
    requires deep { node_depth body.now ≤ 2147483647 }
    requires within { IsWithinReach (put_index_reach (index ∷ []) 1) body.now }
    ensures { IfOk result (IsDraft (mapped (put_index_map (index ∷ []) 1) 0 0 body.now)) }
{
    let by = one(alloc, index)?;
    with_indices(alloc, by, 1, body)
}

fn gen_parts(alloc: Global, n: &Aff, x: &Aff, index: Aff, body: &Term) -> Result<Draft, CertRefusal>
    requires deep { node_depth body.now ≤ 2147483647 }
    requires within { IsWithinReach (put_index_reach (index ∷ []) 1) body.now }
    ensures { IfOk result (IsDraft (tree.concat (tree.gen x.now body.now) (tree.gen (difference_of n.now x.now) (mapped (put_index_map (index ∷ []) 1) 0 0 body.now)))) }
{
    let moved = moved(alloc, index, body)?;
    let rest = rest_of_gen(alloc, n, x, moved)?;
    beside_gen(alloc, x, body, rest)
}

fn sum_parts(alloc: Global, n: &Aff, x: &Aff, index: Aff, body: &Term) -> Result<Draft, CertRefusal>
    requires deep { node_depth body.now ≤ 2147483647 }
    requires within { IsWithinReach (put_index_reach (index ∷ []) 1) body.now }
    ensures { IfOk result (IsDraft (tree.add (tree.sum x.now body.now) (tree.sum (difference_of n.now x.now) (mapped (put_index_map (index ∷ []) 1) 0 0 body.now)))) }
{
    let moved = moved(alloc, index, body)?;
    let rest = rest_of_sum(alloc, n, x, moved)?;
    beside_sum(alloc, x, body, rest)
}

/// `gen i < n. b`
pub fn cut_gen(alloc: Global, focus: &Focus, args: &[Arg]) -> Result<Outcome, CertRefusal>
    requires { IsProper focus.now }
    ensures { IfOk result (IsOutcome (table.cut_gen focus.now args.now)) }
{
    let Some((n, body)) = as_gen(focus.term.get()) else {
        return Ok(Outcome::NoPattern);
    };
    let Some(x) = over_sizes(args, focus.facts.sizes.len()) else {
        return Ok(Outcome::WrongArgument);
    };
    let Some(index) = further(alloc, x)? else {
        return Ok(Outcome::WrongArgument);
    };
    let conditions = within_extent(alloc, &focus.facts, n, x)?;
    let draft = gen_parts(alloc, n, x, index, body)?;
    Ok(Outcome::Made(Rewrite { conditions, draft }))
}

/// `sum i < n. b`
pub fn cut_sum(alloc: Global, focus: &Focus, args: &[Arg]) -> Result<Outcome, CertRefusal>
    requires { IsProper focus.now }
    ensures { IfOk result (IsOutcome (table.cut_sum focus.now args.now)) }
{
    let Some((n, body)) = as_sum(focus.term.get()) else {
        return Ok(Outcome::NoPattern);
    };
    let Some(x) = over_sizes(args, focus.facts.sizes.len()) else {
        return Ok(Outcome::WrongArgument);
    };
    let Some(index) = further(alloc, x)? else {
        return Ok(Outcome::WrongArgument);
    };
    let conditions = within_extent(alloc, &focus.facts, n, x)?;
    let draft = sum_parts(alloc, n, x, index, body)?;
    Ok(Outcome::Made(Rewrite { conditions, draft }))
}
