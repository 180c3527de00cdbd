//! Rows of a gen, each named by a form over the variable of another gen that stands in its place.

ghost use Rattle.std.specs.Prelude.{◌≡◌, ◌≤◌, ◌∷◌, [], IfOk};
ghost use Rattle.affine_index.specs.Form.{var_form};
ghost use Rattle.affine_index.specs.Sum.{difference_of, sum_of};
ghost use Rattle.affine_index.specs.declared.form.Items as form;
ghost use Rattle.binders.specs.Answers.{IsWithinReach};
ghost use Rattle.binders.specs.PlainMaps.{put_index_reach};
ghost use Rattle.path_focus.specs.Making.{rest_below};
ghost use Rattle.path_focus.specs.Outcome.{IsDraft};
ghost use Rattle.rules_loop.specs.Cuts.{further};
ghost use Rattle.rules_shape_gen.specs.Formed.{IsFormed};
ghost use Rattle.rules_shape_gen.specs.Rows.{back, put_row, row_of};
ghost use Rattle.term_tree.specs.Counts.{node_depth};

use crate::formed::{FormDraft, formed};
use affine_index::Aff;
use fact_list::CertRefusal;
use path_focus::Draft;
use path_focus::forms::rest_below;
use path_focus::making::with_indices;
use sqlite_items::Items;
use std::alloc::Global;
use term_tree::{Term, told};

fn innermost(alloc: Global) -> Result<Aff, CertRefusal>
    ensures { IfOk result (λ x. x ≡ var_form 0) }
{
    match Aff::var(alloc, 0) {
        Ok(form) => Ok(form),
        Err(_) => Err(CertRefusal::Memory),
    }
}

/// i + a
pub fn further(alloc: Global, a: &Aff) -> Result<FormDraft, CertRefusal>
    ensures { IfOk result (IsFormed (further a.now)) }
{
    let i = innermost(alloc)?;
    formed(i.add(alloc, a))
}

/// i - a
pub fn back(alloc: Global, a: &Aff) -> Result<FormDraft, CertRefusal>
    ensures { IfOk result (IsFormed (back a.now)) }
{
    let i = innermost(alloc)?;
    formed(i.sub(alloc, a))
}

/// n - 1 - i
pub fn rest(alloc: Global, n: &Aff) -> Result<FormDraft, CertRefusal>
    ensures { IfOk result (IsFormed (rest_below n.now (var_form 0))) }
{
    let i = innermost(alloc)?;
    formed(rest_below(alloc, n, &i))
}

/// n + a
pub fn wider(alloc: Global, n: &Aff, a: &Aff) -> Result<FormDraft, CertRefusal>
    ensures { IfOk result (IsFormed (sum_of n.now a.now)) }
{
    formed(n.add(alloc, a))
}

/// n - a
pub fn narrower(alloc: Global, n: &Aff, a: &Aff) -> Result<FormDraft, CertRefusal>
    ensures { IfOk result (IsFormed (difference_of n.now a.now)) }
{
    formed(n.sub(alloc, a))
}

fn one(alloc: Global, x: Aff) -> Result<Items<Aff>, CertRefusal>
    ensures { IfOk result (λ by. by ≡ x ∷ []) }
{
    let mut by = Items::new(alloc);
    by.push(x)?;
    Ok(by)
}

/// The body with a form for its variable, under another in its place.
fn put_row(alloc: Global, x: Aff, body: &Term) -> Result<Draft, CertRefusal>
    requires deep { node_depth body.now ≤ 2147483647 }
    requires within { IsWithinReach (put_index_reach (x ∷ []) 1) body.now }
    ensures { IfOk result (IsDraft (put_row x body.now)) }
{
    let by = one(alloc, x)?;
    with_indices(alloc, by, 1, body)
}

/// Row x of a gen of n rows.
pub fn row_of(alloc: Global, n: &Aff, body: &Term, at: FormDraft) -> Result<Draft, CertRefusal>
    requires deep { node_depth body.now ≤ 2147483647 }
    requires within { (x : form.Items) → at ≡ FormDraft.Within x → IsWithinReach (put_index_reach (x ∷ []) 1) body.now }
    ensures { (x : form.Items) → IsFormed x at → IfOk result (IsDraft (row_of n.now body.now x)) }
{
    n.told();
    told(body);
    match at {
        FormDraft::Within(x) => {
            x.told();
            put_row(alloc, x, body)
        }
        FormDraft::TooLarge => Ok(Draft::TooLarge),
        FormDraft::TooLong => Ok(Draft::TooLong),
    }
}
