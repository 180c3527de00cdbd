//! Guards of each row, taken out of a gen.

ghost use Rattle.std.specs.Prelude.{◌≡◌, ◌≤◌, IfOk};
ghost use Rattle.affine_index.specs.declared.cond.Cond as cond;
ghost use Rattle.path_focus.specs.Focus.{IsProper};
ghost use Rattle.path_focus.specs.Outcome.{IsDraft, IsOutcome};
ghost use Rattle.rules_guard.specs.Table as table;
ghost use Rattle.term_tree.specs.Syntax as tree;
ghost use Rattle.term_tree.specs.declared.term.Term as spec;

use affine_index::{Aff, Cond};
use binders::free_index;
use fact_list::CertRefusal;
use path_focus::making::lowered;
use path_focus::{Arg, Draft, Focus, Outcome};
use rule_parts::build::{copied, copied_form, drafted, generated, guard};
use rule_parts::conds::copied_cond;
use rule_parts::patterns::{as_gen, as_guard};
use sqlite_items::Boxed;
use std::alloc::Global;
use term_tree::{Term, told};

/// A guard of 0, in which a condition stands alone.
fn alone(alloc: Global, cond: &Cond) -> Result<Boxed<Term>, CertRefusal>
    ensures { IfOk result (λ e. e ≡ tree.guard cond.now (spec.Lit 0)) }
{
    let zero = Boxed::new(alloc, Term::Lit(0))?;
    let cond = copied_cond(alloc, cond)?;
    guard(alloc, cond, zero)
}

fn rows(alloc: Global, n: &Aff, body: &Term) -> Result<Boxed<Term>, CertRefusal>
    ensures { IfOk result (λ e. e ≡ tree.gen n.now body.now) }
{
    let body = copied(alloc, body)?;
    let n = copied_form(alloc, n)?;
    generated(alloc, n, body)
}

/// A term whose forms are within the limits.
#[tactic(auto, using(rule_parts::proofs::DraftLaws::whole_is))]
pub fn whole(term: Boxed<Term>) -> Draft
    ensures { IsDraft term result }
{
    told(term.get());
    Draft::Whole(term)
}

/// A gen of rows under the condition of a guard.
fn under(alloc: Global, guarded: &Term, n: &Aff, body: &Term) -> Result<Draft, CertRefusal>
    ensures { (c : cond.Cond) → guarded.now ≡ tree.guard c (spec.Lit 0) → IfOk result (IsDraft (tree.guard c (tree.gen n.now body.now))) }
{
    let Some((cond, _zero)) = as_guard(guarded) else {
        return Err(CertRefusal::Memory);
    };
    let rows = rows(alloc, n, body)?;
    let cond = copied_cond(alloc, cond)?;
    let term = guard(alloc, cond, rows)?;
    Ok(whole(term))
}

/// The draft of a guard of 0 as that of a guard of a gen of rows.
fn around(alloc: Global, draft: Draft, n: &Aff, body: &Term) -> Result<Draft, CertRefusal>
    ensures { (c : cond.Cond) → IsDraft (tree.guard c (spec.Lit 0)) draft → IfOk result (IsDraft (tree.guard c (tree.gen n.now body.now))) }
{
    n.told();
    told(body);
    match draft {
        Draft::Whole(guarded) => under(alloc, guarded.get(), n, body),
        Draft::TooLarge => Ok(Draft::TooLarge),
        Draft::TooLong => Ok(Draft::TooLong),
        Draft::TooMany { .. } => Err(CertRefusal::Memory),
    }
}

/// `gen i < n. guard c. e`, where c is free of i
pub fn gen_guard(alloc: Global, focus: &Focus, args: &[Arg]) -> Result<Outcome, CertRefusal>
    requires { IsProper focus.now }
    ensures { IfOk result (IsOutcome (table.gen_guard focus.now args.now)) }
{
    let Some((n, row)) = as_gen(focus.term.get()) else {
        return Ok(Outcome::NoPattern);
    };
    let Some((cond, body)) = as_guard(row) else {
        return Ok(Outcome::NoPattern);
    };
    let guarded = alone(alloc, cond)?;
    if !free_index(guarded.get(), 0) {
        return Ok(Outcome::NoPattern);
    }
    if args.len() > 0 {
        return Ok(Outcome::WrongArgument);
    }
    let test = lowered(alloc, guarded.get())?;
    let draft = around(alloc, test, n, body)?;
    Ok(drafted(alloc, draft))
}
