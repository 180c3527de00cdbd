//! Whether a variable occurs in a term.

ghost use Rattle.std.specs.Prelude.{◌≡◌, ◌+◌, ◌^◌, ◌<◌, ◌≤◌, not, IsTrue};
ghost use Rattle.term_tree.specs.Counts.{depth_fold, node_depth};
ghost use Rattle.binders.specs.Uses.{IgnoresIndex, IgnoresTensor, index_fold, tensor_fold, uses_index, uses_tensor};

use crate::occurrence::{cond_uses, form_uses};
use term_tree::Term;

/// Whether the index variable, counted from the innermost binder around the term, does not occur in the term.
/// Visits each node once.
#[tactic(auto, using(crate::proofs::UsesFold::uses_fold_laws, term_tree::proofs::NodeFold::node_depth_laws))]
pub fn free_index(term: &Term, var: u32) -> bool
    requires { node_depth term.now ≤ 2147483647 }
    ensures exact { result ≡ not (uses_index term.now var) }
    ensures means { IsTrue result → IgnoresIndex term.now var }
{
    !uses_index(term, u64::from(var))
}

/// Whether the tensor variable, counted from the innermost let around the term, does not occur in the term.
/// Visits each node once.
#[tactic(auto, using(crate::proofs::UsesFold::uses_fold_laws, term_tree::proofs::NodeFold::node_depth_laws))]
pub fn free_tensor(term: &Term, var: u32) -> bool
    requires { node_depth term.now ≤ 2147483647 }
    ensures exact { result ≡ not (uses_tensor term.now var) }
    ensures means { IsTrue result → IgnoresTensor term.now var }
{
    !uses_tensor(term, u64::from(var))
}

fn uses_index(term: &Term, var: u64) -> bool
    requires { var + depth_fold term.now < 2 ^ 64 }
    ensures { result ≡ index_fold term.now var }
{
    match term {
        Term::Lit(_) | Term::TVar(_) => false,
        Term::WordOf(x) => form_uses(x.items(), var),
        Term::Index(e, x) => uses_index(e.get(), var) || form_uses(x.items(), var),
        Term::Gen(n, e) | Term::Sum(n, e) => form_uses(n.items(), var)
            || uses_index(e.get(), var + 1),
        Term::Guard(c, e) => cond_uses(c, var) || uses_index(e.get(), var),
        Term::Flatten(e) | Term::Split(_, e) | Term::Transpose(e) => uses_index(e.get(), var),
        Term::TruncL(n, e) | Term::TruncR(n, e) | Term::PadL(n, e) | Term::PadR(n, e) => {
            form_uses(n.items(), var) || uses_index(e.get(), var)
        }
        Term::Let(a, b)
        | Term::Add(a, b)
        | Term::Sub(a, b)
        | Term::Mul(a, b)
        | Term::Concat(a, b) => uses_index(a.get(), var) || uses_index(b.get(), var),
    }
}

fn uses_tensor(term: &Term, var: u64) -> bool
    requires { var + depth_fold term.now < 2 ^ 64 }
    ensures { result ≡ tensor_fold term.now var }
{
    match term {
        Term::Lit(_) | Term::WordOf(_) => false,
        Term::TVar(q) => u64::from(*q) == var,
        Term::Index(e, _)
        | Term::Gen(_, e)
        | Term::Sum(_, e)
        | Term::Guard(_, e)
        | Term::Flatten(e)
        | Term::Split(_, e)
        | Term::Transpose(e)
        | Term::TruncL(_, e)
        | Term::TruncR(_, e)
        | Term::PadL(_, e)
        | Term::PadR(_, e) => uses_tensor(e.get(), var),
        Term::Let(a, b) => uses_tensor(a.get(), var) || uses_tensor(b.get(), var + 1),
        Term::Add(a, b) | Term::Sub(a, b) | Term::Mul(a, b) | Term::Concat(a, b) => uses_tensor(
            a.get(),
            var,
        ) || uses_tensor(b.get(), var),
    }
}
