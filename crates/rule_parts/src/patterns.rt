//! The parts of terms of one form.

ghost use Rattle.std.specs.Prelude.{◌≡◌, MatchOption};
ghost use Rattle.affine_index.specs.declared.cond.Cond as cond;
ghost use Rattle.affine_index.specs.declared.form.Items as form;
ghost use Rattle.path_focus.specs.Outcome.{Meant, Unlike};
ghost use Rattle.rule_parts.specs.Patterns as on;
ghost use Rattle.term_tree.specs.Syntax as tree;
ghost use Rattle.term_tree.specs.declared.term.Term as spec;

use affine_index::{Aff, Cond};
use term_tree::Term;

#[tactic(auto, using(crate::proofs::Parts::index_parts))]
pub fn as_index(term: &Term) -> Option<(&Term, &Aff)>
    ensures { MatchOption result ((f : spec.Term → form.Items → Meant) → on.on_index term.now f ≡ Unlike) (λ p. term.now ≡ tree.index p.0.now p.1.now) }
{
    match term {
        Term::Index(e, x) => Some((e.get(), x)),
        _ => None,
    }
}

#[tactic(auto, using(crate::proofs::Parts::gen_parts))]
pub fn as_gen(term: &Term) -> Option<(&Aff, &Term)>
    ensures { MatchOption result ((f : form.Items → spec.Term → Meant) → on.on_gen term.now f ≡ Unlike) (λ parts. term.now ≡ tree.gen parts.0.now parts.1.now) }
{
    match term {
        Term::Gen(n, e) => Some((n, e.get())),
        _ => None,
    }
}

#[tactic(auto, using(crate::proofs::Parts::sum_parts))]
pub fn as_sum(term: &Term) -> Option<(&Aff, &Term)>
    ensures { MatchOption result ((f : form.Items → spec.Term → Meant) → on.on_sum term.now f ≡ Unlike) (λ parts. term.now ≡ tree.sum parts.0.now parts.1.now) }
{
    match term {
        Term::Sum(n, e) => Some((n, e.get())),
        _ => None,
    }
}

#[tactic(auto, using(crate::proofs::Parts::guard_parts))]
pub fn as_guard(term: &Term) -> Option<(&Cond, &Term)>
    ensures { MatchOption result ((f : cond.Cond → spec.Term → Meant) → on.on_guard term.now f ≡ Unlike) (λ p. term.now ≡ tree.guard p.0.now p.1.now) }
{
    match term {
        Term::Guard(c, e) => Some((c, e.get())),
        _ => None,
    }
}

#[tactic(auto, using(crate::proofs::Parts::mul_parts))]
pub fn as_mul(term: &Term) -> Option<(&Term, &Term)>
    ensures { MatchOption result ((f : spec.Term → spec.Term → Meant) → on.on_mul term.now f ≡ Unlike) (λ parts. term.now ≡ tree.mul parts.0.now parts.1.now) }
{
    match term {
        Term::Mul(a, b) => Some((a.get(), b.get())),
        _ => None,
    }
}
