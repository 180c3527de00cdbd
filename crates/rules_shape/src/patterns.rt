//! The parts of terms of one form.

ghost use Rattle.std.specs.Prelude.{◌≡◌, ℕ, MatchOption};
ghost use Rattle.path_focus.specs.Outcome.{Meant, Unfit};
ghost use Rattle.rules_shape.specs.Patterns as on;
ghost use Rattle.term_tree.specs.Syntax as tree;
ghost use Rattle.term_tree.specs.declared.term.Term as spec;

use term_tree::Term;

#[tactic(auto, using(crate::proofs::Parts::add_parts))]
pub fn as_add(term: &Term) -> Option<(&Term, &Term)>
    ensures { MatchOption result ((f : spec.Term → spec.Term → Meant) → on.fits_add term.now f ≡ Unfit) (λ parts. term.now ≡ tree.add parts.0.now parts.1.now) }
{
    match term {
        Term::Add(a, b) => Some((a.get(), b.get())),
        _ => None,
    }
}

#[tactic(auto, using(crate::proofs::Parts::sub_parts))]
pub fn as_sub(term: &Term) -> Option<(&Term, &Term)>
    ensures { MatchOption result ((f : spec.Term → spec.Term → Meant) → on.fits_sub term.now f ≡ Unfit) (λ parts. term.now ≡ tree.sub parts.0.now parts.1.now) }
{
    match term {
        Term::Sub(a, b) => Some((a.get(), b.get())),
        _ => None,
    }
}

#[tactic(auto, using(crate::proofs::Parts::mul_parts))]
pub fn as_mul(term: &Term) -> Option<(&Term, &Term)>
    ensures { MatchOption result ((f : spec.Term → spec.Term → Meant) → on.fits_mul term.now f ≡ Unfit) (λ parts. term.now ≡ tree.mul parts.0.now parts.1.now) }
{
    match term {
        Term::Mul(a, b) => Some((a.get(), b.get())),
        _ => None,
    }
}

#[tactic(auto, using(crate::proofs::Parts::not_lit))]
pub fn as_lit(term: &Term) -> Option<u64>
    ensures { MatchOption result ((f : ℕ → Meant) → on.fits_lit term.now f ≡ Unfit) (λ w. term.now ≡ spec.Lit w) }
{
    match term {
        Term::Lit(w) => Some(*w),
        _ => None,
    }
}
