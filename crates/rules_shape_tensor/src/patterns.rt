//! The parts of terms of one form.

ghost use Rattle.std.specs.Prelude.{◌≡◌, ℕ, MatchOption};
ghost use Rattle.affine_index.specs.declared.form.Items as form;
ghost use Rattle.path_focus.specs.Outcome.{Meant, Unlike};
ghost use Rattle.rules_shape_tensor.specs.Patterns as on;
ghost use Rattle.term_tree.specs.Syntax as tree;
ghost use Rattle.term_tree.specs.declared.term.Term as spec;

use affine_index::Aff;
use term_tree::Term;

#[tactic(auto, using(crate::proofs::Parts::concat_parts))]
pub fn as_concat(term: &Term) -> Option<(&Term, &Term)>
    ensures { MatchOption result ((f : spec.Term → spec.Term → Meant) → on.on_concat term.now f ≡ Unlike) (λ parts. term.now ≡ tree.concat parts.0.now parts.1.now) }
{
    match term {
        Term::Concat(a, b) => Some((a.get(), b.get())),
        _ => None,
    }
}

#[tactic(auto, using(crate::proofs::Parts::trunc_l_parts))]
pub fn as_trunc_l(term: &Term) -> Option<(&Aff, &Term)>
    ensures { MatchOption result ((f : form.Items → spec.Term → Meant) → on.on_trunc_l term.now f ≡ Unlike) (λ parts. term.now ≡ tree.trunc_l parts.0.now parts.1.now) }
{
    match term {
        Term::TruncL(a, e) => Some((a, e.get())),
        _ => None,
    }
}

#[tactic(auto, using(crate::proofs::Parts::trunc_r_parts))]
pub fn as_trunc_r(term: &Term) -> Option<(&Aff, &Term)>
    ensures { MatchOption result ((f : form.Items → spec.Term → Meant) → on.on_trunc_r term.now f ≡ Unlike) (λ parts. term.now ≡ tree.trunc_r parts.0.now parts.1.now) }
{
    match term {
        Term::TruncR(a, e) => Some((a, e.get())),
        _ => None,
    }
}

#[tactic(auto, using(crate::proofs::Parts::pad_l_parts))]
pub fn as_pad_l(term: &Term) -> Option<(&Aff, &Term)>
    ensures { MatchOption result ((f : form.Items → spec.Term → Meant) → on.on_pad_l term.now f ≡ Unlike) (λ parts. term.now ≡ tree.pad_l parts.0.now parts.1.now) }
{
    match term {
        Term::PadL(a, e) => Some((a, e.get())),
        _ => None,
    }
}

#[tactic(auto, using(crate::proofs::Parts::pad_r_parts))]
pub fn as_pad_r(term: &Term) -> Option<(&Aff, &Term)>
    ensures { MatchOption result ((f : form.Items → spec.Term → Meant) → on.on_pad_r term.now f ≡ Unlike) (λ parts. term.now ≡ tree.pad_r parts.0.now parts.1.now) }
{
    match term {
        Term::PadR(a, e) => Some((a, e.get())),
        _ => None,
    }
}

#[tactic(auto, using(crate::proofs::Parts::flatten_parts))]
pub fn as_flatten(term: &Term) -> Option<&Term>
    ensures { MatchOption result ((f : spec.Term → Meant) → on.on_flatten term.now f ≡ Unlike) (λ e. term.now ≡ tree.flatten e.now) }
{
    match term {
        Term::Flatten(e) => Some(e.get()),
        _ => None,
    }
}

#[tactic(auto, using(crate::proofs::Parts::transpose_parts))]
pub fn as_transpose(term: &Term) -> Option<&Term>
    ensures { MatchOption result ((f : spec.Term → Meant) → on.on_transpose term.now f ≡ Unlike) (λ e. term.now ≡ tree.transpose e.now) }
{
    match term {
        Term::Transpose(e) => Some(e.get()),
        _ => None,
    }
}

#[tactic(auto, using(crate::proofs::Parts::split_parts))]
pub fn as_split(term: &Term) -> Option<(u32, &Term)>
    ensures { MatchOption result ((f : ℕ → spec.Term → Meant) → on.on_split term.now f ≡ Unlike) (λ parts. term.now ≡ tree.split parts.0 parts.1.now) }
{
    match term {
        Term::Split(k, e) => Some((*k, e.get())),
        _ => None,
    }
}
