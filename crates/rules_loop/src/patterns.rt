//! The parts of terms of one form.

ghost use Rattle.std.specs.Prelude.{◌≡◌, MatchOption};
ghost use Rattle.path_focus.specs.Outcome.{Meant, Unlike};
ghost use Rattle.rules_loop.specs.Patterns as on;
ghost use Rattle.term_tree.specs.Syntax as tree;
ghost use Rattle.term_tree.specs.declared.term.Term as spec;

use term_tree::Term;

#[tactic(auto, using(crate::proofs::Parts::add_parts))]
pub fn as_add(term: &Term) -> Option<(&Term, &Term)>
    ensures { MatchOption result ((f : spec.Term → spec.Term → Meant) → on.on_add term.now f ≡ Unlike) (λ parts. term.now ≡ tree.add parts.0.now parts.1.now) }
{
    match term {
        Term::Add(a, b) => Some((a.get(), b.get())),
        _ => None,
    }
}

#[tactic(auto, using(crate::proofs::Parts::flatten_parts))]
pub fn as_flatten(term: &Term) -> Option<&Term>
    ensures { MatchOption result ((f : spec.Term → Meant) → on.on_flatten term.now f ≡ Unlike) (λ e. term.now ≡ tree.flatten e.now) }
{
    match term {
        Term::Flatten(e) => Some(e.get()),
        _ => None,
    }
}
