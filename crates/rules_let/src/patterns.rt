//! The parts of lets.

ghost use Rattle.std.specs.Prelude.{◌≡◌, MatchOption};
ghost use Rattle.path_focus.specs.Outcome.{Meant, Unfit, Unlike};
ghost use Rattle.rules_let.specs.Operators as operator;
ghost use Rattle.rules_let.specs.Table as table;
ghost use Rattle.term_tree.specs.Syntax as tree;
ghost use Rattle.term_tree.specs.declared.term.Term as spec;

use term_tree::Term;

#[tactic(auto, using(crate::proofs::Parts::let_parts))]
pub fn as_let(term: &Term) -> Option<(&Term, &Term)>
    ensures { MatchOption result ((f : spec.Term → spec.Term → Meant) → table.on_let term.now f ≡ Unlike) (λ parts. term.now ≡ tree.let_in parts.0.now parts.1.now) }
{
    match term {
        Term::Let(a, b) => Some((a.get(), b.get())),
        _ => None,
    }
}

/// The same of a child that is to be a let.
#[tactic(auto, using(crate::proofs::Parts::let_parts))]
pub fn let_child(term: &Term) -> Option<(&Term, &Term)>
    ensures { MatchOption result ((f : spec.Term → spec.Term → Meant) → operator.with_let term.now f ≡ Unfit) (λ parts. term.now ≡ tree.let_in parts.0.now parts.1.now) }
{
    match term {
        Term::Let(a, b) => Some((a.get(), b.get())),
        _ => None,
    }
}
