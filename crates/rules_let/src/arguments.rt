//! Arguments of the rules of lets.

ghost use Rattle.std.specs.Prelude.{◌≡◌};
ghost use Rattle.rules_let.specs.Arguments.{is_bound, is_definition, literal_of, number_of, variable_of};

use affine_index::Aff;
use path_focus::{Arg, BoundLet};
use term_equality::same_terms;
use term_tree::Term;

/// The number of a literal, where it is at least 0.
fn literal_of(form: &Aff) -> Option<u64>
    ensures { result ≡ literal_of form.now.terms form.now.constant }
{
    let items = form.items();
    if items.terms.len() > 0 || items.constant < 0 {
        return None;
    }
    Some(items.constant as u64)
}

/// The number that is the one argument.
pub fn number_of(args: &[Arg]) -> Option<u64>
    ensures { result ≡ number_of args.now }
{
    match args {
        [Arg::Ix(form)] => literal_of(form),
        _ => None,
    }
}

/// The tensor variable that is the one argument.
pub fn variable_of(args: &[Arg]) -> Option<u32>
    ensures { result ≡ variable_of args.now }
{
    match args {
        [Arg::TensorVar(var)] => Some(*var),
        _ => None,
    }
}

fn is_bound(var: u32, term: &Term, bound: &BoundLet) -> bool
    ensures { result ≡ is_bound var term.now bound.now }
{
    bound.var == var && same_terms(bound.term.get(), term)
}

/// Whether a term is the definition of a let of this variable.
pub fn is_definition(var: u32, term: &Term, lets: &[BoundLet]) -> bool
    ensures { result ≡ is_definition var term.now lets.now }
{
    for bound in lets {
        if is_bound(var, term, bound) {
            return true;
        }
    }
    false
}
