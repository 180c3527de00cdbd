//! Arguments of the rules of guards.

ghost use Rattle.std.specs.Prelude.{◌≡◌};
ghost use Rattle.std.specs.Option.{option_copied};
ghost use Rattle.rules_guard.specs.Arguments.{bound_in, bound_of, cond_of, literal_of, number_of};

use affine_index::{Aff, Cmp, Cond};
use path_focus::Arg;

/// The number of a literal, where it is at least 0.
fn literal_of(form: &Aff) -> Option<u64>
    ensures { result ≡ literal_of form.now.terms form.now.constant }
{
    let items = form.items();
    if items.terms.len() > 0 || items.constant < 0 {
        return None;
    }
    Some(items.constant as u64)
}

/// The number that is the one argument.
pub fn number_of(args: &[Arg]) -> Option<u64>
    ensures { result ≡ number_of args.now }
{
    match args {
        [Arg::Ix(form)] => literal_of(form),
        _ => None,
    }
}

/// The condition that is the one argument.
pub fn cond_of(args: &[Arg]) -> Option<&Cond>
    ensures { option_copied result ≡ cond_of args.now }
{
    match args {
        [Arg::Cond(cond)] => Some(cond),
        _ => None,
    }
}

/// The form of one comparison that it is at least 0.
fn bound_in(cmps: &[Cmp]) -> Option<&Aff>
    ensures { option_copied result ≡ bound_in cmps.now }
{
    match cmps {
        [Cmp::Ge(form)] => Some(form),
        _ => None,
    }
}

/// The form of the one comparison that is the one argument.
pub fn bound_of(args: &[Arg]) -> Option<&Aff>
    ensures { option_copied result ≡ bound_of args.now }
{
    match args {
        [Arg::Cond(cond)] => bound_in(cond.all.as_slice()),
        _ => None,
    }
}
