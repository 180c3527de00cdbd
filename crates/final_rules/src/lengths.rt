//! The length of the scratch region as a printed index.

ghost use Rattle.std.specs.Prelude.{◌≡◌, ◌≤◌, ◌+◌, ◌^◌, Ok, length, max, min, true};
ghost use Rattle.affine_index.specs.Magnitude.{magnitude};
ghost use Rattle.region_plan.specs.Needed.{module_needed};
ghost use Rattle.term_tree.specs.Modules.{IsSound};
ghost use Rattle.final_rules.specs.Lengths.{NeedOverSizes, over_sizes};
ghost use Rattle.final_rules.specs.Printing.{Counts, next};
ghost use Rattle.final_rules.specs.Rules.{length_magnitude, length_normal, length_small};

use crate::printing::{Stop, next};
use affine_index::AffRefusal;
use region_plan::{Length, scratch_length};
use std::alloc::Global;
use term_tree::Module;

/// The greatest magnitude of a printed length.
const LARGEST: u64 = 1 << 62;

/// Where magnitudes stop.
const STOP: u64 = 1 << 63;

/// A magnitude and the larger of two, each of which stops at 2^63.
fn more(mag: u64, first: u64, second: u64) -> u64
    requires first { first ≤ 2 ^ 63 }
    requires second { second ≤ 2 ^ 63 }
    ensures { result ≡ min (mag + max first second) (2 ^ 63) }
{
    mag.saturating_add(first.max(second)).min(STOP)
}

/// The magnitude of a length where size s has `maxima[s]`, with the larger for each `top`. It stops at 2^63.
#[tactic(auto, using(crate::proofs::LengthForms::length_forms))]
fn most(maxima: &[u64], form: &Length) -> u64
    requires { over_sizes (length maxima.now) form.now ≡ true }
    ensures { result ≡ min (length_magnitude maxima.now form.now) (2 ^ 63) }
{
    match form {
        Length::Plain(items) => items.mag(maxima, &[]),
        Length::Topped(items, a, b) => {
            let first = most(maxima, a.get());
            let second = most(maxima, b.get());
            more(items.mag(maxima, &[]), first, second)
        }
    }
}

/// Tells a proof that the forms of a length are normal, and does nothing else. Linear in the length.
#[tactic(auto, using(crate::proofs::LengthForms::length_forms))]
fn told(form: &Length)
    ensures { length_normal form.now ≡ true }
{
    match form {
        Length::Plain(items) => items.told(),
        Length::Topped(items, a, b) => {
            items.told();
            told(a.get());
            told(b.get());
        }
    }
}

/// Whether a length is within the limits and has a magnitude of at most 2^62.
pub fn is_small(maxima: &[u64], form: &Length) -> bool
    requires { over_sizes (length maxima.now) form.now ≡ true }
    ensures { result ≡ length_small maxima.now (Ok form.now) }
{
    told(form);
    most(maxima, form) <= LARGEST
}

/// The number of the next printed index after the length of the scratch region of a module, or its own number where it is not small: a form
/// that breaks a limit on the way to it counts as the length itself.
pub fn scratch(alloc: Global, maxima: &[u64], module: &Module, number: u64) -> Result<u64, Stop>
    requires sound { IsSound «module».now }
    requires scoped { NeedOverSizes (length maxima.now) «module».now }
    ensures { Counts (next (length_small maxima.now (module_needed «module».now)) number) result }
{
    match scratch_length(alloc, module) {
        Ok(form) => next(is_small(maxima, &form), number),
        Err(AffRefusal::CoefficientTooLarge) | Err(AffRefusal::IndexTooLong) => {
            Err(Stop::Large(number))
        }
        Err(AffRefusal::Memory) => Err(Stop::Memory),
        Err(AffRefusal::NotAffine) => unreachable!(),
    }
}
