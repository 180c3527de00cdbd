//! What the operators of an index make.

ghost use Rattle.std.specs.Prelude.{◌≡◌, ◌<◌, ◌≤◌, ◌^◌, pos, negsuc, true, IfOk, MatchResult};
ghost use Rattle.affine_index.specs.Form.{literal_form};
ghost use Rattle.affine_index.specs.Normal.{Refused, is_normal};
ghost use Rattle.affine_index.specs.Sum.{sum_of, difference_of, scaled};
ghost use Rattle.affine_index.specs.Quotient.{quotient_of, remainder_of};
ghost use Rattle.affine_index.specs.declared.refusal.AffRefusal.TheVariants as refusal;
ghost use Rattle.reader_laws.specs.declared.fault.ReadError.TheVariants.{Memory};
ghost use Rattle.reader_laws.specs.Steps.{Gives};
ghost use Rattle.source_grammar.specs.Limits.{tested, multiplied};
ghost use Rattle.term_reader.specs.Steps.{placed, located, gap_of};
ghost use Rattle.term_reader.specs.Steps as steps;

use affine_index::raw::{Wide, copied, scaled, sum, within_limits};
use affine_index::{Aff, AffRefusal, Rel};
use reader_laws::{Fault, ReadError};
use std::alloc::Global;

/// An answer of index arithmetic, whose fault stands at this place.
fn within(answer: Result<Aff, AffRefusal>, place: u64) -> Result<Aff, ReadError>
    ensures same { result ≡ located place answer }
    ensures normal { IfOk result (λ x. is_normal x ≡ true) }
{
    match answer {
        Ok(form) => {
            form.told();
            Ok(form)
        }
        Err(AffRefusal::CoefficientTooLarge) => {
            Err(ReadError::Refused(Fault::CoefficientTooLarge, place))
        }
        Err(AffRefusal::IndexTooLong) => Err(ReadError::Refused(Fault::IndexTooLong, place)),
        Err(AffRefusal::NotAffine) => Err(ReadError::Refused(Fault::NotAffine, place)),
        Err(AffRefusal::Memory) => Err(ReadError::Memory),
    }
}

#[tactic(auto, using(crate::proofs::Located::located_tested))]
pub fn added(alloc: Global, left: Aff, right: Aff, place: u64) -> Result<Aff, ReadError>
    ensures { Gives (λ x. x) result (placed place (tested (sum_of left right))) }
{
    within(left.add(alloc, &right), place)
}

#[tactic(auto, using(crate::proofs::Located::located_tested))]
pub fn subtracted(alloc: Global, left: Aff, right: Aff, place: u64) -> Result<Aff, ReadError>
    ensures { Gives (λ x. x) result (placed place (tested (difference_of left right))) }
{
    within(left.sub(alloc, &right), place)
}

#[tactic(auto, using(crate::proofs::Located::located_multiplied))]
pub fn multiplied(alloc: Global, left: Aff, right: Aff, place: u64) -> Result<Aff, ReadError>
    ensures { Gives (λ x. x) result (placed place (multiplied left right)) }
{
    within(left.mul(alloc, &right), place)
}

#[tactic(auto, using(crate::proofs::Located::located_tested))]
pub fn divided(alloc: Global, left: Aff, by: u32, place: u64) -> Result<Aff, ReadError>
    requires positive { 0 < by }
    requires limit { by ≤ 2147483647 }
    ensures { Gives (λ x. x) result (placed place (tested (quotient_of left by))) }
{
    within(left.div(alloc, by), place)
}

#[tactic(auto, using(crate::proofs::Located::located_tested))]
pub fn rest(alloc: Global, left: Aff, by: u32, place: u64) -> Result<Aff, ReadError>
    requires positive { 0 < by }
    requires limit { by ≤ 2147483647 }
    ensures { Gives (λ x. x) result (placed place (tested (remainder_of left by))) }
{
    within(left.rem(alloc, by), place)
}

/// A number as a form.
pub fn literal_form(alloc: Global, number: u64) -> Result<Aff, ReadError>
    requires { number ≤ 2 ^ 40 }
    ensures { MatchResult result (λ x. x ≡ literal_form (pos number)) (λ e. e ≡ Memory) }
{
    match Aff::literal(alloc, number as i64) {
        Ok(form) => Ok(form),
        Err(_) => Err(ReadError::Memory),
    }
}

/// A form taken from 0.
pub fn negated(alloc: Global, form: Aff) -> Result<Aff, ReadError>
    ensures { MatchResult result (λ x. x ≡ difference_of (literal_form (pos 0)) form) (λ e. e ≡ Memory) }
{
    form.told();
    let zero = literal_form(alloc, 0)?;
    match zero.sub(alloc, &form) {
        Ok(turned) => Ok(turned),
        Err(_) => Err(ReadError::Memory),
    }
}

/// `left - right`, without limits.
#[tactic(auto, using(crate::proofs::Gaps::minus_room, crate::proofs::Gaps::difference_room))]
fn difference(alloc: Global, left: &Aff, right: &Aff) -> Result<Wide, AffRefusal>
    ensures { MatchResult result (λ x. x ≡ difference_of left.now right.now) (λ e. e ≡ refusal.Memory) }
{
    let a = copied(alloc, left)?;
    let b = copied(alloc, right)?;
    let minus = scaled(alloc, -1, b)?;
    Ok(sum(alloc, a, minus)?)
}

/// -1, without limits.
#[tactic(auto, using(crate::proofs::Gaps::minus_room))]
fn minus_one(alloc: Global) -> Result<Wide, AffRefusal>
    ensures { MatchResult result (λ x. x ≡ scaled (negsuc 0) (literal_form (pos 1))) (λ e. e ≡ refusal.Memory) }
{
    let one = Aff::literal(alloc, 1)?;
    let copy = copied(alloc, &one)?;
    Ok(scaled(alloc, -1, copy)?)
}

/// `left - right - 1`, of which only the whole is within limits.
#[tactic(auto, using(crate::proofs::Gaps::gap_room, crate::proofs::Gaps::gap_ordered))]
fn gap(alloc: Global, left: &Aff, right: &Aff) -> Result<Aff, AffRefusal>
    ensures { MatchResult result (λ x. x ≡ gap_of left.now right.now) (λ e. Refused (gap_of left.now right.now) e) }
{
    left.told();
    right.told();
    let difference = difference(alloc, left, right)?;
    let minus = minus_one(alloc)?;
    let gap = sum(alloc, difference, minus)?;
    within_limits(alloc, gap)
}

/// The form of a comparison, which is compared with 0.
#[tactic(auto, using(crate::proofs::Located::located_tested))]
pub fn compared_form(
    alloc: Global,
    relation: Rel,
    left: &Aff,
    right: &Aff,
    place: u64,
) -> Result<Aff, ReadError>
    ensures { Gives (λ x. x) result (placed place (tested (steps.compared_form relation left.now right.now))) }
{
    match relation {
        Rel::Lt => within(gap(alloc, right, left), place),
        Rel::Le => within(right.sub(alloc, left), place),
        Rel::Gt => within(gap(alloc, left, right), place),
        Rel::Ge | Rel::Eq => within(left.sub(alloc, right), place),
    }
}
