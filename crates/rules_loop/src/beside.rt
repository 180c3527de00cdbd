//! Terms of two parts, one of which may break a limit.

ghost use Rattle.std.specs.Prelude.{◌≡◌, ◌+◌, ◌-◌, ◌^◌, false, min, IfOk};
ghost use Rattle.affine_index.specs.Sum.{difference_of};
ghost use Rattle.path_focus.specs.Outcome.{IsDraft};
ghost use Rattle.term_tree.specs.Counts.{node_count};
ghost use Rattle.term_tree.specs.Limits.{coefficients_fit, forms_short};
ghost use Rattle.term_tree.specs.Syntax as tree;
ghost use Rattle.term_tree.specs.declared.term.Term as spec;

use crate::build::{concat, generating, summed};
use crate::drafts::{gen_of, sum_of, whole};
use affine_index::{Aff, AffRefusal};
use fact_list::CertRefusal;
use owned_values::spent;
use path_focus::Draft;
use rule_parts::build::{add, mul};
use std::alloc::Global;
use term_tree::{Term, nodes, told};

/// A part beside which a form is too long.
fn too_long(part: Draft) -> Draft
    ensures { (raw big : spec.Term) → IsDraft raw part → coefficients_fit big ≡ coefficients_fit raw → forms_short big ≡ false → IsDraft big result }
{
    match part {
        Draft::Whole(term) => {
            spent(term);
            Draft::TooLong
        }
        Draft::TooLarge => Draft::TooLarge,
        Draft::TooLong => Draft::TooLong,
        Draft::TooMany { nodes: _ } => Draft::TooLong,
    }
}

/// The gen of n - x rows.
pub fn rest_of_gen(alloc: Global, n: &Aff, x: &Aff, body: Draft) -> Result<Draft, CertRefusal>
    ensures { (raw : spec.Term) → IsDraft raw body → IfOk result (IsDraft (tree.gen (difference_of n.now x.now) raw)) }
{
    match n.sub(alloc, x) {
        Ok(rest) => gen_of(alloc, &rest, body),
        Err(AffRefusal::CoefficientTooLarge) => Ok(Draft::TooLarge),
        Err(AffRefusal::IndexTooLong) => Ok(too_long(body)),
        Err(_) => Err(CertRefusal::Memory),
    }
}

/// The sum over n - x.
pub fn rest_of_sum(alloc: Global, n: &Aff, x: &Aff, body: Draft) -> Result<Draft, CertRefusal>
    ensures { (raw : spec.Term) → IsDraft raw body → IfOk result (IsDraft (tree.sum (difference_of n.now x.now) raw)) }
{
    match n.sub(alloc, x) {
        Ok(rest) => sum_of(alloc, &rest, body),
        Err(AffRefusal::CoefficientTooLarge) => Ok(Draft::TooLarge),
        Err(AffRefusal::IndexTooLong) => Ok(too_long(body)),
        Err(_) => Err(CertRefusal::Memory),
    }
}

/// So many nodes, those of a body, its gen or sum, and the node above both.
fn both_many(count: u64, body: &Term) -> Draft
    ensures { result ≡ Draft.TooMany (min (count + (node_count body.now + 2)) (2 ^ 64 - 1)) }
{
    Draft::TooMany {
        nodes: count.saturating_add(nodes(body)).saturating_add(2),
    }
}

/// A gen of a copy of a body, and rows after it.
pub fn beside_gen(alloc: Global, x: &Aff, body: &Term, rest: Draft) -> Result<Draft, CertRefusal>
    ensures { (raw : spec.Term) → IsDraft raw rest → IfOk result (IsDraft (tree.concat (tree.gen x.now body.now) raw)) }
{
    x.told();
    told(body);
    match rest {
        Draft::Whole(rest) => {
            let first = generating(alloc, x, body)?;
            let term = concat(alloc, first, rest)?;
            Ok(whole(term))
        }
        Draft::TooLarge => Ok(Draft::TooLarge),
        Draft::TooLong => Ok(Draft::TooLong),
        Draft::TooMany { nodes } => Ok(both_many(nodes, body)),
    }
}

/// A sum of a copy of a body, and another one added.
pub fn beside_sum(alloc: Global, x: &Aff, body: &Term, rest: Draft) -> Result<Draft, CertRefusal>
    ensures { (raw : spec.Term) → IsDraft raw rest → IfOk result (IsDraft (tree.add (tree.sum x.now body.now) raw)) }
{
    x.told();
    told(body);
    match rest {
        Draft::Whole(rest) => {
            let first = summed(alloc, x, body)?;
            let term = add(alloc, first, rest)?;
            Ok(whole(term))
        }
        Draft::TooLarge => Ok(Draft::TooLarge),
        Draft::TooLong => Ok(Draft::TooLong),
        Draft::TooMany { nodes } => Ok(both_many(nodes, body)),
    }
}

/// A factor times a sum of a copy of a body.
pub fn times_sum(alloc: Global, factor: Draft, n: &Aff, body: &Term) -> Result<Draft, CertRefusal>
    ensures { (raw : spec.Term) → IsDraft raw factor → IfOk result (IsDraft (tree.mul raw (tree.sum n.now body.now))) }
{
    n.told();
    told(body);
    match factor {
        Draft::Whole(factor) => {
            let total = summed(alloc, n, body)?;
            let term = mul(alloc, factor, total)?;
            Ok(whole(term))
        }
        Draft::TooLarge => Ok(Draft::TooLarge),
        Draft::TooLong => Ok(Draft::TooLong),
        Draft::TooMany { nodes } => Ok(both_many(nodes, body)),
    }
}
