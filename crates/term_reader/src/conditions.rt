//! Reads comparisons and conditions.

ghost use Rattle.std.specs.Prelude.{◌≡◌, ◌∷◌, [], MatchResult};
ghost use Rattle.text_tokens.specs.declared.kind.Kind.TheVariants as k;
ghost use Rattle.reader_laws.specs.declared.fault.ReadError.TheVariants.{Memory};
ghost use Rattle.reader_laws.specs.Chain.{repeated};
ghost use Rattle.reader_laws.specs.Steps.{Reads, Gives};
ghost use Rattle.source_grammar.specs.Conditions.{compared, with_last, most_comparisons};
ghost use Rattle.source_grammar.specs.ReadConditions as spec;
ghost use Rattle.term_reader.specs.Names.{named};
ghost use Rattle.term_reader.specs.Steps.{comparison_of, placed};

use crate::index;
use crate::joins::compared_form;
use crate::names::Names;
use affine_index::{Aff, Cmp, Cond, Rel};
use reader_laws::{Fault, ReadError, misplaced_in, refuse};
use sqlite_items::Items;
use std::alloc::Global;
use text_tokens::{Kind, Tokens, same_kind};

/// More comparisons than a text has.
const MOST_COMPARISONS: usize = 9_223_372_036_854_775_808;

fn relation(kind: Kind) -> Option<Rel>
    ensures { result ≡ spec.relation kind }
{
    match kind {
        Kind::Less => Some(Rel::Lt),
        Kind::LessEqual => Some(Rel::Le),
        Kind::Greater => Some(Rel::Gt),
        Kind::GreaterEqual => Some(Rel::Ge),
        Kind::Equal => Some(Rel::Eq),
        _ => None,
    }
}

/// The comparison of a form with 0.
fn comparison_of(relation: Rel, form: Aff) -> Cmp
    ensures { result ≡ comparison_of relation form }
{
    match relation {
        Rel::Eq => Cmp::Eq(form),
        Rel::Lt | Rel::Le | Rel::Gt | Rel::Ge => Cmp::Ge(form),
    }
}

/// The comparison of two forms; a fault stands at this place.
#[tactic(auto, using(crate::proofs::ConditionCode::compared_ok, crate::proofs::ConditionCode::compared_err))]
fn compare(
    alloc: Global,
    relation: Rel,
    left: Aff,
    right: Aff,
    place: u64,
) -> Result<Cmp, ReadError>
    ensures { Gives (λ x. x) result (placed place (compared relation left right)) }
{
    match compared_form(alloc, relation, &left, &right, place) {
        Ok(form) => Ok(comparison_of(relation, form)),
        Err(e) => Err(e),
    }
}

/// A relation and what stands to its right, joined to what stands to its left.
#[tactic(auto, unfolding(source_grammar::specs::ReadConditions::against), using(crate::proofs::ConditionCode::against_gives))]
fn against(
    alloc: Global,
    names: &Names<'_, '_>,
    tokens: &mut Tokens<'_>,
    levels: usize,
    left: Aff,
) -> Result<Cmp, ReadError>
    ensures { Reads (λ x. x) (spec.against (named names.now) levels left tokens.old) result tokens.new }
{
    let Some(relation) = relation(tokens.peek()) else {
        return Err(misplaced_in(tokens, levels));
    };
    let place = tokens.place();
    tokens.take();
    let right = index::sum(alloc, names, tokens, levels)?;
    compare(alloc, relation, left, right, place)
}

#[tactic(auto, unfolding(source_grammar::specs::ReadConditions::comparison))]
fn comparison(
    alloc: Global,
    names: &Names<'_, '_>,
    tokens: &mut Tokens<'_>,
    levels: usize,
) -> Result<Cmp, ReadError>
    ensures { Reads (λ x. x) (spec.comparison (named names.now) levels tokens.old) result tokens.new }
{
    let left = index::sum(alloc, names, tokens, levels)?;
    against(alloc, names, tokens, levels, left)
}

fn single(alloc: Global, comparison: Cmp) -> Result<Items<Cmp>, ReadError>
    ensures { MatchResult result (λ all. all ≡ comparison ∷ []) (λ e. e ≡ Memory) }
{
    let mut all = Items::new(alloc);
    all.push(comparison)?;
    Ok(all)
}

/// Comparisons, each after `and`, behind these.
#[tactic(auto, using(reader_laws::proofs::Repeated::stop, reader_laws::proofs::Repeated::fell, reader_laws::proofs::Repeated::full, crate::proofs::ConditionCode::comparison_limit))]
fn more_comparisons(
    alloc: Global,
    names: &Names<'_, '_>,
    tokens: &mut Tokens<'_>,
    levels: usize,
    mut found: Items<Cmp>,
) -> Result<Items<Cmp>, ReadError>
    ensures { Reads (λ x. x) (repeated k.And with_last (λ _. spec.comparison (named names.now) levels) most_comparisons found tokens.old) result tokens.new }
{
    for _turn in 0..MOST_COMPARISONS {
        if !same_kind(tokens.peek(), Kind::And) {
            return Ok(found);
        }
        tokens.take();
        let next = comparison(alloc, names, tokens, levels)?;
        found.push(next)?;
    }
    if same_kind(tokens.peek(), Kind::And) {
        return Err(refuse(Fault::TooDeep, tokens));
    }
    Ok(found)
}

/// Comparisons with `and` between them.
#[tactic(auto, unfolding(source_grammar::specs::ReadConditions::condition))]
pub fn condition(
    alloc: Global,
    names: &Names<'_, '_>,
    tokens: &mut Tokens<'_>,
    levels: usize,
) -> Result<Cond, ReadError>
    ensures { Reads (λ x. x) (spec.condition (named names.now) levels tokens.old) result tokens.new }
{
    let first = comparison(alloc, names, tokens, levels)?;
    let found = single(alloc, first)?;
    let all = more_comparisons(alloc, names, tokens, levels, found)?;
    Ok(Cond { all })
}
