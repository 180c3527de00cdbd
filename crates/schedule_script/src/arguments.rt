//! Reads arguments: index expressions and conditions.

ghost use Rattle.std.specs.Prelude.{◌≡◌, ◌∷◌, [], MatchResult};
ghost use Rattle.reader_laws.specs.declared.fault.ReadError.TheVariants.{Memory};
ghost use Rattle.reader_laws.specs.Steps.{Reads};
ghost use Rattle.schedule_script.specs.Arguments as spec;

use crate::index::index;
use crate::tree::{ArgTree, Comparison, IxTree};
use crate::words::MOST_ITEMS;
use affine_index::Rel;
use reader_laws::{Fault, ReadError, misplaced, refuse};
use sqlite_items::{Boxed, Items};
use std::alloc::Global;
use text_tokens::{Kind, Tokens, same_kind};

fn relation(kind: Kind) -> Option<Rel>
    ensures { result ≡ spec.relation kind }
{
    match kind {
        Kind::Less => Some(Rel::Lt),
        Kind::LessEqual => Some(Rel::Le),
        Kind::Greater => Some(Rel::Gt),
        Kind::GreaterEqual => Some(Rel::Ge),
        Kind::Equal => Some(Rel::Eq),
        _ => None,
    }
}

/// The relation that the next word is.
#[tactic(auto, using(crate::proofs::Relations::relation_taken, crate::proofs::Relations::relation_refused))]
fn relation_word(tokens: &mut Tokens<'_>) -> Result<Rel, ReadError>
    ensures { Reads (λ x. x) (spec.relation_word tokens.old) result tokens.new }
{
    let Some(rel) = relation(tokens.peek()) else {
        return Err(misplaced(tokens));
    };
    tokens.take();
    Ok(rel)
}

/// A relation and its right side, behind this left side.
fn against(
    alloc: Global,
    tokens: &mut Tokens<'_>,
    levels: usize,
    left: Boxed<IxTree>,
) -> Result<Comparison, ReadError>
    ensures { Reads (λ x. x) (spec.against levels left tokens.old) result tokens.new }
{
    let rel = relation_word(tokens)?;
    let right = index(alloc, tokens, levels)?;
    Ok(Comparison { left, rel, right })
}

#[tactic(auto, unfolding(crate::specs::Arguments::comparison))]
fn comparison(
    alloc: Global,
    tokens: &mut Tokens<'_>,
    levels: usize,
) -> Result<Comparison, ReadError>
    ensures { Reads (λ x. x) (spec.comparison levels tokens.old) result tokens.new }
{
    let left = index(alloc, tokens, levels)?;
    against(alloc, tokens, levels, left)
}

/// The comparisons that follow these, each after `and`.
#[tactic(auto, using(reader_laws::proofs::Repeated::stop, reader_laws::proofs::Repeated::fell, reader_laws::proofs::Repeated::full, crate::proofs::Loops::items))]
fn comparisons(
    alloc: Global,
    tokens: &mut Tokens<'_>,
    levels: usize,
    mut found: Items<Comparison>,
) -> Result<Items<Comparison>, ReadError>
    ensures { Reads (λ x. x) (spec.comparisons levels found tokens.old) result tokens.new }
{
    for _turn in 0..MOST_ITEMS {
        if !same_kind(tokens.peek(), Kind::And) {
            return Ok(found);
        }
        tokens.take();
        let next = comparison(alloc, tokens, levels)?;
        found.push(next)?;
    }
    if same_kind(tokens.peek(), Kind::And) {
        return Err(refuse(Fault::TooDeep, tokens));
    }
    Ok(found)
}

/// One comparison.
fn one(alloc: Global, comparison: Comparison) -> Result<Items<Comparison>, ReadError>
    ensures { MatchResult result (λ all. all ≡ comparison ∷ []) (λ e. e ≡ Memory) }
{
    let mut all = Items::new(alloc);
    all.push(comparison)?;
    Ok(all)
}

/// The condition whose first comparison has this left side and this relation.
#[tactic(auto, unfolding(crate::specs::Arguments::condition_after))]
fn condition_after(
    alloc: Global,
    tokens: &mut Tokens<'_>,
    levels: usize,
    left: Boxed<IxTree>,
    rel: Rel,
) -> Result<ArgTree, ReadError>
    ensures { Reads (λ x. x) (spec.condition_after levels left rel tokens.old) result tokens.new }
{
    let right = index(alloc, tokens, levels)?;
    let first = one(alloc, Comparison { left, rel, right })?;
    let all = comparisons(alloc, tokens, levels, first)?;
    Ok(ArgTree::Cond(all))
}

/// An index expression, or the condition that begins with it.
#[tactic(auto, unfolding(crate::specs::Arguments::argument))]
pub(crate) fn argument(
    alloc: Global,
    tokens: &mut Tokens<'_>,
    levels: usize,
) -> Result<ArgTree, ReadError>
    ensures { Reads (λ x. x) (spec.argument levels tokens.old) result tokens.new }
{
    let left = index(alloc, tokens, levels)?;
    let Some(rel) = relation(tokens.peek()) else {
        return Ok(ArgTree::Ix(left));
    };
    tokens.take();
    let condition = condition_after(alloc, tokens, levels, left, rel)?;
    match relation(tokens.peek()) {
        None => Ok(condition),
        Some(_) => Err(refuse(Fault::TooDeep, tokens)),
    }
}
