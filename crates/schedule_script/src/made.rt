//! Index trees that are made of smaller ones, each with its depth.

ghost use Rattle.std.specs.Prelude.{◌≡◌, min, nat_lt, Ok, Err, MatchResult};
ghost use Rattle.reader_laws.specs.declared.fault.Fault.TheVariants.{IndexTooLong};
ghost use Rattle.reader_laws.specs.declared.fault.ReadError.TheVariants.{Memory, Refused};
ghost use Rattle.schedule_script.specs.declared.tree.IxTree as form;
ghost use Rattle.schedule_script.specs.Depth.{tree_depth, limited};
ghost use Rattle.schedule_script.specs.Syntax as tree;

use crate::tree::IxTree;
use reader_laws::{Fault, ReadError};
use sqlite_items::Boxed;
use std::alloc::Global;
use std::marker::Model;
use term_tree::Name;

/// How deep a tree that an operator makes may be. A reader of deeper ones would run out of stack.
const MOST_DEPTH: u64 = 1_000;

/// A tree, and how deep it is, up to the end of a u64.
#[derive(Drop)]
pub(crate) struct Tall {
    tree: Boxed<IxTree>,
    depth: u64,
}

impl Model for Tall {
    ghost use Rattle.std.specs.Prelude.{◌≡◌, min};
    ghost use Rattle.std.specs.Coded.{codes};
    ghost use Rattle.schedule_script.specs.contracts.tree.IxTree as e;
    ghost use Rattle.schedule_script.specs.declared.tree.IxTree.{IxTree};
    ghost use Rattle.schedule_script.specs.Depth.{tree_depth};

    ghost Value = { IxTree };

    ghost coded = { Prim.hlevel (codes, e.the_row.coded) };

    ghost view = { λ tall. tall.tree };

    ghost invariant = { λ tall. tall.depth ≡ min (tree_depth tall.tree) 18446744073709551615 };
}

impl Tall {
    pub(crate) fn into_tree(self) -> Boxed<IxTree>
        ensures { result ≡ self }
    {
        let Tall { tree, .. } = self;
        tree
    }

    fn is_too_deep(&self) -> bool
        ensures { result ≡ nat_lt 1000 (tree_depth self.now) }
    {
        self.depth > MOST_DEPTH
    }

    /// What an operator at this place has made, where it is not too deep.
    pub(crate) fn limited(self, place: u64) -> Result<Tall, ReadError>
        ensures { MatchResult result (λ x. (x ≡ self) × (limited self ≡ Ok self)) (λ e. (limited self ≡ Err IndexTooLong) × (e ≡ Refused IndexTooLong place)) }
    {
        if self.is_too_deep() {
            return Err(ReadError::Refused(Fault::IndexTooLong, place));
        }
        Ok(self)
    }
}

fn measured(alloc: Global, tree: IxTree, depth: u64) -> Result<Tall, ReadError>
    requires { depth ≡ min (tree_depth tree) 18446744073709551615 }
    ensures { MatchResult result (λ made. made ≡ tree) (λ e. e ≡ Memory) }
{
    match Boxed::new(alloc, tree) {
        Ok(tree) => Ok(Tall { tree, depth }),
        Err(_) => Err(ReadError::Memory),
    }
}

pub(crate) fn number(alloc: Global, number: u64) -> Result<Tall, ReadError>
    ensures { MatchResult result (λ made. made ≡ form.Num number) (λ e. e ≡ Memory) }
{
    measured(alloc, IxTree::Num(number), 0)
}

pub(crate) fn named(alloc: Global, name: Name) -> Result<Tall, ReadError>
    ensures { MatchResult result (λ made. made ≡ form.Name name) (λ e. e ≡ Memory) }
{
    measured(alloc, IxTree::Name(name), 0)
}

#[tactic(auto, using(crate::proofs::Forms::negation_is, crate::proofs::Depths::negation_depth))]
pub(crate) fn negation(alloc: Global, a: Tall) -> Result<Tall, ReadError>
    ensures { MatchResult result (λ made. made ≡ tree.negation a) (λ e. e ≡ Memory) }
{
    let Tall { tree, depth } = a;
    measured(alloc, IxTree::Neg(tree), depth.saturating_add(1))
}

#[tactic(auto, using(crate::proofs::Forms::sum_is, crate::proofs::Depths::sum_depth))]
pub(crate) fn sum(alloc: Global, a: Tall, b: Tall) -> Result<Tall, ReadError>
    ensures { MatchResult result (λ made. made ≡ tree.sum a b) (λ e. e ≡ Memory) }
{
    let Tall { tree: left, depth } = a;
    let Tall {
        tree: right,
        depth: other,
    } = b;
    measured(
        alloc,
        IxTree::Add(left, right),
        depth.max(other).saturating_add(1),
    )
}

#[tactic(auto, using(crate::proofs::Forms::difference_is, crate::proofs::Depths::difference_depth))]
pub(crate) fn difference(alloc: Global, a: Tall, b: Tall) -> Result<Tall, ReadError>
    ensures { MatchResult result (λ made. made ≡ tree.difference a b) (λ e. e ≡ Memory) }
{
    let Tall { tree: left, depth } = a;
    let Tall {
        tree: right,
        depth: other,
    } = b;
    measured(
        alloc,
        IxTree::Sub(left, right),
        depth.max(other).saturating_add(1),
    )
}

#[tactic(auto, using(crate::proofs::Forms::product_is, crate::proofs::Depths::product_depth))]
pub(crate) fn product(alloc: Global, a: Tall, b: Tall) -> Result<Tall, ReadError>
    ensures { MatchResult result (λ made. made ≡ tree.product a b) (λ e. e ≡ Memory) }
{
    let Tall { tree: left, depth } = a;
    let Tall {
        tree: right,
        depth: other,
    } = b;
    measured(
        alloc,
        IxTree::Mul(left, right),
        depth.max(other).saturating_add(1),
    )
}

#[tactic(auto, using(crate::proofs::Forms::quotient_is, crate::proofs::Depths::quotient_depth))]
pub(crate) fn quotient(alloc: Global, a: Tall, by: u32) -> Result<Tall, ReadError>
    ensures { MatchResult result (λ made. made ≡ tree.quotient a by) (λ e. e ≡ Memory) }
{
    let Tall { tree, depth } = a;
    measured(alloc, IxTree::Div(tree, by), depth.saturating_add(1))
}

#[tactic(auto, using(crate::proofs::Forms::remainder_is, crate::proofs::Depths::remainder_depth))]
pub(crate) fn remainder(alloc: Global, a: Tall, by: u32) -> Result<Tall, ReadError>
    ensures { MatchResult result (λ made. made ≡ tree.remainder a by) (λ e. e ≡ Memory) }
{
    let Tall { tree, depth } = a;
    measured(alloc, IxTree::Rem(tree, by), depth.saturating_add(1))
}
