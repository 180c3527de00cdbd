ghost use Rattle.std.specs.Prelude.{IfOk};
ghost use Rattle.term_tree.specs.Children.{AreRight, children};
ghost use Rattle.term_tree.specs.declared.depths.Depths.{Depths};
ghost use Rattle.term_tree.specs.declared.term.Term.{Term};

use affine_index::{Aff, AffRefusal};
use owned_values::two;
use sqlite_items::Boxed;
use std::alloc::Global;
use std::test::Fail;
use term_tree::{Depths, Fold, Term, TreeRefusal, copy, depth, fold, nodes, same};

/// The largest sum of both depths, each index depth counted ten times, at any leaf.
struct DeepestLeaf;

impl Fold for DeepestLeaf {
    type Out = u64;

    ghost right = { λ f d e n. Unit {0} };

    fn visit(
        &self,
        _alloc: Global,
        depths: Depths,
        node: &Term,
        parts: Vec<u64>,
    ) -> Result<u64, TreeRefusal>
        requires parts_right { AreRight (λ d e n. Unit {0}) (children depths node.now) parts.items }
        ensures { IfOk result (λ n. Unit {0}) }
    {
        let mut most = 10 * u64::from(depths.index) + u64::from(depths.tensor);
        if !parts.is_empty() {
            most = 0;
        }
        for part in &parts {
            most = most.max(*part);
        }
        Ok(most)
    }
}

/// A term in a box of its own.
fn held(alloc: Global, term: Term) -> Result<Boxed<Term>, AffRefusal> {
    Ok(Boxed::new(alloc, term)?)
}

fn bound(
    alloc: Global,
    definition: Result<Boxed<Term>, AffRefusal>,
    body: Result<Boxed<Term>, AffRefusal>,
) -> Result<Boxed<Term>, AffRefusal> {
    let (definition, body) = two(definition, body)?;
    held(alloc, Term::Let(definition, body))
}

/// `input 0 [i]`, under one let.
fn row(alloc: Global) -> Result<Boxed<Term>, AffRefusal> {
    let (input, place) = two(held(alloc, Term::TVar(1)), Aff::var(alloc, 0))?;
    held(alloc, Term::Index(input, place))
}

/// `concat(let t = 7 in t, let t = 8 in input 0 [i])`, with this word in place of 7
fn both(alloc: Global, word: u64) -> Result<Boxed<Term>, AffRefusal> {
    let first = bound(
        alloc,
        held(alloc, Term::Lit(word)),
        held(alloc, Term::TVar(0)),
    );
    let second = bound(alloc, held(alloc, Term::Lit(8)), row(alloc));
    let (first, second) = two(first, second)?;
    held(alloc, Term::Concat(first, second))
}

/// `gen i < size 0. concat(let t = 7 in t, let t = 8 in input 0 [i])`
fn example(alloc: Global, word: u64) -> Result<Boxed<Term>, AffRefusal> {
    let (extent, both) = two(Aff::size(alloc, 0), both(alloc, word))?;
    held(alloc, Term::Gen(extent, both))
}

#[test]
fn nodes_and_depth_of_a_term(rt: HostRuntime) -> Result<(), Fail> {
    let alloc = rt.alloc();
    assert_eq!(rt; (nodes(&Term::Lit(5)), depth(&Term::Lit(5))), (1, 0));
    let term = example(alloc, 7)?;
    assert_eq!(rt; (nodes(term.get()), depth(term.get())), (9, 4));
    Ok(())
}

#[test]
fn a_copy_is_the_same(rt: HostRuntime) -> Result<(), Fail> {
    let alloc = rt.alloc();
    let term = example(alloc, 7)?;
    let other = example(alloc, 6)?;
    let copied = held(alloc, copy(alloc, term.get())?)?;
    assert!(rt; same(copied.get(), term.get()));
    assert!(rt; !same(other.get(), term.get()));
    Ok(())
}

#[test]
fn a_fold_sees_the_binders(rt: HostRuntime) -> Result<(), Fail> {
    let alloc = rt.alloc();
    let under = Depths {
        index: 2,
        tensor: 3,
    };
    let term = example(alloc, 7)?;
    let whole = term.get();
    assert!(rt; depth(whole) == 4);
    assert_eq!(rt; fold(alloc, &DeepestLeaf, under, whole)?, 34);
    Ok(())
}
