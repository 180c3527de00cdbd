ghost use Rattle.std.specs.Prelude.{◌≡◌, ◌≤◌, length, true, IfOk};
ghost use Rattle.affine_index.specs.Limited.{items_scoped};
ghost use Rattle.shape_rules.specs.Scopes.{all_free, each_free, given};
ghost use Rattle.term_tree.specs.Modules.{extents_scoped, inputs_scoped, module_scoped};
ghost use Rattle.term_tree.specs.Scope.{term_scoped};

use affine_index::Aff;
use fact_list::{Facts, SizeBounds};
use linear_cert::{Lines, shown};
use shape_rules::{ShapeFault, Shapes, extent_goals, shape};
use sqlite_items::{Boxed, Items};
use std::alloc::Global;
use std::test::Fail;
use term_tree::{Cause, InputDecl, Module, Name, OutputDecl, Path, SizeDecl, Term};

/// Whether these are the steps of output 0.
fn is_at(path: &Path, steps: &[u32]) -> bool {
    path.output == 0 && path.steps.as_slice() == steps
}

/// Whether there is no shape for this cause, at the node at the end of these steps.
fn is_fault(told: Result<Items<Aff>, ShapeFault>, cause: Cause, steps: &[u32]) -> bool {
    match told {
        Err(ShapeFault::RankMismatch(path)) => cause == Cause::RankMismatch && is_at(&path, steps),
        Err(ShapeFault::ShapesDiffer(path)) => cause == Cause::ShapesDiffer && is_at(&path, steps),
        Err(ShapeFault::RankTooLarge(path)) => cause == Cause::RankTooLarge && is_at(&path, steps),
        _ => false,
    }
}

/// Whether this form is all that is told.
fn is_one(told: Result<Items<Aff>, ShapeFault>, form: &Aff) -> bool {
    match told {
        Ok(forms) => forms.len() == 1 && forms.as_slice()[0].same(form),
        Err(_) => false,
    }
}

/// So many extents, each this number.
fn cube(alloc: Global, rank: usize, extent: u32) -> Result<Items<Aff>, Fail>
    ensures { IfOk result (λ ns. (each_free ns ≡ true) × (extents_scoped 1 ns ≡ true)) }
{
    let mut extents = Items::new(alloc);
    for _i in 0..rank {
        let form = Aff::literal(alloc, i64::from(extent))?;
        extents.push(form)?;
    }
    Ok(extents)
}

/// A of this rank, each extent 4, and C of 5 words.
fn inputs(alloc: Global, rank: usize) -> Result<Shapes, Fail>
    ensures { IfOk result (λ s. (all_free (given s) ≡ true) × (length (given s) ≡ 2)) }
{
    let first = cube(alloc, rank, 4)?;
    let second = cube(alloc, 1, 5)?;
    let mut inputs = Items::new(alloc);
    inputs.push(first)?;
    inputs.push(second)?;
    Ok(Shapes {
        lets: Items::new(alloc),
        inputs,
    })
}

/// `flatten(A)`
fn flattened(alloc: Global) -> Result<Boxed<Term>, Fail>
    ensures { IfOk result (λ e. term_scoped 0 e 0 2 ≡ true) }
{
    let input = Boxed::new(alloc, Term::TVar(0))?;
    let term = Boxed::new(alloc, Term::Flatten(input))?;
    Ok(term)
}

/// `split(1, A)`
fn chunked(alloc: Global) -> Result<Boxed<Term>, Fail>
    ensures { IfOk result (λ e. term_scoped 0 e 0 2 ≡ true) }
{
    let input = Boxed::new(alloc, Term::TVar(0))?;
    let term = Boxed::new(alloc, Term::Split(1, input))?;
    Ok(term)
}

/// `A`
fn first(alloc: Global) -> Result<Boxed<Term>, Fail>
    ensures { IfOk result (λ e. term_scoped 0 e 0 2 ≡ true) }
{
    let term = Boxed::new(alloc, Term::TVar(0))?;
    Ok(term)
}

/// `concat(A, C)`
fn joined(alloc: Global) -> Result<Boxed<Term>, Fail>
    ensures { IfOk result (λ e. term_scoped 0 e 0 2 ≡ true) }
{
    let left = Boxed::new(alloc, Term::TVar(0))?;
    let right = Boxed::new(alloc, Term::TVar(1))?;
    let term = Boxed::new(alloc, Term::Concat(left, right))?;
    Ok(term)
}

/// A term plus C.
fn added(alloc: Global, first: Boxed<Term>) -> Result<Boxed<Term>, Fail>
    requires first { term_scoped 0 first 0 2 ≡ true }
    ensures { IfOk result (λ e. term_scoped 0 e 0 2 ≡ true) }
{
    let right = Boxed::new(alloc, Term::TVar(1))?;
    let term = Boxed::new(alloc, Term::Add(first, right))?;
    Ok(term)
}

/// Whether a term is refused so, where A has this rank.
fn refused(
    alloc: Global,
    rank: usize,
    term: Boxed<Term>,
    cause: Cause,
    steps: &[u32],
) -> Result<bool, Fail>
    requires { term_scoped 0 term 0 2 ≡ true }
{
    let shapes = inputs(alloc, rank)?;
    Ok(is_fault(shape(alloc, &shapes, term.get()), cause, steps))
}

#[test]
fn the_first_node_that_breaks_a_rule(rt: HostRuntime) -> Result<(), Fail> {
    let alloc = rt.alloc();
    assert!(rt; refused(alloc, 1, flattened(alloc)?, Cause::RankMismatch, &[])?);
    assert!(rt;
        refused(
            alloc,
            1,
            added(alloc, flattened(alloc)?)?,
            Cause::RankMismatch,
            &[0]
        )?
    );
    assert!(rt;
        refused(
            alloc,
            1,
            added(alloc, first(alloc)?)?,
            Cause::ShapesDiffer,
            &[]
        )?
    );
    assert!(rt;
        refused(
            alloc,
            8,
            added(alloc, chunked(alloc)?)?,
            Cause::RankTooLarge,
            &[0]
        )?
    );
    Ok(())
}

/// Whether the joined vectors have this extent.
fn is_joined(alloc: Global, extent: &Aff) -> Result<bool, Fail> {
    let shapes = inputs(alloc, 1)?;
    let term = joined(alloc)?;
    Ok(is_one(shape(alloc, &shapes, term.get()), extent))
}

#[test]
fn joined_vectors_have_the_sum_of_their_extents(rt: HostRuntime) -> Result<(), Fail> {
    let alloc = rt.alloc();
    let nine = Aff::literal(alloc, 9)?;
    assert!(rt; is_joined(alloc, &nine)?);
    Ok(())
}

fn name(alloc: Global, text: &str) -> Result<Name, Fail> {
    Ok(Name::new(String::from_str(alloc, text)?))
}

/// `size N in 0..8`, the inputs, and one output.
fn module(alloc: Global, inputs: Items<InputDecl>, term: Boxed<Term>) -> Result<Module, Fail>
    requires inputs { inputs_scoped 1 inputs ≡ true }
    requires term { term_scoped 1 term 0 (length inputs) ≡ true }
    ensures { IfOk result (λ m. (module_scoped m ≡ true) × (m.inputs ≡ inputs) × (length m.outputs ≡ 1)) }
{
    let size = name(alloc, "N")?;
    let output = name(alloc, "B")?;
    let mut sizes = Items::new(alloc);
    sizes.push(SizeDecl {
        name: size,
        low: 0,
        high: 8,
    })?;
    let mut outputs = Items::new(alloc);
    outputs.push(OutputDecl {
        name: output,
        term: term.into_inner(),
    })?;
    Ok(Module {
        version: 1,
        sizes,
        assumes: Items::new(alloc),
        example: Items::new(alloc),
        inputs,
        outputs,
    })
}

/// `N - 1`
fn less_one(alloc: Global) -> Result<Aff, Fail>
    ensures { IfOk result (λ n. items_scoped 1 0 n ≡ true) }
{
    let size = Aff::size(alloc, 0)?;
    let one = Aff::literal(alloc, 1)?;
    let form = size.sub(alloc, &one)?;
    Ok(form)
}

/// `gen i < N - 1. 1`
fn generated(alloc: Global) -> Result<Boxed<Term>, Fail>
    ensures { IfOk result (λ e. term_scoped 1 e 0 0 ≡ true) }
{
    let extent = less_one(alloc)?;
    let body = Boxed::new(alloc, Term::Lit(1))?;
    let term = Boxed::new(alloc, Term::Gen(extent, body))?;
    Ok(term)
}

/// Whether this is the one goal of the generation.
fn is_goal(alloc: Global, extent: &Aff) -> Result<bool, Fail> {
    let term = generated(alloc)?;
    let module = module(alloc, Items::new(alloc), term)?;
    Ok(is_one(extent_goals(alloc, &module), extent))
}

/// Whether default lines show a goal where N is from this number to 8.
fn is_shown(alloc: Global, low: u64, goal: &Aff) -> Result<bool, Fail> {
    let mut sizes = Items::new(alloc);
    sizes.push(SizeBounds { low, high: 8 })?;
    let facts = Facts {
        sizes,
        assumes: Items::new(alloc),
        path: Items::new(alloc),
    };
    Ok(shown(alloc, &facts, goal, &Lines::Default)?)
}

#[test]
fn the_extent_of_a_generation_is_a_goal(rt: HostRuntime) -> Result<(), Fail> {
    let alloc = rt.alloc();
    let extent = less_one(alloc)?;
    assert!(rt; is_goal(alloc, &extent)?);
    assert!(rt; is_shown(alloc, 1, &extent)?);
    assert!(rt; !is_shown(alloc, 0, &extent)?);
    Ok(())
}

#[test]
fn an_input_has_at_most_rank_8(rt: HostRuntime) -> Result<(), Fail> {
    let alloc = rt.alloc();
    let name = name(alloc, "A")?;
    let extents = cube(alloc, 9, 4)?;
    let mut inputs = Items::new(alloc);
    inputs.push(InputDecl { name, extents })?;
    let word = Boxed::new(alloc, Term::Lit(1))?;
    let module = module(alloc, inputs, word)?;
    assert!(rt; matches!(extent_goals(alloc, &module), Err(ShapeFault::InputRank(0))));
    Ok(())
}
