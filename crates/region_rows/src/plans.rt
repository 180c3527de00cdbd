//! Plans of modules with lets, over two sizes, N and M, and the vectors A of N words and C of M words.

ghost use Rattle.std.specs.Prelude.{◌≡◌, ◌+◌, IfOk, length, nat_lt, true};
ghost use Rattle.affine_index.specs.Limited.{items_scoped};
ghost use Rattle.term_tree.specs.Modules.{extents_scoped, inputs_scoped, module_scoped, outputs_scoped};
ghost use Rattle.term_tree.specs.Scope.{term_scoped};

use admission::admit;
use affine_index::{Aff, AffRefusal};
use loop_lang::Iexp;
use region_plan::{Plan, plan};
use sqlite_items::{Boxed, Items};
use std::alloc::Global;
use std::test::Fail;
use term_tree::{InputDecl, Module, Name, OutputDecl, SizeDecl, Term};

/// A size, found to be one of the two; another ends the test.
fn extent(alloc: Global, size: u32) -> Result<Aff, AffRefusal>
    ensures { IfOk result (λ n. items_scoped 2 0 n ≡ true) }
{
    let form = Aff::size(alloc, size)?;
    if form.is_scoped(2, 0) {
        Ok(form)
    } else {
        Err(AffRefusal::NotAffine)
    }
}

/// A variable, found to be the innermost.
fn innermost(alloc: Global) -> Result<Aff, AffRefusal>
    ensures { IfOk result (λ x. items_scoped 2 1 x ≡ true) }
{
    let form = Aff::var(alloc, 0)?;
    if form.is_scoped(2, 1) {
        Ok(form)
    } else {
        Err(AffRefusal::NotAffine)
    }
}

/// `gen i < size. var[i]`
fn vector(alloc: Global, tensors: u32, size: u32, var: u32) -> Result<Boxed<Term>, AffRefusal>
    requires { nat_lt var tensors ≡ true }
    ensures { IfOk result (λ e. term_scoped 2 e 0 tensors ≡ true) }
{
    let _tensors = tensors;
    let extent = extent(alloc, size)?;
    let index = innermost(alloc)?;
    let read = Boxed::new(alloc, Term::TVar(var))?;
    let word = Boxed::new(alloc, Term::Index(read, index))?;
    let term = Boxed::new(alloc, Term::Gen(extent, word))?;
    Ok(term)
}

fn word(alloc: Global, tensors: u32, word: u64) -> Result<Boxed<Term>, AffRefusal>
    ensures { IfOk result (λ e. term_scoped 2 e 0 tensors ≡ true) }
{
    let _tensors = tensors;
    let term = Boxed::new(alloc, Term::Lit(word))?;
    Ok(term)
}

/// `let t = definition in body`
fn bound(
    alloc: Global,
    tensors: u32,
    definition: Boxed<Term>,
    body: Boxed<Term>,
) -> Result<Boxed<Term>, AffRefusal>
    requires definition { term_scoped 2 definition 0 tensors ≡ true }
    requires body { term_scoped 2 body 0 (tensors + 1) ≡ true }
    ensures { IfOk result (λ e. term_scoped 2 e 0 tensors ≡ true) }
{
    let _tensors = tensors;
    let term = Boxed::new(alloc, Term::Let(definition, body))?;
    Ok(term)
}

/// `concat(left, right)`
fn joined(
    alloc: Global,
    tensors: u32,
    left: Boxed<Term>,
    right: Boxed<Term>,
) -> Result<Boxed<Term>, AffRefusal>
    requires left { term_scoped 2 left 0 tensors ≡ true }
    requires right { term_scoped 2 right 0 tensors ≡ true }
    ensures { IfOk result (λ e. term_scoped 2 e 0 tensors ≡ true) }
{
    let _tensors = tensors;
    let term = Boxed::new(alloc, Term::Concat(left, right))?;
    Ok(term)
}

/// The sum of the two innermost tensors, of four.
fn total(alloc: Global) -> Result<Boxed<Term>, AffRefusal>
    ensures { IfOk result (λ e. term_scoped 2 e 0 4 ≡ true) }
{
    let left = Boxed::new(alloc, Term::TVar(1))?;
    let right = Boxed::new(alloc, Term::TVar(0))?;
    let term = Boxed::new(alloc, Term::Add(left, right))?;
    Ok(term)
}

/// `let t = gen i < size. var[i] in gen i < size. t[i]`
fn shared(alloc: Global, size: u32, var: u32) -> Result<Boxed<Term>, AffRefusal>
    requires { nat_lt var 2 ≡ true }
    ensures { IfOk result (λ e. term_scoped 2 e 0 2 ≡ true) }
{
    let definition = vector(alloc, 2, size, var)?;
    let body = vector(alloc, 3, size, 0)?;
    bound(alloc, 2, definition, body)
}

/// `concat(let t = A in t, let u = C in u)`, where each vector is written as a generation
fn beside(alloc: Global) -> Result<Boxed<Term>, AffRefusal>
    ensures { IfOk result (λ e. term_scoped 2 e 0 2 ≡ true) }
{
    let left = shared(alloc, 0, 0)?;
    let right = shared(alloc, 1, 1)?;
    joined(alloc, 2, left, right)
}

/// `let u = C in concat(t, u)` within the let of t
fn inside(alloc: Global) -> Result<Boxed<Term>, AffRefusal>
    ensures { IfOk result (λ e. term_scoped 2 e 0 3 ≡ true) }
{
    let left = vector(alloc, 4, 0, 1)?;
    let right = vector(alloc, 4, 1, 0)?;
    let body = joined(alloc, 4, left, right)?;
    let definition = vector(alloc, 3, 1, 2)?;
    bound(alloc, 3, definition, body)
}

/// `let t = A in let u = C in concat(t, u)`, in the same way
fn nested(alloc: Global) -> Result<Boxed<Term>, AffRefusal>
    ensures { IfOk result (λ e. term_scoped 2 e 0 2 ≡ true) }
{
    let definition = vector(alloc, 2, 0, 0)?;
    let body = inside(alloc)?;
    bound(alloc, 2, definition, body)
}

/// `let t = 1 in let u = 2 in t + u`
fn words(alloc: Global) -> Result<Boxed<Term>, AffRefusal>
    ensures { IfOk result (λ e. term_scoped 2 e 0 2 ≡ true) }
{
    let second = word(alloc, 3, 2)?;
    let body = total(alloc)?;
    let inner = bound(alloc, 3, second, body)?;
    let first = word(alloc, 2, 1)?;
    bound(alloc, 2, first, inner)
}

fn name(alloc: Global, text: &str) -> Result<Name, Fail> {
    Ok(Name::new(String::from_str(alloc, text)?))
}

fn size(alloc: Global, text: &str) -> Result<SizeDecl, Fail> {
    let name = name(alloc, text)?;
    Ok(SizeDecl {
        name,
        low: 0,
        high: 8,
    })
}

/// A vector of so many words.
fn input(alloc: Global, text: &str, size: u32) -> Result<InputDecl, Fail>
    ensures { IfOk result (λ d. extents_scoped 2 d.extents ≡ true) }
{
    let name = name(alloc, text)?;
    let extent = extent(alloc, size)?;
    let mut extents = Items::new(alloc);
    extents.push(extent)?;
    Ok(InputDecl { name, extents })
}

fn inputs(alloc: Global) -> Result<Items<InputDecl>, Fail>
    ensures { IfOk result (λ ds. (inputs_scoped 2 ds ≡ true) × (length ds ≡ 2)) }
{
    let mut inputs = Items::new(alloc);
    inputs.push(input(alloc, "A", 0)?)?;
    inputs.push(input(alloc, "C", 1)?)?;
    Ok(inputs)
}

fn sizes(alloc: Global) -> Result<Items<SizeDecl>, Fail>
    ensures { IfOk result (λ ds. length ds ≡ 2) }
{
    let mut sizes = Items::new(alloc);
    sizes.push(size(alloc, "N")?)?;
    sizes.push(size(alloc, "M")?)?;
    Ok(sizes)
}

fn outputs(alloc: Global, term: Boxed<Term>) -> Result<Items<OutputDecl>, Fail>
    requires { term_scoped 2 term 0 2 ≡ true }
    ensures { IfOk result (λ os. (outputs_scoped 2 2 os ≡ true) × (length os ≡ 1)) }
{
    let name = name(alloc, "B")?;
    let term = term.into_inner();
    let mut outputs = Items::new(alloc);
    outputs.push(OutputDecl { name, term })?;
    Ok(outputs)
}

/// The module with this output, whose sizes are from 0 to 8.
fn whole(alloc: Global, term: Boxed<Term>) -> Result<Module, Fail>
    requires { term_scoped 2 term 0 2 ≡ true }
    ensures scoped { IfOk result (λ m. module_scoped m ≡ true) }
    ensures sizes { IfOk result (λ m. (length m.sizes ≡ 2) × (length m.assumes ≡ 0) × (length m.example ≡ 2)) }
    ensures tensors { IfOk result (λ m. (length m.inputs ≡ 2) × (length m.outputs ≡ 1)) }
{
    let sizes = sizes(alloc)?;
    let inputs = inputs(alloc)?;
    let outputs = outputs(alloc, term)?;
    let mut example = Items::new(alloc);
    example.push(1)?;
    example.push(1)?;
    Ok(Module {
        version: 1,
        sizes,
        assumes: Items::new(alloc),
        example,
        inputs,
        outputs,
    })
}

/// The plan of the module with this output, or None where it is not admitted or has none.
fn planned(alloc: Global, term: Boxed<Term>) -> Result<Option<Plan>, Fail>
    requires { term_scoped 2 term 0 2 ≡ true }
{
    let module = whole(alloc, term)?;
    if admit(alloc, &module).is_err() {
        return Ok(None);
    }
    Ok(plan(alloc, &module).ok())
}

fn is_size(tree: &Iexp, number: u32) -> bool {
    matches!(tree, Iexp::Size(size) if *size == number)
}

/// Whether the offsets are these numbers.
fn are_at(alloc: Global, plan: &Plan, numbers: &[u32]) -> Result<bool, Fail> {
    if plan.offsets.len() != numbers.len() {
        return Ok(false);
    }
    for i in 0..numbers.len() {
        let number = Aff::literal(alloc, i64::from(numbers[i]))?;
        if !plan.offsets.as_slice()[i].same(&number) {
            return Ok(false);
        }
    }
    Ok(true)
}

#[test]
fn lets_side_by_side_share_the_region(rt: HostRuntime) -> Result<(), Fail> {
    let alloc = rt.alloc();
    let term = beside(alloc)?;
    let Some(plan) = planned(alloc, term)? else {
        return Err(Fail::new("no plan"));
    };
    assert!(rt; are_at(alloc, &plan, &[0, 0])?);
    match &plan.length {
        Iexp::Larger(first, second) => {
            assert!(rt; is_size(first.get(), 0) && is_size(second.get(), 1));
        }
        _ => return Err(Fail::new("no larger of two")),
    }
    Ok(())
}

#[test]
fn nested_lets_stand_behind_each_other(rt: HostRuntime) -> Result<(), Fail> {
    let alloc = rt.alloc();
    let term = nested(alloc)?;
    let Some(plan) = planned(alloc, term)? else {
        return Err(Fail::new("no plan"));
    };
    match &plan.length {
        Iexp::Add(first, second) => {
            assert!(rt; is_size(first.get(), 0) && is_size(second.get(), 1));
        }
        _ => return Err(Fail::new("no sum")),
    }
    Ok(())
}

#[test]
fn a_word_in_a_word_has_the_next_place(rt: HostRuntime) -> Result<(), Fail> {
    let alloc = rt.alloc();
    let term = words(alloc)?;
    let Some(plan) = planned(alloc, term)? else {
        return Err(Fail::new("no plan"));
    };
    assert!(rt; are_at(alloc, &plan, &[0, 1])?);
    assert!(rt; matches!(&plan.length, Iexp::Lit(2)));
    Ok(())
}
