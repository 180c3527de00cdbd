//! A term put at a place of a module.

ghost use Rattle.std.specs.Prelude.{◌≡◌, ◌<◌, IfOk, MatchResult, length};
ghost use Rattle.path_focus.specs.Focus.{plugged_in, with_term};
ghost use Rattle.path_focus.specs.Frames.{plugged};
ghost use Rattle.path_focus.specs.Laws.{IsThere, KeepsModule, KeepsShapes};
ghost use Rattle.path_focus.specs.Trail.{filled_level, first_of, second_of};
ghost use Rattle.term_tree.specs.declared.term.Term.{out-Term};

use crate::outputs::{forms_told_of, literals_told_of};
use crate::place::PathRefusal;
use crate::trail::{boxed, child, copied, copied_cond};
use fact_list::copy_cmps;
use owned_values::two;
use shape_rules::extents::{copies, copy as copied_form};
use sqlite_items::{Boxed, Items, at};
use std::alloc::Global;
use term_tree::{InputDecl, Module, OutputDecl, Path, SizeDecl, Term};

/// Both children, a new one in place of that of this number.
fn beside(
    alloc: Global,
    step: u32,
    a: &Term,
    b: &Term,
    new: Boxed<Term>,
) -> Result<(Boxed<Term>, Boxed<Term>), PathRefusal>
    ensures { MatchResult result (λ both. (both.0 ≡ first_of step new a.now) × (both.1 ≡ second_of step new b.now)) (λ e. e ≡ PathRefusal.Memory) }
{
    if step == 0 {
        let b = copied(alloc, b)?;
        Ok((new, b))
    } else {
        let a = copied(alloc, a)?;
        Ok((a, new))
    }
}

/// The node with a new child in place of that of this number.
fn filled(
    alloc: Global,
    term: &Term,
    step: u32,
    new: Boxed<Term>,
) -> Result<Boxed<Term>, PathRefusal>
    ensures { MatchResult result (λ e. e ≡ filled_level (out-Term term.now) step new) (λ e. e ≡ PathRefusal.Memory) }
{
    match term {
        Term::Lit(w) => boxed(alloc, Term::Lit(*w)),
        Term::TVar(q) => boxed(alloc, Term::TVar(*q)),
        Term::WordOf(x) => {
            let x = copied_form(alloc, x)?;
            boxed(alloc, Term::WordOf(x))
        }
        Term::Index(_, x) => {
            let x = copied_form(alloc, x)?;
            boxed(alloc, Term::Index(new, x))
        }
        Term::Gen(n, _) => {
            let n = copied_form(alloc, n)?;
            boxed(alloc, Term::Gen(n, new))
        }
        Term::Sum(n, _) => {
            let n = copied_form(alloc, n)?;
            boxed(alloc, Term::Sum(n, new))
        }
        Term::Guard(c, _) => {
            let c = copied_cond(alloc, c)?;
            boxed(alloc, Term::Guard(c, new))
        }
        Term::Let(a, b) => {
            let (a, b) = beside(alloc, step, a.get(), b.get(), new)?;
            boxed(alloc, Term::Let(a, b))
        }
        Term::Add(a, b) => {
            let (a, b) = beside(alloc, step, a.get(), b.get(), new)?;
            boxed(alloc, Term::Add(a, b))
        }
        Term::Sub(a, b) => {
            let (a, b) = beside(alloc, step, a.get(), b.get(), new)?;
            boxed(alloc, Term::Sub(a, b))
        }
        Term::Mul(a, b) => {
            let (a, b) = beside(alloc, step, a.get(), b.get(), new)?;
            boxed(alloc, Term::Mul(a, b))
        }
        Term::Concat(a, b) => {
            let (a, b) = beside(alloc, step, a.get(), b.get(), new)?;
            boxed(alloc, Term::Concat(a, b))
        }
        Term::Flatten(_) => boxed(alloc, Term::Flatten(new)),
        Term::Split(k, _) => boxed(alloc, Term::Split(*k, new)),
        Term::Transpose(_) => boxed(alloc, Term::Transpose(new)),
        Term::TruncL(n, _) => {
            let n = copied_form(alloc, n)?;
            boxed(alloc, Term::TruncL(n, new))
        }
        Term::TruncR(n, _) => {
            let n = copied_form(alloc, n)?;
            boxed(alloc, Term::TruncR(n, new))
        }
        Term::PadL(n, _) => {
            let n = copied_form(alloc, n)?;
            boxed(alloc, Term::PadL(n, new))
        }
        Term::PadR(n, _) => {
            let n = copied_form(alloc, n)?;
            boxed(alloc, Term::PadR(n, new))
        }
    }
}

/// The term with a new one at the end of the way.
fn plugged(
    alloc: Global,
    term: &Term,
    steps: &[u32],
    new: Boxed<Term>,
) -> Result<Boxed<Term>, PathRefusal>
    ensures { IsThere (plugged term.now steps.now new) result }
{
    match steps {
        [] => Ok(new),
        [step, further @ ..] => match child(term, *step) {
            None => Err(PathRefusal::NoSuchPath),
            Some(inside) => {
                let inside = plugged(alloc, inside, further, new)?;
                filled(alloc, term, *step, inside)
            }
        },
    }
}

fn sizes(alloc: Global, declared: &[SizeDecl]) -> Result<Items<SizeDecl>, PathRefusal>
    ensures { MatchResult result (λ copies. copies ≡ declared.now) (λ e. e ≡ PathRefusal.Memory) }
{
    let mut copies = Items::new(alloc);
    for size in declared {
        copies.push(SizeDecl {
            name: size.name.copy(alloc)?,
            low: size.low,
            high: size.high,
        })?;
    }
    Ok(copies)
}

fn input(alloc: Global, declared: &InputDecl) -> Result<InputDecl, PathRefusal>
    ensures { MatchResult result (λ copy. copy ≡ declared.now) (λ e. e ≡ PathRefusal.Memory) }
{
    let extents = copies(alloc, declared.extents.as_slice())?;
    Ok(InputDecl {
        name: declared.name.copy(alloc)?,
        extents,
    })
}

fn inputs(alloc: Global, declared: &[InputDecl]) -> Result<Items<InputDecl>, PathRefusal>
    ensures { MatchResult result (λ copies. copies ≡ declared.now) (λ e. e ≡ PathRefusal.Memory) }
{
    let mut copies = Items::new(alloc);
    for item in declared {
        copies.push(input(alloc, item)?)?;
    }
    Ok(copies)
}

/// An output of this name, and a term.
fn output(
    alloc: Global,
    declared: &OutputDecl,
    term: Boxed<Term>,
) -> Result<OutputDecl, PathRefusal>
    ensures { MatchResult result (λ o. o ≡ record declared.now { term = term }) (λ e. e ≡ PathRefusal.Memory) }
{
    let name = declared.name.copy(alloc)?;
    Ok(OutputDecl {
        name,
        term: term.into_inner(),
    })
}

fn outputs(alloc: Global, declared: &[OutputDecl]) -> Result<Items<OutputDecl>, PathRefusal>
    ensures { MatchResult result (λ copies. copies ≡ declared.now) (λ e. e ≡ PathRefusal.Memory) }
{
    let mut copies = Items::new(alloc);
    for item in declared {
        let term = copied(alloc, &item.term)?;
        copies.push(output(alloc, item, term)?)?;
    }
    Ok(copies)
}

/// The outputs with another term for one of them.
fn with_term(
    alloc: Global,
    declared: &[OutputDecl],
    place: usize,
    term: Boxed<Term>,
) -> Result<Items<OutputDecl>, PathRefusal>
    requires { place < length declared.now }
    ensures { MatchResult result (λ os. os ≡ with_term declared.now place term) (λ e. e ≡ PathRefusal.Memory) }
{
    let changed = output(alloc, &declared[place], term)?;
    let mut all = outputs(alloc, &declared[..place])?;
    all.push(changed)?;
    all.append(outputs(alloc, &declared[place + 1..])?)?;
    Ok(all)
}

/// The module with other outputs.
fn with_outputs(
    alloc: Global,
    module: &Module,
    outputs: Items<OutputDecl>,
) -> Result<Module, PathRefusal>
    ensures { MatchResult result (λ m. m ≡ record «module».now { outputs = outputs }) (λ e. e ≡ PathRefusal.Memory) }
{
    let sizes = sizes(alloc, module.sizes.as_slice());
    let inputs = inputs(alloc, module.inputs.as_slice());
    let (sizes, inputs) = two(sizes, inputs)?;
    let assumes = copy_cmps(alloc, module.assumes.as_slice())?;
    let example = Items::from_slice(alloc, module.example.as_slice())?;
    Ok(Module {
        version: module.version,
        sizes,
        assumes,
        example,
        inputs,
        outputs,
    })
}

/// The module with a term at a place. The module stays as it is, so that both may be kept; what is not on the way is copied once,
/// and the new term is moved.
pub fn plug(
    alloc: Global,
    module: &Module,
    path: &Path,
    term: Boxed<Term>,
) -> Result<Module, PathRefusal>
    ensures plugged { IsThere (plugged_in «module».now path.now term) result }
    ensures keeps { IfOk result (λ m. KeepsModule «module».now path.now term m) }
    ensures shapes { IfOk result (λ m. KeepsShapes «module».now path.now term m) }
{
    forms_told_of(module.outputs.as_slice());
    literals_told_of(module.outputs.as_slice());
    let outputs = module.outputs.as_slice();
    match at(outputs, path.output as usize) {
        None => Err(PathRefusal::NoSuchPath),
        Some(output) => {
            let term = plugged(alloc, &output.term, path.steps.as_slice(), term)?;
            let outputs = with_term(alloc, outputs, path.output as usize, term)?;
            with_outputs(alloc, module, outputs)
        }
    }
}
