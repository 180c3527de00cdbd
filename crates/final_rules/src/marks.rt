//! Parallel marks: each a gen without lets, none at, inside or around one that is marked before.

ghost use Rattle.std.specs.Prelude.{◌≡◌, ◌||◌, ◌==◌, [], IfOk, Some};
ghost use Rattle.std.specs.Option.{option_and_then, option_copied};
ghost use Rattle.final_rules.specs.Rules.{any_nested, begins, child_at, gen_body, has_let, mark_fault, mark_fault_at, marked_part, nested, part_at};

use crate::fault::FinalFault;
use sqlite_items::Items;
use std::alloc::{AllocError, Global};
use term_tree::{Module, Path, Term};

/// The child of this number.
fn child(term: &Term, step: u32) -> Option<&Term>
    ensures { option_copied result ≡ child_at step term.now }
{
    match term {
        Term::Lit(_) | Term::TVar(_) | Term::WordOf(_) => None,
        Term::Index(e, _)
        | Term::Gen(_, e)
        | Term::Sum(_, e)
        | Term::Guard(_, e)
        | Term::Flatten(e)
        | Term::Split(_, e)
        | Term::Transpose(e)
        | Term::TruncL(_, e)
        | Term::TruncR(_, e)
        | Term::PadL(_, e)
        | Term::PadR(_, e) => { if step == 0 { Some(e.get()) } else { None } }
        Term::Let(a, b)
        | Term::Add(a, b)
        | Term::Sub(a, b)
        | Term::Mul(a, b)
        | Term::Concat(a, b) => {
            if step == 0 {
                Some(a.get())
            } else if step == 1 {
                Some(b.get())
            } else {
                None
            }
        }
    }
}

/// The node at the end of these steps.
fn part_at<'a>(term: &'a Term, steps: &[u32]) -> Option<&'a Term>
    ensures { option_copied result ≡ part_at steps.now term.now }
{
    let mut part = term;
    for step in steps {
        match child(part, *step) {
            Some(inner) => part = inner,
            None => return None,
        }
    }
    Some(part)
}

/// The node at a path.
fn marked_part<'a>(module: &'a Module, path: &Path) -> Option<&'a Term>
    ensures { option_copied result ≡ marked_part «module».now path.now }
{
    let outputs = module.outputs.as_slice();
    let number = path.output as usize;
    if number < outputs.len() {
        part_at(&outputs[number].term, path.steps.as_slice())
    } else {
        None
    }
}

/// What each turn of a gen computes.
#[tactic(auto, using(crate::proofs::GenForms::gen_forms))]
fn gen_body(term: &Term) -> Option<&Term>
    ensures { option_copied result ≡ gen_body term.now }
{
    match term {
        Term::Gen(_, body) => Some(body.get()),
        Term::Sum(_, _) => None,
        Term::Lit(_)
        | Term::TVar(_)
        | Term::WordOf(_)
        | Term::Index(_, _)
        | Term::Guard(_, _)
        | Term::Let(_, _)
        | Term::Add(_, _)
        | Term::Sub(_, _)
        | Term::Mul(_, _)
        | Term::Concat(_, _)
        | Term::Flatten(_)
        | Term::Split(_, _)
        | Term::Transpose(_)
        | Term::TruncL(_, _)
        | Term::TruncR(_, _)
        | Term::PadL(_, _)
        | Term::PadR(_, _) => None,
    }
}

/// Whether a let stands in a term.
pub fn has_let(term: &Term) -> bool
    ensures { result ≡ has_let term.now }
{
    match term {
        Term::Lit(_) | Term::TVar(_) | Term::WordOf(_) => false,
        Term::Let(_, _) => true,
        Term::Index(e, _)
        | Term::Gen(_, e)
        | Term::Sum(_, e)
        | Term::Guard(_, e)
        | Term::Flatten(e)
        | Term::Split(_, e)
        | Term::Transpose(e)
        | Term::TruncL(_, e)
        | Term::TruncR(_, e)
        | Term::PadL(_, e)
        | Term::PadR(_, e) => has_let(e.get()),
        Term::Add(a, b) | Term::Sub(a, b) | Term::Mul(a, b) | Term::Concat(a, b) => {
            has_let(a.get()) || has_let(b.get())
        }
    }
}

/// Whether steps begin with others.
fn begins(first: &[u32], steps: &[u32]) -> bool
    ensures { result ≡ begins first.now steps.now }
{
    for i in 0..first.len() {
        if i >= steps.len() {
            return false;
        }
        if first[i] != steps[i] {
            return false;
        }
    }
    true
}

/// Whether one of two paths leads to the other's node, or inside it.
fn nested(a: &Path, b: &Path) -> bool
    ensures { result ≡ nested a.now b.now }
{
    if a.output != b.output {
        return false;
    }
    let down = begins(a.steps.as_slice(), b.steps.as_slice());
    let up = begins(b.steps.as_slice(), a.steps.as_slice());
    down || up
}

fn any_nested(path: &Path, before: &[Path]) -> bool
    ensures { result ≡ any_nested path.now before.now }
{
    for other in before {
        if nested(path, other) {
            return true;
        }
    }
    false
}

/// An equal path.
pub fn copy(alloc: Global, path: &Path) -> Result<Path, AllocError>
    ensures { IfOk result (λ copy. copy ≡ path.now) }
{
    let mut steps = Items::new(alloc);
    for step in path.steps.as_slice() {
        steps.push(*step)?;
    }
    Ok(Path {
        output: path.output,
        steps,
    })
}

/// The fault of a mark at this part, which may stand at, inside or around one that is marked before.
fn mark_fault_at(
    alloc: Global,
    path: &Path,
    within: bool,
    part: Option<&Term>,
) -> Result<Option<FinalFault>, AllocError>
    ensures { IfOk result (λ fault. fault ≡ mark_fault_at path.now within (option_copied part.entry)) }
{
    let Some(body) = part else {
        return Ok(Some(FinalFault::ParallelNotGen(copy(alloc, path)?)));
    };
    if has_let(body) {
        return Ok(Some(FinalFault::LetInParallel(copy(alloc, path)?)));
    }
    if within {
        return Ok(Some(FinalFault::NestedParallel(copy(alloc, path)?)));
    }
    Ok(None)
}

/// The body of the gen at a path.
fn body_at<'a>(module: &'a Module, path: &Path) -> Option<&'a Term>
    ensures { option_copied result ≡ option_and_then gen_body (marked_part «module».now path.now) }
{
    match marked_part(module, path) {
        Some(part) => gen_body(part),
        None => None,
    }
}

/// The fault of the first mark that breaks a rule. Quadratic in the number of marks.
pub fn mark_fault(
    alloc: Global,
    module: &Module,
    marks: &[Path],
) -> Result<Option<FinalFault>, AllocError>
    ensures { IfOk result (λ fault. fault ≡ mark_fault «module».now [] marks.now) }
{
    for i in 0..marks.len() {
        let within = any_nested(&marks[i], &marks[..i]);
        let part = body_at(module, &marks[i]);
        match mark_fault_at(alloc, &marks[i], within, part)? {
            Some(fault) => return Ok(Some(fault)),
            None => {}
        }
    }
    Ok(None)
}
