//! Copies of what was judged.

ghost use Rattle.std.specs.Prelude.{◌≡◌, IfOk};

use affine_index::Cmp;
use fact_list::copy_cmps;
use final_rules::marks::copy as copied_path;
use linear_cert::{FinalLine, Lines};
use owned_values::two;
use shape_rules::extents::copies;
use sqlite_items::{Boxed, Items};
use std::alloc::{AllocError, Global};
use term_tree::{InputDecl, Module, OutputDecl, Path, SizeDecl, Term, copy};

fn sizes(alloc: Global, declared: &[SizeDecl]) -> Result<Items<SizeDecl>, AllocError>
    ensures { IfOk result (λ copies. copies ≡ declared.now) }
{
    let mut copies = Items::new(alloc);
    for size in declared {
        copies.push(SizeDecl {
            name: size.name.copy(alloc)?,
            low: size.low,
            high: size.high,
        })?;
    }
    Ok(copies)
}

fn input(alloc: Global, declared: &InputDecl) -> Result<InputDecl, AllocError>
    ensures { IfOk result (λ copy. copy ≡ declared.now) }
{
    let extents = copies(alloc, declared.extents.as_slice())?;
    Ok(InputDecl {
        name: declared.name.copy(alloc)?,
        extents,
    })
}

fn inputs(alloc: Global, declared: &[InputDecl]) -> Result<Items<InputDecl>, AllocError>
    ensures { IfOk result (λ copies. copies ≡ declared.now) }
{
    let mut copies = Items::new(alloc);
    for item in declared {
        copies.push(input(alloc, item)?)?;
    }
    Ok(copies)
}

fn boxed(alloc: Global, term: Term) -> Result<Boxed<Term>, AllocError>
    ensures { IfOk result (λ e. e ≡ term) }
{
    Ok(Boxed::new(alloc, term)?)
}

fn term(alloc: Global, term: &Term) -> Result<Boxed<Term>, AllocError>
    ensures { IfOk result (λ e. e ≡ term.now) }
{
    match copy(alloc, term) {
        Ok(copy) => boxed(alloc, copy),
        Err(_) => Err(AllocError),
    }
}

fn output(alloc: Global, declared: &OutputDecl) -> Result<OutputDecl, AllocError>
    ensures { IfOk result (λ o. o ≡ declared.now) }
{
    let (name, term) = two(declared.name.copy(alloc), term(alloc, &declared.term))?;
    Ok(OutputDecl {
        name,
        term: term.into_inner(),
    })
}

fn outputs(alloc: Global, declared: &[OutputDecl]) -> Result<Items<OutputDecl>, AllocError>
    ensures { IfOk result (λ copies. copies ≡ declared.now) }
{
    let mut copies = Items::new(alloc);
    for item in declared {
        copies.push(output(alloc, item)?)?;
    }
    Ok(copies)
}

/// An equal module.
pub fn copy_module(alloc: Global, module: &Module) -> Result<Module, AllocError>
    ensures { IfOk result (λ m. m ≡ «module».now) }
{
    let (inputs, outputs) = two(
        inputs(alloc, module.inputs.as_slice()),
        outputs(alloc, module.outputs.as_slice()),
    )?;
    let (sizes, assumes) = two(
        sizes(alloc, module.sizes.as_slice()),
        assumes(alloc, module.assumes.as_slice()),
    )?;
    let example = Items::from_slice(alloc, module.example.as_slice())?;
    Ok(Module {
        version: module.version,
        sizes,
        assumes,
        example,
        inputs,
        outputs,
    })
}

fn assumes(alloc: Global, cmps: &[Cmp]) -> Result<Items<Cmp>, AllocError>
    ensures { IfOk result (λ copies. copies ≡ cmps.now) }
{
    match copy_cmps(alloc, cmps) {
        Ok(copies) => Ok(copies),
        Err(_) => Err(AllocError),
    }
}

fn lines(alloc: Global, lines: &Lines) -> Result<Lines, AllocError>
    ensures { IfOk result (λ copy. copy ≡ lines.now) }
{
    match lines {
        Lines::Default => Ok(Lines::Default),
        Lines::Given(given) => Ok(Lines::Given(Items::from_slice(alloc, given.as_slice())?)),
    }
}

/// Equal final lines.
pub fn copy_finals(alloc: Global, finals: &[FinalLine]) -> Result<Items<FinalLine>, AllocError>
    ensures { IfOk result (λ copies. copies ≡ finals.now) }
{
    let mut copies = Items::new(alloc);
    for line in finals {
        copies.push(FinalLine {
            goal: line.goal,
            lines: lines(alloc, &line.lines)?,
        })?;
    }
    Ok(copies)
}

/// Equal paths.
pub fn copy_paths(alloc: Global, paths: &[Path]) -> Result<Items<Path>, AllocError>
    ensures { IfOk result (λ copies. copies ≡ paths.now) }
{
    let mut copies = Items::new(alloc);
    for path in paths {
        copies.push(copied_path(alloc, path)?)?;
    }
    Ok(copies)
}
