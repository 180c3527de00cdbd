//! The names of a module.

ghost use Rattle.std.specs.Prelude.{◌≡◌, ◌++◌, IfOk, OnOk, map, string_bytes};
ghost use Rattle.source_grammar.specs.Source.{input_names, output_names, size_names};

use std::alloc::{AllocError, Global};
use term_tree::{InputDecl, Module, OutputDecl, SizeDecl};

fn put_sizes(alloc: Global, names: &mut Vec<String>, sizes: &[SizeDecl]) -> Result<(), AllocError>
    ensures { OnOk result (map string_bytes names.new.items ≡ map string_bytes names.old.items ++ size_names sizes.now) }
{
    for size in sizes {
        let name = String::from_str(alloc, size.name.as_str())?;
        names.push(name)?;
    }
    Ok(())
}

fn put_inputs(
    alloc: Global,
    names: &mut Vec<String>,
    inputs: &[InputDecl],
) -> Result<(), AllocError>
    ensures { OnOk result (map string_bytes names.new.items ≡ map string_bytes names.old.items ++ input_names inputs.now) }
{
    for input in inputs {
        let name = String::from_str(alloc, input.name.as_str())?;
        names.push(name)?;
    }
    Ok(())
}

fn put_outputs(
    alloc: Global,
    names: &mut Vec<String>,
    outputs: &[OutputDecl],
) -> Result<(), AllocError>
    ensures { OnOk result (map string_bytes names.new.items ≡ map string_bytes names.old.items ++ output_names outputs.now) }
{
    for output in outputs {
        let name = String::from_str(alloc, output.name.as_str())?;
        names.push(name)?;
    }
    Ok(())
}

/// The names of sizes, then of inputs.
pub fn given_names(alloc: Global, module: &Module) -> Result<Vec<String>, AllocError>
    ensures { IfOk result (λ names. map string_bytes names.items ≡ size_names «module».now.sizes ++ input_names «module».now.inputs) }
{
    let mut names = Vec::new(alloc);
    put_sizes(alloc, &mut names, module.sizes.as_slice())?;
    put_inputs(alloc, &mut names, module.inputs.as_slice())?;
    Ok(names)
}

/// The names of outputs.
pub fn names_of_outputs(alloc: Global, module: &Module) -> Result<Vec<String>, AllocError>
    ensures { IfOk result (λ names. map string_bytes names.items ≡ output_names «module».now.outputs) }
{
    let mut names = Vec::new(alloc);
    put_outputs(alloc, &mut names, module.outputs.as_slice())?;
    Ok(names)
}
