//! The names of sizes, inputs and outputs in C texts.

ghost use Rattle.std.specs.Prelude.{◌≡◌, ◌++◌, IfOk, OnOk, map, string_bytes};
ghost use Rattle.c_print.specs.Index.{size_name};
ghost use Rattle.c_execution.specs.Names.{input_names, output_names, size_names};

use c_print::buffer_name;
use loop_lang::Buf;
use std::alloc::{AllocError, Global};

/// `n` and a number.
#[tactic(auto, unfolding(c_print::specs::Index::size_name))]
fn size_name(alloc: Global, size: u32) -> Result<String, AllocError>
    ensures { IfOk result (λ name. string_bytes name ≡ size_name size) }
{
    format!(in alloc; "n{size}")
}

fn put_sizes(alloc: Global, names: &mut Vec<String>, sizes: u32) -> Result<(), AllocError>
    ensures { OnOk result (map string_bytes names.new.items ≡ map string_bytes names.old.items ++ size_names sizes) }
{
    for size in 0..sizes {
        names.push(size_name(alloc, size)?)?;
    }
    Ok(())
}

fn put_inputs(alloc: Global, names: &mut Vec<String>, inputs: u32) -> Result<(), AllocError>
    ensures { OnOk result (map string_bytes names.new.items ≡ map string_bytes names.old.items ++ input_names inputs) }
{
    for input in 0..inputs {
        names.push(buffer_name(alloc, Buf::Input(input))?)?;
    }
    Ok(())
}

fn put_outputs(alloc: Global, names: &mut Vec<String>, outputs: u32) -> Result<(), AllocError>
    ensures { OnOk result (map string_bytes names.new.items ≡ map string_bytes names.old.items ++ output_names outputs) }
{
    for output in 0..outputs {
        names.push(buffer_name(alloc, Buf::Output(output))?)?;
    }
    Ok(())
}

/// The names of sizes, then of inputs.
pub fn given_names(alloc: Global, sizes: u32, inputs: u32) -> Result<Vec<String>, AllocError>
    ensures { IfOk result (λ names. map string_bytes names.items ≡ size_names sizes ++ input_names inputs) }
{
    let mut names = Vec::new(alloc);
    put_sizes(alloc, &mut names, sizes)?;
    put_inputs(alloc, &mut names, inputs)?;
    Ok(names)
}

/// The names of outputs.
pub fn names_of_outputs(alloc: Global, outputs: u32) -> Result<Vec<String>, AllocError>
    ensures { IfOk result (λ names. map string_bytes names.items ≡ output_names outputs) }
{
    let mut names = Vec::new(alloc);
    put_outputs(alloc, &mut names, outputs)?;
    Ok(names)
}
