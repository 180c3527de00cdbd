//! Versions, one after another.

ghost use Rattle.std.specs.Prelude.{◌≡◌, ◌++◌, All, IfOk, OnOk};
ghost use Rattle.atl_printer.specs.PrintableModule.{IsPrintableModule};
ghost use Rattle.stages_text.specs.Stages.{AreBlocks, block, stages, version_line};

use atl_printer::{PrintFault, print_module};
use itoa::Buffer;
use std::alloc::Global;
use term_tree::Module;

/// The line above the text of this version.
fn put_line(text: &mut Vec<u8>, version: usize) -> Result<(), PrintFault>
    ensures { OnOk result (text.new.items ≡ text.old.items ++ version_line version) }
{
    text.extend_from_slice(b"# version ")?;
    text.extend_from_slice(Buffer::new().format(version).as_bytes())?;
    text.extend_from_slice(b"\n")?;
    Ok(())
}

/// A version below its line.
fn put_block(
    alloc: Global,
    text: &mut Vec<u8>,
    version: usize,
    module: &Module,
) -> Result<(), PrintFault>
    requires { IsPrintableModule «module».now }
    ensures { OnOk result (text.new.items ≡ text.old.items ++ block version «module».now) }
{
    put_line(text, version)?;
    let canonical = print_module(alloc, module)?;
    text.extend_from_slice(canonical.as_slice())?;
    Ok(())
}

/// The text of versions: for each the line `# version V`, V from 0, and its canonical text. Linear in the text.
pub fn print_stages(alloc: Global, versions: &[Module]) -> Result<Vec<u8>, PrintFault>
    requires { All IsPrintableModule versions.now }
    ensures text { IfOk result (λ text. text.items ≡ stages versions.now) }
    // The text below each line is that of its version, and of no other module.
    ensures reads_back { IfOk result (λ text. AreBlocks 0 versions.now text.items) }
{
    let mut text = Vec::new(alloc);
    for version in 0..versions.len() {
        put_block(alloc, &mut text, version, &versions[version])?;
    }
    Ok(text)
}
