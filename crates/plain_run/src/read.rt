//! What a text gives to a module.

ghost use Rattle.std.specs.Prelude.{◌≤◌, IfErr, IfOk, length};
ghost use Rattle.given_text.specs.Answer.{Answers as Reads, IsRefusedText, read_bytes};
ghost use Rattle.given_text.specs.Given.{GivenText};
ghost use Rattle.source_grammar.specs.Source.{input_names, size_names};

use crate::names::given_names;
use given_text::{GivenFault, read_given};
use loop_run::Given;
use std::alloc::Global;
use term_tree::Module;

/// What the text gives to the sizes and inputs of the module.
pub fn read(alloc: Global, module: &Module, text: &[u8]) -> Result<Given, GivenFault>
    requires { length text.now ≤ 2147483647 }
    ensures exact { Reads result (read_bytes (size_names «module».now.sizes) (input_names «module».now.inputs) text.now) }
    ensures found { IfOk result (λ given. GivenText (size_names «module».now.sizes) (input_names «module».now.inputs) text.now given) }
    ensures refused { IfErr result (λ fault. IsRefusedText (size_names «module».now.sizes) (input_names «module».now.inputs) text.now fault) }
{
    match given_names(alloc, module) {
        Ok(names) => read_given(alloc, &names, module.sizes.len(), text),
        Err(_) => Err(GivenFault::Memory),
    }
}
