//! Whole source texts.

ghost use Rattle.std.specs.Prelude.{◌≡◌, ◌<◌, true, length, IfOk, IfErr, Ok};
ghost use Rattle.term_tree.specs.declared.term.Module.{Module as Value};
ghost use Rattle.term_tree.specs.Modules.{module_scoped};
ghost use Rattle.reader_laws.specs.Steps as steps;
ghost use Rattle.reader_laws.specs.Steps.{Gives};
ghost use Rattle.source_grammar.specs.ReadSource as grammar;
ghost use Rattle.source_grammar.specs.Source.{SourceText, language};
ghost use Rattle.atl_reader.specs.Source as spec;
ghost use Rattle.atl_reader.specs.Source.{Answers, IsCause, IsFirstFault, declarations};

use crate::fault::{ReadFault, fault_of};
use crate::limits::{all_nodes, deep, place_of_term};
use declaration_reader::source;
use reader_laws::{ReadError, finish};
use std::alloc::Global;
use term_tree::Module;
use text_tokens::{Kind, Language, Tokens, same_kind};

/// How many nodes the terms of a module may have together.
const MOST_NODES: u64 = 20_000;

/// The version that a text names: 2 where it begins with `atl 2`, and else 1.
#[tactic(auto, unfolding(crate::specs::Source::version_at))]
fn version_of(text: &str) -> u32
    ensures { result ≡ spec.version_of text.now }
{
    let mut tokens = Tokens::new(Language::SourceOne, text);
    let first = tokens.peek();
    tokens.take();
    if same_kind(first, Kind::Atl)
        && same_kind(tokens.peek(), Kind::Number)
        && tokens.text() == "2"
    {
        2
    } else {
        1
    }
}

fn language_of(version: u32) -> Language
    ensures { result ≡ language version }
{
    if version == 1 {
        Language::SourceOne
    } else {
        Language::SourceTwo
    }
}

/// The module of all words of a text of this version.
#[tactic(auto, unfolding(reader_laws::specs::Steps::read_whole))]
fn whole(alloc: Global, text: &str, version: u32) -> Result<Module, ReadError>
    ensures { Gives (λ x. x) result (steps.read_whole (language version) (grammar.source version) text.now) }
{
    let mut tokens = Tokens::new(language_of(version), text);
    let module = source(alloc, &mut tokens, version)?;
    match finish(&tokens) {
        Ok(()) => Ok(module),
        Err(e) => Err(e),
    }
}

/// A module that was read, where its terms are within the limits.
fn within(text: &str, version: u32, read: Module) -> Result<Module, ReadFault>
    ensures { result ≡ spec.within (spec.deep_from 0 read.outputs) version text.now read }
{
    if let Some(output) = deep(read.outputs.as_slice()) {
        let at = place_of_term(language_of(version), text, output);
        return Err(ReadFault::TooDeep { at });
    }
    let nodes = all_nodes(read.outputs.as_slice());
    if nodes > MOST_NODES {
        return Err(ReadFault::TooManyNodes { nodes });
    }
    Ok(read)
}

#[tactic(auto, unfolding(crate::specs::Source::read_text))]
fn read_text(alloc: Global, text: &str, version: u32) -> Result<Module, ReadFault>
    ensures { Answers result (spec.read_text version text.now) }
{
    match whole(alloc, text, version) {
        Ok(module) => within(text, version, module),
        Err(error) => Err(fault_of(error)),
    }
}

fn read_bytes(alloc: Global, text: &[u8]) -> Result<Module, ReadFault>
    ensures { Answers result (spec.read_source text.now) }
{
    match std::str::from_utf8(text) {
        Ok(text) => {
            let version = version_of(text);
            read_text(alloc, text, version)
        }
        Err(error) => Err(ReadFault::NotUtf8 {
            at: error.valid_up_to() as u64,
        }),
    }
}

/// The module of a source text. Takes a number of steps that is linear in the bytes, but for the arithmetic of long indices and the
/// names that are bound around a name.
pub fn read_module(alloc: Global, text: &[u8]) -> Result<Module, ReadFault>
    // What is read is the module of the text.
    ensures found { IfOk result (λ m. SourceText text.now m) }
    // What is the module of the text is read.
    ensures only { (m : Value) → SourceText text.now m → Answers result (Ok m) }
    // A refusal has its cause, at the first place that decides it.
    ensures refused { IfErr result (λ fault. IsCause text.now fault) }
    // A fault of a word or an operator is the first: the words before it are the beginning of a source.
    ensures first { IfErr result (λ fault. IsFirstFault text.now fault) }
    // Which answer it is.
    ensures exact { Answers result (spec.read_source text.now) }
    ensures scoped { IfOk result (λ m. module_scoped m ≡ true) }
    ensures example { IfOk result (λ m. length m.example ≡ length m.sizes) }
    ensures few { IfOk result (λ m. declarations m < length text.now) }
{
    read_bytes(alloc, text)
}
