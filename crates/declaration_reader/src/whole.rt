//! Reads whole texts.

ghost use Rattle.std.specs.Prelude.{◌≡◌, [], length, IfOk};
ghost use Rattle.reader_laws.specs.Steps.{Reads};
ghost use Rattle.source_grammar.specs.ReadSource as spec;
ghost use Rattle.source_grammar.specs.Source.{size_names};
ghost use Rattle.declaration_reader.specs.Steps as steps;

use crate::inputs::inputs;
use crate::outputs::outputs;
use crate::sizes::{assumes, example, sizes};
use crate::words::version;
use affine_index::Cmp;
use reader_laws::{ReadError, expect_in};
use sqlite_items::Items;
use std::alloc::Global;
use term_reader::{NameSet, Scope};
use term_tree::{InputDecl, Module, OutputDecl, SizeDecl};
use text_tokens::{Kind, Tokens};

/// `atl VERSION ;`.
#[tactic(auto, unfolding(source_grammar::specs::ReadSource::header))]
fn header(tokens: &mut Tokens<'_>, number: u32) -> Result<(), ReadError>
    ensures { Reads (λ x. x) (spec.header number tokens.old) result tokens.new }
{
    expect_in(tokens, 1_000, Kind::Atl)?;
    version(tokens, number)?;
    expect_in(tokens, 1_000, Kind::Semi)
}

/// What stands before the inputs.
#[derive(Drop)]
struct Front {
    sizes: Items<SizeDecl>,
    assumes: Items<Cmp>,
    example: Items<u64>,
}

fn bounds<'a>(
    alloc: Global,
    names: &mut NameSet<'a>,
    tokens: &mut Tokens<'a>,
) -> Result<(Items<SizeDecl>, Items<Cmp>), ReadError>
    requires { names.old ≡ [] }
    ensures reads { Reads (λ x. x) (steps.bounds tokens.old) result tokens.new }
    ensures names { IfOk result (λ (sizes, assumes). names.new ≡ size_names sizes) }
{
    let sizes = sizes(alloc, names, tokens)?;
    let count = names.count();
    let scope = Scope::Declared(&*names, count, 0);
    let assumes = assumes(alloc, &scope, tokens)?;
    Ok((sizes, assumes))
}

fn before_inputs<'a>(
    alloc: Global,
    names: &mut NameSet<'a>,
    tokens: &mut Tokens<'a>,
) -> Result<Front, ReadError>
    requires { names.old ≡ [] }
    ensures reads { Reads (λ x. x) (steps.front tokens.old) result tokens.new }
    ensures names { IfOk result (λ front. names.new ≡ size_names front.sizes) }
{
    let (sizes, assumes) = bounds(alloc, names, tokens)?;
    let example = example(alloc, sizes.as_slice(), tokens)?;
    Ok(Front {
        sizes,
        assumes,
        example,
    })
}

/// The inputs and outputs, where the names of the sizes are declared before.
fn back<'a>(
    alloc: Global,
    version: u32,
    names: &mut NameSet<'a>,
    tokens: &mut Tokens<'a>,
) -> Result<(Items<InputDecl>, Items<OutputDecl>), ReadError>
    ensures { Reads (λ x. x) (steps.back version names.old tokens.old) result tokens.new }
{
    let sizes = names.count();
    let inputs = inputs(alloc, names, sizes, tokens)?;
    let more = names.count() - sizes;
    let outputs = outputs(alloc, version, names, sizes, more, tokens)?;
    Ok((inputs, outputs))
}

/// The module of a text of this version, whose words these are. Linear in the bytes but for long index forms.
#[tactic(auto, using(crate::proofs::WholeLaws::whole_is))]
pub fn source(alloc: Global, tokens: &mut Tokens<'_>, version: u32) -> Result<Module, ReadError>
    ensures { Reads (λ x. x) (spec.source version tokens.old) result tokens.new }
{
    header(tokens, version)?;
    let mut names = NameSet::new(alloc);
    let Front {
        sizes,
        assumes,
        example,
    } = before_inputs(alloc, &mut names, tokens)?;
    let (inputs, outputs) = back(alloc, version, &mut names, tokens)?;
    Ok(Module {
        version,
        sizes,
        assumes,
        example,
        inputs,
        outputs,
    })
}
