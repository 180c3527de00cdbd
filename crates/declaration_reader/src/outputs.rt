//! The lines of outputs.

ghost use Rattle.std.specs.Prelude.{◌≡◌, ◌≤◌, ◌+◌, ◌∷◌, ◌++◌, [], length, take, IfOk, MatchResult};
ghost use Rattle.reader_laws.specs.declared.fault.ReadError.TheVariants.{Memory};
ghost use Rattle.reader_laws.specs.Steps.{Reads};
ghost use Rattle.source_grammar.specs.Source.{output_names};
ghost use Rattle.term_reader.specs.Frames.{outermost};
ghost use Rattle.declaration_reader.specs.Steps as steps;

use crate::words::{declare, name_of};
use reader_laws::{Fault, ReadError, expect_in, refuse};
use sqlite_items::{Boxed, Items};
use std::alloc::Global;
use term_reader::{NameSet, Scope, term};
use term_tree::{OutputDecl, Term};
use text_tokens::{Kind, Tokens, same_kind};

/// More lines than a text has.
const MOST_LINES: usize = 9_223_372_036_854_775_808;

/// An output of this name.
fn output_of(alloc: Global, name: &str, term: Boxed<Term>) -> Result<Boxed<OutputDecl>, ReadError>
    ensures { MatchResult result (λ d. d ≡ record { name = name.now; term = term }) (λ e. e ≡ Memory) }
{
    let name = name_of(alloc, name)?;
    let output = OutputDecl {
        name,
        term: term.into_inner(),
    };
    match Boxed::new(alloc, output) {
        Ok(output) => Ok(output),
        Err(_) => Err(ReadError::Memory),
    }
}

/// `NAME = TERM ;`, where these names are declared before, so many sizes first and then so many inputs.
#[tactic(auto, unfolding(crate::specs::Steps::output_line), using(crate::proofs::LineLaws::declared_stay))]
fn output_line<'a>(
    alloc: Global,
    names: &mut NameSet<'a>,
    sizes: u32,
    inputs: u32,
    tokens: &mut Tokens<'a>,
) -> Result<Boxed<OutputDecl>, ReadError>
    requires { sizes + inputs ≤ length names.old }
    ensures reads { Reads (λ x. x) (steps.output_line names.old (outermost names.old sizes inputs) tokens.old) result tokens.new }
    ensures added { IfOk result (λ d. names.new ≡ names.old ++ d.name ∷ []) }
{
    let name = declare(names, tokens)?;
    expect_in(tokens, 1_000, Kind::Assign)?;
    let scope = Scope::Declared(&*names, sizes, inputs);
    let term = term(alloc, &scope, tokens, 1_000)?;
    expect_in(tokens, 1_000, Kind::Semi)?;
    output_of(alloc, name, term)
}

/// Further outputs, each after `output`, behind these.
#[tactic(auto, using(reader_laws::proofs::Repeated::stop, reader_laws::proofs::Repeated::fell, reader_laws::proofs::Repeated::full, crate::proofs::LineLaws::lines, crate::proofs::LineLaws::declared_stay))]
fn more_outputs<'a>(
    alloc: Global,
    names: &mut NameSet<'a>,
    sizes: u32,
    inputs: u32,
    tokens: &mut Tokens<'a>,
    mut found: Items<OutputDecl>,
) -> Result<Items<OutputDecl>, ReadError>
    requires names { names.old ≡ take (sizes + inputs) names.old ++ output_names found }
    requires within { sizes + inputs ≤ length names.old }
    ensures { Reads (λ x. x) (steps.more_outputs (take (sizes + inputs) names.old) (outermost names.old sizes inputs) found tokens.old) result tokens.new }
{
    for _turn in 0..MOST_LINES {
        if !same_kind(tokens.peek(), Kind::Output) {
            return Ok(found);
        }
        tokens.take();
        let output = output_line(alloc, names, sizes, inputs, tokens)?;
        found.push(output.into_inner())?;
    }
    if same_kind(tokens.peek(), Kind::Output) {
        return Err(refuse(Fault::TooDeep, tokens));
    }
    Ok(found)
}

/// The outputs, each after `output`: one in version 1, and at least one in version 2. The names of so many sizes and inputs are declared
/// before.
#[tactic(auto, unfolding(crate::specs::Steps::outputs), using(crate::proofs::LineLaws::before_first, crate::proofs::LineLaws::declared_stay))]
pub(crate) fn outputs<'a>(
    alloc: Global,
    version: u32,
    names: &mut NameSet<'a>,
    sizes: u32,
    inputs: u32,
    tokens: &mut Tokens<'a>,
) -> Result<Items<OutputDecl>, ReadError>
    requires { sizes + inputs ≡ length names.old }
    ensures { Reads (λ x. x) (steps.outputs version names.old (outermost names.old sizes inputs) tokens.old) result tokens.new }
{
    expect_in(tokens, 1_000, Kind::Output)?;
    let first = output_line(alloc, names, sizes, inputs, tokens)?;
    let mut found = Items::new(alloc);
    found.push(first.into_inner())?;
    if version == 1 {
        return Ok(found);
    }
    more_outputs(alloc, names, sizes, inputs, tokens, found)
}
