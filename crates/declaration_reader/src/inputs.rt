//! The lines of inputs.

ghost use Rattle.std.specs.Prelude.{◌≡◌, ◌≤◌, ◌∷◌, ◌++◌, [], length, IfOk};
ghost use Rattle.reader_laws.specs.Steps.{Reads};
ghost use Rattle.source_grammar.specs.Source.{input_names};
ghost use Rattle.term_reader.specs.Frames.{entries_of, outermost};
ghost use Rattle.declaration_reader.specs.Steps as steps;

use crate::words::{declare, name_of};
use affine_index::Aff;
use reader_laws::{Fault, ReadError, expect_in, refuse};
use sqlite_items::Items;
use std::alloc::Global;
use term_reader::{NameSet, Names, Over, Scope, sum};
use term_tree::InputDecl;
use text_tokens::{Kind, Tokens, same_kind};

/// More lines than a text has.
const MOST_LINES: usize = 9_223_372_036_854_775_808;

/// `EXTENT ]`.
#[tactic(auto, unfolding(crate::specs::Steps::extent_of))]
fn extent(alloc: Global, scope: &Scope<'_, '_>, tokens: &mut Tokens<'_>) -> Result<Aff, ReadError>
    ensures { Reads (λ x. x) (steps.extent_of (entries_of scope.now) tokens.old) result tokens.new }
{
    let names = Names {
        scope,
        over: Over::Sizes,
    };
    let extent = sum(alloc, &names, tokens, 999)?;
    match expect_in(tokens, 999, Kind::RBracket) {
        Ok(()) => Ok(extent),
        Err(e) => Err(e),
    }
}

/// Extents, each after `[`.
#[tactic(auto, using(reader_laws::proofs::Repeated::stop, reader_laws::proofs::Repeated::fell, reader_laws::proofs::Repeated::full, crate::proofs::LineLaws::lines))]
fn extents(
    alloc: Global,
    scope: &Scope<'_, '_>,
    tokens: &mut Tokens<'_>,
) -> Result<Items<Aff>, ReadError>
    ensures { Reads (λ x. x) (steps.extents (entries_of scope.now) tokens.old) result tokens.new }
{
    let mut found = Items::new(alloc);
    for _turn in 0..MOST_LINES {
        if !same_kind(tokens.peek(), Kind::LBracket) {
            return Ok(found);
        }
        tokens.take();
        let extent = extent(alloc, scope, tokens)?;
        found.push(extent)?;
    }
    if same_kind(tokens.peek(), Kind::LBracket) {
        return Err(refuse(Fault::TooDeep, tokens));
    }
    Ok(found)
}

/// `NAME [ EXTENT ] .. ;`, where these names are declared before, of which so many first ones are sizes.
#[tactic(auto, unfolding(crate::specs::Steps::input_line), using(crate::proofs::LineLaws::sizes_stay))]
fn input_line<'a>(
    alloc: Global,
    names: &mut NameSet<'a>,
    sizes: u32,
    tokens: &mut Tokens<'a>,
) -> Result<InputDecl, ReadError>
    requires { sizes ≤ length names.old }
    ensures reads { Reads (λ x. x) (steps.input_line names.old (outermost names.old sizes 0) tokens.old) result tokens.new }
    ensures added { IfOk result (λ d. names.new ≡ names.old ++ d.name ∷ []) }
{
    let name = declare(names, tokens)?;
    let scope = Scope::Declared(&*names, sizes, 0);
    let extents = extents(alloc, &scope, tokens)?;
    expect_in(tokens, 1_000, Kind::Semi)?;
    let name = name_of(alloc, name)?;
    Ok(InputDecl { name, extents })
}

/// The inputs, each after `input`, where the names of so many sizes are declared before.
#[tactic(auto, using(reader_laws::proofs::Repeated::stop, reader_laws::proofs::Repeated::fell, reader_laws::proofs::Repeated::full, crate::proofs::LineLaws::lines, crate::proofs::LineLaws::sizes_stay))]
pub(crate) fn inputs<'a>(
    alloc: Global,
    names: &mut NameSet<'a>,
    sizes: u32,
    tokens: &mut Tokens<'a>,
) -> Result<Items<InputDecl>, ReadError>
    requires { sizes ≡ length names.old }
    ensures reads { Reads (λ x. x) (steps.inputs names.old tokens.old) result tokens.new }
    ensures names { IfOk result (λ is. names.new ≡ names.old ++ input_names is) }
{
    let mut found = Items::new(alloc);
    for _turn in 0..MOST_LINES {
        if !same_kind(tokens.peek(), Kind::Input) {
            return Ok(found);
        }
        tokens.take();
        let input = input_line(alloc, names, sizes, tokens)?;
        found.push(input)?;
    }
    if same_kind(tokens.peek(), Kind::Input) {
        return Err(refuse(Fault::TooDeep, tokens));
    }
    Ok(found)
}
