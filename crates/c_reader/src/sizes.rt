//! Reads how many sizes there are: the parameters of the first length.

ghost use Rattle.std.specs.Prelude.{◌≡◌, ◌≤◌};
ghost use Rattle.text_tokens.specs.Words.{peek};
ghost use Rattle.reader_laws.specs.Steps.{Reads};
ghost use Rattle.c_read.specs.Units as reading;
ghost use Rattle.c_reader.specs.Units as spec;

use crate::parameters::size_name;
use c_read::words::{expect, misplaced};
use c_words::CWords;
use reader_laws::ReadError;
use text_tokens::{Kind, same_kind};

/// One size more behind so many.
#[tactic(auto, using(crate::proofs::Limits::fits_below, crate::proofs::Limits::fits_not))]
fn one_size(words: &mut CWords<'_>, sizes: u32) -> Result<u32, ReadError>
    ensures { Reads (λ x. x) (reading.one_size sizes words.old) result words.new }
{
    if sizes == 4_294_967_295 {
        return Err(misplaced(words));
    }
    expect(words, Kind::Comma, b",")?;
    expect(words, Kind::Name, b"int64_t")?;
    size_name(words, sizes)?;
    Ok(sizes + 1)
}

/// The sizes behind so many, as long as a comma comes.
#[tactic(auto, using(crate::proofs::SizeTurns::sizes_stop, crate::proofs::SizeTurns::sizes_went))]
fn more_sizes(words: &mut CWords<'_>, mut sizes: u32) -> Result<u32, ReadError>
    ensures { Reads (λ x. x) (spec.more_sizes sizes words.old) result words.new }
{
    while same_kind(words.peek(), Kind::Comma) {
        let more = one_size(words, sizes)?;
        sizes = more;
    }
    Ok(sizes)
}

#[tactic(auto, unfolding(crate::specs::Units::some_sizes))]
fn some_sizes(words: &mut CWords<'_>) -> Result<u32, ReadError>
    ensures { Reads (λ x. x) (spec.some_sizes words.old) result words.new }
{
    expect(words, Kind::Name, b"int64_t")?;
    size_name(words, 0)?;
    more_sizes(words, 1)
}

fn no_sizes(words: &mut CWords<'_>) -> Result<u32, ReadError>
    ensures { Reads (λ x. x) (reading.no_sizes words.old) result words.new }
{
    expect(words, Kind::Name, b"void")?;
    Ok(0)
}

fn is_void(words: &CWords<'_>) -> bool
    ensures { result ≡ reading.is_void (peek words.now) }
{
    same_kind(words.peek(), Kind::Name) && words.text() == b"void".as_slice()
}

/// How many sizes there are.
#[tactic(auto, unfolding(crate::specs::Units::sizes))]
pub fn sizes(words: &mut CWords<'_>) -> Result<u32, ReadError>
    ensures { Reads (λ x. x) (spec.sizes words.old) result words.new }
{
    if is_void(words) {
        no_sizes(words)
    } else {
        some_sizes(words)
    }
}
