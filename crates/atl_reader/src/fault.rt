//! Why a source could not be read.

ghost use Rattle.std.specs.Prelude.{◌≡◌};
ghost use Rattle.atl_reader.specs.Source as spec;

use reader_laws::{Fault, ReadError};

/// The first fault of a source text, and how many bytes stand before its word; for what an operator of an index makes, before the
/// operator.
#[derive(Clone, Copy, Debug, PartialEq, Eq)]
pub enum ReadFault {
    /// At the end of the longest front that is UTF-8.
    NotUtf8 { at: u64 },
    /// No word begins with this character.
    BadToken { at: u64 },
    /// The grammar allows no such word here, or the text ends.
    BadSyntax { at: u64 },
    /// This word opens level 1,001; or the output's term, which begins here, is deeper than 200.
    TooDeep { at: u64 },
    /// The innermost meaning of the name is of another sort, or there is none.
    UnknownName { at: u64 },
    NameTwice { at: u64 },
    /// A declared name is `i` or `t` and then digits.
    ReservedName { at: u64 },
    NumberTooLarge { at: u64 },
    /// A product of two indices that both hold a variable.
    NotAffine { at: u64 },
    CoefficientTooLarge { at: u64 },
    IndexTooLong { at: u64 },
    /// The terms of all outputs have over 20,000 nodes.
    TooManyNodes { nodes: u64 },
    Memory,
}

/// The fault of a word at this place.
fn placed(fault: Fault, at: u64) -> ReadFault
    ensures { result ≡ spec.fault_at fault at }
{
    match fault {
        Fault::BadToken => ReadFault::BadToken { at },
        Fault::TooDeep => ReadFault::TooDeep { at },
        Fault::BadSyntax => ReadFault::BadSyntax { at },
        Fault::NumberTooLarge => ReadFault::NumberTooLarge { at },
        Fault::ReservedName => ReadFault::ReservedName { at },
        Fault::NameTwice => ReadFault::NameTwice { at },
        Fault::UnknownName => ReadFault::UnknownName { at },
        Fault::NotAffine => ReadFault::NotAffine { at },
        Fault::CoefficientTooLarge => ReadFault::CoefficientTooLarge { at },
        Fault::IndexTooLong => ReadFault::IndexTooLong { at },
    }
}

/// The fault of a text that was not read.
pub(crate) fn fault_of(error: ReadError) -> ReadFault
    ensures { result ≡ spec.fault_of error }
{
    match error {
        ReadError::Memory => ReadFault::Memory,
        ReadError::Refused(fault, at) => placed(fault, at),
    }
}
