//! Why a text could not be read.

use std::alloc::{AllocError, AllocFailed};

/// What is wrong with a word, in the order in which the causes are looked for at one word; the last of an
/// operator's causes are those of the index that it makes.
#[derive(Clone, Copy, Debug, PartialEq, Eq)]
pub enum Fault {
    /// No word begins with this character.
    BadToken,
    /// One level too many is opened here.
    TooDeep,
    /// The grammar allows no such word here.
    BadSyntax,
    NumberTooLarge,
    ReservedName,
    NameTwice,
    UnknownName,
    /// A product of two indices that both hold a variable.
    NotAffine,
    CoefficientTooLarge,
    IndexTooLong,
}

#[derive(Clone, Copy, Debug, PartialEq, Eq)]
pub enum ReadError {
    Memory,
    /// The first fault, and how many bytes stand before its word.
    Refused(Fault, u64),
}

impl From<AllocError> for ReadError {
    ghost use Rattle.std.specs.Prelude.{◌≡◌};
    ghost use Rattle.reader_laws.specs.declared.fault.ReadError.TheVariants.{Memory};

    ghost from_gives = { λ _ e. e ≡ Memory };

    fn from(_: AllocError) -> ReadError {
        ReadError::Memory
    }
}

impl<T: Drop> From<AllocFailed<T>> for ReadError {
    ghost use Rattle.std.specs.Prelude.{◌≡◌};
    ghost use Rattle.reader_laws.specs.declared.fault.ReadError.TheVariants.{Memory};

    ghost from_gives = { λ _ e. e ≡ Memory };

    fn from(_: AllocFailed<T>) -> ReadError {
        ReadError::Memory
    }
}
