//! The names of sizes and index variables.

ghost use Rattle.std.specs.Prelude.{◌≡◌, MatchResult};
ghost use Rattle.reader_laws.specs.declared.fault.ReadError.TheVariants.{Memory};
ghost use Rattle.term_reader.specs.Names as spec;
ghost use Rattle.term_reader.specs.Names.{named, known_form, form_of};

use crate::scope::Scope;
use affine_index::Aff;
use reader_laws::ReadError;
use source_grammar::{Meaning, Sort};
use std::alloc::Global;

/// What the names in an index may stand for.
#[derive(Clone, Copy, Debug, PartialEq, Eq)]
pub enum Over {
    /// Sizes: in an extent, an amount or an assume.
    Sizes,
    /// Sizes and index variables.
    Indices,
}

/// The names that may stand in an index.
#[derive(Clone, Copy)]
pub struct Names<'s, 'a> {
    pub scope: &'s Scope<'s, 'a>,
    pub over: Over,
}

/// A size or an index variable.
#[derive(Clone, Copy, Debug, PartialEq, Eq)]
pub enum Known {
    Size(u32),
    Index(u32),
}

fn known_as(over: Over, meaning: Meaning) -> Option<Known>
    ensures { known_form result ≡ spec.form_name over meaning.sort meaning.number }
{
    match meaning.sort {
        Sort::OfSize => Some(Known::Size(meaning.number)),
        Sort::OfIndex => match over {
            Over::Sizes => None,
            Over::Indices => Some(Known::Index(meaning.number)),
        },
        Sort::OfTensor => None,
    }
}

impl<'s, 'a> Names<'s, 'a> {
    /// What the innermost meaning of the name is, where that may stand here.
    pub fn known(&self, name: &str) -> Result<Option<Known>, ReadError>
        ensures { MatchResult result (λ x. known_form x ≡ named self.now name.now) (λ e. e ≡ Memory) }
    {
        match self.scope.meaning(name)? {
            Some(meaning) => Ok(known_as(self.over, meaning)),
            None => Ok(None),
        }
    }
}

impl Known {
    /// The form of it alone.
    pub fn form(self, alloc: Global) -> Result<Aff, ReadError>
        ensures { MatchResult result (λ x. x ≡ form_of self) (λ e. e ≡ Memory) }
    {
        let form = match self {
            Known::Size(number) => Aff::size(alloc, number),
            Known::Index(number) => Aff::var(alloc, number),
        };
        match form {
            Ok(form) => Ok(form),
            Err(_) => Err(ReadError::Memory),
        }
    }
}
