//! Names that are declared or bound.

ghost use Rattle.std.specs.Prelude.{◌≡◌, ◌<◌, ◌^◌, ◌∷◌, ◌++◌, [], None, length, IfSome, MatchResult};
ghost use Rattle.reader_laws.specs.declared.fault.ReadError.TheVariants.{Memory};
ghost use Rattle.reader_laws.specs.Steps.{place_from};
ghost use Rattle.source_grammar.specs.Scope as spec;
ghost use Rattle.term_reader.specs.Frames.{entries_of, outermost};

use indexmap::IndexSet;
use reader_laws::ReadError;
use source_grammar::{Meaning, Sort, same_sort};
use std::alloc::Global;
use std::marker::Model;

/// Different names in order, each found in constant time.
#[derive(Drop)]
pub struct NameSet<'a> {
    names: IndexSet<&'a str>,
}

impl<'a> Model for NameSet<'a> {
    ghost use Rattle.std.specs.Prelude.{List, map, length, ◌<◌, ◌^◌};
    ghost use Rattle.text_tokens.specs.Kinds.{Text};

    ghost Value = { List Text };

    ghost view = { λ s. map (λ n. n.now) s.names.keys };

    ghost invariant = { λ s. length s.names.keys < 2 ^ 32 };
}

impl<'a> NameSet<'a> {
    pub fn new(alloc: Global) -> NameSet<'a>
        ensures { result ≡ [] }
    {
        NameSet {
            names: IndexSet::new(alloc),
        }
    }

    /// How many names there are.
    #[tactic(auto, using(crate::proofs::ScopeLaws::names_counted))]
    pub fn count(&self) -> u32
        ensures { result ≡ length self.now }
    {
        self.names.len() as u32
    }

    /// Where the name is among these.
    #[tactic(auto, using(crate::proofs::ScopeLaws::place_position))]
    pub fn place(&self, name: &str) -> Option<usize>
        ensures value { result ≡ place_from 0 name.now self.now }
        ensures within { IfSome result (λ at. at < length self.now) }
        ensures few { length self.now < 2 ^ 32 }
    {
        self.names.get_index_of(name)
    }

    /// A name that is not there yet, as the last.
    #[tactic(auto, using(crate::proofs::ScopeLaws::names_added))]
    pub fn add(&mut self, name: &'a str) -> Result<(), ReadError>
        requires { place_from 0 name.now self.old ≡ None }
        ensures { MatchResult result (λ _. self.new ≡ self.old ++ name.now ∷ []) (λ e. e ≡ Memory) }
    {
        if self.names.len() >= 4_294_967_295 {
            return Err(ReadError::Memory);
        }
        let Ok(_) = self.names.insert(name) else {
            return Err(ReadError::Memory);
        };
        Ok(())
    }
}

/// The names that may be used at one place: those that are declared, and those that are bound around it.
#[derive(Clone, Copy)]
pub enum Scope<'s, 'a> {
    /// So many sizes come first among these names, and then so many inputs.
    Declared(&'s NameSet<'a>, u32, u32),
    /// One name more, which is the innermost.
    Local(&'a str, Sort, &'s Scope<'s, 'a>),
}

/// What a declared name means.
#[tactic(auto, using(crate::proofs::ScopeLaws::declared_meaning))]
fn declared(names: &NameSet<'_>, sizes: u32, inputs: u32, name: &str) -> Option<Meaning>
    ensures { result ≡ spec.meaning (outermost names.now sizes inputs) name.now }
{
    let number = names.place(name)? as u32;
    if number < sizes {
        return Some(Meaning {
            sort: Sort::OfSize,
            number,
        });
    }
    let number = number - sizes;
    if number < inputs {
        return Some(Meaning {
            sort: Sort::OfTensor,
            number,
        });
    }
    None
}

/// A meaning, seen from within one name more of this sort. No text has so many names that their numbers do not fit.
fn past(sort: Sort, meaning: Option<Meaning>) -> Result<Option<Meaning>, ReadError>
    ensures { MatchResult result (λ m. m ≡ spec.past sort meaning) (λ e. e ≡ Memory) }
{
    let Some(found) = meaning else {
        return Ok(None);
    };
    if !same_sort(sort, found.sort) {
        return Ok(Some(found));
    }
    match found.number.checked_add(1) {
        Some(number) => Ok(Some(Meaning {
            sort: found.sort,
            number,
        })),
        None => Err(ReadError::Memory),
    }
}

impl<'s, 'a> Scope<'s, 'a> {
    /// The innermost meaning of a name. Takes as many steps as names are bound here.
    pub fn meaning(&self, name: &str) -> Result<Option<Meaning>, ReadError>
        ensures { MatchResult result (λ m. m ≡ spec.meaning (entries_of self.now) name.now) (λ e. e ≡ Memory) }
    {
        match self {
            Scope::Declared(names, sizes, inputs) => Ok(declared(names, *sizes, *inputs, name)),
            Scope::Local(local, sort, outer) => {
                if name == *local {
                    return Ok(Some(Meaning {
                        sort: *sort,
                        number: 0,
                    }));
                }
                past(*sort, outer.meaning(name)?)
            }
        }
    }
}
