//! Names.

ghost use Rattle.std.specs.Prelude.{◌≡◌, string_bytes, IfOk};

use std::alloc::{AllocError, Global};
use std::marker::Model;

/// A declared name, which contracts see as its bytes.
#[derive(Debug, Drop)]
pub struct Name {
    text: String,
}

impl Model for Name {
    ghost use Rattle.std.specs.Prelude.{List, ℕ, string_bytes};

    ghost Value = { List ℕ };

    ghost view = { λ name. string_bytes name.text };
}

impl Name {
    pub fn new(text: String) -> Name
        ensures { result ≡ string_bytes text }
    {
        Name { text }
    }

    pub fn as_str(&self) -> &str
        ensures { result.now ≡ self.now }
    {
        self.text.as_str()
    }

    /// A name equal to this one.
    pub fn copy(&self, alloc: Global) -> Result<Name, AllocError>
        ensures { IfOk result (λ copy. copy ≡ self.now) }
    {
        Ok(Name {
            text: String::from_str(alloc, self.text.as_str())?,
        })
    }
}
