//! Operations on words.

ghost use Rattle.std.specs.Prelude.{◌≡◌};

/// What is done to two words, modulo 2^64.
#[derive(Clone, Copy)]
pub enum Operation {
    Plus,
    Minus,
    Times,
}

impl Operation {
    ghost use Rattle.atl_meaning.specs.Operations.{on_words};

    pub fn apply(self, a: u64, b: u64) -> u64
        ensures { result ≡ on_words self a b }
    {
        match self {
            Operation::Plus => a.wrapping_add(b),
            Operation::Minus => a.wrapping_sub(b),
            Operation::Times => a.wrapping_mul(b),
        }
    }
}
