//! How tightly operators hold their operands.

ghost use Rattle.std.specs.Prelude.{◌≡◌};
ghost use Rattle.facts_text.specs.Form.{is_looser, opening, closing};

/// The levels of index expressions, from the loosest. Of an expression it is the level of its own operator; of a place, that of
/// the loosest operator that needs no parentheses there.
#[derive(Clone, Copy)]
pub enum Level {
    Sum,
    Product,
    Part,
}

impl Level {
    fn is_looser(self, place: Level) -> bool
        ensures { result ≡ is_looser self place }
    {
        match (self, place) {
            (Level::Sum, Level::Product | Level::Part) => true,
            (Level::Product, Level::Part) => true,
            _ => false,
        }
    }

    /// What stands before an expression of this level in a place.
    pub fn opening(self, place: Level) -> &'static [u8]
        ensures { result.now ≡ opening self place }
    {
        if self.is_looser(place) { b"(" } else { b"" }
    }

    /// What stands behind it.
    pub fn closing(self, place: Level) -> &'static [u8]
        ensures { result.now ≡ closing self place }
    {
        if self.is_looser(place) { b")" } else { b"" }
    }
}
