//! The test of equality that definitions use.

ghost use Rattle.std.specs.Prelude.{◌≡◌};
ghost use Rattle.term_equality.specs.Equality.{same_term};

use term_tree::{Term, same};

/// Whether two terms are equal. Linear in the smaller one.
pub fn same_terms(a: &Term, b: &Term) -> bool
    ensures { result ≡ same_term a.now b.now }
{
    same(a, b)
}
