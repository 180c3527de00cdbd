//! What names mean.

ghost use Rattle.std.specs.Prelude.{◌≡◌};
ghost use Rattle.source_grammar.specs.Scope as spec;

/// What a name may stand for.
#[derive(Clone, Copy, Debug, PartialEq, Eq)]
pub enum Sort {
    OfSize,
    /// The variable of a gen or a sum.
    OfIndex,
    /// An input, or the tensor of a let.
    OfTensor,
}

/// A meaning: its sort, and its number among those of its sort; local ones come first, the innermost of them is 0.
#[derive(Clone, Copy, Debug, PartialEq, Eq)]
pub struct Meaning {
    pub sort: Sort,
    pub number: u32,
}

pub fn same_sort(a: Sort, b: Sort) -> bool
    ensures { result ≡ spec.same_sort a b }
{
    match a {
        Sort::OfSize => matches!(b, Sort::OfSize),
        Sort::OfIndex => matches!(b, Sort::OfIndex),
        Sort::OfTensor => matches!(b, Sort::OfTensor),
    }
}
