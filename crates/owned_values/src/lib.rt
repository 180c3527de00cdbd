//! Answers joined and values ended by generic functions, each proved once, for callers whose types own trees.
#![tactic(auto)]

ghost use Rattle.std.specs.Prelude.{◌≡◌, ◌⊎◌, Some, None, Ok, Err, IfOk, IfErr, IfSome, IfNone, IsOk};

/// Ends a value. A tree that a caller lets go by name here costs the caller's proof less than one that ends where it stands.
pub fn spent<T: Drop>(x: T) {}

/// Both values, or else the first error. Both calls are made before either answer is looked at, the second one also where the first one failed.
pub fn two<A: Drop, B: Drop, E: Drop>(a: Result<A, E>, b: Result<B, E>) -> Result<(A, B), E>
    ensures first { IfOk result (λ both. a ≡ Ok both.0) }
    ensures second { IfOk result (λ both. b ≡ Ok both.1) }
    ensures refused { IfErr result (λ e. (a ≡ Err e) ⊎ (IsOk a × (b ≡ Err e))) }
{
    match a {
        Ok(a) => match b {
            Ok(b) => Ok((a, b)),
            Err(second) => Err(second),
        },
        Err(first) => Err(first),
    }
}

/// Both values, where both are there.
pub fn both<A: Drop, B: Drop>(a: Option<A>, b: Option<B>) -> Option<(A, B)>
    ensures first { IfSome result (λ both. a ≡ Some both.0) }
    ensures second { IfSome result (λ both. b ≡ Some both.1) }
    ensures none { IfNone result ((a ≡ None) ⊎ (b ≡ None)) }
{
    match a {
        Some(a) => match b {
            Some(b) => Some((a, b)),
            None => None,
        },
        None => None,
    }
}
