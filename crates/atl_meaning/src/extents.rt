//! The extents of a term at the sizes, each of which is below 2^64.

ghost use Rattle.std.specs.Prelude.{◌≡◌, ◌+◌, ◌-◌, ◌*◌, ◌/◌, ◌^◌, ◌<◌, ◌∷◌, [], length, get_or, true, IfOk, OnOk};
ghost use Rattle.term_tree.specs.Meaning.{extents_of, head_of, tail_of};
ghost use Rattle.atl_meaning.specs.Denoted.{denoted, fits_in, scope};
ghost use Rattle.atl_meaning.specs.Exact.{counted};
ghost use Rattle.atl_meaning.specs.Made.{IsMade};

use crate::binding::Binding;
use crate::reshape::{head_of, tail_of};
use crate::stack::Stack;
use crate::tensor::Tensor;
use crate::values::extent;
use sqlite_items::Items;
use std::alloc::{AllocError, Global};
use term_tree::Term;

/// An extent in front of others.
fn in_front(alloc: Global, first: u64, rest: &[u64]) -> Result<Items<u64>, AllocError>
    ensures { IfOk result (λ ds. ds ≡ first ∷ rest.now) }
{
    let mut extents = Items::new(alloc);
    extents.push(first)?;
    extents.append(Items::from_slice(alloc, rest)?)?;
    Ok(extents)
}

/// How many chunks of k hold so many rows.
pub fn chunk_count(count: u64, k: u32) -> u64
    requires { 0 < k }
    ensures { result ≡ (count + k - 1) / k }
{
    count.div_ceil(u64::from(k))
}

/// The extents of a variable; of one that is not in scope, none.
fn of_variable(alloc: Global, bindings: &Stack<Binding>, var: u32) -> Result<Items<u64>, AllocError>
    ensures { IfOk result (λ ds. ds ≡ get_or (extents_of (scope bindings.now)) var []) }
{
    match bindings.get(var) {
        Some(binding) => Ok(Items::from_slice(alloc, binding.extents.as_slice())?),
        None => Ok(Items::new(alloc)),
    }
}

/// The extents of a row.
fn of_row(alloc: Global, child: Result<Items<u64>, AllocError>) -> Result<Items<u64>, AllocError>
    ensures { IsMade tail_of child result }
{
    let d = child?;
    let row = Items::from_slice(alloc, tail_of(d.as_slice()))?;
    Ok(row)
}

/// The extents of so many rows.
fn of_rows(
    alloc: Global,
    count: u64,
    child: Result<Items<u64>, AllocError>,
) -> Result<Items<u64>, AllocError>
    ensures { IsMade (λ d. count ∷ d) child result }
{
    let d = child?;
    in_front(alloc, count, d.as_slice())
}

/// The extents of the rows of the rows.
fn flattened(alloc: Global, child: Result<Items<u64>, AllocError>) -> Result<Items<u64>, AllocError>
    requires { IfOk child (λ d. head_of d * head_of (tail_of d) < 2 ^ 64) }
    ensures { IsMade (λ d. (head_of d * head_of (tail_of d)) ∷ tail_of (tail_of d)) child result }
{
    let d = child?;
    let rest = tail_of(d.as_slice());
    in_front(alloc, head_of(d.as_slice()) * head_of(rest), tail_of(rest))
}

/// The extents of chunks of k rows.
fn chunked(
    alloc: Global,
    k: u32,
    child: Result<Items<u64>, AllocError>,
) -> Result<Items<u64>, AllocError>
    requires { 0 < k }
    ensures { IsMade (λ d. ((head_of d + k - 1) / k) ∷ k ∷ tail_of d) child result }
{
    let d = child?;
    let count = chunk_count(head_of(d.as_slice()), k);
    let rest = in_front(alloc, u64::from(k), tail_of(d.as_slice()))?;
    in_front(alloc, count, rest.as_slice())
}

/// The extents of the columns.
fn transposed(
    alloc: Global,
    child: Result<Items<u64>, AllocError>,
) -> Result<Items<u64>, AllocError>
    ensures { IsMade (λ d. head_of (tail_of d) ∷ head_of d ∷ tail_of (tail_of d)) child result }
{
    let d = child?;
    let rest = tail_of(d.as_slice());
    let others = in_front(alloc, head_of(d.as_slice()), tail_of(rest))?;
    in_front(alloc, head_of(rest), others.as_slice())
}

/// The extents without so many rows.
fn shortened(
    alloc: Global,
    count: u64,
    child: Result<Items<u64>, AllocError>,
) -> Result<Items<u64>, AllocError>
    ensures { IsMade (λ d. (head_of d - count) ∷ tail_of d) child result }
{
    let d = child?;
    let left = head_of(d.as_slice()).saturating_sub(count);
    in_front(alloc, left, tail_of(d.as_slice()))
}

/// The extents with so many more rows.
fn lengthened(
    alloc: Global,
    count: u64,
    child: Result<Items<u64>, AllocError>,
) -> Result<Items<u64>, AllocError>
    requires { IfOk child (λ d. head_of d + count < 2 ^ 64) }
    ensures { IsMade (λ d. (head_of d + count) ∷ tail_of d) child result }
{
    let d = child?;
    in_front(alloc, head_of(d.as_slice()) + count, tail_of(d.as_slice()))
}

/// The extents of a body under those of its definition.
#[cycle(extents)]
fn under(
    alloc: Global,
    sizes: &[u64],
    bindings: &mut Stack<Binding>,
    definition: Items<u64>,
    body: &Term,
) -> Result<Items<u64>, AllocError>
    requires counted { counted sizes.now body.now ≡ true }
    requires fits { (denoted sizes.now body.now).fits (definition ∷ extents_of (scope bindings.old)) ≡ true }
    ensures extents { IfOk result (λ ds. ds ≡ (denoted sizes.now body.now).extents (definition ∷ extents_of (scope bindings.old))) }
    ensures bindings { OnOk result (bindings.new ≡ bindings.old) }
{
    bindings.enter(Binding {
        extents: definition,
        value: Tensor::Word(0),
    })?;
    let found = extents(alloc, sizes, bindings, body)?;
    bindings.leave();
    Ok(found)
}

/// The extents of rows of these extents, then of those of a term.
#[cycle(extents)]
fn followed_by(
    alloc: Global,
    sizes: &[u64],
    bindings: &mut Stack<Binding>,
    first: Items<u64>,
    second: &Term,
) -> Result<Items<u64>, AllocError>
    requires counted { counted sizes.now second.now ≡ true }
    requires fits { fits_in sizes.now second.now bindings.old ≡ true }
    requires room { head_of first + head_of ((denoted sizes.now second.now).extents (extents_of (scope bindings.old))) < 2 ^ 64 }
    ensures extents { IfOk result (λ ds. ds ≡ (head_of first + head_of ((denoted sizes.now second.now).extents (extents_of (scope bindings.old)))) ∷ tail_of first) }
    ensures bindings { OnOk result (bindings.new ≡ bindings.old) }
{
    let second = extents(alloc, sizes, bindings, second)?;
    let rows = head_of(first.as_slice()) + head_of(second.as_slice());
    in_front(alloc, rows, tail_of(first.as_slice()))
}

/// The extents of a term, whose lets are bound on the way. Cost: the nodes on the way to them.
#[cycle(extents)]
pub fn extents(
    alloc: Global,
    sizes: &[u64],
    bindings: &mut Stack<Binding>,
    term: &Term,
) -> Result<Items<u64>, AllocError>
    requires counted { counted sizes.now term.now ≡ true }
    requires fits { fits_in sizes.now term.now bindings.old ≡ true }
    ensures extents { IfOk result (λ ds. ds ≡ (denoted sizes.now term.now).extents (extents_of (scope bindings.old))) }
    ensures bindings { OnOk result (bindings.new ≡ bindings.old) }
{
    match term {
        Term::Lit(_) | Term::WordOf(_) | Term::Mul(_, _) => Ok(Items::new(alloc)),
        Term::TVar(var) => of_variable(alloc, bindings, *var),
        Term::Sum(_, e) | Term::Guard(_, e) | Term::Add(e, _) | Term::Sub(e, _) => {
            extents(alloc, sizes, bindings, e.get())
        }
        Term::Let(a, b) => {
            let d = extents(alloc, sizes, bindings, a.get())?;
            under(alloc, sizes, bindings, d, b.get())
        }
        Term::Concat(a, b) => {
            let d = extents(alloc, sizes, bindings, a.get())?;
            followed_by(alloc, sizes, bindings, d, b.get())
        }
        Term::Index(e, _) => of_row(alloc, extents(alloc, sizes, bindings, e.get())),
        Term::Gen(n, e) => of_rows(
            alloc,
            extent(n, sizes),
            extents(alloc, sizes, bindings, e.get()),
        ),
        Term::Flatten(e) => flattened(alloc, extents(alloc, sizes, bindings, e.get())),
        Term::Split(k, e) => chunked(alloc, *k, extents(alloc, sizes, bindings, e.get())),
        Term::Transpose(e) => transposed(alloc, extents(alloc, sizes, bindings, e.get())),
        Term::TruncL(n, e) => shortened(
            alloc,
            extent(n, sizes),
            extents(alloc, sizes, bindings, e.get()),
        ),
        Term::TruncR(n, e) => shortened(
            alloc,
            extent(n, sizes),
            extents(alloc, sizes, bindings, e.get()),
        ),
        Term::PadL(n, e) => lengthened(
            alloc,
            extent(n, sizes),
            extents(alloc, sizes, bindings, e.get()),
        ),
        Term::PadR(n, e) => lengthened(
            alloc,
            extent(n, sizes),
            extents(alloc, sizes, bindings, e.get()),
        ),
    }
}
