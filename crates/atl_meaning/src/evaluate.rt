//! The tensor that a term denotes.
#![tactic(auto, using(crate::proofs::ValueLaws::meant_laws))]

ghost use Rattle.std.specs.Prelude.{◌≡◌, ◌+◌, ◌-◌, ◌/◌, ◌<◌, ◌∷◌, ◌++◌, true, drop, map, IfOk, IsTrue, OnOk, if◌then◌else◌};
ghost use Rattle.affine_index.specs.Condition.{all_hold};
ghost use Rattle.affine_index.specs.Value.{items_value};
ghost use Rattle.term_tree.specs.Tensors.{Word, by_places, copies, drop_last, from_rows, joined, rows_of, tabulate, total, zeros};
ghost use Rattle.term_tree.specs.Meaning.{chunks, columns, extent, head_of, row_at, tail_of, word_of};
ghost use Rattle.atl_meaning.specs.Denoted.{body_in, extents_in, fits_in, tensor_in};
ghost use Rattle.atl_meaning.specs.Operations.{on_words};
ghost use Rattle.atl_meaning.specs.Exact.{all_exact, counted, exact, exact_below, is_counted, is_exact};
ghost use Rattle.atl_meaning.specs.Made.{IsOf};
ghost use Rattle.atl_meaning.specs.Values.{meant};

use crate::binding::Binding;
use crate::build::{by_places, copy, zeros};
use crate::extents::{chunk_count, extents};
use crate::operation::Operation;
use crate::read::Read;
use crate::reading::{read, variable};
use crate::reshape::{
    concat, flatten, head_of, row_of, split, tail_of, transpose, without_first, without_last,
    zeros_before, zeros_behind,
};
use crate::stack::Stack;
use crate::tensor::Tensor;
use crate::values::{extent, holds, value, word};
use crate::variables::Variables;
use affine_index::{Aff, Cond};
use sqlite_items::Items;
use std::alloc::{AllocError, Global};
use term_tree::Term;

/// The word of an index.
fn word_at(index: &Aff, sizes: &[u64], vars: &[u64]) -> Tensor
    requires { IsTrue (is_exact sizes.now vars.now index.now) }
    ensures { meant result ≡ Word (word_of (items_value sizes.now vars.now index.now)) }
{
    Tensor::Word(word(value(index, sizes, vars)))
}

/// Zeros of the extents of a term.
fn zeros_like(
    alloc: Global,
    sizes: &[u64],
    bindings: &mut Stack<Binding>,
    term: &Term,
) -> Result<Tensor, AllocError>
    requires counted { counted sizes.now term.now ≡ true }
    requires fits { fits_in sizes.now term.now bindings.old ≡ true }
    ensures value { IfOk result (λ v. meant v ≡ zeros (extents_in sizes.now term.now bindings.old)) }
    ensures bindings { OnOk result (bindings.new ≡ bindings.old) }
{
    let found = extents(alloc, sizes, bindings, term)?;
    zeros(alloc, found.as_slice())
}

/// Zeros of the extents of a row of a term.
fn zero_row(
    alloc: Global,
    sizes: &[u64],
    bindings: &mut Stack<Binding>,
    term: &Term,
) -> Result<Tensor, AllocError>
    requires counted { counted sizes.now term.now ≡ true }
    requires fits { fits_in sizes.now term.now bindings.old ≡ true }
    ensures value { IfOk result (λ v. meant v ≡ zeros (tail_of (extents_in sizes.now term.now bindings.old))) }
    ensures bindings { OnOk result (bindings.new ≡ bindings.old) }
{
    let found = extents(alloc, sizes, bindings, term)?;
    zeros(alloc, tail_of(found.as_slice()))
}

/// The row of a number of the tensor of a term.
fn row_or_zeros(
    alloc: Global,
    sizes: &[u64],
    bindings: &mut Stack<Binding>,
    term: &Term,
    tensor: &Tensor,
    number: i128,
) -> Result<Tensor, AllocError>
    requires counted { counted sizes.now term.now ≡ true }
    requires fits { fits_in sizes.now term.now bindings.old ≡ true }
    ensures value { IfOk result (λ v. meant v ≡ row_at (rows_of (meant tensor.now)) number (zeros (tail_of (extents_in sizes.now term.now bindings.old)))) }
    ensures bindings { OnOk result (bindings.new ≡ bindings.old) }
{
    match row_of(tensor, number) {
        Some(row) => Ok(copy(alloc, row)?),
        None => zero_row(alloc, sizes, bindings, term),
    }
}

/// The rows of the rows of a tensor.
fn flattened(alloc: Global, child: Result<Tensor, AllocError>) -> Result<Tensor, AllocError>
    ensures { IsOf (λ c v. meant v ≡ from_rows (joined (rows_of (meant c)))) child result }
{
    let tensor = child?;
    flatten(alloc, &tensor)
}

/// The tensor of a term in chunks of k rows.
fn chunked(
    alloc: Global,
    sizes: &[u64],
    child: Result<Tensor, AllocError>,
    bindings: &mut Stack<Binding>,
    k: u32,
    term: &Term,
) -> Result<Tensor, AllocError>
    requires counted { counted sizes.now term.now ≡ true }
    requires fits { OnOk child (fits_in sizes.now term.now bindings.old ≡ true) }
    requires positive { 0 < k }
    ensures value { IsOf (λ c v. meant v ≡ from_rows (chunks ((head_of (extents_in sizes.now term.now bindings.old) + k - 1) / k) k (zeros (tail_of (extents_in sizes.now term.now bindings.old))) (rows_of (meant c)))) child result }
    ensures bindings { OnOk result (bindings.new ≡ bindings.old) }
{
    let tensor = child?;
    let found = extents(alloc, sizes, bindings, term)?;
    let count = chunk_count(head_of(found.as_slice()), k);
    split(
        alloc,
        count,
        u64::from(k),
        tail_of(found.as_slice()),
        &tensor,
    )
}

/// The columns of the tensor of a term.
fn transposed(
    alloc: Global,
    sizes: &[u64],
    child: Result<Tensor, AllocError>,
    bindings: &mut Stack<Binding>,
    term: &Term,
) -> Result<Tensor, AllocError>
    requires counted { counted sizes.now term.now ≡ true }
    requires fits { OnOk child (fits_in sizes.now term.now bindings.old ≡ true) }
    ensures value { IsOf (λ c v. meant v ≡ from_rows (columns (head_of (tail_of (extents_in sizes.now term.now bindings.old))) (zeros (tail_of (tail_of (extents_in sizes.now term.now bindings.old)))) (rows_of (meant c)))) child result }
    ensures bindings { OnOk result (bindings.new ≡ bindings.old) }
{
    let tensor = child?;
    let found = extents(alloc, sizes, bindings, term)?;
    let rest = tail_of(found.as_slice());
    transpose(alloc, head_of(rest), tail_of(rest), &tensor)
}

/// All but the first rows.
fn shortened_first(
    alloc: Global,
    sizes: &[u64],
    child: Result<Tensor, AllocError>,
    count: &Aff,
) -> Result<Tensor, AllocError>
    requires { IsTrue (is_counted sizes.now count.now) }
    ensures { IsOf (λ c v. meant v ≡ from_rows (drop (extent count.now sizes.now) (rows_of (meant c)))) child result }
{
    let tensor = child?;
    without_first(alloc, extent(count, sizes), &tensor)
}

/// All but the last rows.
fn shortened_last(
    alloc: Global,
    sizes: &[u64],
    child: Result<Tensor, AllocError>,
    count: &Aff,
) -> Result<Tensor, AllocError>
    requires { IsTrue (is_counted sizes.now count.now) }
    ensures { IsOf (λ c v. meant v ≡ from_rows (drop_last (extent count.now sizes.now) (rows_of (meant c)))) child result }
{
    let tensor = child?;
    without_last(alloc, extent(count, sizes), &tensor)
}

/// Zero rows before the tensor of a term.
fn padded_before(
    alloc: Global,
    sizes: &[u64],
    child: Result<Tensor, AllocError>,
    bindings: &mut Stack<Binding>,
    count: &Aff,
    term: &Term,
) -> Result<Tensor, AllocError>
    requires count { IsTrue (is_counted sizes.now count.now) }
    requires counted { counted sizes.now term.now ≡ true }
    requires fits { OnOk child (fits_in sizes.now term.now bindings.old ≡ true) }
    ensures value { IsOf (λ c v. meant v ≡ from_rows (copies (extent count.now sizes.now) (zeros (tail_of (extents_in sizes.now term.now bindings.old))) ++ rows_of (meant c))) child result }
    ensures bindings { OnOk result (bindings.new ≡ bindings.old) }
{
    let tensor = child?;
    let found = extents(alloc, sizes, bindings, term)?;
    zeros_before(
        alloc,
        extent(count, sizes),
        tail_of(found.as_slice()),
        tensor,
    )
}

/// Zero rows behind the tensor of a term.
fn padded_behind(
    alloc: Global,
    sizes: &[u64],
    child: Result<Tensor, AllocError>,
    bindings: &mut Stack<Binding>,
    count: &Aff,
    term: &Term,
) -> Result<Tensor, AllocError>
    requires count { IsTrue (is_counted sizes.now count.now) }
    requires counted { counted sizes.now term.now ≡ true }
    requires fits { OnOk child (fits_in sizes.now term.now bindings.old ≡ true) }
    ensures value { IsOf (λ c v. meant v ≡ from_rows (rows_of (meant c) ++ copies (extent count.now sizes.now) (zeros (tail_of (extents_in sizes.now term.now bindings.old))))) child result }
    ensures bindings { OnOk result (bindings.new ≡ bindings.old) }
{
    let tensor = child?;
    let found = extents(alloc, sizes, bindings, term)?;
    zeros_behind(
        alloc,
        extent(count, sizes),
        tail_of(found.as_slice()),
        tensor,
    )
}

/// The tensor with a row for each value of the innermost variable.
#[cycle(evaluate)]
fn rows(
    alloc: Global,
    sizes: &[u64],
    vars: &mut Variables,
    bindings: &mut Stack<Binding>,
    count: &Aff,
    body: &Term,
) -> Result<Tensor, AllocError>
    requires count { IsTrue (is_counted sizes.now count.now) }
    requires counted { counted sizes.now body.now ≡ true }
    requires fits { fits_in sizes.now body.now bindings.old ≡ true }
    requires exact { exact_below sizes.now (extent count.now sizes.now) body.now vars.old ≡ true }
    ensures value { IfOk result (λ v. meant v ≡ from_rows (tabulate (extent count.now sizes.now) (body_in sizes.now body.now vars.old bindings.old))) }
    ensures vars { OnOk result (vars.new ≡ vars.old) }
    ensures bindings { OnOk result (bindings.new ≡ bindings.old) }
{
    let turns = extent(count, sizes);
    let mut rows = Items::new(alloc);
    for i in 0..turns {
        vars.enter(alloc, i)?;
        rows.push(evaluate(alloc, sizes, vars, bindings, body)?)?;
        vars.leave();
    }
    Ok(Tensor::Row(rows))
}

/// The body at each value of the innermost variable, added up from the last, as the definition adds them.
#[cycle(evaluate)]
fn summed(
    alloc: Global,
    sizes: &[u64],
    vars: &mut Variables,
    bindings: &mut Stack<Binding>,
    count: u64,
    body: &Term,
    start: Tensor,
) -> Result<Tensor, AllocError>
    requires counted { counted sizes.now body.now ≡ true }
    requires fits { fits_in sizes.now body.now bindings.old ≡ true }
    requires exact { exact_below sizes.now count body.now vars.old ≡ true }
    ensures value { IfOk result (λ v. meant v ≡ total (meant start) (tabulate count (body_in sizes.now body.now vars.old bindings.old))) }
    ensures vars { OnOk result (vars.new ≡ vars.old) }
    ensures bindings { OnOk result (bindings.new ≡ bindings.old) }
{
    let mut sum = start;
    let mut left = count;
    while left > 0 {
        left -= 1;
        vars.enter(alloc, left)?;
        let turn = evaluate(alloc, sizes, vars, bindings, body)?;
        vars.leave();
        sum = by_places(alloc, Operation::Plus, &turn, &sum)?;
    }
    Ok(sum)
}

#[cycle(evaluate)]
fn sum(
    alloc: Global,
    sizes: &[u64],
    vars: &mut Variables,
    bindings: &mut Stack<Binding>,
    count: &Aff,
    body: &Term,
) -> Result<Tensor, AllocError>
    requires count { IsTrue (is_counted sizes.now count.now) }
    requires counted { counted sizes.now body.now ≡ true }
    requires fits { fits_in sizes.now body.now bindings.old ≡ true }
    requires exact { exact_below sizes.now (extent count.now sizes.now) body.now vars.old ≡ true }
    ensures value { IfOk result (λ v. meant v ≡ total (zeros (extents_in sizes.now body.now bindings.old)) (tabulate (extent count.now sizes.now) (body_in sizes.now body.now vars.old bindings.old))) }
    ensures vars { OnOk result (vars.new ≡ vars.old) }
    ensures bindings { OnOk result (bindings.new ≡ bindings.old) }
{
    let turns = extent(count, sizes);
    let start = zeros_like(alloc, sizes, bindings, body)?;
    summed(alloc, sizes, vars, bindings, turns, body, start)
}

#[cycle(evaluate)]
fn guarded(
    alloc: Global,
    sizes: &[u64],
    vars: &mut Variables,
    bindings: &mut Stack<Binding>,
    condition: &Cond,
    body: &Term,
) -> Result<Tensor, AllocError>
    requires condition { IsTrue (all_exact sizes.now vars.old condition.now.all) }
    requires counted { counted sizes.now body.now ≡ true }
    requires fits { fits_in sizes.now body.now bindings.old ≡ true }
    requires exact { exact sizes.now body.now vars.old ≡ true }
    ensures value { IfOk result (λ v. meant v ≡ (if all_hold sizes.now vars.old condition.now.all then tensor_in sizes.now body.now vars.old bindings.old else zeros (extents_in sizes.now body.now bindings.old))) }
    ensures vars { OnOk result (vars.new ≡ vars.old) }
    ensures bindings { OnOk result (bindings.new ≡ bindings.old) }
{
    if holds(condition, sizes, vars.as_slice()) {
        evaluate(alloc, sizes, vars, bindings, body)
    } else {
        zeros_like(alloc, sizes, bindings, body)
    }
}

/// The tensor of a definition, with its extents.
#[cycle(evaluate)]
fn defined(
    alloc: Global,
    sizes: &[u64],
    vars: &mut Variables,
    bindings: &mut Stack<Binding>,
    term: &Term,
) -> Result<Binding, AllocError>
    requires counted { counted sizes.now term.now ≡ true }
    requires fits { fits_in sizes.now term.now bindings.old ≡ true }
    requires exact { exact sizes.now term.now vars.old ≡ true }
    ensures extents { IfOk result (λ b. b.extents ≡ extents_in sizes.now term.now bindings.old) }
    ensures value { IfOk result (λ b. meant b.value ≡ tensor_in sizes.now term.now vars.old bindings.old) }
    ensures vars { OnOk result (vars.new ≡ vars.old) }
    ensures bindings { OnOk result (bindings.new ≡ bindings.old) }
{
    let found = extents(alloc, sizes, bindings, term)?;
    let value = evaluate(alloc, sizes, vars, bindings, term)?;
    Ok(Binding {
        extents: found,
        value,
    })
}

/// A body under the tensor of its definition.
#[cycle(evaluate)]
fn under(
    alloc: Global,
    sizes: &[u64],
    vars: &mut Variables,
    bindings: &mut Stack<Binding>,
    body: &Term,
    definition: Result<Binding, AllocError>,
) -> Result<Tensor, AllocError>
    requires counted { counted sizes.now body.now ≡ true }
    requires fits { IfOk definition (λ d. fits_in sizes.now body.now (d ∷ bindings.old) ≡ true) }
    requires exact { OnOk definition (exact sizes.now body.now vars.old ≡ true) }
    ensures value { IsOf (λ d v. meant v ≡ tensor_in sizes.now body.now vars.old (d ∷ bindings.old)) definition result }
    ensures vars { OnOk result (vars.new ≡ vars.old) }
    ensures bindings { OnOk result (bindings.new ≡ bindings.old) }
{
    let definition = definition?;
    bindings.enter(definition)?;
    let result = evaluate(alloc, sizes, vars, bindings, body)?;
    bindings.leave();
    Ok(result)
}

/// An operation on a tensor and that of a term.
#[cycle(evaluate)]
fn with_second(
    alloc: Global,
    sizes: &[u64],
    vars: &mut Variables,
    bindings: &mut Stack<Binding>,
    second: &Term,
    operation: Operation,
    first: Result<Tensor, AllocError>,
) -> Result<Tensor, AllocError>
    requires counted { counted sizes.now second.now ≡ true }
    requires fits { OnOk first (fits_in sizes.now second.now bindings.old ≡ true) }
    requires exact { OnOk first (exact sizes.now second.now vars.old ≡ true) }
    ensures value { IsOf (λ c v. meant v ≡ by_places (on_words operation) (meant c) (tensor_in sizes.now second.now vars.old bindings.old)) first result }
    ensures vars { OnOk result (vars.new ≡ vars.old) }
    ensures bindings { OnOk result (bindings.new ≡ bindings.old) }
{
    let first = first?;
    let second = evaluate(alloc, sizes, vars, bindings, second)?;
    by_places(alloc, operation, &first, &second)
}

/// The rows of a tensor, then those of a term.
#[cycle(evaluate)]
fn followed_by(
    alloc: Global,
    sizes: &[u64],
    vars: &mut Variables,
    bindings: &mut Stack<Binding>,
    second: &Term,
    first: Result<Tensor, AllocError>,
) -> Result<Tensor, AllocError>
    requires counted { counted sizes.now second.now ≡ true }
    requires fits { OnOk first (fits_in sizes.now second.now bindings.old ≡ true) }
    requires exact { OnOk first (exact sizes.now second.now vars.old ≡ true) }
    ensures value { IsOf (λ c v. meant v ≡ from_rows (rows_of (meant c) ++ rows_of (tensor_in sizes.now second.now vars.old bindings.old))) first result }
    ensures vars { OnOk result (vars.new ≡ vars.old) }
    ensures bindings { OnOk result (bindings.new ≡ bindings.old) }
{
    let first = first?;
    let second = evaluate(alloc, sizes, vars, bindings, second)?;
    concat(alloc, first, second)
}

/// A row of a term; of a variable, or a row of one, it is read in place.
#[cycle(evaluate)]
fn row(
    alloc: Global,
    sizes: &[u64],
    vars: &mut Variables,
    bindings: &mut Stack<Binding>,
    term: &Term,
    index: &Aff,
) -> Result<Tensor, AllocError>
    requires counted { counted sizes.now term.now ≡ true }
    requires fits { fits_in sizes.now term.now bindings.old ≡ true }
    requires exact { exact sizes.now term.now vars.old ≡ true }
    requires index { IsTrue (is_exact sizes.now vars.old index.now) }
    ensures value { IfOk result (λ v. meant v ≡ row_at (rows_of (tensor_in sizes.now term.now vars.old bindings.old)) (items_value sizes.now vars.old index.now) (zeros (tail_of (extents_in sizes.now term.now bindings.old)))) }
    ensures vars { OnOk result (vars.new ≡ vars.old) }
    ensures bindings { OnOk result (bindings.new ≡ bindings.old) }
{
    let number = value(index, sizes, vars.as_slice());
    match read(alloc, sizes, vars.as_slice(), bindings, term, number)? {
        Read::Row(row) => Ok(row),
        Read::Missing => zero_row(alloc, sizes, bindings, term),
        Read::Computed => {
            let tensor = evaluate(alloc, sizes, vars, bindings, term)?;
            row_or_zeros(alloc, sizes, bindings, term, &tensor, number)
        }
    }
}

/// The tensor of a term under these values of its variables. Cost: linear in the nodes that are computed and the words
/// of their tensors; a row of a variable is read in place.
#[cycle(evaluate)]
pub fn evaluate(
    alloc: Global,
    sizes: &[u64],
    vars: &mut Variables,
    bindings: &mut Stack<Binding>,
    term: &Term,
) -> Result<Tensor, AllocError>
    requires counted { counted sizes.now term.now ≡ true }
    requires fits { fits_in sizes.now term.now bindings.old ≡ true }
    requires exact { exact sizes.now term.now vars.old ≡ true }
    ensures value { IfOk result (λ v. meant v ≡ tensor_in sizes.now term.now vars.old bindings.old) }
    ensures vars { OnOk result (vars.new ≡ vars.old) }
    ensures bindings { OnOk result (bindings.new ≡ bindings.old) }
{
    match term {
        Term::Lit(w) => Ok(Tensor::Word(*w)),
        Term::TVar(var) => variable(alloc, bindings, *var),
        Term::WordOf(x) => Ok(word_at(x, sizes, vars.as_slice())),
        Term::Index(e, x) => row(alloc, sizes, vars, bindings, e.get(), x),
        Term::Gen(n, e) => rows(alloc, sizes, vars, bindings, n, e.get()),
        Term::Sum(n, e) => sum(alloc, sizes, vars, bindings, n, e.get()),
        Term::Guard(c, e) => guarded(alloc, sizes, vars, bindings, c, e.get()),
        Term::Let(a, b) => {
            let definition = defined(alloc, sizes, vars, bindings, a.get());
            under(alloc, sizes, vars, bindings, b.get(), definition)
        }
        Term::Add(a, b) => {
            let first = evaluate(alloc, sizes, vars, bindings, a.get());
            with_second(
                alloc,
                sizes,
                vars,
                bindings,
                b.get(),
                Operation::Plus,
                first,
            )
        }
        Term::Sub(a, b) => {
            let first = evaluate(alloc, sizes, vars, bindings, a.get());
            with_second(
                alloc,
                sizes,
                vars,
                bindings,
                b.get(),
                Operation::Minus,
                first,
            )
        }
        Term::Mul(a, b) => {
            let first = evaluate(alloc, sizes, vars, bindings, a.get());
            with_second(
                alloc,
                sizes,
                vars,
                bindings,
                b.get(),
                Operation::Times,
                first,
            )
        }
        Term::Concat(a, b) => {
            let first = evaluate(alloc, sizes, vars, bindings, a.get());
            followed_by(alloc, sizes, vars, bindings, b.get(), first)
        }
        Term::Flatten(e) => flattened(alloc, evaluate(alloc, sizes, vars, bindings, e.get())),
        Term::Split(k, e) => chunked(
            alloc,
            sizes,
            evaluate(alloc, sizes, vars, bindings, e.get()),
            bindings,
            *k,
            e.get(),
        ),
        Term::Transpose(e) => transposed(
            alloc,
            sizes,
            evaluate(alloc, sizes, vars, bindings, e.get()),
            bindings,
            e.get(),
        ),
        Term::TruncL(n, e) => shortened_first(
            alloc,
            sizes,
            evaluate(alloc, sizes, vars, bindings, e.get()),
            n,
        ),
        Term::TruncR(n, e) => shortened_last(
            alloc,
            sizes,
            evaluate(alloc, sizes, vars, bindings, e.get()),
            n,
        ),
        Term::PadL(n, e) => padded_before(
            alloc,
            sizes,
            evaluate(alloc, sizes, vars, bindings, e.get()),
            bindings,
            n,
            e.get(),
        ),
        Term::PadR(n, e) => padded_behind(
            alloc,
            sizes,
            evaluate(alloc, sizes, vars, bindings, e.get()),
            bindings,
            n,
            e.get(),
        ),
    }
}
