//! The first node with too many words.
#![tactic(auto, using(crate::proofs::ExtentScopes::scope_laws))]

ghost use Rattle.std.specs.Prelude.{◌≡◌, ◌+◌, ◌<◌, ◌≤◌, ◌∷◌, [], get_or, length, true, false, IfOk, IsOk, IsTrue, OnOk};
ghost use Rattle.term_tree.specs.Shape.{shape_of};
ghost use Rattle.term_tree.specs.Modules.{extents_scoped};
ghost use Rattle.atl_meaning.specs.Forms.{chunked_forms, concatenated_forms, each_scoped, each_within, flattened_forms, lengthened_forms, shortened_forms, transposed_forms};
ghost use Rattle.atl_meaning.specs.Lists.{rest_of};
ghost use Rattle.atl_meaning.specs.Made.{IsMade};
ghost use Rattle.atl_meaning.specs.Words.{at_least_one, first_of, is_large, largest_index};
ghost use Rattle.atl_meaning.specs.Surveyed.{found_at, surveyed, under_found};
ghost use Rattle.atl_meaning.specs.Scopes.{placed, sized};
ghost use Rattle.affine_index.specs.Limited.{items_scoped};

use crate::forms::{
    chunked, concatenated, flattened, lengthened, shortened, transposed, without_first,
};
use crate::found::Found;
use crate::stack::Stack;
use crate::variables::Variables;
use crate::words::{any_large_comparison, first_of, is_large, too_big, words_at};
use affine_index::Aff;
use shape_rules::extents::{copies, copy, in_front};
use sqlite_items::Items;
use std::alloc::{AllocError, Global};
use term_tree::Term;

/// A node of these extents, where `later` is found below it.
fn at_node(
    sizes: &[u64],
    floor: &[u64],
    extents: Items<Aff>,
    large: bool,
    later: Option<u64>,
) -> Found
    requires floor { floor.now ≡ at_least_one sizes.now }
    requires scoped { extents_scoped (length sizes.now) extents ≡ true }
    ensures found { result ≡ found_at sizes.now extents large later }
    ensures scoped { extents_scoped (length sizes.now) result.extents ≡ true }
{
    let words = words_at(extents.as_slice(), sizes, floor, large);
    Found {
        extents,
        big: too_big(words, later),
    }
}

/// A row of a child.
fn row_node(
    sizes: &[u64],
    floor: &[u64],
    large: bool,
    child: Result<Found, AllocError>,
) -> Result<Found, AllocError>
    requires floor { floor.now ≡ at_least_one sizes.now }
    requires scoped { IfOk child (λ f. extents_scoped (length sizes.now) f.extents ≡ true) }
    ensures found { IsMade (λ f. found_at sizes.now (rest_of f.extents) large f.big) child result }
    ensures scoped { IfOk result (λ found. extents_scoped (length sizes.now) found.extents ≡ true) }
{
    let child = child?;
    let big = child.big;
    Ok(at_node(sizes, floor, without_first(child.extents), large, big))
}

/// A node of the extents of its child.
fn same_node(
    sizes: &[u64],
    floor: &[u64],
    large: bool,
    child: Result<Found, AllocError>,
) -> Result<Found, AllocError>
    requires floor { floor.now ≡ at_least_one sizes.now }
    requires scoped { IfOk child (λ f. extents_scoped (length sizes.now) f.extents ≡ true) }
    ensures found { IsMade (λ f. found_at sizes.now f.extents large f.big) child result }
    ensures scoped { IfOk result (λ found. extents_scoped (length sizes.now) found.extents ≡ true) }
{
    let child = child?;
    Ok(at_node(sizes, floor, child.extents, large, child.big))
}

/// So many rows of a child.
fn rows_node(
    alloc: Global,
    sizes: &[u64],
    floor: &[u64],
    count: &Aff,
    child: Result<Found, AllocError>,
) -> Result<Found, AllocError>
    requires floor { floor.now ≡ at_least_one sizes.now }
    requires scoped { IfOk child (λ f. extents_scoped (length sizes.now) f.extents ≡ true) }
    requires count { IsTrue (items_scoped (length sizes.now) 0 count.now) }
    ensures found { IsMade (λ f. found_at sizes.now (count.now ∷ f.extents) (is_large (at_least_one sizes.now) [] count.now) f.big) child result }
    ensures scoped { IfOk result (λ found. extents_scoped (length sizes.now) found.extents ≡ true) }
{
    let child = child?;
    let big = child.big;
    let extents = in_front(alloc, copy(alloc, count)?, child.extents)?;
    Ok(at_node(sizes, floor, extents, is_large(count, floor, &[]), big))
}

/// The rows of the rows of a child.
fn flattened_node(
    alloc: Global,
    sizes: &[u64],
    floor: &[u64],
    child: Result<Found, AllocError>,
) -> Result<Found, AllocError>
    requires floor { floor.now ≡ at_least_one sizes.now }
    requires scoped { IfOk child (λ f. extents_scoped (length sizes.now) f.extents ≡ true) }
    requires within { IfOk child (λ f. each_within (flattened_forms f.extents) ≡ true) }
    ensures found { IsMade (λ f. found_at sizes.now (flattened_forms f.extents) false f.big) child result }
    ensures scoped { IfOk result (λ found. extents_scoped (length sizes.now) found.extents ≡ true) }
{
    let child = child?;
    let big = child.big;
    let extents = flattened(alloc, child.extents)?;
    Ok(at_node(sizes, floor, extents, false, big))
}

/// A child in chunks of k rows.
fn chunked_node(
    alloc: Global,
    sizes: &[u64],
    floor: &[u64],
    k: u32,
    child: Result<Found, AllocError>,
) -> Result<Found, AllocError>
    requires floor { floor.now ≡ at_least_one sizes.now }
    requires scoped { IfOk child (λ f. extents_scoped (length sizes.now) f.extents ≡ true) }
    requires positive { 0 < k }
    requires limit { k ≤ 2147483647 }
    requires within { IfOk child (λ f. each_within (chunked_forms k f.extents) ≡ true) }
    ensures found { IsMade (λ f. found_at sizes.now (chunked_forms k f.extents) false f.big) child result }
    ensures scoped { IfOk result (λ found. extents_scoped (length sizes.now) found.extents ≡ true) }
{
    let child = child?;
    let big = child.big;
    let extents = chunked(alloc, k, child.extents)?;
    Ok(at_node(sizes, floor, extents, false, big))
}

/// The columns of a child.
fn transposed_node(
    alloc: Global,
    sizes: &[u64],
    floor: &[u64],
    child: Result<Found, AllocError>,
) -> Result<Found, AllocError>
    requires floor { floor.now ≡ at_least_one sizes.now }
    requires scoped { IfOk child (λ f. extents_scoped (length sizes.now) f.extents ≡ true) }
    ensures found { IsMade (λ f. found_at sizes.now (transposed_forms f.extents) false f.big) child result }
    ensures scoped { IfOk result (λ found. extents_scoped (length sizes.now) found.extents ≡ true) }
{
    let child = child?;
    let big = child.big;
    let extents = transposed(alloc, child.extents)?;
    Ok(at_node(sizes, floor, extents, false, big))
}

/// A child without so many rows.
fn shortened_node(
    alloc: Global,
    sizes: &[u64],
    floor: &[u64],
    count: &Aff,
    child: Result<Found, AllocError>,
) -> Result<Found, AllocError>
    requires floor { floor.now ≡ at_least_one sizes.now }
    requires scoped { IfOk child (λ f. extents_scoped (length sizes.now) f.extents ≡ true) }
    requires count { IsTrue (items_scoped (length sizes.now) 0 count.now) }
    requires within { IfOk child (λ f. each_within (shortened_forms count.now f.extents) ≡ true) }
    ensures found { IsMade (λ f. found_at sizes.now (shortened_forms count.now f.extents) (is_large (at_least_one sizes.now) [] count.now) f.big) child result }
    ensures scoped { IfOk result (λ found. extents_scoped (length sizes.now) found.extents ≡ true) }
{
    let child = child?;
    let big = child.big;
    let extents = shortened(alloc, count, child.extents)?;
    Ok(at_node(sizes, floor, extents, is_large(count, floor, &[]), big))
}

/// A child with so many more rows.
fn lengthened_node(
    alloc: Global,
    sizes: &[u64],
    floor: &[u64],
    count: &Aff,
    child: Result<Found, AllocError>,
) -> Result<Found, AllocError>
    requires floor { floor.now ≡ at_least_one sizes.now }
    requires scoped { IfOk child (λ f. extents_scoped (length sizes.now) f.extents ≡ true) }
    requires count { IsTrue (items_scoped (length sizes.now) 0 count.now) }
    requires within { IfOk child (λ f. each_within (lengthened_forms count.now f.extents) ≡ true) }
    ensures found { IsMade (λ f. found_at sizes.now (lengthened_forms count.now f.extents) (is_large (at_least_one sizes.now) [] count.now) f.big) child result }
    ensures scoped { IfOk result (λ found. extents_scoped (length sizes.now) found.extents ≡ true) }
{
    let child = child?;
    let big = child.big;
    let extents = lengthened(alloc, count, child.extents)?;
    Ok(at_node(sizes, floor, extents, is_large(count, floor, &[]), big))
}

/// The extents of a variable; of one that is not in scope, none.
fn of_variable(
    alloc: Global,
    shapes: &Stack<Items<Aff>>,
    var: u32,
) -> Result<Items<Aff>, AllocError>
    ensures { IfOk result (λ ns. ns ≡ get_or shapes.now var []) }
{
    match shapes.get(var) {
        Some(extents) => copies(alloc, extents.as_slice()),
        None => Ok(Items::new(alloc)),
    }
}

/// A term under one more index variable, whose extent is given.
#[cycle(survey)]
fn under_binder(
    alloc: Global,
    sizes: &[u64],
    floor: &[u64],
    vars: &mut Variables,
    shapes: &mut Stack<Items<Aff>>,
    extent: &Aff,
    term: &Term,
) -> Result<Found, AllocError>
    requires floor { floor.now ≡ at_least_one sizes.now }
    requires extent { IsTrue (items_scoped (length sizes.now) 0 extent.now) }
    requires sized { sized (length sizes.now) term.now ≡ true }
    requires placed { placed (length sizes.now) term.now (length vars.old + 1) ≡ true }
    requires shapes { each_scoped (length sizes.now) shapes.old ≡ true }
    requires shaped { IsOk (shape_of term.now shapes.old) }
    ensures found { IfOk result (λ found. found ≡ surveyed sizes.now term.now (largest_index sizes.now extent.now ∷ vars.old) shapes.old) }
    ensures scoped { IfOk result (λ found. extents_scoped (length sizes.now) found.extents ≡ true) }
    ensures vars { OnOk result (vars.new ≡ vars.old) }
    ensures shapes { OnOk result (shapes.new ≡ shapes.old) }
{
    vars.enter(alloc, extent.mag(floor, &[]))?;
    let found = survey(alloc, sizes, floor, vars, shapes, term)?;
    vars.leave();
    Ok(found)
}

/// A node of the extents of its first operand.
#[cycle(survey)]
fn like_first(
    alloc: Global,
    sizes: &[u64],
    floor: &[u64],
    vars: &mut Variables,
    shapes: &mut Stack<Items<Aff>>,
    second: &Term,
    first: Result<Found, AllocError>,
) -> Result<Found, AllocError>
    requires floor { floor.now ≡ at_least_one sizes.now }
    requires sized { sized (length sizes.now) second.now ≡ true }
    requires placed { OnOk first (placed (length sizes.now) second.now (length vars.old) ≡ true) }
    requires shapes { OnOk first (each_scoped (length sizes.now) shapes.old ≡ true) }
    requires first { IfOk first (λ f. extents_scoped (length sizes.now) f.extents ≡ true) }
    requires shaped { OnOk first (IsOk (shape_of second.now shapes.old)) }
    ensures found { IsMade (λ f. found_at sizes.now f.extents false (first_of f.big (surveyed sizes.now second.now vars.old shapes.old).big)) first result }
    ensures scoped { IfOk result (λ found. extents_scoped (length sizes.now) found.extents ≡ true) }
    ensures vars { OnOk result (vars.new ≡ vars.old) }
    ensures shapes { OnOk result (shapes.new ≡ shapes.old) }
{
    let first = first?;
    let other = survey(alloc, sizes, floor, vars, shapes, second)?;
    let big = first_of(first.big, other.big);
    Ok(at_node(sizes, floor, first.extents, false, big))
}

/// A word of two operands.
#[cycle(survey)]
fn word_of_both(
    alloc: Global,
    sizes: &[u64],
    floor: &[u64],
    vars: &mut Variables,
    shapes: &mut Stack<Items<Aff>>,
    second: &Term,
    first: Result<Found, AllocError>,
) -> Result<Found, AllocError>
    requires floor { floor.now ≡ at_least_one sizes.now }
    requires sized { sized (length sizes.now) second.now ≡ true }
    requires placed { OnOk first (placed (length sizes.now) second.now (length vars.old) ≡ true) }
    requires shapes { OnOk first (each_scoped (length sizes.now) shapes.old ≡ true) }
    requires first { IfOk first (λ f. extents_scoped (length sizes.now) f.extents ≡ true) }
    requires shaped { OnOk first (IsOk (shape_of second.now shapes.old)) }
    ensures found { IsMade (λ f. found_at sizes.now [] false (first_of f.big (surveyed sizes.now second.now vars.old shapes.old).big)) first result }
    ensures scoped { IfOk result (λ found. extents_scoped (length sizes.now) found.extents ≡ true) }
    ensures vars { OnOk result (vars.new ≡ vars.old) }
    ensures shapes { OnOk result (shapes.new ≡ shapes.old) }
{
    let first = first?;
    let other = survey(alloc, sizes, floor, vars, shapes, second)?;
    let big = first_of(first.big, other.big);
    Ok(at_node(sizes, floor, Items::new(alloc), false, big))
}

/// The rows of a first operand, then those of a second.
#[cycle(survey)]
fn concatenated_node(
    alloc: Global,
    sizes: &[u64],
    floor: &[u64],
    vars: &mut Variables,
    shapes: &mut Stack<Items<Aff>>,
    second: &Term,
    first: Result<Found, AllocError>,
) -> Result<Found, AllocError>
    requires floor { floor.now ≡ at_least_one sizes.now }
    requires sized { sized (length sizes.now) second.now ≡ true }
    requires placed { OnOk first (placed (length sizes.now) second.now (length vars.old) ≡ true) }
    requires shapes { OnOk first (each_scoped (length sizes.now) shapes.old ≡ true) }
    requires first { IfOk first (λ f. extents_scoped (length sizes.now) f.extents ≡ true) }
    requires shaped { OnOk first (IsOk (shape_of second.now shapes.old)) }
    requires within { IfOk first (λ f. each_within (concatenated_forms f.extents (surveyed sizes.now second.now vars.old shapes.old).extents) ≡ true) }
    ensures found { IsMade (λ f. found_at sizes.now (concatenated_forms f.extents (surveyed sizes.now second.now vars.old shapes.old).extents) false (first_of f.big (surveyed sizes.now second.now vars.old shapes.old).big)) first result }
    ensures scoped { IfOk result (λ found. extents_scoped (length sizes.now) found.extents ≡ true) }
    ensures vars { OnOk result (vars.new ≡ vars.old) }
    ensures shapes { OnOk result (shapes.new ≡ shapes.old) }
{
    let first = first?;
    let other = survey(alloc, sizes, floor, vars, shapes, second)?;
    let big = first_of(first.big, other.big);
    let extents = concatenated(alloc, first.extents, other.extents)?;
    Ok(at_node(sizes, floor, extents, false, big))
}

/// A body under its definition.
#[cycle(survey)]
fn under_definition(
    alloc: Global,
    sizes: &[u64],
    floor: &[u64],
    vars: &mut Variables,
    shapes: &mut Stack<Items<Aff>>,
    second: &Term,
    first: Result<Found, AllocError>,
) -> Result<Found, AllocError>
    requires floor { floor.now ≡ at_least_one sizes.now }
    requires sized { sized (length sizes.now) second.now ≡ true }
    requires placed { OnOk first (placed (length sizes.now) second.now (length vars.old) ≡ true) }
    requires shapes { OnOk first (each_scoped (length sizes.now) shapes.old ≡ true) }
    requires first { IfOk first (λ f. extents_scoped (length sizes.now) f.extents ≡ true) }
    requires shaped { IfOk first (λ f. IsOk (shape_of second.now (f.extents ∷ shapes.old))) }
    ensures found { IsMade (λ f. under_found sizes.now f (surveyed sizes.now second.now vars.old (f.extents ∷ shapes.old))) first result }
    ensures scoped { IfOk result (λ found. extents_scoped (length sizes.now) found.extents ≡ true) }
    ensures vars { OnOk result (vars.new ≡ vars.old) }
    ensures shapes { OnOk result (shapes.new ≡ shapes.old) }
{
    let first = first?;
    shapes.enter(first.extents)?;
    let body = survey(alloc, sizes, floor, vars, shapes, second)?;
    shapes.leave();
    Ok(at_node(
        sizes,
        floor,
        body.extents,
        false,
        first_of(first.big, body.big),
    ))
}

/// What is found of a term under the magnitudes of its index variables and the extents of its tensor variables. Each
/// node is visited once. The second sizes are the first, counted as at least 1.
#[cycle(survey)]
pub fn survey(
    alloc: Global,
    sizes: &[u64],
    floor: &[u64],
    vars: &mut Variables,
    shapes: &mut Stack<Items<Aff>>,
    term: &Term,
) -> Result<Found, AllocError>
    requires floor { floor.now ≡ at_least_one sizes.now }
    requires sized { sized (length sizes.now) term.now ≡ true }
    requires placed { placed (length sizes.now) term.now (length vars.old) ≡ true }
    requires shapes { each_scoped (length sizes.now) shapes.old ≡ true }
    requires shaped { IsOk (shape_of term.now shapes.old) }
    ensures found { IfOk result (λ found. found ≡ surveyed sizes.now term.now vars.old shapes.old) }
    ensures scoped { IfOk result (λ found. extents_scoped (length sizes.now) found.extents ≡ true) }
    ensures vars { OnOk result (vars.new ≡ vars.old) }
    ensures shapes { OnOk result (shapes.new ≡ shapes.old) }
{
    match term {
        Term::Lit(_) => Ok(at_node(sizes, floor, Items::new(alloc), false, None)),
        Term::TVar(var) => {
            let extents = of_variable(alloc, shapes, *var)?;
            Ok(at_node(sizes, floor, extents, false, None))
        }
        Term::WordOf(x) => {
            let large = is_large(x, floor, vars.as_slice());
            Ok(at_node(sizes, floor, Items::new(alloc), large, None))
        }
        Term::Index(e, x) => {
            let large = is_large(x, floor, vars.as_slice());
            row_node(
                sizes,
                floor,
                large,
                survey(alloc, sizes, floor, vars, shapes, e.get()),
            )
        }
        Term::Gen(n, e) => rows_node(
            alloc,
            sizes,
            floor,
            n,
            under_binder(alloc, sizes, floor, vars, shapes, n, e.get()),
        ),
        Term::Sum(n, e) => same_node(
            sizes,
            floor,
            is_large(n, floor, &[]),
            under_binder(alloc, sizes, floor, vars, shapes, n, e.get()),
        ),
        Term::Guard(c, e) => {
            let large = any_large_comparison(c, floor, vars.as_slice());
            same_node(
                sizes,
                floor,
                large,
                survey(alloc, sizes, floor, vars, shapes, e.get()),
            )
        }
        Term::Let(a, b) => {
            let first = survey(alloc, sizes, floor, vars, shapes, a.get());
            under_definition(alloc, sizes, floor, vars, shapes, b.get(), first)
        }
        Term::Add(a, b) => {
            let first = survey(alloc, sizes, floor, vars, shapes, a.get());
            like_first(alloc, sizes, floor, vars, shapes, b.get(), first)
        }
        Term::Sub(a, b) => {
            let first = survey(alloc, sizes, floor, vars, shapes, a.get());
            like_first(alloc, sizes, floor, vars, shapes, b.get(), first)
        }
        Term::Mul(a, b) => {
            let first = survey(alloc, sizes, floor, vars, shapes, a.get());
            word_of_both(alloc, sizes, floor, vars, shapes, b.get(), first)
        }
        Term::Concat(a, b) => {
            let first = survey(alloc, sizes, floor, vars, shapes, a.get());
            concatenated_node(alloc, sizes, floor, vars, shapes, b.get(), first)
        }
        Term::Flatten(e) => flattened_node(
            alloc,
            sizes,
            floor,
            survey(alloc, sizes, floor, vars, shapes, e.get()),
        ),
        Term::Split(k, e) => chunked_node(
            alloc,
            sizes,
            floor,
            *k,
            survey(alloc, sizes, floor, vars, shapes, e.get()),
        ),
        Term::Transpose(e) => transposed_node(
            alloc,
            sizes,
            floor,
            survey(alloc, sizes, floor, vars, shapes, e.get()),
        ),
        Term::TruncL(n, e) => shortened_node(
            alloc,
            sizes,
            floor,
            n,
            survey(alloc, sizes, floor, vars, shapes, e.get()),
        ),
        Term::TruncR(n, e) => shortened_node(
            alloc,
            sizes,
            floor,
            n,
            survey(alloc, sizes, floor, vars, shapes, e.get()),
        ),
        Term::PadL(n, e) => lengthened_node(
            alloc,
            sizes,
            floor,
            n,
            survey(alloc, sizes, floor, vars, shapes, e.get()),
        ),
        Term::PadR(n, e) => lengthened_node(
            alloc,
            sizes,
            floor,
            n,
            survey(alloc, sizes, floor, vars, shapes, e.get()),
        ),
    }
}
