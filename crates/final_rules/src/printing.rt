//! Whether printed indices are small, in the order of the text.

ghost use Rattle.std.specs.Prelude.{◌≡◌, ◌<◌, [], IfOk, MatchResult, Ok, get_or, length, pos, true};
ghost use Rattle.affine_index.specs.Condition.{all_scoped, cmp_form};
ghost use Rattle.affine_index.specs.Form.{literal_form};
ghost use Rattle.affine_index.specs.Limited.{items_scoped};
ghost use Rattle.reindexer.specs.Limited.{Answers, Limited, limited};
ghost use Rattle.reindexer.specs.Places.{row_place};
ghost use Rattle.reindexer.specs.Ready.{extents_ready};
ghost use Rattle.shape_rules.specs.Scopes.{given};
ghost use Rattle.final_rules.specs.Form.{read_under};
ghost use Rattle.final_rules.specs.Printed.{behind, form_small};
ghost use Rattle.final_rules.specs.Printing.{Counts, CountsWord, IsDue, ReadReady, WordReady, compared, guarded_sized, next, read_sized, sited, word_sized, words_sized};

use crate::read::{Read, reading};
use affine_index::{Aff, AffRefusal, Cmp, Cond};
use reindexer::forms::sum;
use reindexer::row_place;
use shape_rules::Shapes;
use sqlite_items::Items;
use std::alloc::{AllocError, Global};
use term_tree::Term;

/// The greatest magnitude of a printed index.
const LARGEST: u64 = 1 << 62;

/// Why a walk of printed indices ends early.
#[derive(Debug, Drop, Clone, Copy, PartialEq, Eq)]
pub enum Stop {
    /// The number of an index that breaks a limit of normal forms, or has a magnitude over 2^62.
    Large(u64),
    /// Want of memory, or more indices than a number of 64 bits counts.
    Memory,
}

impl From<AllocError> for Stop {
    ghost use Rattle.final_rules.specs.declared.printing.Stop.TheVariants.{Memory};

    ghost from_gives = { λ _ e. e ≡ Memory };

    fn from(_e: AllocError) -> Stop {
        Stop::Memory
    }
}

/// The tensors in scope.
#[derive(Drop)]
pub struct Scene {
    pub shapes: Shapes,
    /// Where the lets stand in the scratch region, from the innermost.
    pub offsets: Items<Aff>,
}

/// The number of the next index after one that is small, or the number of one that is not.
pub fn next(small: bool, number: u64) -> Result<u64, Stop>
    ensures { Counts (next small number) result }
{
    if !small {
        return Err(Stop::Large(number));
    }
    match number.checked_add(1) {
        Some(after) => Ok(after),
        None => Err(Stop::Memory),
    }
}

/// Whether the magnitude of a form is at most 2^62, where size s has `maxima[s]` and variable v has `vars[v]`.
fn is_small(maxima: &[u64], vars: &[u64], form: &Aff) -> bool
    requires { items_scoped (length maxima.now) (length vars.now) form.now ≡ true }
    ensures { result ≡ form_small maxima.now vars.now (Ok form.now) }
{
    form.told();
    form.mag(maxima, vars) <= LARGEST
}

/// An index that was taken form by form: a form that breaks a limit on the way counts as the index itself.
pub fn measured(
    maxima: &[u64],
    vars: &[u64],
    form: Result<Aff, AffRefusal>,
    number: u64,
) -> Result<u64, Stop>
    requires due { IsDue form }
    requires scoped { IfOk form (λ x. items_scoped (length maxima.now) (length vars.now) x ≡ true) }
    ensures { (due : Limited Aff) → Answers due form → Counts (next (form_small maxima.now vars.now due) number) result }
{
    match form {
        Ok(form) => next(is_small(maxima, vars, &form), number),
        Err(AffRefusal::CoefficientTooLarge) | Err(AffRefusal::IndexTooLong) => {
            Err(Stop::Large(number))
        }
        Err(AffRefusal::Memory) => Err(Stop::Memory),
        Err(AffRefusal::NotAffine) => unreachable!(),
    }
}

/// A form that is printed as it stands.
pub fn plain(maxima: &[u64], vars: &[u64], form: &Aff, number: u64) -> Result<u64, Stop>
    requires { items_scoped (length maxima.now) (length vars.now) form.now ≡ true }
    ensures { Counts (next (form_small maxima.now vars.now (limited form.now)) number) result }
{
    next(is_small(maxima, vars, form), number)
}

/// A comparison, by the form that it compares with 0.
fn comparison(maxima: &[u64], vars: &[u64], cmp: &Cmp, number: u64) -> Result<u64, Stop>
    requires { items_scoped (length maxima.now) (length vars.now) (cmp_form cmp.now) ≡ true }
    ensures { Counts (next (form_small maxima.now vars.now (limited (cmp_form cmp.now))) number) result }
{
    match cmp {
        Cmp::Ge(form) | Cmp::Eq(form) => plain(maxima, vars, form, number),
    }
}

/// Comparisons in order.
pub fn compared(maxima: &[u64], vars: &[u64], cmps: &[Cmp], first: u64) -> Result<u64, Stop>
    requires { all_scoped (length maxima.now) (length vars.now) cmps.now ≡ true }
    ensures { Counts (compared maxima.now vars.now cmps.now first) result }
{
    let mut number = first;
    for cmp in cmps {
        number = comparison(maxima, vars, cmp, number)?;
    }
    Ok(number)
}

/// The extents of a tensor variable.
pub fn extents_at<'a>(shapes: &'a Shapes, var: u32) -> &'a [Aff]
    ensures { result.now ≡ get_or (given shapes.now) var [] }
{
    let lets = shapes.lets.len();
    let var = var as usize;
    if var < lets {
        return shapes.lets.as_slice()[var].as_slice();
    }
    match shapes.inputs.as_slice().get(var - lets) {
        Some(extents) => extents.as_slice(),
        None => &[],
    }
}

/// The offset of a tensor variable: that of a let, and 0 for an input.
fn offset_at(alloc: Global, scene: &Scene, var: u32) -> Result<Aff, AffRefusal>
    ensures { MatchResult result (λ x. x ≡ get_or scene.now.offsets var (literal_form (pos 0))) (λ e. e ≡ AffRefusal.Memory) }
{
    match scene.offsets.as_slice().get(var as usize) {
        Some(offset) => {
            let offset = offset.copy(alloc)?;
            Ok(offset)
        }
        None => {
            let zero = Aff::literal(alloc, 0)?;
            Ok(zero)
        }
    }
}

/// The place of indices in a tensor, behind its offset.
fn behind(alloc: Global, offset: &Aff, extents: &[Aff], indices: &[Aff]) -> Result<Aff, AffRefusal>
    requires { extents_ready extents.now ≡ true }
    ensures { Answers (behind offset.now (row_place extents.now indices.now)) result }
{
    let place = row_place(alloc, extents, indices)?;
    sum(alloc, &place, offset)
}

/// The place of indices in a tensor variable.
pub fn sited(alloc: Global, scene: &Scene, var: u32, indices: &[Aff]) -> Result<Aff, AffRefusal>
    requires there { var < length (given scene.now.shapes) }
    requires ready { extents_ready (get_or (given scene.now.shapes) var []) ≡ true }
    ensures { Answers (sited scene.now var indices.now) result }
{
    let offset = offset_at(alloc, scene, var)?;
    let extents = extents_at(&scene.shapes, var);
    behind(alloc, &offset, extents, indices)
}

/// A read, if there is one.
fn read_if(
    alloc: Global,
    maxima: &[u64],
    vars: &[u64],
    scene: &Scene,
    read: Option<Read>,
    number: u64,
) -> Result<u64, Stop>
    requires ready { ReadReady maxima.now vars.now scene.now read }
    ensures { Counts (read_sized maxima.now vars.now scene.now read number) result }
{
    match read {
        None => Ok(number),
        Some(read) => {
            let place = sited(alloc, scene, read.var, read.indices.as_slice());
            measured(maxima, vars, place, number)
        }
    }
}

/// A tensor variable under indices.
fn read_term(
    alloc: Global,
    maxima: &[u64],
    vars: &[u64],
    scene: &Scene,
    term: &Term,
    number: u64,
) -> Result<u64, Stop>
    requires { ReadReady maxima.now vars.now scene.now (read_under term.now []) }
    ensures { Counts (read_sized maxima.now vars.now scene.now (read_under term.now []) number) result }
{
    let read = reading(alloc, term, Items::new(alloc))?;
    read_if(alloc, maxima, vars, scene, read, number)
}

/// Two words, from left to right.
#[cycle(word)]
fn words(
    alloc: Global,
    maxima: &[u64],
    vars: &[u64],
    scene: &Scene,
    left: &Term,
    right: &Term,
    number: u64,
) -> Result<u64, Stop>
    requires left { WordReady maxima.now vars.now scene.now left.now }
    requires right { WordReady maxima.now vars.now scene.now right.now }
    ensures { Counts (words_sized maxima.now vars.now scene.now left.now right.now number) result }
{
    let number = word(alloc, maxima, vars, scene, left, number)?;
    word(alloc, maxima, vars, scene, right, number)
}

/// A choice, whose comparisons come before its word.
#[cycle(word)]
fn guarded(
    alloc: Global,
    maxima: &[u64],
    vars: &[u64],
    scene: &Scene,
    cond: &Cond,
    part: &Term,
    number: u64,
) -> Result<u64, Stop>
    requires cond { all_scoped (length maxima.now) (length vars.now) (cond.now).all ≡ true }
    requires part { WordReady maxima.now vars.now scene.now part.now }
    ensures { Counts (guarded_sized maxima.now vars.now scene.now cond.now part.now number) result }
{
    let number = compared(maxima, vars, cond.all.as_slice(), number)?;
    word(alloc, maxima, vars, scene, part, number)
}

/// The indices of a word, from left to right.
#[cycle(word)]
#[tactic(auto, using(crate::proofs::WordForms::word_forms))]
fn word(
    alloc: Global,
    maxima: &[u64],
    vars: &[u64],
    scene: &Scene,
    term: &Term,
    number: u64,
) -> Result<u64, Stop>
    requires { WordReady maxima.now vars.now scene.now term.now }
    ensures { Counts (word_sized maxima.now vars.now scene.now term.now number) result }
{
    match term {
        Term::WordOf(index) => plain(maxima, vars, index, number),
        Term::TVar(_) | Term::Index(_, _) => { read_term(alloc, maxima, vars, scene, term, number) }
        Term::Guard(cond, part) => guarded(alloc, maxima, vars, scene, cond, part.get(), number),
        Term::Add(a, b) | Term::Sub(a, b) | Term::Mul(a, b) => {
            words(alloc, maxima, vars, scene, a.get(), b.get(), number)
        }
        Term::Lit(_)
        | Term::Gen(_, _)
        | Term::Sum(_, _)
        | Term::Let(_, _)
        | Term::Concat(_, _)
        | Term::Flatten(_)
        | Term::Split(_, _)
        | Term::Transpose(_)
        | Term::TruncL(_, _)
        | Term::TruncR(_, _)
        | Term::PadL(_, _)
        | Term::PadR(_, _) => Ok(number),
    }
}

/// The number of the next printed index after those of a word, which are counted from left to right, or the number of the first that
/// is not small. Linear in the word, and for each read in its indices.
pub fn word_indices(
    alloc: Global,
    maxima: &[u64],
    vars: &[u64],
    scene: &Scene,
    term: &Term,
    number: u64,
) -> Result<u64, Stop>
    requires { WordReady maxima.now vars.now scene.now term.now }
    ensures { CountsWord maxima.now vars.now scene.now term.now number result }
{
    word(alloc, maxima, vars, scene, term, number)
}
