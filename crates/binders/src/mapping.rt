//! Terms with the replacement of each variable.

ghost use Rattle.std.specs.Prelude.{◌≡◌, ◌⊎◌, ◌+◌, ◌^◌, ◌<◌, true, false, not, Err};
ghost use Rattle.term_tree.specs.Counts.{depth_fold};
ghost use Rattle.binders.specs.Answers.{IsForm, IsPartOf, form_beyond, part_causes, parts_of, place_fold, tensor_refused};
ghost use Rattle.binders.specs.Maps.{map_fold};

use crate::kinds::{
    LoneKind, PairKind, RowKind, guard_node, index_node, lone_node, pair_node, row_node, word_node,
};
use crate::refusal::MapRefusal;
use crate::replacement::{put_cond, put_form};
use crate::var_map::VarMap;
use affine_index::Aff;
use sqlite_items::Boxed;
use std::alloc::Global;
use term_tree::{Depths, Term, told};

/// A copy, which is as short as its form.
fn copy(alloc: Global, form: &Aff) -> Result<Option<Aff>, MapRefusal>
    ensures { IsForm form.now (λ e. false) result }
{
    form.told();
    match form.copy(alloc) {
        Ok(copy) => Ok(Some(copy)),
        Err(_) => Err(MapRefusal::Memory),
    }
}

/// Both parts of a node, where both are short.
fn parts<A: Drop, B: Drop>(
    first: Result<Option<A>, MapRefusal>,
    second: Result<Option<B>, MapRefusal>,
) -> Result<Option<(A, B)>, MapRefusal>
    ensures { result ≡ parts_of first second }
{
    match first {
        Ok(Some(first)) => match second {
            Ok(Some(second)) => Ok(Some((first, second))),
            Ok(None) => Ok(None),
            Err(refusal) => Err(refusal),
        },
        Ok(None) => match second {
            Ok(_) => Ok(None),
            Err(refusal) => Err(refusal),
        },
        Err(refusal) => Err(refusal),
    }
}

fn tensor<M: VarMap>(
    alloc: Global,
    map: &M,
    depths: Depths,
    var: u32,
) -> Result<Option<Term>, MapRefusal>
    requires within { (M.reach map.now).has_tensor depths.index depths.tensor var ≡ true }
    ensures { IsPartOf ((M.meaning map.now).for_tensor depths.index depths.tensor var) (λ e. tensor_refused (M.refusals map.now) e depths.index depths.tensor var) result }
{
    match map.tensor(alloc, depths, var) {
        Ok(term) => {
            told(&term);
            Ok(Some(term))
        }
        Err(refusal) => Err(refusal),
    }
}

/// Under one more gen or sum.
pub fn under_index(depths: Depths) -> Depths
    requires { depths.index + 1 < 2 ^ 32 }
    ensures index { result.index ≡ depths.index + 1 }
    ensures tensor { result.tensor ≡ depths.tensor }
{
    Depths {
        index: depths.index + 1,
        tensor: depths.tensor,
    }
}

/// Under one more let.
pub fn under_tensor(depths: Depths) -> Depths
    requires { depths.tensor + 1 < 2 ^ 32 }
    ensures index { result.index ≡ depths.index }
    ensures tensor { result.tensor ≡ depths.tensor + 1 }
{
    Depths {
        index: depths.index,
        tensor: depths.tensor + 1,
    }
}

/// A part in a box.
fn boxed(
    alloc: Global,
    part: Result<Option<Term>, MapRefusal>,
) -> Result<Option<Boxed<Term>>, MapRefusal>
    ensures { (result ≡ part) ⊎ (result ≡ Err MapRefusal.Memory) }
{
    match part {
        Ok(Some(term)) => match Boxed::new(alloc, term) {
            Ok(part) => Ok(Some(part)),
            Err(_) => Err(MapRefusal::Memory),
        },
        Ok(None) => Ok(None),
        Err(refusal) => Err(refusal),
    }
}

#[cycle(map)]
fn below<M: VarMap>(
    alloc: Global,
    map: &M,
    depths: Depths,
    term: &Boxed<Term>,
) -> Result<Option<Boxed<Term>>, MapRefusal>
    requires index { depths.index + depth_fold term.now < 2 ^ 32 }
    requires tensor { depths.tensor + depth_fold term.now < 2 ^ 32 }
    requires within { place_fold (form_beyond (M.reach map.now)) (λ i j q. not ((M.reach map.now).has_tensor i j q)) term.now depths.index depths.tensor ≡ false }
    ensures { IsPartOf (map_fold (M.meaning map.now) term.now depths.index depths.tensor) (part_causes (M.meaning map.now) (M.refusals map.now) term.now depths.index depths.tensor) result }
{
    boxed(alloc, part(alloc, map, depths, term.get()))
}

/// The mapped term, or nothing where a form is too long; there is no limit on nodes here.
#[cycle(map)]
pub fn part<M: VarMap>(
    alloc: Global,
    map: &M,
    depths: Depths,
    term: &Term,
) -> Result<Option<Term>, MapRefusal>
    requires index { depths.index + depth_fold term.now < 2 ^ 32 }
    requires tensor { depths.tensor + depth_fold term.now < 2 ^ 32 }
    requires within { place_fold (form_beyond (M.reach map.now)) (λ i j q. not ((M.reach map.now).has_tensor i j q)) term.now depths.index depths.tensor ≡ false }
    ensures { IsPartOf (map_fold (M.meaning map.now) term.now depths.index depths.tensor) (part_causes (M.meaning map.now) (M.refusals map.now) term.now depths.index depths.tensor) result }
{
    match term {
        Term::Lit(w) => Ok(Some(Term::Lit(*w))),
        Term::TVar(q) => tensor(alloc, map, depths, *q),
        Term::WordOf(x) => word_node(put_form(alloc, map, depths, x)),
        Term::Index(e, x) => index_node(parts(
            below(alloc, map, depths, e),
            put_form(alloc, map, depths, x),
        )),
        Term::Gen(n, e) => row_node(
            RowKind::Gen,
            parts(copy(alloc, n), below(alloc, map, under_index(depths), e)),
        ),
        Term::Sum(n, e) => row_node(
            RowKind::Sum,
            parts(copy(alloc, n), below(alloc, map, under_index(depths), e)),
        ),
        Term::Guard(c, e) => guard_node(parts(
            put_cond(alloc, map, depths, c),
            below(alloc, map, depths, e),
        )),
        Term::Let(a, b) => pair_node(
            PairKind::Let,
            parts(
                below(alloc, map, depths, a),
                below(alloc, map, under_tensor(depths), b),
            ),
        ),
        Term::Add(a, b) => pair_node(
            PairKind::Add,
            parts(below(alloc, map, depths, a), below(alloc, map, depths, b)),
        ),
        Term::Sub(a, b) => pair_node(
            PairKind::Sub,
            parts(below(alloc, map, depths, a), below(alloc, map, depths, b)),
        ),
        Term::Mul(a, b) => pair_node(
            PairKind::Mul,
            parts(below(alloc, map, depths, a), below(alloc, map, depths, b)),
        ),
        Term::Concat(a, b) => pair_node(
            PairKind::Concat,
            parts(below(alloc, map, depths, a), below(alloc, map, depths, b)),
        ),
        Term::Flatten(e) => lone_node(LoneKind::Flatten, below(alloc, map, depths, e)),
        Term::Split(k, e) => lone_node(LoneKind::Split(*k), below(alloc, map, depths, e)),
        Term::Transpose(e) => lone_node(LoneKind::Transpose, below(alloc, map, depths, e)),
        Term::TruncL(n, e) => row_node(
            RowKind::TruncL,
            parts(copy(alloc, n), below(alloc, map, depths, e)),
        ),
        Term::TruncR(n, e) => row_node(
            RowKind::TruncR,
            parts(copy(alloc, n), below(alloc, map, depths, e)),
        ),
        Term::PadL(n, e) => row_node(
            RowKind::PadL,
            parts(copy(alloc, n), below(alloc, map, depths, e)),
        ),
        Term::PadR(n, e) => row_node(
            RowKind::PadR,
            parts(copy(alloc, n), below(alloc, map, depths, e)),
        ),
    }
}
