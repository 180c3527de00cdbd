//! The way down to a place, and what it tells.

ghost use Rattle.std.specs.Prelude.{◌≡◌, ◌≤◌, ◌∷◌, ◌++◌, [], IfOk, IsOk, MatchResult, true};
ghost use Rattle.std.specs.Option.{option_copied, option_map};
ghost use Rattle.binders.specs.Answers.{IsWithinReach};
ghost use Rattle.binders.specs.Maps.{mapped};
ghost use Rattle.binders.specs.PlainMaps.{shift_map, shift_reach};
ghost use Rattle.path_focus.specs.Frames.{opened, way};
ghost use Rattle.path_focus.specs.Trail.{Goes, MayEnter, MayGo, MayLeave, MayMove, MayShape, entered_level, left_level, moved_let, with_fact, with_let};
ghost use Rattle.shape_rules.specs.Scopes.{IsScoped, all_free, given};
ghost use Rattle.term_tree.specs.Counts.{node_count, node_depth};
ghost use Rattle.term_tree.specs.Goals.{extents_or_none};
ghost use Rattle.term_tree.specs.Shape.{shape_of};
ghost use Rattle.term_tree.specs.declared.term.Term.{out-Term};

use crate::place::{BoundLet, PathRefusal};
use affine_index::{Aff, Cond};
use binders::{MapRefusal, Shift, map_term};
use fact_list::{PathFact, copy_cmps};
use shape_rules::extents::{copy as copied_form, enter};
use shape_rules::{ShapeFault, Shapes, shape};
use sqlite_items::{Boxed, Items};
use std::alloc::Global;
use term_tree::{Term, copy, told};

/// What is known on a way: the facts and the shapes at the node that it has reached; on the way back, how many gens and sums
/// stand between the node and the place, and the lets there with their definitions moved to the place.
#[derive(Drop)]
pub struct Trail {
    pub path: Items<PathFact>,
    pub shapes: Shapes,
    pub over: u32,
    pub bound: Items<BoundLet>,
}

pub fn copied_cond(alloc: Global, cond: &Cond) -> Result<Cond, PathRefusal>
    ensures { MatchResult result (λ copy. copy ≡ cond.now) (λ e. e ≡ PathRefusal.Memory) }
{
    let all = copy_cmps(alloc, cond.all.as_slice())?;
    Ok(Cond { all })
}

pub fn boxed(alloc: Global, term: Term) -> Result<Boxed<Term>, PathRefusal>
    ensures { MatchResult result (λ e. e ≡ term) (λ e. e ≡ PathRefusal.Memory) }
{
    Ok(Boxed::new(alloc, term)?)
}

/// A copy of a term.
pub fn copied(alloc: Global, term: &Term) -> Result<Boxed<Term>, PathRefusal>
    ensures { MatchResult result (λ e. e ≡ term.now) (λ e. e ≡ PathRefusal.Memory) }
{
    match copy(alloc, term) {
        Ok(copy) => boxed(alloc, copy),
        Err(_) => Err(PathRefusal::Memory),
    }
}

/// The child of this number.
pub fn child(term: &Term, step: u32) -> Option<&Term>
    ensures { option_copied result ≡ option_map (λ o. o.child) (opened term.now step) }
{
    match term {
        Term::Lit(_) | Term::TVar(_) | Term::WordOf(_) => None,
        Term::Index(e, _)
        | Term::Gen(_, e)
        | Term::Sum(_, e)
        | Term::Guard(_, e)
        | Term::Flatten(e)
        | Term::Split(_, e)
        | Term::Transpose(e)
        | Term::TruncL(_, e)
        | Term::TruncR(_, e)
        | Term::PadL(_, e)
        | Term::PadR(_, e) => { if step == 0 { Some(e.get()) } else { None } }
        Term::Let(a, b)
        | Term::Add(a, b)
        | Term::Sub(a, b)
        | Term::Mul(a, b)
        | Term::Concat(a, b) => {
            if step == 0 {
                Some(a.get())
            } else if step == 1 {
                Some(b.get())
            } else {
                None
            }
        }
    }
}

/// The shape of a definition that has one.
fn extents(alloc: Global, shapes: &Shapes, a: &Term) -> Result<Items<Aff>, PathRefusal>
    requires scoped { IsScoped shapes.now a.now }
    requires free { all_free (given shapes.now) ≡ true }
    requires shaped { IsOk (shape_of a.now (given shapes.now)) }
    ensures { MatchResult result (λ ns. ns ≡ extents_or_none (shape_of a.now (given shapes.now))) (λ e. e ≡ PathRefusal.Memory) }
{
    match shape(alloc, shapes, a) {
        Ok(extents) => Ok(extents),
        Err(ShapeFault::Memory) => Err(PathRefusal::Memory),
        Err(_) => unreachable!(),
    }
}

/// The one refusal of a map that moves variables.
fn out_of_memory(refusal: MapRefusal) -> PathRefusal
    requires { refusal ≡ MapRefusal.Memory }
    ensures { result ≡ PathRefusal.Memory }
{
    PathRefusal::Memory
}

/// A definition under so many more gens and sums and lets; moving keeps its forms within the limits.
pub fn moved(alloc: Global, by: Shift, a: &Term) -> Result<Boxed<Term>, PathRefusal>
    requires deep { node_depth a.now ≤ 2147483647 }
    requires small { node_count a.now ≤ 20000 }
    requires within { IsWithinReach (shift_reach by.index by.tensor) a.now }
    ensures { MatchResult result (λ e. e ≡ mapped (shift_map by.index by.tensor) 0 0 a.now) (λ e. e ≡ PathRefusal.Memory) }
{
    told(a);
    match map_term(alloc, &by, a) {
        Ok(term) => boxed(alloc, term),
        Err(refusal) => Err(out_of_memory(refusal)),
    }
}

impl Trail {
    fn push_fact(&mut self, fact: PathFact) -> Result<(), PathRefusal>
        ensures { MatchResult result (λ _. self.new ≡ with_fact fact self.old) (λ e. e ≡ PathRefusal.Memory) }
    {
        self.path.push(fact)?;
        Ok(())
    }

    /// The shape of a let's definition, in front of the others.
    fn push_let(&mut self, alloc: Global, a: &Term) -> Result<(), PathRefusal>
        requires { MayShape self.old a.now }
        ensures { MatchResult result (λ _. self.new ≡ with_let a.now self.old) (λ e. e ≡ PathRefusal.Memory) }
    {
        let extents = extents(alloc, &self.shapes, a)?;
        enter(alloc, &mut self.shapes, extents)?;
        Ok(())
    }

    /// What the node tells below the child of this number.
    fn enter(&mut self, alloc: Global, term: &Term, step: u32) -> Result<(), PathRefusal>
        requires { MayEnter (out-Term term.now) self.old }
        ensures { MatchResult result (λ _. self.new ≡ entered_level (out-Term term.now) step self.old) (λ e. e ≡ PathRefusal.Memory) }
    {
        match term {
            Term::Gen(n, _) | Term::Sum(n, _) => {
                let fact = PathFact::Bound(copied_form(alloc, n)?);
                self.push_fact(fact)
            }
            Term::Guard(c, _) => {
                let fact = PathFact::Holds(copied_cond(alloc, c)?);
                self.push_fact(fact)
            }
            Term::Let(a, _) => {
                if step == 0 {
                    Ok(())
                } else {
                    self.push_let(alloc, a.get())
                }
            }
            Term::Lit(_)
            | Term::TVar(_)
            | Term::WordOf(_)
            | Term::Index(_, _)
            | Term::Add(_, _)
            | Term::Sub(_, _)
            | Term::Mul(_, _)
            | Term::Concat(_, _)
            | Term::Flatten(_)
            | Term::Split(_, _)
            | Term::Transpose(_)
            | Term::TruncL(_, _)
            | Term::TruncR(_, _)
            | Term::PadL(_, _)
            | Term::PadR(_, _) => Ok(()),
        }
    }

    /// A let above the place, with its definition moved there.
    fn bind(&mut self, alloc: Global, a: &Term) -> Result<(), PathRefusal>
        requires { MayMove self.old a.now }
        ensures { MatchResult result (λ _. self.new ≡ record self.old { bound = self.old.bound ++ moved_let self.old a.now ∷ [] }) (λ e. e ≡ PathRefusal.Memory) }
    {
        let var = self.bound.len() as u32;
        let by = Shift {
            index: self.over,
            tensor: var + 1,
        };
        let term = moved(alloc, by, a)?;
        self.bound.push(BoundLet { var, term })?;
        Ok(())
    }

    /// What the node tells on the way back.
    fn leave(&mut self, alloc: Global, term: &Term, step: u32) -> Result<(), PathRefusal>
        requires { MayLeave (out-Term term.now) self.old }
        ensures { MatchResult result (λ _. self.new ≡ left_level (out-Term term.now) step self.old) (λ e. e ≡ PathRefusal.Memory) }
    {
        match term {
            Term::Gen(_, _) | Term::Sum(_, _) => {
                self.over += 1;
                Ok(())
            }
            Term::Let(a, _) => {
                if step == 0 {
                    Ok(())
                } else {
                    self.bind(alloc, a.get())
                }
            }
            Term::Lit(_)
            | Term::TVar(_)
            | Term::WordOf(_)
            | Term::Index(_, _)
            | Term::Guard(_, _)
            | Term::Add(_, _)
            | Term::Sub(_, _)
            | Term::Mul(_, _)
            | Term::Concat(_, _)
            | Term::Flatten(_)
            | Term::Split(_, _)
            | Term::Transpose(_)
            | Term::TruncL(_, _)
            | Term::TruncR(_, _)
            | Term::PadL(_, _)
            | Term::PadR(_, _) => Ok(()),
        }
    }

    /// Down the way to the place and back, and a copy of the term that stands there.
    pub fn go(
        &mut self,
        alloc: Global,
        term: &Term,
        steps: &[u32],
    ) -> Result<Boxed<Term>, PathRefusal>
        requires { MayGo self.old term.now }
        ensures { Goes (way term.now steps.now) self.old self.new result }
    {
        match steps {
            [] => copied(alloc, term),
            [step, further @ ..] => match child(term, *step) {
                None => Err(PathRefusal::NoSuchPath),
                Some(inside) => {
                    self.enter(alloc, term, *step)?;
                    let found = self.go(alloc, inside, further)?;
                    self.leave(alloc, term, *step)?;
                    Ok(found)
                }
            },
        }
    }
}
