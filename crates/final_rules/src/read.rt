//! Reads: tensor variables under indices.

ghost use Rattle.std.specs.Prelude.{◌≡◌, IfOk};
ghost use Rattle.final_rules.specs.Reads.{reading};

use affine_index::Aff;
use shape_rules::extents::{copy, in_front};
use sqlite_items::Items;
use std::alloc::{AllocError, Global};
use term_tree::Term;

/// A tensor variable under indices, the outermost of which stands last.
#[derive(Drop)]
pub struct Read {
    pub var: u32,
    pub indices: Items<Aff>,
}

/// The read that a term is under more indices, if it is one.
pub fn reading(alloc: Global, term: &Term, after: Items<Aff>) -> Result<Option<Read>, AllocError>
    ensures { IfOk result (λ r. r ≡ reading term.now after) }
{
    match term {
        Term::TVar(var) => Ok(Some(Read {
            var: *var,
            indices: after,
        })),
        Term::Index(child, index) => {
            let index = copy(alloc, index)?;
            let indices = in_front(alloc, index, after)?;
            reading(alloc, child.get(), indices)
        }
        Term::Lit(_)
        | Term::WordOf(_)
        | Term::Gen(_, _)
        | Term::Sum(_, _)
        | Term::Guard(_, _)
        | Term::Let(_, _)
        | Term::Add(_, _)
        | Term::Sub(_, _)
        | Term::Mul(_, _)
        | Term::Concat(_, _)
        | Term::Flatten(_)
        | Term::Split(_, _)
        | Term::Transpose(_)
        | Term::TruncL(_, _)
        | Term::TruncR(_, _)
        | Term::PadL(_, _)
        | Term::PadR(_, _) => Ok(None),
    }
}
