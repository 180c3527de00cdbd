//! The number of nodes and the depth of a term, which stop at 2^64 - 1.

ghost use Rattle.std.specs.Prelude.{◌≡◌, ◌-◌, ◌^◌, min};
ghost use Rattle.term_tree.specs.Counts.{depth_fold, node_count, node_depth, node_fold};

use crate::term::Term;

/// The number of nodes, or 2^64 - 1 where there are more.
#[tactic(auto, using(crate::proofs::NodeFold::node_fold_laws))]
pub fn nodes(term: &Term) -> u64
    ensures { result ≡ min (node_count term.now) (2 ^ 64 - 1) }
{
    count_nodes(term)
}

/// The depth, in which a leaf has 0, or 2^64 - 1 where there is more.
#[tactic(auto, using(crate::proofs::NodeFold::node_depth_laws))]
pub fn depth(term: &Term) -> u64
    ensures { result ≡ min (node_depth term.now) (2 ^ 64 - 1) }
{
    count_levels(term)
}

fn count_nodes(term: &Term) -> u64
    ensures { result ≡ min (node_fold term.now) (2 ^ 64 - 1) }
{
    match term {
        Term::Lit(_) | Term::TVar(_) | Term::WordOf(_) => 1,
        Term::Index(child, _)
        | Term::Gen(_, child)
        | Term::Sum(_, child)
        | Term::Guard(_, child)
        | Term::Flatten(child)
        | Term::Split(_, child)
        | Term::Transpose(child)
        | Term::TruncL(_, child)
        | Term::TruncR(_, child)
        | Term::PadL(_, child)
        | Term::PadR(_, child) => count_nodes(child.get()).saturating_add(1),
        Term::Let(left, right)
        | Term::Add(left, right)
        | Term::Sub(left, right)
        | Term::Mul(left, right)
        | Term::Concat(left, right) => count_nodes(left.get())
            .saturating_add(count_nodes(right.get()))
            .saturating_add(1),
    }
}

fn count_levels(term: &Term) -> u64
    ensures { result ≡ min (depth_fold term.now) (2 ^ 64 - 1) }
{
    match term {
        Term::Lit(_) | Term::TVar(_) | Term::WordOf(_) => 0,
        Term::Index(child, _)
        | Term::Gen(_, child)
        | Term::Sum(_, child)
        | Term::Guard(_, child)
        | Term::Flatten(child)
        | Term::Split(_, child)
        | Term::Transpose(child)
        | Term::TruncL(_, child)
        | Term::TruncR(_, child)
        | Term::PadL(_, child)
        | Term::PadR(_, child) => count_levels(child.get()).saturating_add(1),
        Term::Let(left, right)
        | Term::Add(left, right)
        | Term::Sub(left, right)
        | Term::Mul(left, right)
        | Term::Concat(left, right) => count_levels(left.get())
            .max(count_levels(right.get()))
            .saturating_add(1),
    }
}
