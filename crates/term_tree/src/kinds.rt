//! Nodes by their kinds.

ghost use Rattle.std.specs.Prelude.{◌≡◌};
ghost use Rattle.term_tree.specs.declared.term.Term.TheVariants.{Guard};
ghost use Rattle.term_tree.specs.Kinds.{node_of, pair_of, row_of};

use crate::refusal::TreeRefusal;
use crate::term::Term;
use affine_index::{Aff, Cond};
use sqlite_items::Boxed;

/// The nodes of a form and a part.
#[derive(Clone, Copy)]
pub enum RowKind {
    Index,
    Gen,
    Sum,
    TruncL,
    TruncR,
    PadL,
    PadR,
}

/// The nodes of two parts.
#[derive(Clone, Copy)]
pub enum PairKind {
    Let,
    Add,
    Sub,
    Mul,
    Concat,
}

fn row(kind: RowKind, form: Aff, part: Boxed<Term>) -> Term
    ensures { result ≡ row_of kind form part }
{
    match kind {
        RowKind::Index => Term::Index(part, form),
        RowKind::Gen => Term::Gen(form, part),
        RowKind::Sum => Term::Sum(form, part),
        RowKind::TruncL => Term::TruncL(form, part),
        RowKind::TruncR => Term::TruncR(form, part),
        RowKind::PadL => Term::PadL(form, part),
        RowKind::PadR => Term::PadR(form, part),
    }
}

fn pair(kind: PairKind, left: Boxed<Term>, right: Boxed<Term>) -> Term
    ensures { result ≡ pair_of kind left right }
{
    match kind {
        PairKind::Let => Term::Let(left, right),
        PairKind::Add => Term::Add(left, right),
        PairKind::Sub => Term::Sub(left, right),
        PairKind::Mul => Term::Mul(left, right),
        PairKind::Concat => Term::Concat(left, right),
    }
}

/// A node of a form and a part, or the first refusal.
pub fn row_node(
    kind: RowKind,
    form: Result<Aff, TreeRefusal>,
    part: Result<Boxed<Term>, TreeRefusal>,
) -> Result<Term, TreeRefusal>
    ensures { result ≡ node_of (row_of kind) form part }
{
    match form {
        Ok(form) => match part {
            Ok(part) => Ok(row(kind, form, part)),
            Err(refusal) => Err(refusal),
        },
        Err(refusal) => Err(refusal),
    }
}

/// A node of two parts, or the first refusal.
pub fn pair_node(
    kind: PairKind,
    left: Result<Boxed<Term>, TreeRefusal>,
    right: Result<Boxed<Term>, TreeRefusal>,
) -> Result<Term, TreeRefusal>
    ensures { result ≡ node_of (pair_of kind) left right }
{
    match left {
        Ok(left) => match right {
            Ok(right) => Ok(pair(kind, left, right)),
            Err(refusal) => Err(refusal),
        },
        Err(refusal) => Err(refusal),
    }
}

/// A part under a condition, or the first refusal.
pub fn guard_node(
    cond: Result<Cond, TreeRefusal>,
    part: Result<Boxed<Term>, TreeRefusal>,
) -> Result<Term, TreeRefusal>
    ensures { result ≡ node_of Guard cond part }
{
    match cond {
        Ok(cond) => match part {
            Ok(part) => Ok(Term::Guard(cond, part)),
            Err(refusal) => Err(refusal),
        },
        Err(refusal) => Err(refusal),
    }
}
