//! Nodes of mapped parts.

ghost use Rattle.std.specs.Prelude.{◌≡◌};
ghost use Rattle.term_tree.specs.declared.term.Term.TheVariants.{Guard, Index, WordOf};
ghost use Rattle.binders.specs.Kinds.{lone_of, made_of, node_of, pair_of, row_of};

use crate::refusal::MapRefusal;
use affine_index::{Aff, Cond};
use sqlite_items::Boxed;
use term_tree::Term;

/// The nodes that have a form before their part.
#[derive(Clone, Copy)]
pub enum RowKind {
    Gen,
    Sum,
    TruncL,
    TruncR,
    PadL,
    PadR,
}

/// The nodes of two parts.
#[derive(Clone, Copy)]
pub enum PairKind {
    Let,
    Add,
    Sub,
    Mul,
    Concat,
}

/// The other nodes of one part.
#[derive(Clone, Copy)]
pub enum LoneKind {
    Flatten,
    Split(u32),
    Transpose,
}

fn row(kind: RowKind, form: Aff, part: Boxed<Term>) -> Term
    ensures { result ≡ row_of kind form part }
{
    match kind {
        RowKind::Gen => Term::Gen(form, part),
        RowKind::Sum => Term::Sum(form, part),
        RowKind::TruncL => Term::TruncL(form, part),
        RowKind::TruncR => Term::TruncR(form, part),
        RowKind::PadL => Term::PadL(form, part),
        RowKind::PadR => Term::PadR(form, part),
    }
}

fn pair(kind: PairKind, left: Boxed<Term>, right: Boxed<Term>) -> Term
    ensures { result ≡ pair_of kind left right }
{
    match kind {
        PairKind::Let => Term::Let(left, right),
        PairKind::Add => Term::Add(left, right),
        PairKind::Sub => Term::Sub(left, right),
        PairKind::Mul => Term::Mul(left, right),
        PairKind::Concat => Term::Concat(left, right),
    }
}

fn lone(kind: LoneKind, part: Boxed<Term>) -> Term
    ensures { result ≡ lone_of kind part }
{
    match kind {
        LoneKind::Flatten => Term::Flatten(part),
        LoneKind::Split(k) => Term::Split(k, part),
        LoneKind::Transpose => Term::Transpose(part),
    }
}

/// A node of one part, where it is short.
pub fn lone_node(
    kind: LoneKind,
    part: Result<Option<Boxed<Term>>, MapRefusal>,
) -> Result<Option<Term>, MapRefusal>
    ensures { result ≡ made_of (lone_of kind) part }
{
    match part {
        Ok(Some(part)) => Ok(Some(lone(kind, part))),
        Ok(None) => Ok(None),
        Err(refusal) => Err(refusal),
    }
}

/// The word of a form that is short.
pub fn word_node(form: Result<Option<Aff>, MapRefusal>) -> Result<Option<Term>, MapRefusal>
    ensures { result ≡ made_of WordOf form }
{
    match form {
        Ok(Some(form)) => Ok(Some(Term::WordOf(form))),
        Ok(None) => Ok(None),
        Err(refusal) => Err(refusal),
    }
}

/// A node of a form and a part, where both are short.
pub fn row_node(
    kind: RowKind,
    parts: Result<Option<(Aff, Boxed<Term>)>, MapRefusal>,
) -> Result<Option<Term>, MapRefusal>
    ensures { result ≡ node_of (row_of kind) parts }
{
    match parts {
        Ok(Some((form, part))) => Ok(Some(row(kind, form, part))),
        Ok(None) => Ok(None),
        Err(refusal) => Err(refusal),
    }
}

/// A node of two parts, where both are short.
pub fn pair_node(
    kind: PairKind,
    parts: Result<Option<(Boxed<Term>, Boxed<Term>)>, MapRefusal>,
) -> Result<Option<Term>, MapRefusal>
    ensures { result ≡ node_of (pair_of kind) parts }
{
    match parts {
        Ok(Some((left, right))) => Ok(Some(pair(kind, left, right))),
        Ok(None) => Ok(None),
        Err(refusal) => Err(refusal),
    }
}

/// A row of a part, where both are short.
pub fn index_node(
    parts: Result<Option<(Boxed<Term>, Aff)>, MapRefusal>,
) -> Result<Option<Term>, MapRefusal>
    ensures { result ≡ node_of Index parts }
{
    match parts {
        Ok(Some((part, form))) => Ok(Some(Term::Index(part, form))),
        Ok(None) => Ok(None),
        Err(refusal) => Err(refusal),
    }
}

/// A part under a condition, where both are short.
pub fn guard_node(
    parts: Result<Option<(Cond, Boxed<Term>)>, MapRefusal>,
) -> Result<Option<Term>, MapRefusal>
    ensures { result ≡ node_of Guard parts }
{
    match parts {
        Ok(Some((cond, part))) => Ok(Some(Term::Guard(cond, part))),
        Ok(None) => Ok(None),
        Err(refusal) => Err(refusal),
    }
}
