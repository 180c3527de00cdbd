//! The forms of terms that are read alike.

ghost use Rattle.std.specs.Prelude.{◌≡◌, MatchResult};
ghost use Rattle.reader_laws.specs.declared.fault.ReadError.TheVariants.{Memory};
ghost use Rattle.source_grammar.specs.Terms.{sum_sign};
ghost use Rattle.term_tree.specs.Syntax as term;
ghost use Rattle.term_reader.specs.Forms as spec;

use affine_index::{Aff, Cond};
use reader_laws::ReadError;
use sqlite_items::Boxed;
use std::alloc::Global;
use term_tree::Term;
use text_tokens::Kind;

/// Forms of a form over sizes and a term.
#[derive(Clone, Copy, Debug, PartialEq, Eq)]
pub enum Sized {
    Gen,
    Sum,
    TruncL,
    TruncR,
    PadL,
    PadR,
}

/// Forms of one term.
#[derive(Clone, Copy, Debug, PartialEq, Eq)]
pub enum Turned {
    Flatten,
    Transpose,
}

/// Signs between products.
#[derive(Clone, Copy, Debug, PartialEq, Eq)]
pub enum Sign {
    Plus,
    Minus,
}

pub fn sized_kind(form: Sized) -> Kind
    ensures { result ≡ spec.sized_kind form }
{
    match form {
        Sized::Gen => Kind::Gen,
        Sized::Sum => Kind::Sum,
        Sized::TruncL => Kind::TruncL,
        Sized::TruncR => Kind::TruncR,
        Sized::PadL => Kind::PadL,
        Sized::PadR => Kind::PadR,
    }
}

pub fn turned_kind(form: Turned) -> Kind
    ensures { result ≡ spec.turned_kind form }
{
    match form {
        Turned::Flatten => Kind::Flatten,
        Turned::Transpose => Kind::Transpose,
    }
}

pub fn sign_of(kind: Kind) -> Option<Sign>
    ensures { sum_sign kind ≡ spec.signed_by result }
{
    match kind {
        Kind::Plus => Some(Sign::Plus),
        Kind::Minus => Some(Sign::Minus),
        _ => None,
    }
}

/// A term in a box.
pub fn boxed(alloc: Global, term: Term) -> Result<Boxed<Term>, ReadError>
    ensures { MatchResult result (λ x. x ≡ term) (λ e. e ≡ Memory) }
{
    match Boxed::new(alloc, term) {
        Ok(term) => Ok(term),
        Err(_) => Err(ReadError::Memory),
    }
}

pub fn sized_term(form: Sized, size: Aff, term: Boxed<Term>) -> Term
    ensures { result ≡ spec.sized_term form size term }
{
    match form {
        Sized::Gen => Term::Gen(size, term),
        Sized::Sum => Term::Sum(size, term),
        Sized::TruncL => Term::TruncL(size, term),
        Sized::TruncR => Term::TruncR(size, term),
        Sized::PadL => Term::PadL(size, term),
        Sized::PadR => Term::PadR(size, term),
    }
}

pub fn turned_term(form: Turned, term: Boxed<Term>) -> Term
    ensures { result ≡ spec.turned_term form term }
{
    match form {
        Turned::Flatten => Term::Flatten(term),
        Turned::Transpose => Term::Transpose(term),
    }
}

pub fn signed_term(sign: Sign, left: Boxed<Term>, right: Boxed<Term>) -> Term
    ensures { result ≡ spec.signed_term sign left right }
{
    match sign {
        Sign::Plus => Term::Add(left, right),
        Sign::Minus => Term::Sub(left, right),
    }
}

pub fn index_term(tensor: Boxed<Term>, index: Aff) -> Term
    ensures { result ≡ term.index tensor index }
{
    Term::Index(tensor, index)
}

pub fn guard_term(condition: Cond, body: Boxed<Term>) -> Term
    ensures { result ≡ term.guard condition body }
{
    Term::Guard(condition, body)
}

pub fn let_term(definition: Boxed<Term>, body: Boxed<Term>) -> Term
    ensures { result ≡ term.let_in definition body }
{
    Term::Let(definition, body)
}

pub fn concat_term(left: Boxed<Term>, right: Boxed<Term>) -> Term
    ensures { result ≡ term.concat left right }
{
    Term::Concat(left, right)
}

pub fn split_term(rows: u32, tensor: Boxed<Term>) -> Term
    ensures { result ≡ term.split rows tensor }
{
    Term::Split(rows, tensor)
}

pub fn mul_term(left: Boxed<Term>, right: Boxed<Term>) -> Term
    ensures { result ≡ term.mul left right }
{
    Term::Mul(left, right)
}
