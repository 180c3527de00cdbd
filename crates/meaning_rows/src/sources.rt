//! Sources as data, and the module of each, as the reader would make it.

use affine_index::{Aff, AffRefusal, Cmp, Cond};
use owned_values::two;
use sqlite_items::{Boxed, Items};
use std::alloc::{AllocError, Global};
use term_tree::{InputDecl, Module, Name, OutputDecl, SizeDecl, Term};

/// A form. The variable of the innermost binder is 0.
#[derive(Clone, Copy)]
pub enum Form {
    Number(i32),
    Size(u32),
    Var(u32),
    /// The square of a number times a size.
    Square(i32, u32),
    /// `i - 1`, for the innermost i.
    Before,
    /// `i + j`, for the two innermost.
    Window,
    /// `N - M` and so many more.
    Rest(i32),
}

/// A node with a form and one child.
#[derive(Clone, Copy)]
pub enum Kind {
    Row,
    Gen,
    Sum,
    /// `guard form == 0. ..`
    WhereZero,
    TruncL,
    TruncR,
    PadL,
    PadR,
}

/// A node with two children.
#[derive(Clone, Copy)]
pub enum Pair {
    Let,
    Add,
    Sub,
    Mul,
    Concat,
}

/// A node, which its children follow in order: a term is the list of its nodes in preorder.
#[derive(Clone, Copy)]
pub enum Node {
    Lit(u64),
    Tensor(u32),
    Word(Form),
    With(Kind, Form),
    Both(Pair),
    Flatten,
    Split(u32),
    Transpose,
}

fn sum(
    alloc: Global,
    a: Result<Aff, AffRefusal>,
    b: Result<Aff, AffRefusal>,
) -> Result<Aff, AffRefusal> {
    let (a, b) = two(a, b)?;
    a.add(alloc, &b)
}

fn difference(
    alloc: Global,
    a: Result<Aff, AffRefusal>,
    b: Result<Aff, AffRefusal>,
) -> Result<Aff, AffRefusal> {
    let (a, b) = two(a, b)?;
    a.sub(alloc, &b)
}

fn product(
    alloc: Global,
    a: Result<Aff, AffRefusal>,
    b: Result<Aff, AffRefusal>,
) -> Result<Aff, AffRefusal> {
    let (a, b) = two(a, b)?;
    a.mul(alloc, &b)
}

fn number(alloc: Global, number: i32) -> Result<Aff, AffRefusal> {
    Aff::literal(alloc, i64::from(number))
}

fn square(alloc: Global, root: i32) -> Result<Aff, AffRefusal> {
    product(alloc, number(alloc, root), number(alloc, root))
}

/// `N - M`
fn rest(alloc: Global) -> Result<Aff, AffRefusal> {
    difference(alloc, Aff::size(alloc, 0), Aff::size(alloc, 1))
}

fn formed(alloc: Global, form: Form) -> Result<Aff, AffRefusal> {
    match form {
        Form::Number(z) => number(alloc, z),
        Form::Size(s) => Aff::size(alloc, s),
        Form::Var(v) => Aff::var(alloc, v),
        Form::Square(z, s) => product(alloc, square(alloc, z), Aff::size(alloc, s)),
        Form::Before => difference(alloc, Aff::var(alloc, 0), number(alloc, 1)),
        Form::Window => sum(alloc, Aff::var(alloc, 1), Aff::var(alloc, 0)),
        Form::Rest(z) => sum(alloc, rest(alloc), number(alloc, z)),
    }
}

fn one<T: Drop>(alloc: Global, item: T) -> Result<Items<T>, AllocError> {
    let mut items = Items::new(alloc);
    items.push(item)?;
    Ok(items)
}

/// The tensor where a form is 0.
fn where_zero(alloc: Global, form: Aff, child: Boxed<Term>) -> Result<Term, AllocError> {
    let all = one(alloc, Cmp::Eq(form))?;
    Ok(Term::Guard(Cond { all }, child))
}

fn with(alloc: Global, kind: Kind, form: Aff, child: Boxed<Term>) -> Result<Term, AllocError> {
    match kind {
        Kind::Row => Ok(Term::Index(child, form)),
        Kind::Gen => Ok(Term::Gen(form, child)),
        Kind::Sum => Ok(Term::Sum(form, child)),
        Kind::WhereZero => where_zero(alloc, form, child),
        Kind::TruncL => Ok(Term::TruncL(form, child)),
        Kind::TruncR => Ok(Term::TruncR(form, child)),
        Kind::PadL => Ok(Term::PadL(form, child)),
        Kind::PadR => Ok(Term::PadR(form, child)),
    }
}

fn both(pair: Pair, first: Boxed<Term>, second: Boxed<Term>) -> Term {
    match pair {
        Pair::Let => Term::Let(first, second),
        Pair::Add => Term::Add(first, second),
        Pair::Sub => Term::Sub(first, second),
        Pair::Mul => Term::Mul(first, second),
        Pair::Concat => Term::Concat(first, second),
    }
}

/// The next child; 7 where there is none, which no row expects.
fn child(alloc: Global, ready: &mut Items<Boxed<Term>>) -> Result<Boxed<Term>, AffRefusal> {
    match ready.pop() {
        Some(child) => Ok(child),
        None => Ok(Boxed::new(alloc, Term::Lit(7))?),
    }
}

/// A node over the children that are ready, the next one last.
fn term_of(alloc: Global, node: Node, ready: &mut Items<Boxed<Term>>) -> Result<Term, AffRefusal> {
    match node {
        Node::Lit(w) => Ok(Term::Lit(w)),
        Node::Tensor(q) => Ok(Term::TVar(q)),
        Node::Word(x) => Ok(Term::WordOf(formed(alloc, x)?)),
        Node::With(kind, x) => {
            let (form, below) = two(formed(alloc, x), child(alloc, ready))?;
            Ok(with(alloc, kind, form, below)?)
        }
        Node::Both(pair) => {
            let (first, second) = two(child(alloc, ready), child(alloc, ready))?;
            Ok(both(pair, first, second))
        }
        Node::Flatten => Ok(Term::Flatten(child(alloc, ready)?)),
        Node::Split(k) => Ok(Term::Split(k, child(alloc, ready)?)),
        Node::Transpose => Ok(Term::Transpose(child(alloc, ready)?)),
    }
}

/// The term of a list of nodes.
fn term(alloc: Global, nodes: &[Node]) -> Result<Boxed<Term>, AffRefusal> {
    let mut ready = Items::new(alloc);
    for node in nodes.iter().rev() {
        let made = term_of(alloc, *node, &mut ready)?;
        ready.push(Boxed::new(alloc, made)?)?;
    }
    child(alloc, &mut ready)
}

fn named(alloc: Global, name: &str) -> Result<Name, AffRefusal> {
    Ok(Name::new(String::from_str(alloc, name)?))
}

/// `size NAME in low..high` for each pair of bounds.
fn declared(alloc: Global, bounds: &[(u64, u64)]) -> Result<Items<SizeDecl>, AffRefusal> {
    let mut sizes = Items::new(alloc);
    for (low, high) in bounds {
        let name = named(alloc, "N")?;
        sizes.push(SizeDecl {
            name,
            low: *low,
            high: *high,
        })?;
    }
    Ok(sizes)
}

/// `input A[..]`, or none where it has no extents.
fn put_input(
    alloc: Global,
    inputs: &mut Items<InputDecl>,
    extents: &[Form],
) -> Result<(), AffRefusal> {
    let mut forms = Items::new(alloc);
    for extent in extents {
        forms.push(formed(alloc, *extent)?)?;
    }
    let name = named(alloc, "A")?;
    if !forms.is_empty() {
        inputs.push(InputDecl {
            name,
            extents: forms,
        })?;
    }
    Ok(())
}

/// `output B = ..`
fn output(alloc: Global, nodes: &[Node]) -> Result<Items<OutputDecl>, AffRefusal> {
    let (name, term) = two(named(alloc, "B"), term(alloc, nodes))?;
    let term = term.into_inner();
    Ok(one(alloc, OutputDecl { name, term })?)
}

/// A source: the bounds of its sizes, forms that are at least 0, the extents of one input or two, and the term of its output.
#[derive(Clone, Copy)]
pub struct Source<'a> {
    pub sizes: &'a [(u64, u64)],
    pub assumes: &'a [Form],
    pub first: &'a [Form],
    pub second: &'a [Form],
    pub term: &'a [Node],
}

fn assumed(alloc: Global, forms: &[Form]) -> Result<Items<Cmp>, AffRefusal> {
    let mut assumes = Items::new(alloc);
    for form in forms {
        assumes.push(Cmp::Ge(formed(alloc, *form)?))?;
    }
    Ok(assumes)
}

fn inputs(alloc: Global, first: &[Form], second: &[Form]) -> Result<Items<InputDecl>, AffRefusal> {
    let mut inputs = Items::new(alloc);
    put_input(alloc, &mut inputs, first)?;
    put_input(alloc, &mut inputs, second)?;
    Ok(inputs)
}

/// The module of a source.
pub fn module(alloc: Global, source: &Source) -> Result<Module, AffRefusal> {
    let (inputs, assumes) = two(
        inputs(alloc, source.first, source.second),
        assumed(alloc, source.assumes),
    )?;
    let (sizes, outputs) = two(declared(alloc, source.sizes), output(alloc, source.term))?;
    Ok(Module {
        version: 1,
        sizes,
        assumes,
        example: Items::new(alloc),
        inputs,
        outputs,
    })
}
