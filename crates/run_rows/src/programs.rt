//! Programs as data: the nodes of a program in preorder.

use affine_index::Rel;
use loop_lang::{Buf, Iexp, Prog, Stmt, Test, Wexp};
use owned_values::two;
use sqlite_items::{Boxed, Items};
use std::alloc::{AllocError, Global};

/// An operator on two operands.
#[derive(Clone, Copy)]
pub enum Pair {
    Add,
    Sub,
    Mul,
}

/// A node, which its operands follow in order.
#[derive(Clone, Copy)]
pub enum Node {
    /// Indices: a number, a size, a loop variable, an operator, a quotient, a remainder, the larger of two.
    Number(i64),
    Size(u32),
    Loop(u32),
    Index(Pair),
    Over(u64),
    Rest(u64),
    Larger,
    /// A comparison of two indices.
    Test(Rel),
    /// Words: a literal, a load at an index, an index, an operator, a choice by one comparison.
    Word(u64),
    Load(Buf),
    OfIndex,
    Both(Pair),
    Choose,
    /// Statements: so many in order, a loop below an index, a body under one comparison, a put and an add (index, word), a fill (place, length).
    Seq(u8),
    For,
    If,
    Put(Buf),
    AddTo(Buf),
    Zero(Buf),
}

/// What later nodes have made, the next operand last.
#[derive(Drop)]
struct Ready {
    indices: Items<Boxed<Iexp>>,
    tests: Items<Test>,
    words: Items<Boxed<Wexp>>,
    statements: Items<Boxed<Stmt>>,
}

/// The next index; 7 where there is none, which no row expects.
fn index(alloc: Global, ready: &mut Ready) -> Result<Boxed<Iexp>, AllocError> {
    match ready.indices.pop() {
        Some(index) => Ok(index),
        None => Boxed::new(alloc, Iexp::Lit(7)),
    }
}

fn word(alloc: Global, ready: &mut Ready) -> Result<Boxed<Wexp>, AllocError> {
    match ready.words.pop() {
        Some(word) => Ok(word),
        None => Boxed::new(alloc, Wexp::Lit(7)),
    }
}

fn statement(alloc: Global, ready: &mut Ready) -> Result<Boxed<Stmt>, AllocError> {
    match ready.statements.pop() {
        Some(statement) => Ok(statement),
        None => Boxed::new(alloc, Stmt::Seq(Items::new(alloc))),
    }
}

/// The next comparison, alone; none where there is none.
fn test(alloc: Global, ready: &mut Ready) -> Result<Items<Test>, AllocError> {
    let mut tests = Items::new(alloc);
    if let Some(test) = ready.tests.pop() {
        tests.push(test)?;
    }
    Ok(tests)
}

fn index_of_two(pair: Pair, first: Boxed<Iexp>, second: Boxed<Iexp>) -> Iexp {
    match pair {
        Pair::Add => Iexp::Add(first, second),
        Pair::Sub => Iexp::Sub(first, second),
        Pair::Mul => Iexp::Mul(first, second),
    }
}

fn word_of_two(pair: Pair, first: Boxed<Wexp>, second: Boxed<Wexp>) -> Wexp {
    match pair {
        Pair::Add => Wexp::Add(first, second),
        Pair::Sub => Wexp::Sub(first, second),
        Pair::Mul => Wexp::Mul(first, second),
    }
}

fn put_index(alloc: Global, ready: &mut Ready, made: Iexp) -> Result<(), AllocError> {
    ready.indices.push(Boxed::new(alloc, made)?)?;
    Ok(())
}

fn put_word(alloc: Global, ready: &mut Ready, made: Wexp) -> Result<(), AllocError> {
    ready.words.push(Boxed::new(alloc, made)?)?;
    Ok(())
}

fn put_statement(alloc: Global, ready: &mut Ready, made: Stmt) -> Result<(), AllocError> {
    ready.statements.push(Boxed::new(alloc, made)?)?;
    Ok(())
}

fn index_pair(alloc: Global, ready: &mut Ready, pair: Pair) -> Result<(), AllocError> {
    let (first, second) = two(index(alloc, ready), index(alloc, ready))?;
    put_index(alloc, ready, index_of_two(pair, first, second))
}

fn larger(alloc: Global, ready: &mut Ready) -> Result<(), AllocError> {
    let (first, second) = two(index(alloc, ready), index(alloc, ready))?;
    put_index(alloc, ready, Iexp::Larger(first, second))
}

fn compared(alloc: Global, ready: &mut Ready, rel: Rel) -> Result<(), AllocError> {
    let (left, right) = two(index(alloc, ready), index(alloc, ready))?;
    ready.tests.push(Test {
        left: left.into_inner(),
        rel,
        right: right.into_inner(),
    })
}

fn index_node(alloc: Global, ready: &mut Ready, node: Node) -> Result<(), AllocError> {
    match node {
        Node::Number(n) => put_index(alloc, ready, Iexp::Lit(n)),
        Node::Size(k) => put_index(alloc, ready, Iexp::Size(k)),
        Node::Loop(d) => put_index(alloc, ready, Iexp::Loop(d)),
        Node::Index(pair) => index_pair(alloc, ready, pair),
        Node::Over(k) => {
            let index = index(alloc, ready)?;
            put_index(alloc, ready, Iexp::Div(index, k))
        }
        Node::Rest(k) => {
            let index = index(alloc, ready)?;
            put_index(alloc, ready, Iexp::Rem(index, k))
        }
        Node::Larger => larger(alloc, ready),
        Node::Test(rel) => compared(alloc, ready, rel),
        _ => word_node(alloc, ready, node),
    }
}

fn word_pair(alloc: Global, ready: &mut Ready, pair: Pair) -> Result<(), AllocError> {
    let (first, second) = two(word(alloc, ready), word(alloc, ready))?;
    put_word(alloc, ready, word_of_two(pair, first, second))
}

fn choice(alloc: Global, ready: &mut Ready) -> Result<(), AllocError> {
    let tests = test(alloc, ready)?;
    let (first, second) = two(word(alloc, ready), word(alloc, ready))?;
    put_word(alloc, ready, Wexp::Choose(tests, first, second))
}

fn word_node(alloc: Global, ready: &mut Ready, node: Node) -> Result<(), AllocError> {
    match node {
        Node::Word(w) => put_word(alloc, ready, Wexp::Lit(w)),
        Node::Load(buffer) => {
            let at = index(alloc, ready)?;
            put_word(alloc, ready, Wexp::Load(buffer, at.into_inner()))
        }
        Node::OfIndex => {
            let index = index(alloc, ready)?;
            put_word(alloc, ready, Wexp::OfIndex(index.into_inner()))
        }
        Node::Both(pair) => word_pair(alloc, ready, pair),
        Node::Choose => choice(alloc, ready),
        _ => statement_node(alloc, ready, node),
    }
}

fn in_order(alloc: Global, ready: &mut Ready, count: u8) -> Result<(), AllocError> {
    let mut parts = Items::new(alloc);
    for _ in 0..count {
        parts.push(statement(alloc, ready)?.into_inner())?;
    }
    put_statement(alloc, ready, Stmt::Seq(parts))
}

fn looped(alloc: Global, ready: &mut Ready) -> Result<(), AllocError> {
    let (bound, body) = two(index(alloc, ready), statement(alloc, ready))?;
    put_statement(
        alloc,
        ready,
        Stmt::For {
            bound: bound.into_inner(),
            parallel: false,
            body,
        },
    )
}

fn tested(alloc: Global, ready: &mut Ready) -> Result<(), AllocError> {
    let (tests, body) = two(test(alloc, ready), statement(alloc, ready))?;
    put_statement(alloc, ready, Stmt::If(tests, body))
}

fn stored(alloc: Global, ready: &mut Ready, buffer: Buf, adds: bool) -> Result<(), AllocError> {
    let (at, word) = two(index(alloc, ready), word(alloc, ready))?;
    let store = if adds {
        Stmt::AddTo(buffer, at.into_inner(), word.into_inner())
    } else {
        Stmt::Put(buffer, at.into_inner(), word.into_inner())
    };
    put_statement(alloc, ready, store)
}

fn filled(alloc: Global, ready: &mut Ready, buffer: Buf) -> Result<(), AllocError> {
    let (at, count) = two(index(alloc, ready), index(alloc, ready))?;
    let fill = Stmt::Zero(buffer, at.into_inner(), count.into_inner());
    put_statement(alloc, ready, fill)
}

fn statement_node(alloc: Global, ready: &mut Ready, node: Node) -> Result<(), AllocError> {
    match node {
        Node::Seq(count) => in_order(alloc, ready, count),
        Node::For => looped(alloc, ready),
        Node::If => tested(alloc, ready),
        Node::Put(buffer) => stored(alloc, ready, buffer, false),
        Node::AddTo(buffer) => stored(alloc, ready, buffer, true),
        Node::Zero(buffer) => filled(alloc, ready, buffer),
        _ => Ok(()),
    }
}

fn made(alloc: Global, nodes: &[Node]) -> Result<Ready, AllocError> {
    let mut ready = Ready {
        indices: Items::new(alloc),
        tests: Items::new(alloc),
        words: Items::new(alloc),
        statements: Items::new(alloc),
    };
    for node in nodes.iter().rev() {
        index_node(alloc, &mut ready, *node)?;
    }
    Ok(ready)
}

/// A program: how many sizes, inputs, outputs and scratch buffers it has, the nodes of the length of each buffer, and those of its body.
#[derive(Clone, Copy)]
pub struct Source<'a> {
    pub sizes: u32,
    pub inputs: u32,
    pub outputs: u32,
    pub scratch: u32,
    pub lengths: &'a [&'a [Node]],
    pub body: &'a [Node],
}

fn lengths(alloc: Global, all: &[&[Node]]) -> Result<Items<Iexp>, AllocError> {
    let mut lengths = Items::new(alloc);
    for nodes in all {
        let mut ready = made(alloc, *nodes)?;
        lengths.push(index(alloc, &mut ready)?.into_inner())?;
    }
    Ok(lengths)
}

fn body(alloc: Global, nodes: &[Node]) -> Result<Boxed<Stmt>, AllocError> {
    let mut ready = made(alloc, nodes)?;
    statement(alloc, &mut ready)
}

pub fn program(alloc: Global, source: &Source) -> Result<Boxed<Prog>, AllocError> {
    let (lengths, body) = two(lengths(alloc, source.lengths), body(alloc, source.body))?;
    let prog = Prog {
        sizes: source.sizes,
        inputs: source.inputs,
        outputs: source.outputs,
        scratch: source.scratch,
        lengths,
        body: body.into_inner(),
    };
    Boxed::new(alloc, prog)
}
