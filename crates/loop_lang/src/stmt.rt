//! Statements of loop programs, and programs.

use crate::index::{Iexp, Test};
use crate::word::{Buf, Wexp};
use sqlite_items::{Boxed, Items};

/// A statement.
#[derive(Drop)]
pub enum Stmt {
    Seq(Items<Stmt>),
    /// The body for each value from 0 below the bound, which is computed once.
    For {
        bound: Iexp,
        parallel: bool,
        body: Boxed<Stmt>,
    },
    /// The body, where all tests hold.
    If(Items<Test>, Boxed<Stmt>),
    Put(Buf, Iexp, Wexp),
    AddTo(Buf, Iexp, Wexp),
    /// So many words from a place on, the place before the length, put to 0.
    Zero(Buf, Iexp, Iexp),
}

/// A loop program: its numbers of sizes and buffers, and a length for each buffer, inputs first, then outputs,
/// then scratch.
#[derive(Drop)]
pub struct Prog {
    pub sizes: u32,
    pub inputs: u32,
    pub outputs: u32,
    pub scratch: u32,
    pub lengths: Items<Iexp>,
    pub body: Stmt,
}
