//! Whether a program is well formed.

ghost use Rattle.std.specs.Prelude.{◌≡◌, ◌≤◌, ◌+◌, ◌<◌, length, map, true};
ghost use Rattle.loop_lang.specs.Form as form;
ghost use Rattle.loop_lang.specs.Form.{IsWellFormed};
ghost use Rattle.run_rows.specs.Formed.{body_fold, each_test_fold, fill_fold, index_fold, lengths_fold, statement_fold, store_fold, test_fold, tests_fold, word_fold};

use loop_lang::{Buf, Iexp, Prog, Stmt, Test, Wexp};

/// The most loops inside one another that are looked at.
const DEEPEST: u64 = 1000;

fn is_literal(n: i64) -> bool
    ensures { result ≡ form.is_literal n }
{
    n >= 0
}

fn is_divisor(k: u64) -> bool
    ensures { result ≡ form.is_divisor k }
{
    0 < k && k < 9_223_372_036_854_775_808
}

fn index_formed(index: &Iexp, sizes: u32, in_length: bool, depth: u64) -> bool
    ensures { result ≡ index_fold sizes in_length depth index.now }
{
    match index {
        Iexp::Lit(n) => is_literal(*n),
        Iexp::Size(k) => *k < sizes,
        Iexp::Loop(d) => u64::from(*d) < depth,
        Iexp::Add(a, b) | Iexp::Sub(a, b) | Iexp::Mul(a, b) => {
            index_formed(a.get(), sizes, in_length, depth)
                && index_formed(b.get(), sizes, in_length, depth)
        }
        Iexp::Div(a, k) | Iexp::Rem(a, k) => index_formed(a.get(), sizes, in_length, depth)
            && is_divisor(*k),
        Iexp::Larger(a, b) => in_length
            && (index_formed(a.get(), sizes, in_length, depth)
                && index_formed(b.get(), sizes, in_length, depth)),
    }
}

fn test_formed(test: &Test, sizes: u32, depth: u64) -> bool
    ensures { result ≡ test_fold sizes depth test.now }
{
    index_formed(&test.left, sizes, false, depth) && index_formed(&test.right, sizes, false, depth)
}

fn each_test_formed(tests: &[Test], sizes: u32, depth: u64) -> bool
    ensures { result ≡ each_test_fold sizes depth tests.now }
{
    for test in tests {
        if !test_formed(test, sizes, depth) {
            return false;
        }
    }
    true
}

fn tests_formed(tests: &[Test], sizes: u32, depth: u64) -> bool
    ensures { result ≡ tests_fold sizes depth tests.now }
{
    match tests.split_first() {
        None => false,
        Some(_) => each_test_formed(tests, sizes, depth),
    }
}

fn buffer_there(buffer: Buf, prog: &Prog) -> bool
    ensures { result ≡ form.buffer_there prog.now buffer }
{
    match buffer {
        Buf::Input(k) => k < prog.inputs,
        Buf::Output(k) => k < prog.outputs,
        Buf::Scratch(k) => k < prog.scratch,
    }
}

fn target_there(buffer: Buf, prog: &Prog) -> bool
    ensures { result ≡ form.target_there prog.now buffer }
{
    match buffer {
        Buf::Input(_) => false,
        Buf::Output(k) => k < prog.outputs,
        Buf::Scratch(k) => k < prog.scratch,
    }
}

fn word_formed(word: &Wexp, prog: &Prog, depth: u64) -> bool
    ensures { result ≡ word_fold prog.now depth word.now }
{
    match word {
        Wexp::Lit(_) => true,
        Wexp::Load(buffer, index) => buffer_there(*buffer, prog)
            && index_formed(index, prog.sizes, false, depth),
        Wexp::OfIndex(index) => index_formed(index, prog.sizes, false, depth),
        Wexp::Add(a, b) | Wexp::Sub(a, b) | Wexp::Mul(a, b) => {
            word_formed(a.get(), prog, depth) && word_formed(b.get(), prog, depth)
        }
        Wexp::Choose(tests, a, b) => tests_formed(tests.as_slice(), prog.sizes, depth)
            && (word_formed(a.get(), prog, depth) && word_formed(b.get(), prog, depth)),
    }
}

/// A put or an add.
fn store_formed(buffer: Buf, index: &Iexp, word: &Wexp, prog: &Prog, depth: u64) -> bool
    ensures { result ≡ store_fold prog.now buffer index.now word.now depth }
{
    target_there(buffer, prog)
        && (index_formed(index, prog.sizes, false, depth) && word_formed(word, prog, depth))
}

fn fill_formed(buffer: Buf, at: &Iexp, count: &Iexp, prog: &Prog, depth: u64) -> bool
    ensures { result ≡ fill_fold prog.now buffer at.now count.now depth }
{
    target_there(buffer, prog)
        && (index_formed(at, prog.sizes, false, depth)
            && index_formed(count, prog.sizes, false, depth))
}

fn mark_formed(marked: bool, inside: bool, prog: &Prog) -> bool
    ensures { result ≡ form.mark_formed prog.now marked inside }
{
    match marked {
        true => !inside,
        false => true,
    }
}

fn either(marked: bool, inside: bool, prog: &Prog) -> bool
    ensures { result ≡ form.either prog.now marked inside }
{
    match marked {
        true => true,
        false => inside,
    }
}

/// The body of a loop.
#[cycle(statement)]
fn body_formed(marked: bool, body: &Stmt, prog: &Prog, depth: u64, inside: bool) -> bool
    ensures { result ≡ true → body_fold prog.now marked (statement_fold prog.now body.now) depth inside ≡ true }
{
    if depth >= DEEPEST {
        return false;
    }
    if !mark_formed(marked, inside, prog) {
        return false;
    }
    let under = either(marked, inside, prog);
    statement_formed(body, prog, depth + 1, under)
}

/// Whether a statement is well formed under so many loops, one of which may be marked, and not too deep to be looked at.
#[cycle(statement)]
fn statement_formed(statement: &Stmt, prog: &Prog, depth: u64, inside: bool) -> bool
    ensures { result ≡ true → statement_fold prog.now statement.now depth inside ≡ true }
{
    match statement {
        Stmt::Seq(parts) => all_formed(parts.as_slice(), prog, depth, inside),
        Stmt::For {
            bound,
            parallel,
            body,
        } => index_formed(bound, prog.sizes, false, depth)
            && body_formed(*parallel, body.get(), prog, depth, inside),
        Stmt::If(tests, body) => tests_formed(tests.as_slice(), prog.sizes, depth)
            && statement_formed(body.get(), prog, depth, inside),
        Stmt::Put(buffer, index, word) | Stmt::AddTo(buffer, index, word) => {
            store_formed(*buffer, index, word, prog, depth)
        }
        Stmt::Zero(buffer, at, count) => fill_formed(*buffer, at, count, prog, depth),
    }
}

#[cycle(statement)]
fn all_formed(parts: &[Stmt], prog: &Prog, depth: u64, inside: bool) -> bool
    ensures { result ≡ true → form.each_formed prog.now (map (statement_fold prog.now) parts.now) depth inside ≡ true }
{
    for part in parts {
        if !statement_formed(part, prog, depth, inside) {
            return false;
        }
    }
    true
}

fn lengths_formed(lengths: &[Iexp], sizes: u32) -> bool
    ensures { result ≡ lengths_fold sizes lengths.now }
{
    for length in lengths {
        if !index_formed(length, sizes, true, 0) {
            return false;
        }
    }
    true
}

/// Whether a program is well formed and its loops are not too deep to be looked at.
#[tactic(auto, using(crate::proofs::FormedLaws::well_formed))]
pub fn is_well_formed(prog: &Prog) -> bool
    ensures { result ≡ true → IsWellFormed prog.now }
{
    let inputs = prog.inputs;
    let outputs = prog.outputs;
    let scratch = prog.scratch;
    let buffers = u64::from(inputs) + u64::from(outputs) + u64::from(scratch);
    if prog.lengths.len() as u64 != buffers {
        return false;
    }
    if !lengths_formed(prog.lengths.as_slice(), prog.sizes) {
        return false;
    }
    statement_formed(&prog.body, prog, 0, false)
}
