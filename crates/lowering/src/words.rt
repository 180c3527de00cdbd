//! Words: terms in scalar positions.

ghost use Rattle.std.specs.Prelude.{◌≡◌, [], IfOk, get_or, map, pos};
ghost use Rattle.loop_lang.specs.declared.word.Buf.TheVariants.{Output};
ghost use Rattle.final_rules.specs.Form.{read_under};
ghost use Rattle.final_rules.specs.Owed.{test_of};
ghost use Rattle.lowering.specs.Made.{ReadMade, ReadMadeIf, WordMade};
ghost use Rattle.lowering.specs.Nodes.{buffers_under};
ghost use Rattle.lowering.specs.Words.{chosen_in, joint_of, loaded_if_in, loaded_in, word_in};

use crate::forms::read_tree;
use affine_index::{Cmp, Cond, Rel};
use final_rules::Read;
use final_rules::printing::Scene;
use final_rules::read::reading;
use index_trees::index_tree;
use loop_lang::{Buf, Iexp, Test, Wexp};
use owned_values::two;
use shape_rules::Shapes;
use sqlite_items::{Boxed, Items};
use std::alloc::{AllocError, Global};
use term_tree::Term;

/// The buffer of a tensor variable: lets lie in the scratch region.
fn buffer_at(shapes: &Shapes, var: u32) -> Buf
    ensures { result ≡ get_or (buffers_under shapes.now.lets shapes.now.inputs) var (Output 0) }
{
    let lets = shapes.lets.len();
    let number = var as usize;
    if number < lets {
        return Buf::Scratch(0);
    }
    let number = number - lets;
    if number < shapes.inputs.len() {
        Buf::Input(number as u32)
    } else {
        Buf::Output(0)
    }
}

/// The load of a read.
pub fn load(
    alloc: Global,
    scene: &Scene,
    loops: u32,
    read: &Read,
) -> Result<Boxed<Wexp>, AllocError>
    requires { ReadMade scene.now read.now }
    ensures { IfOk result (λ w. w ≡ loaded_in scene.now loops read.now) }
{
    let tree = read_tree(alloc, scene, loops, read)?;
    let buffer = buffer_at(&scene.shapes, read.var);
    Boxed::new(alloc, Wexp::Load(buffer, tree))
}

/// The load of a read, if there is one.
fn load_if(
    alloc: Global,
    scene: &Scene,
    loops: u32,
    read: Option<Read>,
) -> Result<Boxed<Wexp>, AllocError>
    requires { ReadMadeIf scene.now read }
    ensures { IfOk result (λ w. w ≡ loaded_if_in scene.now loops read) }
{
    match read {
        None => Boxed::new(alloc, Wexp::Lit(0)),
        Some(read) => load(alloc, scene, loops, &read),
    }
}

/// The load of a tensor variable under indices.
fn read_word(
    alloc: Global,
    scene: &Scene,
    loops: u32,
    term: &Term,
) -> Result<Boxed<Wexp>, AllocError>
    requires { ReadMadeIf scene.now (read_under term.now []) }
    ensures { IfOk result (λ w. w ≡ loaded_if_in scene.now loops (read_under term.now [])) }
{
    let read = reading(alloc, term, Items::new(alloc))?;
    load_if(alloc, scene, loops, read)
}

/// A comparison of a form with 0.
fn comparison(alloc: Global, loops: u32, cmp: &Cmp) -> Result<Test, AllocError>
    ensures { IfOk result (λ t. t ≡ test_of loops cmp.now) }
{
    match cmp {
        Cmp::Ge(form) => {
            let left = index_tree(alloc, loops, form)?;
            Ok(Test {
                left,
                rel: Rel::Ge,
                right: Iexp::Lit(0),
            })
        }
        Cmp::Eq(form) => {
            let left = index_tree(alloc, loops, form)?;
            Ok(Test {
                left,
                rel: Rel::Eq,
                right: Iexp::Lit(0),
            })
        }
    }
}

/// The comparisons of a condition.
pub fn tests(alloc: Global, loops: u32, cmps: &[Cmp]) -> Result<Items<Test>, AllocError>
    ensures { IfOk result (λ ts. ts ≡ map (test_of loops) cmps.now) }
{
    let mut all = Items::new(alloc);
    for cmp in cmps {
        all.push(comparison(alloc, loops, cmp)?)?;
    }
    Ok(all)
}

/// The words of two parts.
#[derive(Clone, Copy)]
pub enum Joint {
    Add,
    Sub,
    Mul,
}

/// A word of two words.
fn joint_word(
    alloc: Global,
    joint: Joint,
    words: Result<(Boxed<Wexp>, Boxed<Wexp>), AllocError>,
) -> Result<Boxed<Wexp>, AllocError>
    ensures { (a b : Wexp) → IfOk words (λ ws. (ws.0 ≡ a) × (ws.1 ≡ b)) → IfOk result (λ w. w ≡ joint_of joint a b) }
{
    let (a, b) = words?;
    let word = match joint {
        Joint::Add => Wexp::Add(a, b),
        Joint::Sub => Wexp::Sub(a, b),
        Joint::Mul => Wexp::Mul(a, b),
    };
    Boxed::new(alloc, word)
}

/// The word of an index.
fn index_word(alloc: Global, tree: Result<Iexp, AllocError>) -> Result<Boxed<Wexp>, AllocError>
    ensures { (x : Iexp) → IfOk tree (λ t. t ≡ x) → IfOk result (λ w. w ≡ Wexp.OfIndex x) }
{
    Boxed::new(alloc, Wexp::OfIndex(tree?))
}

/// Two words.
#[cycle(word)]
fn two_words(
    alloc: Global,
    scene: &Scene,
    loops: u32,
    left: &Term,
    right: &Term,
) -> Result<(Boxed<Wexp>, Boxed<Wexp>), AllocError>
    requires left { WordMade scene.now left.now }
    requires right { WordMade scene.now right.now }
    ensures { IfOk result (λ ws. (ws.0 ≡ word_in scene.now loops left.now) × (ws.1 ≡ word_in scene.now loops right.now)) }
{
    two(
        word(alloc, scene, loops, left),
        word(alloc, scene, loops, right),
    )
}

/// A word where tests hold, else 0.
#[cycle(word)]
fn chosen(
    alloc: Global,
    scene: &Scene,
    loops: u32,
    cond: &Cond,
    part: &Term,
) -> Result<Boxed<Wexp>, AllocError>
    requires { WordMade scene.now part.now }
    ensures { IfOk result (λ w. w ≡ chosen_in scene.now loops cond.now part.now) }
{
    let tests = tests(alloc, loops, cond.all.as_slice())?;
    let (part, zero) = two(
        word(alloc, scene, loops, part),
        Boxed::new(alloc, Wexp::Lit(0)),
    )?;
    Boxed::new(alloc, Wexp::Choose(tests, part, zero))
}

/// The word of a term under so many loops. Linear in the term, and for each read in its indices.
#[cycle(word)]
#[tactic(auto, using(crate::proofs::WordForms::word_forms))]
pub fn word(
    alloc: Global,
    scene: &Scene,
    loops: u32,
    term: &Term,
) -> Result<Boxed<Wexp>, AllocError>
    requires { WordMade scene.now term.now }
    ensures { IfOk result (λ w. w ≡ word_in scene.now loops term.now) }
{
    match term {
        Term::Lit(word) => Boxed::new(alloc, Wexp::Lit(*word)),
        Term::WordOf(index) => index_word(alloc, index_tree(alloc, loops, index)),
        Term::TVar(_) | Term::Index(_, _) => read_word(alloc, scene, loops, term),
        Term::Guard(cond, part) => chosen(alloc, scene, loops, cond, part.get()),
        Term::Add(a, b) => joint_word(
            alloc,
            Joint::Add,
            two_words(alloc, scene, loops, a.get(), b.get()),
        ),
        Term::Sub(a, b) => joint_word(
            alloc,
            Joint::Sub,
            two_words(alloc, scene, loops, a.get(), b.get()),
        ),
        Term::Mul(a, b) => joint_word(
            alloc,
            Joint::Mul,
            two_words(alloc, scene, loops, a.get(), b.get()),
        ),
        Term::Gen(_, _)
        | Term::Sum(_, _)
        | Term::Let(_, _)
        | Term::Concat(_, _)
        | Term::Flatten(_)
        | Term::Split(_, _)
        | Term::Transpose(_)
        | Term::TruncL(_, _)
        | Term::TruncR(_, _)
        | Term::PadL(_, _)
        | Term::PadR(_, _) => Boxed::new(alloc, Wexp::Lit(0)),
    }
}
