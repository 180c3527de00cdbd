//! What the terms of outputs have by their types: normal forms, and words as literals.

ghost use Rattle.std.specs.Prelude.{◌<◌, ◌^◌, All};
ghost use Rattle.shape_rules.specs.Fits.{LiteralsFit};
ghost use Rattle.path_focus.specs.Laws.{HasOrdered, HasWordLiterals};

use term_tree::{OutputDecl, Term, told};

/// A number of 64 bits is below 2^64.
fn word_told(word: &u64)
    ensures { word.now < 2 ^ 64 }
{
    let _word = *word;
}

/// Tells a proof that each literal of a term is below 2^64, and does nothing else. Linear in the term.
fn literals_told(term: &Term)
    ensures { LiteralsFit term.now }
{
    match term {
        Term::Lit(word) => word_told(word),
        Term::TVar(_) | Term::WordOf(_) => {}
        Term::Index(e, _)
        | Term::Gen(_, e)
        | Term::Sum(_, e)
        | Term::Guard(_, e)
        | Term::Flatten(e)
        | Term::Split(_, e)
        | Term::Transpose(e)
        | Term::TruncL(_, e)
        | Term::TruncR(_, e)
        | Term::PadL(_, e)
        | Term::PadR(_, e) => literals_told(e.get()),
        Term::Let(a, b) => {
            literals_told(a.get());
            literals_told(b.get());
        }
        Term::Add(a, b) | Term::Sub(a, b) | Term::Mul(a, b) | Term::Concat(a, b) => {
            literals_told(a.get());
            literals_told(b.get());
        }
    }
}

/// Tells a proof that the forms of the terms are normal.
pub fn forms_told_of(outputs: &[OutputDecl])
    ensures { All HasOrdered outputs.now }
{
    for output in outputs {
        told(&output.term);
    }
}

/// Tells a proof that the literals of the terms are words.
pub fn literals_told_of(outputs: &[OutputDecl])
    ensures { All HasWordLiterals outputs.now }
{
    for output in outputs {
        literals_told(&output.term);
    }
}
