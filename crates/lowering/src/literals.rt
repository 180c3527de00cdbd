//! What every term has: its literals are words.

ghost use Rattle.std.specs.Prelude.{◌<◌, ◌^◌, drop};
ghost use Rattle.shape_rules.specs.Fits.{LiteralsFit};
ghost use Rattle.lowering.specs.Outputs.{LiteralsEach};

use term_tree::{OutputDecl, Term};

/// A number of 64 bits is below 2^64.
fn word_told(word: &u64)
    ensures { word.now < 2 ^ 64 }
{
    let _word = *word;
}

/// Tells a proof that each literal of a term is below 2^64, and does nothing else. Linear in the term.
fn told(term: &Term)
    ensures { LiteralsFit term.now }
{
    match term {
        Term::Lit(word) => word_told(word),
        Term::TVar(_) | Term::WordOf(_) => {}
        Term::Index(e, _)
        | Term::Gen(_, e)
        | Term::Sum(_, e)
        | Term::Guard(_, e)
        | Term::Flatten(e)
        | Term::Split(_, e)
        | Term::Transpose(e)
        | Term::TruncL(_, e)
        | Term::TruncR(_, e)
        | Term::PadL(_, e)
        | Term::PadR(_, e) => told(e.get()),
        Term::Let(a, b) => {
            told(a.get());
            told(b.get());
        }
        Term::Add(a, b) | Term::Sub(a, b) | Term::Mul(a, b) | Term::Concat(a, b) => {
            told(a.get());
            told(b.get());
        }
    }
}

/// The same of outputs from one on.
pub fn told_from(outputs: &[OutputDecl], from: usize)
    ensures { LiteralsEach (drop from outputs.now) }
{
    if from < outputs.len() {
        told(&outputs[from].term);
        told_from(outputs, from + 1);
    }
}
