//! What the terms of modules have by their types: normal forms, words as literals, and lists that a machine holds.

ghost use Rattle.std.specs.Prelude.{◌<◌, ◌≤◌, ◌^◌, All, length};
ghost use Rattle.atl_printer.specs.Held.{IsHeld};
ghost use Rattle.printable_versions.specs.Versions.{IsTold, IsToldModule};

use affine_index::Cmp;
use term_tree::{Module, OutputDecl, Term, told};

/// A number of 64 bits is below 2^64.
fn word_told(word: &u64)
    ensures { word.now < 2 ^ 64 }
{
    let _word = *word;
}

/// A list is no longer than a machine holds.
fn comparisons_told(all: &[Cmp])
    ensures { length all.now ≤ 2 ^ 63 }
{
    let _len = all.len();
}

/// Tells a proof that the numbers and lists of a term are within what their types hold. Linear in the term.
fn held_told(term: &Term)
    ensures { IsHeld term.now }
{
    match term {
        Term::Lit(word) => word_told(word),
        Term::TVar(_) | Term::WordOf(_) => {}
        Term::Guard(c, e) => {
            comparisons_told(c.all.as_slice());
            held_told(e.get());
        }
        Term::Index(e, _)
        | Term::Gen(_, e)
        | Term::Sum(_, e)
        | Term::Flatten(e)
        | Term::Split(_, e)
        | Term::Transpose(e)
        | Term::TruncL(_, e)
        | Term::TruncR(_, e)
        | Term::PadL(_, e)
        | Term::PadR(_, e) => held_told(e.get()),
        Term::Let(a, b)
        | Term::Add(a, b)
        | Term::Sub(a, b)
        | Term::Mul(a, b)
        | Term::Concat(a, b) => {
            held_told(a.get());
            held_told(b.get());
        }
    }
}

/// Tells a proof so of the term of an output.
fn output_told(output: &OutputDecl)
    ensures { IsTold output.now }
{
    told(&output.term);
    held_told(&output.term);
}

/// Tells a proof so of all outputs.
fn outputs_told(outputs: &[OutputDecl])
    ensures { All IsTold outputs.now }
{
    for output in outputs {
        output_told(output);
    }
}

/// Tells a proof what the terms of modules have by their types, and does nothing else. Linear in the modules.
pub fn versions_told(versions: &[Module])
    ensures { All IsToldModule versions.now }
{
    for version in versions {
        outputs_told(version.outputs.as_slice());
    }
}
