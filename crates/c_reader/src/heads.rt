//! What is known of a program before its body.

ghost use Rattle.std.specs.Prelude.{◌≡◌, ◌<◌, ◌++◌, ◌∷◌, codes, decimal, true, MatchOption, Ok, Err};
ghost use Rattle.std.specs.Str.{bytes_eq};
ghost use Rattle.loop_lang.specs.declared.word.Buf.TheVariants as buf;
ghost use Rattle.reader_laws.specs.declared.fault.Fault.TheVariants.{BadSyntax};
ghost use Rattle.reader_laws.specs.declared.fault.ReadError.TheVariants.{Memory};
ghost use Rattle.c_read.specs.Units as reading;
ghost use Rattle.c_reader.specs.Units.{counts_of, heads_of};

use itoa::Buffer;
use loop_lang::{Buf, Iexp};
use reader_laws::ReadError;
use sqlite_items::{Boxed, Items};

/// How many buffers of each kind have a length so far.
#[derive(Clone, Copy, Debug, PartialEq, Eq)]
pub struct Counts {
    pub inputs: u32,
    pub outputs: u32,
    pub scratch: u32,
}

/// The sizes, and the lengths so far.
#[derive(Drop)]
pub struct Heads {
    pub sizes: u32,
    pub counts: Counts,
    pub lengths: Items<Iexp>,
}

/// Whether this is the name of the length of the buffer with this letter and number.
fn is_length_of(text: &[u8], letter: u8, number: u32) -> bool
    ensures { result ≡ bytes_eq text.now (codes "len_" ++ (letter ∷ decimal number)) }
{
    match text {
        [b'l', b'e', b'n', b'_', c, digits @ ..] => {
            *c == letter && *digits == *Buffer::new().format(number).as_bytes()
        }
        _ => false,
    }
}

/// Whether the length of an input may come next.
#[tactic(auto, using(crate::proofs::Follows::input_follows))]
fn takes_input(counts: Counts) -> bool
    ensures follows { result ≡ reading.follows (counts_of counts) (buf.Input counts.inputs) }
    ensures room { (result ≡ true) → counts.inputs < 4294967295 }
{
    counts.outputs == 0 && counts.scratch == 0 && counts.inputs < 4_294_967_295
}

/// Whether the length of an output may come next.
#[tactic(auto, using(crate::proofs::Follows::output_follows))]
fn takes_output(counts: Counts) -> bool
    ensures follows { result ≡ reading.follows (counts_of counts) (buf.Output counts.outputs) }
    ensures room { (result ≡ true) → counts.outputs < 4294967295 }
{
    counts.scratch == 0 && counts.outputs < 4_294_967_295
}

/// Whether the length of scratch may come next.
#[tactic(auto, using(crate::proofs::Follows::scratch_follows))]
fn takes_scratch(counts: Counts) -> bool
    ensures follows { result ≡ reading.follows (counts_of counts) (buf.Scratch counts.scratch) }
    ensures room { (result ≡ true) → counts.scratch < 4294967295 }
{
    0 < counts.outputs && counts.scratch < 4_294_967_295
}

/// The buffer whose length has this name, where it may come next, and the numbers of buffers with it.
#[tactic(auto, unfolding(c_print::specs::Word::buffer_name))]
pub fn next_buffer(counts: Counts, text: &[u8]) -> Option<(Buf, Counts)>
    ensures { MatchOption result (reading.next_buffer (counts_of counts) text.now ≡ Err BadSyntax)
        (λ p. (reading.next_buffer (counts_of counts) text.now ≡ Ok p.0) × (counts_of p.1 ≡ reading.bump (counts_of counts) p.0)) }
{
    let Counts {
        inputs,
        outputs,
        scratch,
    } = counts;
    if takes_input(counts) && is_length_of(text, b'a', inputs) {
        let inputs = inputs + 1;
        return Some((
            Buf::Input(counts.inputs),
            Counts {
                inputs,
                outputs,
                scratch,
            },
        ));
    }
    if takes_output(counts) && is_length_of(text, b'b', outputs) {
        let outputs = outputs + 1;
        return Some((
            Buf::Output(counts.outputs),
            Counts {
                inputs,
                outputs,
                scratch,
            },
        ));
    }
    if takes_scratch(counts) && is_length_of(text, b's', scratch) {
        let scratch = scratch + 1;
        return Some((
            Buf::Scratch(counts.scratch),
            Counts {
                inputs,
                outputs,
                scratch,
            },
        ));
    }
    None
}
