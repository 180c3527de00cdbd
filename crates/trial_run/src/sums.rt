//! Sums of words, and of nodes.

ghost use Rattle.std.specs.Prelude.{◌≡◌, ◌+◌, ◌%◌, ◌^◌, ◌≤◌, All, length, take};
ghost use Rattle.source_grammar.specs.Source.{nodes as all_nodes};
ghost use Rattle.term_tree.specs.Counts.{node_count};
ghost use Rattle.trial_run.specs.TrialRun.{total as total_of, word_sum};

use loop_lang::Buf;
use loop_run::Buffers;
use term_tree::{OutputDecl, nodes};

/// A sum and some words more, modulo 2^64.
fn with_words(sum: u64, words: &[u64]) -> u64
    ensures { result ≡ (sum + word_sum words.now) % 2 ^ 64 }
{
    let mut total = sum;
    for word in words {
        total = total.wrapping_add(*word);
    }
    total
}

/// The sum of the words of the first outputs, modulo 2^64.
pub fn total(buffers: &Buffers, outputs: usize) -> u64
    requires { outputs ≤ 4294967296 }
    ensures { result ≡ total_of (take outputs buffers.now.memory.outputs) }
{
    let mut total = 0u64;
    for at in 0..outputs {
        total = with_words(total, buffers.words(Buf::Output(at as u32)));
    }
    total
}

/// The nodes of all terms.
pub fn nodes_of(outputs: &[OutputDecl]) -> u64
    requires few { length outputs.now ≤ 2147483647 }
    requires small { All (λ o. node_count o.term ≤ 20000) outputs.now }
    ensures { result ≡ all_nodes outputs.now }
{
    let mut total = 0u64;
    for output in outputs {
        total = total.saturating_add(nodes(&output.term));
    }
    total
}
