//! The limits of whole terms.

ghost use Rattle.std.specs.Prelude.{◌≡◌, ◌-◌, ◌^◌, min};
ghost use Rattle.text_tokens.specs.Words.{input};
ghost use Rattle.source_grammar.specs.Source.{nodes};
ghost use Rattle.atl_reader.specs.Source as spec;

use term_tree::{OutputDecl, depth, nodes};
use text_tokens::{Kind, Language, Tokens, same_kind};

/// How deep a term may be; a leaf has depth 0.
const DEEPEST: u64 = 200;

/// The number of the first output whose term is too deep.
pub(crate) fn deep(mut outputs: &[OutputDecl]) -> Option<usize>
    ensures { result ≡ spec.deep_from 0 outputs.entry.now }
{
    let mut at = 0;
    while let [first, rest @ ..] = outputs {
        if depth(&first.term) > DEEPEST {
            return Some(at);
        }
        at += 1;
        outputs = rest;
    }
    None
}

/// The nodes of all terms, or 2^64 - 1 where there are more.
#[tactic(auto, using(crate::proofs::LimitLaws::saturated))]
pub(crate) fn all_nodes(mut outputs: &[OutputDecl]) -> u64
    ensures { result ≡ min (nodes outputs.entry.now) (2 ^ 64 - 1) }
{
    let mut total = 0u64;
    while let [first, rest @ ..] = outputs {
        total = total.saturating_add(nodes(&first.term));
        outputs = rest;
    }
    total
}

/// Where the term of the output with this number begins.
#[tactic(auto, using(crate::proofs::LimitLaws::place_none, crate::proofs::LimitLaws::place_other, crate::proofs::LimitLaws::place_first, crate::proofs::LimitLaws::place_later, crate::proofs::LimitLaws::words_shorter))]
pub(crate) fn place_of_term(language: Language, text: &str, output: usize) -> u64
    ensures { result ≡ spec.term_place output (input language text.now) }
{
    let mut tokens = Tokens::new(language, text);
    let mut left = output;
    while !tokens.is_done() {
        let is_output = same_kind(tokens.peek(), Kind::Output);
        tokens.take();
        if is_output {
            if left == 0 {
                tokens.take();
                tokens.take();
                return tokens.place();
            }
            left -= 1;
        }
    }
    tokens.place()
}
