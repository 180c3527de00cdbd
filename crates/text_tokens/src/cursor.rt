//! A cursor over the words of a text.

ghost use Rattle.std.specs.Prelude.{◌≡◌, ◌<◌, ◌≤◌, length};
ghost use Rattle.text_tokens.specs.Words as spec;

use crate::kind::{Kind, Language};
use crate::lex;
use std::marker::Model;

/// The words of a text that are still to be read. It takes no memory; a word is cut when the one before it is taken.
#[derive(Drop)]
pub struct Tokens<'a> {
    language: Language,
    /// The text from the next word on.
    ahead: &'a str,
    kind: Kind,
    /// The next word, and what follows it.
    text: &'a str,
    rest: &'a str,
    /// The length of the whole text.
    end: usize,
}

impl<'a> Model for Tokens<'a> {
    ghost use Rattle.text_tokens.specs.Words.{Input};

    ghost Value = { Input };

    ghost use Rattle.text_tokens.specs.Cursor.{input_of, IsReady};

    ghost view = { input_of };

    ghost invariant = { IsReady };
}

impl<'a> Tokens<'a> {
    #[tactic(auto, using(crate::proofs::WordLaws::skip_again, crate::proofs::WordLaws::words_skip))]
    pub fn new(language: Language, text: &'a str) -> Tokens<'a>
        ensures { result ≡ spec.input language text.now }
    {
        let ahead = lex::skip(text);
        let (kind, word, rest) = lex::word(language, ahead);
        Tokens {
            language,
            ahead,
            kind,
            text: word,
            rest,
            end: text.len(),
        }
    }

    /// The kind of the next word, which is `End` at the end of the text.
    #[tactic(auto, unfolding(crate::specs::Words::peek, crate::specs::Words::first_word), using(crate::proofs::WordLaws::peek_ready))]
    pub fn peek(&self) -> Kind
        ensures { result ≡ (spec.peek self.now).kind }
    {
        self.kind
    }

    #[tactic(auto, unfolding(crate::specs::Words::peek, crate::specs::Words::first_word), using(crate::proofs::WordLaws::peek_ready))]
    pub fn text(&self) -> &'a str
        ensures { result.now ≡ (spec.peek self.now).text }
    {
        self.text
    }

    /// How many bytes stand before the next word.
    #[tactic(auto, unfolding(crate::specs::Words::peek, crate::specs::Words::first_word), using(crate::proofs::WordLaws::peek_ready, crate::proofs::Characters::encodes_chars))]
    pub fn place(&self) -> u64
        ensures { result ≡ (spec.peek self.now).place }
    {
        (self.end - self.ahead.as_bytes().len()) as u64
    }

    /// Whether no word is left.
    pub fn is_done(&self) -> bool
        ensures { result ≡ spec.is_nil self.now.words }
    {
        match lex::split_first(self.ahead) {
            None => true,
            Some(_) => false,
        }
    }

    /// Goes on to the word after the next one, and returns the text of the next one. At the end of the text it stays there.
    #[tactic(auto, unfolding(crate::specs::Words::peek, crate::specs::Words::next, crate::specs::Words::first_word), using(crate::proofs::WordLaws::peek_ready, crate::proofs::WordLaws::next_ready, crate::proofs::WordLaws::skip_again, crate::proofs::WordLaws::words_skip))]
    pub fn take(&mut self) -> &'a str
        ensures text { result.now ≡ (spec.peek self.old).text }
        ensures next { self.new ≡ spec.next self.old }
    {
        let text = self.text;
        let ahead = lex::skip(self.rest);
        let (kind, word, rest) = lex::word(self.language, ahead);
        self.ahead = ahead;
        self.kind = kind;
        self.text = word;
        self.rest = rest;
        text
    }
}
