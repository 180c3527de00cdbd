//! A cursor over the words of a C text.

ghost use Rattle.std.specs.Prelude.{◌≡◌, length};
ghost use Rattle.text_tokens.specs.Words as words;
ghost use Rattle.c_words.specs.Words as spec;

use crate::state::{Margin, State};
use crate::{lex, skip};
use std::marker::Model;
use text_tokens::Kind;

/// The words of a C text that are still to be read. It takes no memory; a word is cut when the one before it is taken.
#[derive(Drop)]
pub struct CWords<'a> {
    /// The text from the next word on.
    ahead: &'a [u8],
    kind: Kind,
    /// How many bytes the next word has.
    len: usize,
    /// The length of the whole text.
    end: usize,
}

impl<'a> Model for CWords<'a> {
    ghost use Rattle.text_tokens.specs.Words.{Input};

    ghost Value = { Input };

    ghost use Rattle.c_words.specs.Cursor.{input_of, IsReady};

    ghost view = { input_of };

    ghost invariant = { IsReady };
}

impl<'a> CWords<'a> {
    pub fn new(text: &'a [u8]) -> CWords<'a>
        ensures { result ≡ record { words = spec.c_words text.now; end = length text.now } }
    {
        let (ahead, kind, len) = skip::find(State::Code(Margin::Indented), text);
        CWords {
            ahead,
            kind,
            len,
            end: text.len(),
        }
    }

    /// The kind of the next word, which is `End` at the end of the text.
    #[tactic(auto, unfolding(text_tokens::specs::Words::peek), using(crate::proofs::CursorLaws::peek_ready))]
    pub fn peek(&self) -> Kind
        ensures { result ≡ (words.peek self.now).kind }
    {
        self.kind
    }

    /// The bytes of the next word.
    #[tactic(auto, unfolding(text_tokens::specs::Words::peek), using(crate::proofs::CursorLaws::peek_ready))]
    pub fn text(&self) -> &'a [u8]
        ensures { result.now ≡ (words.peek self.now).text }
    {
        lex::front(self.ahead, self.len)
    }

    /// How many bytes stand before the next word.
    #[tactic(auto, unfolding(text_tokens::specs::Words::peek), using(crate::proofs::CursorLaws::peek_ready))]
    pub fn place(&self) -> u64
        ensures { result ≡ (words.peek self.now).place }
    {
        (self.end - self.ahead.len()) as u64
    }

    /// Whether no word is left.
    pub fn is_done(&self) -> bool
        ensures { result ≡ words.is_nil self.now.words }
    {
        self.ahead.is_empty()
    }

    /// Goes on to the word after the next one. At the end of the text it stays there.
    #[tactic(auto, unfolding(text_tokens::specs::Words::next), using(crate::proofs::CursorLaws::next_ready))]
    pub fn take(&mut self)
        ensures { self.new ≡ words.next self.old }
    {
        let (ahead, kind, len) = skip::go_on(self.kind, lex::after(self.ahead, self.len));
        self.ahead = ahead;
        self.kind = kind;
        self.len = len;
    }
}
