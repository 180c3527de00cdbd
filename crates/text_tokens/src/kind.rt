//! The languages, and the kinds of their words.

ghost use Rattle.std.specs.Prelude.{◌≡◌, ◌≢◌, ◌<◌, ◌≤◌, true, false};
ghost use Rattle.text_tokens.specs.Kinds as spec;

/// Which language a text is in: it decides which names are keywords, and which symbols there are.
#[derive(Clone, Copy, Debug, PartialEq, Eq)]
pub enum Language {
    /// Source text of version 1.
    SourceOne,
    /// Source text of version 2, which has the keyword `word` besides.
    SourceTwo,
    /// Schedule scripts.
    Script,
    /// Given data.
    Data,
}

/// What a word is.
#[derive(Clone, Copy, Debug, PartialEq, Eq)]
pub enum Kind {
    /// The end of the text.
    End,
    /// A character that begins no word of the language.
    Bad,
    Name,
    Number,
    Semi,
    Comma,
    Dot,
    DotDot,
    LBracket,
    RBracket,
    LParen,
    RParen,
    LBrace,
    RBrace,
    Colon,
    Less,
    LessEqual,
    Greater,
    GreaterEqual,
    Equal,
    Assign,
    Plus,
    Minus,
    Star,
    Slash,
    Percent,
    Atl,
    Size,
    In,
    Assume,
    Example,
    Input,
    Output,
    Gen,
    Sum,
    Guard,
    Let,
    And,
    Concat,
    Flatten,
    Split,
    Transpose,
    TruncL,
    TruncR,
    PadL,
    PadR,
    Word,
    Schedule,
    At,
    Do,
    By,
    Default,
    Goal,
    Parallel,
}

#[tactic(auto, unfolding(crate::specs::Kinds::same_kind))]
pub fn same_kind(a: Kind, b: Kind) -> bool
    ensures value { result ≡ spec.same_kind a b }
    ensures same { result ≡ true → a ≡ b }
    ensures other { result ≡ false → a ≢ b }
{
    a == b
}
