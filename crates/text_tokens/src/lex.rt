//! Cuts the word at the front of a text.

ghost use Rattle.std.specs.Prelude.{◌≡◌, ℕ, ◌<◌, ◌≤◌, ◌-◌, [], ◌∷◌, ◌++◌, encode_utf8, length, take, drop, slice_index, true, false, MatchOption};
ghost use Rattle.std.specs.Str.{chars, encode_utf8_all};
ghost use Rattle.text_tokens.specs.Kinds as kinds;
ghost use Rattle.text_tokens.specs.Lex as spec;
ghost use Rattle.text_tokens.specs.Numbers as numbers;

use crate::kind::{Kind, Language};

/// The first character of a text, and what follows it.
pub fn split_first(text: &str) -> Option<(char, &str)>
    ensures { MatchOption result ((chars text.now ≡ []) × (text.now ≡ []))
        (λ (c, rest). (chars text.now ≡ c ∷ chars rest.now) × (length rest.now < length text.now)) }
{
    let mut chars = text.chars();
    match chars.next() {
        Some(c) => Some((c, chars.as_str())),
        None => None,
    }
}

fn is_blank(c: char) -> bool
    ensures { result ≡ spec.is_blank c }
{
    c == ' ' || c == '\t' || c == '\r' || c == '\n'
}

#[tactic(auto, unfolding(crate::specs::Lex::begins_name))]
fn begins_name(c: char) -> bool
    ensures { result ≡ spec.begins_name c }
{
    unicode_ident::is_xid_start(c) || c == '_'
}

#[tactic(auto, unfolding(crate::specs::Lex::continues_name))]
fn continues_name(c: char) -> bool
    ensures { result ≡ spec.continues_name c }
{
    unicode_ident::is_xid_continue(c)
}

/// What follows the characters that go on with a name.
fn after_name(text: &str) -> &str
    ensures value { chars result.now ≡ drop (spec.name_len (chars text.now)) (chars text.now) }
    ensures shorter { length result.now ≤ length text.now }
{
    let mut rest = text;
    while let Some((c, more)) = split_first(rest) {
        if !continues_name(c) {
            return rest;
        }
        rest = more;
    }
    rest
}

/// What follows the ASCII digits at the front.
fn after_digits(text: &str) -> &str
    ensures value { chars result.now ≡ drop (spec.digits_len (chars text.now)) (chars text.now) }
    ensures shorter { length result.now ≤ length text.now }
{
    let mut rest = text;
    while let Some((c, more)) = split_first(rest) {
        if !c.is_ascii_digit() {
            return rest;
        }
        rest = more;
    }
    rest
}

/// The text from its first word on.
pub fn skip(text: &str) -> &str
    ensures value { chars result.now ≡ spec.skip false (chars text.now) }
    ensures shorter { length result.now ≤ length text.now }
{
    let mut rest = text;
    let mut in_comment = false;
    while let Some((c, more)) = split_first(rest) {
        if in_comment {
            in_comment = c != '\n';
        } else if c == '#' {
            in_comment = true;
        } else if !is_blank(c) {
            return rest;
        }
        rest = more;
    }
    rest
}

/// What stands before the end `rest` of a text.
fn front_of<'a>(text: &'a str, rest: &str) -> &'a str
    requires { (n : ℕ) × (chars rest.now ≡ drop n (chars text.now)) }
    ensures { (n : ℕ) → chars rest.now ≡ drop n (chars text.now) → result.now ≡ encode_utf8_all (take n (chars text.now)) }
{
    text.split_at(text.len() - rest.len()).0
}

#[tactic(auto, unfolding(crate::specs::Kinds::kind_in))]
fn declaration_word(word: &str, other: Kind) -> Kind
    ensures { result ≡ kinds.kind_in kinds.declaration_words word.now other }
{
    if word == "atl" {
        Kind::Atl
    } else if word == "size" {
        Kind::Size
    } else if word == "in" {
        Kind::In
    } else if word == "assume" {
        Kind::Assume
    } else if word == "example" {
        Kind::Example
    } else if word == "input" {
        Kind::Input
    } else if word == "output" {
        Kind::Output
    } else {
        other
    }
}

#[tactic(auto, unfolding(crate::specs::Kinds::kind_in))]
fn form_word(word: &str, other: Kind) -> Kind
    ensures { result ≡ kinds.kind_in kinds.form_words word.now other }
{
    if word == "gen" {
        Kind::Gen
    } else if word == "sum" {
        Kind::Sum
    } else if word == "guard" {
        Kind::Guard
    } else if word == "let" {
        Kind::Let
    } else if word == "and" {
        Kind::And
    } else {
        other
    }
}

#[tactic(auto, unfolding(crate::specs::Kinds::kind_in))]
fn reshape_word(word: &str, other: Kind) -> Kind
    ensures { result ≡ kinds.kind_in kinds.reshape_words word.now other }
{
    if word == "concat" {
        Kind::Concat
    } else if word == "flatten" {
        Kind::Flatten
    } else if word == "split" {
        Kind::Split
    } else if word == "transpose" {
        Kind::Transpose
    } else if word == "truncl" {
        Kind::TruncL
    } else if word == "truncr" {
        Kind::TruncR
    } else if word == "padl" {
        Kind::PadL
    } else if word == "padr" {
        Kind::PadR
    } else {
        other
    }
}

#[tactic(auto, unfolding(crate::specs::Kinds::kind_in))]
fn version_two_word(word: &str, other: Kind) -> Kind
    ensures { result ≡ kinds.kind_in kinds.version_two_words word.now other }
{
    if word == "word" { Kind::Word } else { other }
}

#[tactic(auto, unfolding(crate::specs::Kinds::kind_in))]
fn script_word(word: &str, other: Kind) -> Kind
    ensures { result ≡ kinds.kind_in kinds.script_words word.now other }
{
    if word == "schedule" {
        Kind::Schedule
    } else if word == "at" {
        Kind::At
    } else if word == "do" {
        Kind::Do
    } else if word == "by" {
        Kind::By
    } else if word == "default" {
        Kind::Default
    } else if word == "goal" {
        Kind::Goal
    } else if word == "parallel" {
        Kind::Parallel
    } else if word == "and" {
        Kind::And
    } else {
        other
    }
}

#[tactic(auto, unfolding(crate::specs::Kinds::keyword))]
fn keyword(language: Language, word: &str) -> Kind
    ensures { result ≡ kinds.keyword language word.now }
{
    match language {
        Language::SourceOne => declaration_word(
            word,
            form_word(word, reshape_word(word, Kind::Name)),
        ),
        Language::SourceTwo => declaration_word(
            word,
            form_word(word, reshape_word(word, version_two_word(word, Kind::Name))),
        ),
        Language::Script => script_word(word, Kind::Name),
        Language::Data => Kind::Name,
    }
}

/// The symbol that begins with these two characters, the longest first.
#[tactic(auto, unfolding(crate::specs::Kinds::symbol))]
fn symbol(c: char, next: char) -> Kind
    ensures { result ≡ kinds.symbol c next }
{
    match c {
        ';' => Kind::Semi,
        ',' => Kind::Comma,
        '.' => if next == '.' { Kind::DotDot } else { Kind::Dot },
        '[' => Kind::LBracket,
        ']' => Kind::RBracket,
        '(' => Kind::LParen,
        ')' => Kind::RParen,
        '{' => Kind::LBrace,
        '}' => Kind::RBrace,
        ':' => Kind::Colon,
        '<' => if next == '=' {
            Kind::LessEqual
        } else {
            Kind::Less
        },
        '>' => if next == '=' {
            Kind::GreaterEqual
        } else {
            Kind::Greater
        },
        '=' => if next == '=' {
            Kind::Equal
        } else {
            Kind::Assign
        },
        '+' => Kind::Plus,
        '-' => Kind::Minus,
        '*' => Kind::Star,
        '/' => Kind::Slash,
        '%' => Kind::Percent,
        _ => Kind::Bad,
    }
}

fn has_symbol(language: Language, kind: Kind) -> bool
    ensures { result ≡ kinds.has_symbol language kind }
{
    match language {
        Language::Script => true,
        Language::Data => matches!(kind, Kind::Colon | Kind::Semi),
        Language::SourceOne | Language::SourceTwo => !matches!(
            kind,
            Kind::Colon | Kind::LBrace | Kind::RBrace
        ),
    }
}

#[tactic(auto, unfolding(crate::specs::Kinds::symbol_of))]
fn symbol_of(language: Language, c: char, next: char) -> Kind
    ensures { result ≡ kinds.symbol_of language c next }
{
    let kind = symbol(c, next);
    if has_symbol(language, kind) {
        kind
    } else {
        Kind::Bad
    }
}

/// What follows a symbol, of which the first character is cut off already.
fn after_symbol(kind: Kind, more: &str) -> &str
    ensures value { chars result.now ≡ drop (kinds.symbol_len kind - 1) (chars more.now) }
    ensures shorter { length result.now ≤ length more.now }
{
    match kind {
        Kind::DotDot | Kind::LessEqual | Kind::GreaterEqual | Kind::Equal => {
            match split_first(more) {
                Some((_, rest)) => rest,
                None => more,
            }
        }
        _ => more,
    }
}

fn first_or_nul(text: &str) -> char
    ensures { result ≡ slice_index (chars text.now) 0 }
{
    match split_first(text) {
        Some((c, _)) => c,
        None => '\0',
    }
}

/// The kind of the word at the front, its text and what follows it.
#[tactic(auto, unfolding(crate::specs::Lex::word))]
pub fn word(language: Language, text: &str) -> (Kind, &str, &str)
    ensures kind { result.0 ≡ (spec.word language (chars text.now)).0 }
    ensures text { result.1.now ≡ encode_utf8_all (take (spec.word language (chars text.now)).1 (chars text.now)) }
    ensures rest { chars result.2.now ≡ drop (spec.word language (chars text.now)).1 (chars text.now) }
    ensures shorter { length result.2.now ≤ length text.now }
{
    let Some((c, more)) = split_first(text) else {
        return (Kind::End, text, text);
    };
    if begins_name(c) {
        let rest = after_name(more);
        let name = front_of(text, rest);
        (keyword(language, name), name, rest)
    } else if c.is_ascii_digit() {
        let rest = after_digits(more);
        (Kind::Number, front_of(text, rest), rest)
    } else {
        let kind = symbol_of(language, c, first_or_nul(more));
        let rest = after_symbol(kind, more);
        (kind, front_of(text, rest), rest)
    }
}

/// The value of a number's digits, if it is below 2^64.
#[tactic(auto, using(crate::proofs::Numbers::value_step, crate::proofs::Numbers::value_too_large, crate::proofs::Numbers::value_done))]
pub fn number(digits: &str) -> Option<u64>
    ensures { result ≡ numbers.number digits.now }
{
    let mut value = 0u64;
    for b in digits.as_bytes() {
        value = value
            .checked_mul(10)?
            .checked_add(b.saturating_sub(b'0') as u64)?;
    }
    Some(value)
}
