//! A page of tokens, to which each function writes.

ghost use Rattle.std.specs.Prelude.{◌≡◌, ◌++◌, OnOk, IfOk};
ghost use Rattle.text_tokens.specs.Spelled.{closes, is_function, is_opening, opens, sign_text, source_gap, space_behind, number_token, name_token, sign};
ghost use Rattle.atl_printer.specs.Page.{Page, before, blank, finished, written};

use itoa::Buffer;
use std::alloc::{AllocError, Global};
use std::marker::Model;
use text_tokens::Kind;

/// Why there is no text.
#[derive(Debug, Drop, Clone, Copy, PartialEq, Eq)]
pub enum PrintFault {
    Memory,
}

impl From<AllocError> for PrintFault {
    ghost use Rattle.atl_printer.specs.declared.pen.PrintFault.TheVariants.{Memory};

    ghost from_gives = { λ _ e. e ≡ Memory };

    fn from(_e: AllocError) -> PrintFault {
        PrintFault::Memory
    }
}

/// What is written, and the kind of the last token.
#[derive(Drop)]
pub struct Pen {
    bytes: Vec<u8>,
    last: Option<Kind>,
}

impl Model for Pen {
    ghost use Rattle.atl_printer.specs.Page.{Page};

    ghost Value = { Page };

    ghost view = { λ pen. record { text = pen.bytes.items; last = pen.last } };
}

fn opens(kind: Kind) -> bool
    ensures { result ≡ opens kind }
{
    match kind {
        Kind::LParen | Kind::LBracket | Kind::DotDot => true,
        _ => false,
    }
}

fn closes(kind: Kind) -> bool
    ensures { result ≡ closes kind }
{
    match kind {
        Kind::Semi
        | Kind::Comma
        | Kind::Dot
        | Kind::DotDot
        | Kind::LBracket
        | Kind::RBracket
        | Kind::RParen => true,
        _ => false,
    }
}

fn is_function(kind: Kind) -> bool
    ensures { result ≡ is_function kind }
{
    match kind {
        Kind::Concat
        | Kind::Flatten
        | Kind::Split
        | Kind::Transpose
        | Kind::TruncL
        | Kind::TruncR
        | Kind::PadL
        | Kind::PadR
        | Kind::Word => true,
        _ => false,
    }
}

fn is_opening(kind: Kind) -> bool
    ensures { result ≡ is_opening kind }
{
    match kind {
        Kind::LParen => true,
        _ => false,
    }
}

fn space_behind(kind: Kind) -> &'static [u8]
    ensures { result.now ≡ space_behind kind }
{
    match kind {
        Kind::Semi => b"\n",
        _ => b" ",
    }
}

/// What stands between two tokens.
fn gap(a: Kind, b: Kind) -> &'static [u8]
    ensures { result.now ≡ source_gap a b }
{
    let touching = opens(a) || closes(b) || (is_function(a) && is_opening(b));
    if touching { b"" } else { space_behind(a) }
}

impl Pen {
    pub fn new(alloc: Global) -> Pen
        ensures { result ≡ blank }
    {
        Pen {
            bytes: Vec::new(alloc),
            last: None,
        }
    }

    /// A token of any kind.
    pub fn put(&mut self, kind: Kind, text: &[u8]) -> Result<(), PrintFault>
        ensures { OnOk result (self.new ≡ written (record { kind = kind; text = text.now }) self.old) }
    {
        match self.last {
            None => (),
            Some(last) => self.bytes.extend_from_slice(gap(last, kind))?,
        }
        self.bytes.extend_from_slice(text)?;
        self.last = Some(kind);
        Ok(())
    }

    pub fn put_number(&mut self, n: u64) -> Result<(), PrintFault>
        ensures { OnOk result (self.new ≡ written (number_token n) self.old) }
    {
        self.put(Kind::Number, Buffer::new().format(n).as_bytes())
    }

    pub fn put_name(&mut self, name: &[u8]) -> Result<(), PrintFault>
        ensures { OnOk result (self.new ≡ written (name_token name.now) self.old) }
    {
        self.put(Kind::Name, name)
    }

    /// A name in two parts.
    pub fn put_lettered(&mut self, letter: &[u8], rest: &[u8]) -> Result<(), PrintFault>
        ensures { OnOk result (self.new ≡ written (name_token (letter.now ++ rest.now)) self.old) }
    {
        self.put_name(letter)?;
        self.bytes.extend_from_slice(rest)?;
        Ok(())
    }

    /// The text, and what ends its last line.
    pub fn into_bytes(self) -> Result<Vec<u8>, PrintFault>
        ensures { IfOk result (λ bytes. bytes.items ≡ finished self) }
    {
        let Pen { mut bytes, last } = self;
        match last {
            None => (),
            Some(kind) => bytes.extend_from_slice(gap(kind, Kind::End))?,
        }
        Ok(bytes)
    }
}
