//! Index expressions of source texts.

ghost use Rattle.std.specs.Prelude.{◌≡◌, OnOk, pos, IsTrue};
ghost use Rattle.text_tokens.specs.Spelled.{sign_text, number_token, sign};
ghost use Rattle.atl_printer.specs.IndexTokens.{index_tokens};
ghost use Rattle.atl_printer.specs.TermTokens.{var_text};
ghost use Rattle.atl_printer.specs.IndexPages.{closed, index_pages, is_open, level_of, opened, size_text};
ghost use Rattle.atl_printer.specs.Page.{written, written_all};
ghost use Rattle.text_tokens.specs.declared.kind.Kind.TheVariants as k;
ghost use Rattle.atl_printer.specs.declared.index.Place.TheVariants as at;

use crate::pen::{Pen, PrintFault};
use itoa::Buffer;
use loop_lang::Iexp;
use term_tree::SizeDecl;
use text_tokens::Kind;

/// The loosest operator that may stand in a place without parentheses.
#[derive(Clone, Copy)]
pub enum Place {
    Sum,
    Product,
    Part,
}

impl Place {
    /// Whether a sum, or else a product, stands in parentheses here.
    fn is_open(self, is_sum: bool) -> bool
        ensures { result ≡ is_open is_sum self }
    {
        match (is_sum, self) {
            (true, Place::Sum) => false,
            (true, Place::Product | Place::Part) => true,
            (false, Place::Part) => true,
            (false, Place::Sum | Place::Product) => false,
        }
    }
}

impl Pen {
    pub fn put_opening(&mut self, is_open: bool) -> Result<(), PrintFault>
        ensures { OnOk result (self.new ≡ opened is_open self.old) }
    {
        if is_open {
            self.put(Kind::LParen, b"(")
        } else {
            Ok(())
        }
    }

    pub fn put_closing(&mut self, is_open: bool) -> Result<(), PrintFault>
        ensures { OnOk result (self.new ≡ closed is_open self.old) }
    {
        if is_open {
            self.put(Kind::RParen, b")")
        } else {
            Ok(())
        }
    }

    fn put_size(&mut self, sizes: &[SizeDecl], size: u32) -> Result<(), PrintFault>
        ensures { OnOk result (self.new ≡ written (record { kind = k.Name; text = size_text sizes.now size }) self.old) }
    {
        match sizes.get(size as usize) {
            Some(declared) => self.put_name(declared.name.as_str().as_bytes()),
            None => self.put_name(b""),
        }
    }
}

impl Pen {
    /// The variable of a loop.
    pub fn put_var(&mut self, depth: u64) -> Result<(), PrintFault>
        ensures { OnOk result (self.new ≡ written (record { kind = k.Name; text = var_text depth }) self.old) }
    {
        self.put_lettered(b"i", Buffer::new().format(depth).as_bytes())
    }

    /// An operator with a number on its right, and what closes.
    fn put_divisor(
        &mut self,
        operator: Kind,
        text: &[u8],
        divisor: u64,
        parted: bool,
    ) -> Result<(), PrintFault>
        ensures { OnOk result (self.new ≡ closed parted (written (number_token divisor) (written (record { kind = operator; text = text.now }) self.old))) }
    {
        self.put(operator, text)?;
        self.put_number(divisor)?;
        self.put_closing(parted)
    }

    /// What opens, and the left operand.
    #[cycle(index)]
    fn put_left(
        &mut self,
        parted: bool,
        sizes: &[SizeDecl],
        index: &Iexp,
        place: Place,
    ) -> Result<(), PrintFault>
        ensures { OnOk result (self.new ≡ index_pages sizes.now index.now place (opened parted self.old)) }
    {
        self.put_opening(parted)?;
        self.put_index(sizes, index, place)
    }

    /// An operator, the right operand, and what closes.
    #[cycle(index)]
    fn put_right(
        &mut self,
        operator: Kind,
        text: &[u8],
        sizes: &[SizeDecl],
        index: &Iexp,
        place: Place,
        parted: bool,
    ) -> Result<(), PrintFault>
        ensures { OnOk result (self.new ≡ closed parted (index_pages sizes.now index.now place (written (record { kind = operator; text = text.now }) self.old))) }
    {
        self.put(operator, text)?;
        self.put_index(sizes, index, place)?;
        self.put_closing(parted)
    }

    /// An index in a place.
    #[cycle(index)]
    pub fn put_index(
        &mut self,
        sizes: &[SizeDecl],
        index: &Iexp,
        place: Place,
    ) -> Result<(), PrintFault>
        ensures { OnOk result (self.new ≡ index_pages sizes.now index.now place self.old) }
    {
        match index {
            Iexp::Lit(n) => self.put_number(n.unsigned_abs()),
            Iexp::Size(size) => self.put_size(sizes, *size),
            Iexp::Loop(depth) => self.put_var(u64::from(*depth)),
            Iexp::Add(a, b) => {
                self.put_left(place.is_open(true), sizes, a.get(), Place::Sum)?;
                self.put_right(
                    Kind::Plus,
                    b"+",
                    sizes,
                    b.get(),
                    Place::Product,
                    place.is_open(true),
                )
            }
            Iexp::Sub(a, b) => {
                self.put_left(place.is_open(true), sizes, a.get(), Place::Sum)?;
                self.put_right(
                    Kind::Minus,
                    b"-",
                    sizes,
                    b.get(),
                    Place::Product,
                    place.is_open(true),
                )
            }
            Iexp::Mul(a, b) => {
                self.put_left(place.is_open(false), sizes, a.get(), Place::Product)?;
                self.put_right(
                    Kind::Star,
                    b"*",
                    sizes,
                    b.get(),
                    Place::Part,
                    place.is_open(false),
                )
            }
            Iexp::Div(a, divisor) => {
                self.put_left(place.is_open(false), sizes, a.get(), Place::Product)?;
                self.put_divisor(Kind::Slash, b"/", *divisor, place.is_open(false))
            }
            Iexp::Rem(a, divisor) => {
                self.put_left(place.is_open(false), sizes, a.get(), Place::Product)?;
                self.put_divisor(Kind::Percent, b"%", *divisor, place.is_open(false))
            }
            Iexp::Larger(_, _) => Ok(()),
        }
    }
}
