//! Terms of source texts.

ghost use Rattle.std.specs.Prelude.{◌≡◌, OnOk, true, codes};
ghost use Rattle.text_tokens.specs.Spelled.{name_token, sign, keyword};
ghost use Rattle.atl_printer.specs.TermTokens.{let_text};
ghost use Rattle.atl_printer.specs.IndexPages.{closed, opened};
ghost use Rattle.atl_printer.specs.Page.{written};
ghost use Rattle.atl_printer.specs.FormPages.{form_pages};
ghost use Rattle.atl_printer.specs.TermPages.{binder_open, bracketed, call_head, guard_head, let_head, loop_head, next, product_open, split_head, sum_open, tensor_name, term_pages, trim_head};
ghost use Rattle.text_tokens.specs.declared.kind.Kind.TheVariants as k;
ghost use Rattle.atl_printer.specs.declared.term.TermPlace.TheVariants as at;

use crate::pen::{Pen, PrintFault};
use affine_index::{Aff, Cond};
use itoa::Buffer;
use std::alloc::Global;
use term_tree::{InputDecl, SizeDecl, Term};
use text_tokens::Kind;

/// Where a term stands: any term, a sum or difference, a product, a factor.
#[derive(Clone, Copy)]
pub enum TermPlace {
    Whole,
    Sum,
    Product,
    Factor,
}

impl TermPlace {
    fn binder_open(self) -> bool
        ensures { result ≡ binder_open self }
    {
        match self {
            TermPlace::Whole => false,
            _ => true,
        }
    }

    fn sum_open(self) -> bool
        ensures { result ≡ sum_open self }
    {
        match self {
            TermPlace::Product | TermPlace::Factor => true,
            _ => false,
        }
    }

    fn product_open(self) -> bool
        ensures { result ≡ product_open self }
    {
        match self {
            TermPlace::Factor => true,
            _ => false,
        }
    }
}

impl Pen {
    fn put_let_name(&mut self, depth: u64) -> Result<(), PrintFault>
        ensures { OnOk result (self.new ≡ written (name_token (let_text depth)) self.old) }
    {
        self.put_lettered(b"t", Buffer::new().format(depth).as_bytes())
    }

    fn put_loop_head(
        &mut self,
        alloc: Global,
        sizes: &[SizeDecl],
        kind: Kind,
        text: &[u8],
        vars: u32,
        extent: &Aff,
        parted: bool,
    ) -> Result<(), PrintFault>
        ensures { OnOk result (self.new ≡ loop_head sizes.now kind text.now vars extent.now (opened parted self.old)) }
    {
        self.put_opening(parted)?;
        self.put(kind, text)?;
        self.put_var(u64::from(vars))?;
        self.put(Kind::Less, b"<")?;
        self.put_form(alloc, sizes, 0, extent)?;
        self.put(Kind::Dot, b".")
    }

    fn put_guard_head(
        &mut self,
        alloc: Global,
        sizes: &[SizeDecl],
        vars: u32,
        cond: &Cond,
        parted: bool,
    ) -> Result<(), PrintFault>
        ensures { OnOk result (self.new ≡ guard_head sizes.now cond.now vars (opened parted self.old)) }
    {
        self.put_opening(parted)?;
        self.put(Kind::Guard, b"guard")?;
        self.put_all(alloc, sizes, vars, cond.all.as_slice())?;
        self.put(Kind::Dot, b".")
    }

    fn put_let_head(&mut self, lets: u32, parted: bool) -> Result<(), PrintFault>
        ensures { OnOk result (self.new ≡ let_head lets (opened parted self.old)) }
    {
        self.put_opening(parted)?;
        self.put(Kind::Let, b"let")?;
        self.put_let_name(u64::from(lets))?;
        self.put(Kind::Assign, b"=")
    }

    fn put_call_head(&mut self, kind: Kind, text: &[u8]) -> Result<(), PrintFault>
        ensures { OnOk result (self.new ≡ call_head kind text.now self.old) }
    {
        self.put(kind, text)?;
        self.put(Kind::LParen, b"(")
    }

    fn put_trim_head(
        &mut self,
        alloc: Global,
        sizes: &[SizeDecl],
        kind: Kind,
        text: &[u8],
        amount: &Aff,
    ) -> Result<(), PrintFault>
        ensures { OnOk result (self.new ≡ trim_head sizes.now kind text.now amount.now self.old) }
    {
        self.put_call_head(kind, text)?;
        self.put_form(alloc, sizes, 0, amount)?;
        self.put(Kind::Comma, b",")
    }

    fn put_split_head(&mut self, tile: u32) -> Result<(), PrintFault>
        ensures { OnOk result (self.new ≡ split_head tile self.old) }
    {
        self.put_call_head(Kind::Split, b"split")?;
        self.put_number(u64::from(tile))?;
        self.put(Kind::Comma, b",")
    }

    fn put_bracketed(
        &mut self,
        alloc: Global,
        sizes: &[SizeDecl],
        vars: u32,
        index: &Aff,
    ) -> Result<(), PrintFault>
        ensures { OnOk result (self.new ≡ bracketed sizes.now vars index.now self.old) }
    {
        self.put(Kind::LBracket, b"[")?;
        self.put_form(alloc, sizes, vars, index)?;
        self.put(Kind::RBracket, b"]")
    }

    fn put_word(
        &mut self,
        alloc: Global,
        sizes: &[SizeDecl],
        vars: u32,
        index: &Aff,
    ) -> Result<(), PrintFault>
        ensures { OnOk result (self.new ≡ written (sign k.RParen) (form_pages sizes.now vars index.now (call_head k.Word (codes "word") self.old))) }
    {
        self.put_call_head(Kind::Word, b"word")?;
        self.put_form(alloc, sizes, vars, index)?;
        self.put(Kind::RParen, b")")
    }

    fn put_tensor(
        &mut self,
        sizes: &[SizeDecl],
        inputs: &[InputDecl],
        lets: u32,
        tensor: u32,
    ) -> Result<(), PrintFault>
        ensures { OnOk result (self.new ≡ written (name_token (tensor_name sizes.now inputs.now lets tensor)) self.old) }
    {
        if tensor < lets {
            return self.put_let_name(u64::from(lets - 1 - tensor));
        }
        match inputs.get((tensor - lets) as usize) {
            Some(declared) => self.put_name(declared.name.as_str().as_bytes()),
            None => self.put_name(b""),
        }
    }
}

impl Pen {
    /// The left operand, and what opens before it.
    #[cycle(term)]
    fn put_first(
        &mut self,
        alloc: Global,
        sizes: &[SizeDecl],
        inputs: &[InputDecl],
        term: &Term,
        place: TermPlace,
        vars: u32,
        lets: u32,
        parted: bool,
    ) -> Result<(), PrintFault>
        ensures { OnOk result (self.new ≡ term_pages sizes.now inputs.now term.now place vars lets (opened parted self.old)) }
    {
        self.put_opening(parted)?;
        self.put_term(alloc, sizes, inputs, term, place, vars, lets)
    }

    /// A token, the right operand, and what closes behind it.
    #[cycle(term)]
    fn put_second(
        &mut self,
        alloc: Global,
        sizes: &[SizeDecl],
        inputs: &[InputDecl],
        kind: Kind,
        text: &[u8],
        term: &Term,
        place: TermPlace,
        vars: u32,
        lets: u32,
        parted: bool,
    ) -> Result<(), PrintFault>
        ensures { OnOk result (self.new ≡ closed parted (term_pages sizes.now inputs.now term.now place vars lets (written (record { kind = kind; text = text.now }) self.old))) }
    {
        self.put(kind, text)?;
        self.put_term(alloc, sizes, inputs, term, place, vars, lets)?;
        self.put_closing(parted)
    }

    /// A whole term, and what closes behind it.
    #[cycle(term)]
    fn put_body(
        &mut self,
        alloc: Global,
        sizes: &[SizeDecl],
        inputs: &[InputDecl],
        term: &Term,
        vars: u32,
        lets: u32,
        parted: bool,
    ) -> Result<(), PrintFault>
        ensures { OnOk result (self.new ≡ closed parted (term_pages sizes.now inputs.now term.now at.Whole vars lets self.old)) }
    {
        self.put_term(alloc, sizes, inputs, term, TermPlace::Whole, vars, lets)?;
        self.put_closing(parted)
    }

    /// A term in a place, under so many variables and lets.
    #[cycle(term)]
    pub fn put_term(
        &mut self,
        alloc: Global,
        sizes: &[SizeDecl],
        inputs: &[InputDecl],
        term: &Term,
        place: TermPlace,
        vars: u32,
        lets: u32,
    ) -> Result<(), PrintFault>
        ensures { OnOk result (self.new ≡ term_pages sizes.now inputs.now term.now place vars lets self.old) }
    {
        match term {
            Term::Lit(word) => self.put_number(*word),
            Term::TVar(tensor) => self.put_tensor(sizes, inputs, lets, *tensor),
            Term::WordOf(index) => self.put_word(alloc, sizes, vars, index),
            Term::Index(e, index) => {
                self.put_first(
                    alloc,
                    sizes,
                    inputs,
                    e.get(),
                    TermPlace::Factor,
                    vars,
                    lets,
                    false,
                )?;
                self.put_bracketed(alloc, sizes, vars, index)
            }
            Term::Gen(extent, e) => {
                self.put_loop_head(
                    alloc,
                    sizes,
                    Kind::Gen,
                    b"gen",
                    vars,
                    extent,
                    place.binder_open(),
                )?;
                self.put_body(
                    alloc,
                    sizes,
                    inputs,
                    e.get(),
                    vars.saturating_add(1),
                    lets,
                    place.binder_open(),
                )
            }
            Term::Sum(extent, e) => {
                self.put_loop_head(
                    alloc,
                    sizes,
                    Kind::Sum,
                    b"sum",
                    vars,
                    extent,
                    place.binder_open(),
                )?;
                self.put_body(
                    alloc,
                    sizes,
                    inputs,
                    e.get(),
                    vars.saturating_add(1),
                    lets,
                    place.binder_open(),
                )
            }
            Term::Guard(cond, e) => {
                self.put_guard_head(alloc, sizes, vars, cond, place.binder_open())?;
                self.put_body(
                    alloc,
                    sizes,
                    inputs,
                    e.get(),
                    vars,
                    lets,
                    place.binder_open(),
                )
            }
            Term::Let(a, e) => {
                self.put_let_head(lets, place.binder_open())?;
                self.put_first(
                    alloc,
                    sizes,
                    inputs,
                    a.get(),
                    TermPlace::Whole,
                    vars,
                    lets,
                    false,
                )?;
                self.put_second(
                    alloc,
                    sizes,
                    inputs,
                    Kind::In,
                    b"in",
                    e.get(),
                    TermPlace::Whole,
                    vars,
                    lets.saturating_add(1),
                    place.binder_open(),
                )
            }
            Term::Add(a, e) => {
                self.put_first(
                    alloc,
                    sizes,
                    inputs,
                    a.get(),
                    TermPlace::Sum,
                    vars,
                    lets,
                    place.sum_open(),
                )?;
                self.put_second(
                    alloc,
                    sizes,
                    inputs,
                    Kind::Plus,
                    b"+",
                    e.get(),
                    TermPlace::Product,
                    vars,
                    lets,
                    place.sum_open(),
                )
            }
            Term::Sub(a, e) => {
                self.put_first(
                    alloc,
                    sizes,
                    inputs,
                    a.get(),
                    TermPlace::Sum,
                    vars,
                    lets,
                    place.sum_open(),
                )?;
                self.put_second(
                    alloc,
                    sizes,
                    inputs,
                    Kind::Minus,
                    b"-",
                    e.get(),
                    TermPlace::Product,
                    vars,
                    lets,
                    place.sum_open(),
                )
            }
            Term::Mul(a, e) => {
                self.put_first(
                    alloc,
                    sizes,
                    inputs,
                    a.get(),
                    TermPlace::Product,
                    vars,
                    lets,
                    place.product_open(),
                )?;
                self.put_second(
                    alloc,
                    sizes,
                    inputs,
                    Kind::Star,
                    b"*",
                    e.get(),
                    TermPlace::Factor,
                    vars,
                    lets,
                    place.product_open(),
                )
            }
            Term::Concat(a, e) => {
                self.put_call_head(Kind::Concat, b"concat")?;
                self.put_first(
                    alloc,
                    sizes,
                    inputs,
                    a.get(),
                    TermPlace::Whole,
                    vars,
                    lets,
                    false,
                )?;
                self.put_second(
                    alloc,
                    sizes,
                    inputs,
                    Kind::Comma,
                    b",",
                    e.get(),
                    TermPlace::Whole,
                    vars,
                    lets,
                    true,
                )
            }
            Term::Flatten(e) => {
                self.put_call_head(Kind::Flatten, b"flatten")?;
                self.put_body(alloc, sizes, inputs, e.get(), vars, lets, true)
            }
            Term::Split(tile, e) => {
                self.put_split_head(*tile)?;
                self.put_body(alloc, sizes, inputs, e.get(), vars, lets, true)
            }
            Term::Transpose(e) => {
                self.put_call_head(Kind::Transpose, b"transpose")?;
                self.put_body(alloc, sizes, inputs, e.get(), vars, lets, true)
            }
            Term::TruncL(amount, e) => {
                self.put_trim_head(alloc, sizes, Kind::TruncL, b"truncl", amount)?;
                self.put_body(alloc, sizes, inputs, e.get(), vars, lets, true)
            }
            Term::TruncR(amount, e) => {
                self.put_trim_head(alloc, sizes, Kind::TruncR, b"truncr", amount)?;
                self.put_body(alloc, sizes, inputs, e.get(), vars, lets, true)
            }
            Term::PadL(amount, e) => {
                self.put_trim_head(alloc, sizes, Kind::PadL, b"padl", amount)?;
                self.put_body(alloc, sizes, inputs, e.get(), vars, lets, true)
            }
            Term::PadR(amount, e) => {
                self.put_trim_head(alloc, sizes, Kind::PadR, b"padr", amount)?;
                self.put_body(alloc, sizes, inputs, e.get(), vars, lets, true)
            }
        }
    }
}
