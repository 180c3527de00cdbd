//! Forms on the way to a result, whose numbers may be larger than those of a form within the limits.

ghost use Rattle.std.specs.Prelude.{◌≡◌, ◌<◌, [], ◌∷◌, ◌++◌, length, IfOk, OnOk, MatchOption, slice_index_or};
ghost use Rattle.std.specs.Option.{option_copied};
ghost use Rattle.affine_index.specs.Wide.{first_of};

use crate::form::Atom;
use std::alloc::{AllocError, Global};
use std::collections::VecDeque;
use std::marker::Model;

/// An item with a coefficient of any size below 2^127.
#[derive(Drop)]
pub struct WideItem {
    atom: Atom,
    coefficient: i128,
}

impl Model for WideItem {
    ghost use Rattle.affine_index.specs.declared.form.Atom.{Atom};
    ghost use Rattle.affine_index.specs.declared.form.Item.{Item};
    ghost use Rattle.affine_index.specs.contracts.form.Items as e;
    ghost use Rattle.affine_index.specs.contracts.form.Atom as f;
    ghost use Rattle.std.specs.Coded.{codes};

    ghost Value = { Item Atom };

    ghost coded = { Prim.hlevel (codes, e.the_row.coded, f.the_row.coded) };

    ghost view = { λ w. record { atom = w.atom; coefficient = w.coefficient } };
}

impl WideItem {
    pub fn new(atom: Atom, coefficient: i128) -> WideItem
        ensures { result ≡ record { atom = atom; coefficient = coefficient } }
    {
        WideItem { atom, coefficient }
    }

    pub fn atom(&self) -> &Atom
        ensures { result.now ≡ self.now.atom }
    {
        &self.atom
    }

    pub fn coefficient(&self) -> i128
        ensures { result ≡ self.now.coefficient }
    {
        self.coefficient
    }

    pub fn into_atom(self) -> Atom
        ensures { result ≡ self.atom }
    {
        let WideItem { atom, .. } = self;
        atom
    }
}

/// A list of items, taken from the front and added to at the end.
#[derive(Drop)]
pub struct WideTerms {
    queue: VecDeque<WideItem>,
}

impl Model for WideTerms {
    ghost use Rattle.std.specs.Prelude.{List};
    ghost use Rattle.affine_index.specs.declared.form.Atom.{Atom};
    ghost use Rattle.affine_index.specs.declared.form.Item.{Item};
    ghost use Rattle.affine_index.specs.contracts.form.Items as e;
    ghost use Rattle.affine_index.specs.contracts.form.Atom as f;
    ghost use Rattle.std.specs.Coded.{codes};

    ghost Value = { List (Item Atom) };

    ghost coded = { Prim.hlevel (codes, e.the_row.coded, f.the_row.coded) };

    ghost view = { λ w. w.queue.items };
}

impl WideTerms {
    pub fn new(alloc: Global) -> WideTerms
        ensures { result ≡ [] }
    {
        WideTerms {
            queue: VecDeque::new(alloc),
        }
    }

    pub fn len(&self) -> usize
        ensures { result ≡ length self.now }
    {
        self.queue.len()
    }

    pub fn get(&self, at: usize) -> &WideItem
        requires { at < length self.now }
        ensures { result.now ≡ slice_index_or self.now at result.now }
    {
        &self.queue[at]
    }

    pub fn first(&self) -> Option<&WideItem>
        ensures { option_copied result ≡ first_of self.now }
    {
        self.queue.front()
    }

    pub fn push(&mut self, item: WideItem) -> Result<(), AllocError>
        ensures { OnOk result (self.new ≡ self.old ++ item ∷ []) }
    {
        self.queue.push_back(item)?;
        Ok(())
    }

    pub fn take_first(&mut self) -> Option<WideItem>
        ensures { MatchOption result ((self.old ≡ []) × (self.new ≡ [])) (λ item. self.old ≡ item ∷ self.new) }
    {
        self.queue.pop_front()
    }

    /// Moves the items of `more` to the end.
    pub fn append(&mut self, more: WideTerms) -> Result<(), AllocError>
        ensures { OnOk result (self.new ≡ self.old ++ more) }
    {
        let WideTerms { mut queue } = more;
        self.queue.append(&mut queue)
    }
}

/// A form with numbers of any size below 2^127.
#[derive(Drop)]
pub struct Wide {
    terms: WideTerms,
    constant: i128,
}

impl Model for Wide {
    ghost use Rattle.affine_index.specs.declared.form.Items.{Items};
    ghost use Rattle.affine_index.specs.contracts.form.Items as e;
    ghost use Rattle.affine_index.specs.contracts.form.Atom as f;
    ghost use Rattle.std.specs.Coded.{codes};

    ghost Value = { Items };

    ghost coded = { Prim.hlevel (codes, e.the_row.coded, f.the_row.coded) };

    ghost view = { λ w. record { terms = w.terms; constant = w.constant } };
}

impl Wide {
    pub fn new(terms: WideTerms, constant: i128) -> Wide
        ensures { result ≡ record { terms = terms; constant = constant } }
    {
        Wide { terms, constant }
    }

    pub fn terms(&self) -> &WideTerms
        ensures { result.now ≡ self.now.terms }
    {
        &self.terms
    }

    pub fn constant(&self) -> i128
        ensures { result ≡ self.now.constant }
    {
        self.constant
    }

    pub fn into_terms(self) -> WideTerms
        ensures { result ≡ self.terms }
    {
        let Wide { terms, .. } = self;
        terms
    }
}
