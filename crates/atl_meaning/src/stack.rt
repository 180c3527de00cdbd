//! What is in scope, from the innermost.

ghost use Rattle.std.specs.Prelude.{◌≡◌, ◌∷◌, [], reverse, slice_get, OnOk};
ghost use Rattle.std.specs.Option.{option_copied};
ghost use Rattle.atl_meaning.specs.Lists.{rest_of};

use std::alloc::{AllocError, Global};
use std::marker::Model;

/// A stack, which contracts see as the list of its items from the innermost, which was put last.
#[derive(Drop)]
pub struct Stack<T> {
    items: Vec<T>,
}

impl<T> Model for Stack<T> {
    ghost use Rattle.std.specs.Prelude.{List, reverse};
    ghost use Rattle.std.specs.Coded.{coded_list};

    ghost Value = { List T };

    ghost coded = { coded_list T.code };

    ghost view = { λ s. reverse s.items.items };
}

impl<T: Drop> Stack<T> {
    /// These items, the innermost first.
    pub fn of(items: Vec<T>) -> Stack<T>
        ensures { result ≡ items.items }
    {
        let mut items = items;
        items.reverse();
        Stack { items }
    }

    /// One more item, the innermost.
    pub fn enter(&mut self, item: T) -> Result<(), AllocError>
        ensures { OnOk result (self.new ≡ item ∷ self.old) }
    {
        self.items.push(item)?;
        Ok(())
    }

    /// Without the innermost item.
    pub fn leave(&mut self)
        ensures { self.new ≡ rest_of self.old }
    {
        let _ = self.items.pop();
    }

    /// The item of a number, counted from the innermost.
    pub fn get(&self, number: u32) -> Option<&T>
        ensures { option_copied result ≡ slice_get self.now number }
    {
        let number = number as usize;
        let count = self.items.len();
        if number < count {
            self.items.get(count - 1 - number)
        } else {
            None
        }
    }
}
