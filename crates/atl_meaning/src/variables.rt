//! The values of index variables.

ghost use Rattle.std.specs.Prelude.{◌≡◌, ◌≤◌, ◌∷◌, ◌++◌, [], ℕ, List, drop, length, replicate, IfOk, OnOk};
ghost use Rattle.atl_meaning.specs.Lists.{rest_of};

use std::alloc::{AllocError, Global};
use std::marker::Model;

/// How many cells are added where they are used up.
const MORE: usize = 16;

/// A number for each index variable in scope, from the innermost. The cells are used from the end, so that entering a
/// binder writes one cell and the variables in scope are a slice.
#[derive(Drop)]
pub struct Variables {
    cells: Vec<u64>,
    start: usize,
}

impl Model for Variables {
    ghost Value = { List ℕ };

    ghost view = { λ v. drop v.start v.cells.items };

    ghost invariant = { λ v. v.start ≤ length v.cells.items };
}

impl Variables {
    /// No variable.
    pub fn new(alloc: Global) -> Variables
        ensures { result ≡ [] }
    {
        Variables {
            cells: Vec::new(alloc),
            start: 0,
        }
    }

    pub fn as_slice(&self) -> &[u64]
        ensures { result.now ≡ self.now }
    {
        &self.cells[self.start..]
    }

    /// One more variable, the innermost.
    pub fn enter(&mut self, alloc: Global, value: u64) -> Result<(), AllocError>
        ensures { OnOk result (self.new ≡ value ∷ self.old) }
    {
        if self.start == 0 {
            let cells = with_room(alloc, &self.cells)?;
            self.cells = cells;
            self.start = MORE;
        }
        self.start -= 1;
        self.cells[self.start] = value;
        Ok(())
    }

    /// Without the innermost variable.
    pub fn leave(&mut self)
        ensures { self.new ≡ rest_of self.old }
    {
        if self.start < self.cells.len() {
            self.start += 1;
        }
    }
}

/// The same cells behind new ones.
fn with_room(alloc: Global, cells: &[u64]) -> Result<Vec<u64>, AllocError>
    ensures { IfOk result (λ more. more.items ≡ replicate MORE 0 ++ cells.now) }
{
    let mut more = Vec::new(alloc);
    for _ in 0..MORE {
        more.push(0)?;
    }
    more.extend_from_slice(cells)?;
    Ok(more)
}
