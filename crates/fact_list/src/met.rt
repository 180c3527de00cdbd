//! The atoms that were met, each found by halving.

ghost use Rattle.std.specs.Prelude.{◌≡◌, ◌++◌, ◌∷◌, [], IfOk};
ghost use Rattle.fact_list.specs.Atoms.{stands_in};

use crate::refusal::CertRefusal;
use crate::role::Fact;
use crate::search::{begins, place};
use affine_index::Atom;
use affine_index::raw::copy_atom;
use sqlite_items::Items;
use std::alloc::Global;
use std::marker::Model;

/// Atoms in the order in which they were met.
#[derive(Drop)]
pub struct MetAtoms {
    met: Items<Atom>,
    sorted: Vec<Atom>,
}

impl Model for MetAtoms {
    ghost use Rattle.std.specs.Prelude.{List};
    ghost use Rattle.affine_index.specs.declared.form.Atom.{Atom};
    ghost use Rattle.affine_index.specs.contracts.form.Items as e;
    ghost use Rattle.affine_index.specs.contracts.form.Atom as f;
    ghost use Rattle.fact_list.specs.Sorted.{Known};
    ghost use Rattle.std.specs.Coded.{codes};

    ghost Value = { List Atom };

    ghost coded = { Prim.hlevel (codes, e.the_row.coded, f.the_row.coded) };

    ghost view = { λ a. a.met };

    ghost invariant = { λ a. Known a.met a.sorted.items };
}

impl MetAtoms {
    pub fn new(alloc: Global) -> MetAtoms
        ensures { result ≡ [] }
    {
        MetAtoms {
            met: Items::new(alloc),
            sorted: Vec::new(alloc),
        }
    }

    /// Whether an atom was met. Takes as many comparisons as the number of atoms has digits.
    pub fn contains(&self, atom: &Atom) -> bool
        ensures { result ≡ stands_in atom.now self.now }
    {
        let list = self.sorted.as_slice();
        let at = place(atom, list);
        begins(atom, &list[at..])
    }

    /// These atoms and one more.
    pub fn with(self, alloc: Global, atom: &Atom) -> Result<MetAtoms, CertRefusal>
        ensures { IfOk result (λ more. more ≡ self ++ atom.now ∷ []) }
    {
        let MetAtoms {
            mut met,
            mut sorted,
        } = self;
        let at = place(atom, sorted.as_slice());
        met.push(copy_atom(alloc, atom)?)?;
        match sorted.insert(at, copy_atom(alloc, atom)?) {
            Ok(_) => Ok(MetAtoms { met, sorted }),
            Err(_) => Err(CertRefusal::Memory),
        }
    }
}

/// The atoms met so far, and the facts that they added.
#[derive(Drop)]
pub struct Met {
    pub atoms: MetAtoms,
    pub facts: Items<Fact>,
}
