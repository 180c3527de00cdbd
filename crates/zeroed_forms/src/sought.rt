//! The atom that is looked for.

use affine_index::Atom;

/// An atom that stands still while another one is gone through.
#[derive(Drop)]
pub struct Sought<'a> {
    pub atom: &'a Atom,
}
