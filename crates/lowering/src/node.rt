//! Where a node stands, and what it is stored in.

use affine_index::Aff;
use final_rules::Spot;
use loop_lang::Buf;
use sqlite_items::Items;

/// The buffer that a term is stored in: the extents of its tensor, and where its words begin.
#[derive(Drop)]
pub struct Target {
    pub buffer: Buf,
    pub extents: Items<Aff>,
    pub offset: Aff,
}

/// Where scratch is free: so many words behind an offset. The sum is not taken before it is printed.
#[derive(Drop)]
pub struct Room {
    pub base: Aff,
    pub above: Aff,
}

/// Whether the leaves of a node add, what stands around it within its buffer, and the marked gens inside, by the numbers of the children on the way.
#[derive(Drop)]
pub struct Node {
    pub adds: bool,
    pub spot: Spot,
    pub marks: Items<Items<u32>>,
}

/// The definition of a let: what it is stored in, and where scratch is free in both parts.
#[derive(Drop)]
pub struct Definition {
    pub target: Target,
    pub room: Room,
}
