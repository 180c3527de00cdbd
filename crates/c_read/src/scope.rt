//! What may be named.

ghost use Rattle.std.specs.Prelude.{◌≤◌, ◌^◌};

/// What may be named: numbers of sizes, buffers and loops around, and whether it is the length of a buffer.
#[derive(Clone, Copy, Debug, PartialEq, Eq)]
pub struct Names {
    pub sizes: u32,
    pub loops: u32,
    pub in_length: bool,
    /// Numbers of buffers, each at most 2^32.
    pub inputs: u64,
    pub outputs: u64,
    pub scratch: u64,
    ghost few: { (inputs ≤ 2 ^ 32) × (outputs ≤ 2 ^ 32) × (scratch ≤ 2 ^ 32) },
}
