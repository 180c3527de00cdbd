//! Why a C text was not read.

/// Why a C text was not read.
#[derive(Clone, Copy, Debug, PartialEq, Eq)]
pub enum CFault {
    /// No program is this text's; the first place that breaks a rule.
    BadC { at: u64 },
    Memory,
}
