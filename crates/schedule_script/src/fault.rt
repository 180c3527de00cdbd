//! Why a script could not be read.

/// The first fault of a script.
#[derive(Clone, Copy, Debug, PartialEq, Eq)]
pub enum ScriptFault {
    /// So many bytes stand before the first word with which no script goes on.
    ScriptSyntax { at: u64 },
    Memory,
}
