//! What the bytes before a place say of those behind it.

/// What stands before on the line.
#[derive(Clone, Copy, Debug, PartialEq, Eq)]
pub enum Margin {
    /// Nothing but spaces and tabs.
    Indented,
    /// Nothing but white space.
    Blank,
    /// Something else.
    Taken,
}

/// What the bytes at the front are part of.
#[derive(Clone, Copy, Debug, PartialEq, Eq)]
pub enum State {
    /// Of no comment.
    Code(Margin),
    /// Of the rest of the line that includes, where no word may stand.
    Including,
    /// Of a comment to the end of the line.
    LineComment,
    /// Of a comment that ends at `*/`; whether it stands in the line that includes.
    Comment(bool),
}
