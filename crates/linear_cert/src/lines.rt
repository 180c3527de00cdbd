//! The lines of a certificate.

use sqlite_items::Items;

/// The number of a fact, where 0 is the negated goal, and how often it is taken.
#[derive(Drop, Clone, Copy)]
pub struct Line {
    pub fact: u32,
    pub multiplier: i64,
}

/// How a goal is shown: by the lines that the procedure finds, or by these.
#[derive(Drop)]
pub enum Lines {
    Default,
    Given(Items<Line>),
}

/// The lines of a goal of the final form; goals count from 1.
#[derive(Drop)]
pub struct FinalLine {
    pub goal: u32,
    pub lines: Lines,
}
