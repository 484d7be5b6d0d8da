//! Why a line is not read.

use thiserror::Error;

/// What is wrong with a line.
#[derive(Clone, Copy, Debug, PartialEq, Eq, Drop, Error)]
pub enum FaultKind {
    /// A letter without a readable number, or a number at which a point or a sign follows.
    #[error("a letter has no readable number")]
    BadNumber,
    /// A byte that is no letter, where a word begins.
    #[error("a word does not begin with a letter")]
    BadLetter,
    /// More than 1,024 bytes without the end.
    #[error("the line is longer than 1,024 bytes")]
    TooLongLine,
    /// G2, G3, G10, G11 or G20.
    #[error("the command is not supported")]
    Unsupported,
    /// The line holds a byte past the greatest size of a file. The reader of the file finds it.
    #[error("the file is larger than 1,073,741,824 bytes")]
    TooLarge,
}

/// A line that is not read, and why.
#[derive(Clone, Copy, Debug, PartialEq, Eq, Drop, Error)]
#[error("line {line}: {kind}")]
pub struct LineFault {
    /// The line's number, from 1.
    pub line: u64,
    pub kind: FaultKind,
}
