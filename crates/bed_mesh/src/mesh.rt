//! A measured bed.

use plan_types::Listed;

/// The lines of a mesh across one axis.
#[derive(Debug, Clone, Copy, PartialEq, Eq)]
pub struct Grid {
    /// The coordinate of the first line, in nm.
    pub from: i64,
    /// The distance from one line to the next, in nm.
    pub step: u64,
    /// How many lines there are.
    pub count: u64,
}

/// The heights of a bed where the lines of two grids meet, in nm: the rows by rising y, each by rising x.
#[derive(Drop)]
pub struct Mesh {
    pub x: Grid,
    pub y: Grid,
    pub heights: Listed<i64>,
}
