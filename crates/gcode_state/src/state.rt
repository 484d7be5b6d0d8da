//! What the words before left, and what a word does.

use plan_types::Move;
use thiserror::Error;

/// One of x, y, z, in nm.
#[derive(Clone, Copy, Debug, PartialEq, Eq)]
pub struct Axis {
    pub min: i64,
    pub max: i64,
    pub endstop: i64,
    pub homed: bool,
    /// Where the axis stands in the machine's own coordinates.
    pub at: i64,
    /// What its coordinate reads as in words.
    pub reads: i128,
}

/// What the words before left. Contracts see `Modes` as this.
#[derive(Clone, Copy, Debug, PartialEq, Eq)]
pub struct State {
    /// The greatest speed, in nm/s.
    pub top: u64,
    pub x: Axis,
    pub y: Axis,
    pub z: Axis,
    /// Where E stands, in nm.
    pub e_at: i64,
    /// What E reads as, in nm.
    pub e_reads: i128,
    /// Whether coordinates are relative.
    pub relative: bool,
    /// Whether E alone is relative.
    pub relative_e: bool,
    /// The speed that F set, in millionths of a millimetre a minute.
    pub feed: u64,
    /// In millionths of a percent.
    pub speed_factor: u64,
    /// In millionths of a percent.
    pub e_factor: u64,
    /// In nm/s².
    pub acceleration: u64,
    /// Moves, dwells and homed axes so far.
    pub count: u64,
    /// G0 and G1 so far.
    pub lines: u64,
}

/// What a word does.
#[derive(Clone, Copy)]
pub enum Action {
    /// Nothing moves and nothing waits.
    None,
    Move(Move),
    /// Nothing moves for so many milliseconds.
    Dwell(u64),
    /// Homes these of x, y, z.
    Home([bool; 3]),
    /// Ends the section.
    Wait,
    /// Ends the reading.
    Stop,
}

/// Why a word does not apply.
#[derive(Clone, Copy, Debug, PartialEq, Eq, Drop, Error)]
pub enum StateFault {
    #[error("a number or a target is out of its range")]
    OutOfRange,
    #[error("an axis that moves is not homed")]
    NotHomed,
    #[error("the speed is below 0.1 mm/s")]
    BadSpeed,
    #[error("E changes by more than 500 mm")]
    MoveTooLong,
    #[error("there are more than 2,000,000 moves, dwells and homed axes")]
    TooMany,
}

/// Where a word leads a coordinate, and what this reads as then.
#[derive(Clone, Copy)]
pub(crate) struct Target {
    pub at: i128,
    pub reads: i128,
}

/// Where a G0 or G1 leads.
#[derive(Clone, Copy)]
pub(crate) struct Aim {
    pub x: Target,
    pub y: Target,
    pub z: Target,
    pub e: Target,
    pub feed: u64,
}
