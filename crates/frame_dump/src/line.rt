//! The lines of a dump.

use msg_code::{Cmd, CodeFault};

/// A line of a dump.
#[derive(Drop)]
pub enum DumpLine {
    /// A byte `7E` where a block would begin.
    Skip { turn: u64 },
    /// Bytes that are no block, and how many they are.
    Bad { turn: u64, bytes: u64 },
    /// A block with its number, and whether a board takes it.
    Block { turn: u64, number: u8, taken: bool },
    /// A command of the block above.
    Command { command: Cmd },
    /// What is left of the block's content where no command can be read: how many bytes, and why.
    Rest { bytes: u64, kind: CodeFault },
    /// How many bytes wait undecided in the end.
    Open { bytes: u64 },
}
