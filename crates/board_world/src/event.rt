//! What may happen on a link.

use msg_code::{Batch, Control};

/// An event of a board and its link. One that has nothing to act on changes nothing.
#[derive(Drop)]
pub enum Event {
    /// The commands of units are queued.
    Put(Batch),
    /// Control commands are queued.
    Control(Control),
    /// The next new block is put on the line, where fewer than 12 are outstanding and a command waits.
    Send,
    /// All outstanding blocks are put on the line again.
    Resend,
    /// The oldest block under way arrives at the board.
    Arrive,
    /// The oldest block under way is lost.
    Lose,
    /// The oldest block under way comes to the board changed, and leaves the line: what comes is no block, as
    /// `block_frame::spoils` tells.
    Garble,
    /// The oldest block under way arrives at the board, and a copy of it stays under way.
    Repeat,
    /// The oldest block from the board comes to the host, and a copy of it stays under way.
    Reply,
    /// The oldest block from the board leaves the line.
    LoseReply,
    /// The board runs to this tick, where it isn't before the board's own.
    Pass(u64),
}
