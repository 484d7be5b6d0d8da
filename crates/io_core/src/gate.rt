//! A gate that the workers pass.

/// A worker of the host.
#[derive(Debug, Clone, Copy, PartialEq, Eq)]
pub enum Who {
    Motion,
    /// The link worker of a board.
    Link(u8),
    Reactor,
}

/// Where a worker may be held at the beginning of a turn. Nothing is known of what a gate does but that it lets the
/// worker pass where it returns.
pub trait Gate {
    /// Lets a worker into a turn.
    fn pass(&self, who: Who, turn: u64);
}

/// A gate that never holds anyone.
#[derive(Debug, Clone, Copy, PartialEq, Eq)]
pub struct FreeGate;

impl Gate for FreeGate {
    fn pass(&self, _who: Who, _turn: u64) {}
}
