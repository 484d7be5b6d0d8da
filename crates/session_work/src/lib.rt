//! The workers of a run, each at its own lanes: the motion worker, a link's worker and the reactor, turn by turn.
//!
//! What the machines compute is not known here: they are traits, whose ghost relations say what a turn may give.
#![tactic(auto)]

mod ends;
mod hands;
mod head;
mod late;
mod link;
mod machines;
mod messages;
mod motion;
mod reactor;
mod rows;
mod runtime;
mod seat;
mod table;

pub use ends::Lanes;
pub use hands::{Hand, HandsTurn, hands_turn};
pub use head::{Found, Head};
pub use late::{Late, Row};
pub use link::{LinkDone, link_turn, link_worker};
pub use machines::{LinkMachine, MotionMachine, Ordered, Outside, ReactorMachine};
pub use messages::{Ask, Bare, Batch, Control, Note, Piece, State, WordMsg};
pub use motion::{MotionDone, flush, hear, keep, motion_turn, motion_worker};
pub use reactor::{ReactorDone, order_here, put_piece, reactor_turn, reactor_worker};
pub use rows::put_bare;
pub use runtime::{Runtime, stay};
pub use seat::Seat;
pub use table::{LinkTurn, MotionTurn, ReactorTurn};
