//! Pacing: in which turn each unit of a board's steps is sent, so that it comes before it is due, the bytes of a turn
//! are bounded, and no step queue runs over.
#![tactic(auto)]

mod bytes;
mod laws;
mod ring;
mod stream;
mod whole;

pub use bytes::unit_bytes;
pub use laws::{counts_what_is_sent, lines_may_be_added, one_pacing, streams_give_the_whole};
pub use std::alloc::AllocError as OutOfMemory;
pub use stream::{FeedStream, LEAD, TURN_BYTES};
pub use whole::{Batches, feed, spill};
