//! Lanes: bounded queues of numbered messages, from one side that puts to one side that takes.
//!
//! The two sides may be threads. Each holds a pass, which has no bytes and shows the list of what went through it.
//! In every schedule what was taken is a prefix of what was put: in order, each message once.
#![tactic(auto)]

mod calls;
mod ends;
mod passes;
mod rule;

pub use calls::lane;
pub use ends::Lane;
pub use passes::{SendPass, Settled, TakePass};

#[cfg(test)]
mod tests;
