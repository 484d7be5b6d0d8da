//! A whole run in threads: the motion worker, a link worker for each board and the reactor, over lanes.
//!
//! What the machines compute is not known here: they are traits, whose ghost relations say what a turn may give. The
//! run is proved once, for all of them, and it is the same on one thread and on many.
#![tactic(auto)]

mod alone;
mod close;
mod home;
mod lanes;
mod levels;
mod near;
mod promise;
mod settle;
mod whole;

pub use near::{LinkLog, Machines, Ran, Told};
pub use whole::{run, run_alone, run_back};
