//! A run: the planner, a link for each board and the reactor, over a file and an output.
#![tactic(auto)]

mod desk;
mod ended;
mod file;
mod link;
mod motion;
mod reactor;
mod read;
mod report;
mod tell;

pub use desk::{Desk, Job, run_with};
pub use ended::{Ended, Report, status_of};
pub use file::run_file;
pub use link::BoardLink;
pub use motion::Planning;
pub use reactor::Host;
pub use read::{PIECE, ReadStop, read_piece};
pub use report::{run, with_failure};
pub use session_lanes::LinkLog;
pub use session_work::Runtime;
pub use tell::{Kept, tell_lines};
