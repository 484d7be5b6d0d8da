//! The top call: a command from its words to the end of its report.
#![tactic(auto)]

mod adapter;
mod answer;
mod check;
mod ended;
mod fan;
mod load;
mod mesh;
mod report;
mod run;
mod scene;
mod source;
mod status;
mod top;
mod traffic;

pub use adapter::{RealFiles, RealOutput};
pub use session_run::{Ended, LinkLog, Report};
pub use status::exit_status;
pub use top::host_main;
