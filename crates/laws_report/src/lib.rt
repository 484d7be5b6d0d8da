//! Laws of reports and logs: what the lines of a run show, that a report follows the plan as `check` reads
//! it, and that a text that follows a bed does.
#![tactic(auto)]

pub mod loads;
pub mod logs;
pub mod meshes;
pub mod page;
pub mod replays;
pub mod reports;
pub mod runs;
