//! Laws of whole runs, in whatever threads they went: how runs end, what their lines show, and which go through.
#![tactic(auto)]

pub mod clear_homes;
pub mod clear_runs;
pub mod clock_ages;
pub mod hindered_runs;
pub mod home_headline;
pub mod home_wholes;
pub mod lanes;
pub mod missed_switches;
pub mod run_causes;
pub mod run_clocks;
pub mod run_ends;
pub mod run_headline;
pub mod run_lates;
pub mod run_limits;
pub mod run_lines;
pub mod run_links;
pub mod run_turns;
