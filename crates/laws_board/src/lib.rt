//! Laws of a board with its link, the reactor and the planner, turn by turn: clocks and connecting, what the
//! planner puts, what the board does with the units of its sections, and why a run ends for it.
#![tactic(auto)]

pub mod boards;
pub mod causes;
pub mod clocks;
pub mod dictionaries;
pub mod groups;
pub mod halts;
pub mod orders;
pub mod plans;
pub mod sections;
