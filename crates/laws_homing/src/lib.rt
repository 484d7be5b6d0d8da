//! Laws of homing sections: what a board's triggers, its steppers and the group of its section do, turn by turn.
#![tactic(auto)]

pub mod clear_boards;
pub mod clear_groups;
pub mod fired_runs;
pub mod hindered;
pub mod home_parts;
pub mod home_plans;
pub mod home_runs;
pub mod missed_groups;
pub mod missed_runs;
pub mod switch_runs;
