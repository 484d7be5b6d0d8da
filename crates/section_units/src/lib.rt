//! The units of a section on one board: planned steps packed, in the order in which they begin, and spread over the
//! turns before they are due.
//!
//! Ticks are those of the board, turns are milliseconds of the session.
#![tactic(auto)]

mod laws;

pub use laws::{
    fronts_can_be_completed, packed_pieces_make_sections, packed_triples_make_sections,
    sections_have_fronts, units_are_late_one_by_one,
};
