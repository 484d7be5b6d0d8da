//! The lines of a printer's configuration, in Klipper's form: what each says where it stands, and the first
//! that is wrong.
#![tactic(auto)]

pub mod fault;
pub mod first_pass;
pub mod item;
pub mod line;
pub mod section;
pub mod table;
pub mod value;
