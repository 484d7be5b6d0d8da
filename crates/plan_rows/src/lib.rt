//! The worked rows of reading, planning and the wire, as tests of the crates below.
//!
//! A crate with tests is proved twice, so these stand here, over many crates at once. Without its tests this
//! crate is empty.
#![tactic(auto)]

#[cfg(test)]
mod blocks;
#[cfg(test)]
mod clocks;
#[cfg(test)]
mod commands;
#[cfg(test)]
mod configs;
#[cfg(test)]
mod dictionaries;
#[cfg(test)]
mod drives;
#[cfg(test)]
mod integers;
#[cfg(test)]
mod lines;
#[cfg(test)]
mod loads;
#[cfg(test)]
mod machines;
#[cfg(test)]
mod modes;
#[cfg(test)]
mod parts;
#[cfg(test)]
mod programs;
#[cfg(test)]
mod scene_lines;
#[cfg(test)]
mod scenes;
#[cfg(test)]
mod speeds;
#[cfg(test)]
mod steps;
#[cfg(test)]
mod texts;
