//! The worked rows of packing, pacing, links and boards, and of links turn by turn, as tests of the crates below.
//!
//! A crate with tests is proved twice, so these stand here, over many crates at once. Without its tests this
//! crate is empty.
#![tactic(auto)]

#[cfg(test)]
mod board_turns;
#[cfg(test)]
mod bytes;
#[cfg(test)]
mod ends;
#[cfg(test)]
mod groups;
#[cfg(test)]
mod hex;
#[cfg(test)]
mod links;
#[cfg(test)]
mod moves;
#[cfg(test)]
mod outputs;
#[cfg(test)]
mod pacing;
#[cfg(test)]
mod packing;
#[cfg(test)]
mod queues;
#[cfg(test)]
mod relays;
#[cfg(test)]
mod scenes;
#[cfg(test)]
mod triggers;
#[cfg(test)]
mod worlds;
