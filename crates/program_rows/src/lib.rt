//! The worked rows of the whole program, as tests of its top call over files and an output in memory.
//!
//! A crate with tests is proved twice, so these stand here. Without its tests this crate is empty.
#![tactic(auto)]

#[cfg(test)]
mod beds;
#[cfg(test)]
mod checks;
#[cfg(test)]
mod fans;
#[cfg(test)]
mod faults;
#[cfg(test)]
mod files;
#[cfg(test)]
mod line;
#[cfg(test)]
mod lost;
#[cfg(test)]
mod printed;
#[cfg(test)]
mod rows;
#[cfg(test)]
mod scenes;
#[cfg(test)]
mod shown;
#[cfg(test)]
mod threads;
