//! Worked rows of the motion machine, of texts in pieces.
#![tactic(auto)]

#[cfg(test)]
mod helpers;
#[cfg(test)]
mod long;
#[cfg(test)]
mod machines;
#[cfg(test)]
mod pieces;
#[cfg(test)]
mod reactor;
#[cfg(test)]
mod said;
#[cfg(test)]
mod script;
#[cfg(test)]
mod uptake;
