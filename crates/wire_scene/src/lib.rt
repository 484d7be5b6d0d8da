//! Scenes: what happens to the blocks on the lines between host and boards, and when switches close.
#![tactic(auto)]

mod fault;
mod laws;
mod line;
mod marks;
mod read;
mod scene;
mod wire;
mod word;

pub use fault::SceneFault;
pub use laws::{level_comes_from_the_latest, levels_are_those_of_the_scene};
pub use read::read_scene;
pub use scene::{Deed, Entry, Scene, Switch, Way};
pub use wire::{Came, Fate, Wire, blocks_are_due, blocks_keep_order, lines_are_quiet};
