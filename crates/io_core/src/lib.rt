//! What the program reaches outside itself: files, an output, and a gate that its workers pass. Each has
//! forms in memory.
#![tactic(auto)]

mod gate;
mod memory;
mod stored;
mod sure;
mod traits;

pub use gate::{FreeGate, Gate, Who};
pub use memory::{MemFiles, MemSink};
pub use stored::MemFile;
pub use sure::{SureFiles, SureSink};
pub use traits::{Failed, Files, Sink};
