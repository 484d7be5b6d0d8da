//! What is wrong with a scene.

use plan_types::SceneKind;
use std::alloc::AllocError;
use thiserror::Error;

/// Why a scene is refused.
#[derive(Debug, Drop, Error)]
pub enum SceneFault {
    #[error("out of memory")]
    Memory(#[from(alloc)] AllocError),
    /// The fault that comes first: its line from 1 on, or 0, and its kind.
    #[error("line {line}: {kind:?}")]
    At { line: u64, kind: SceneKind },
}
