//! What is wrong with a trace.

use plan_types::TraceKind;
use std::alloc::AllocError;
use thiserror::Error;

/// Why a trace is refused.
#[derive(Debug, Clone, Copy, PartialEq, Eq, Error)]
pub enum TraceFault {
    #[error("out of memory")]
    Memory,
    /// The fault that comes first: its line from 1 on, or 0, and its kind.
    #[error("line {line}: {kind:?}")]
    At { line: u64, kind: TraceKind },
}

impl From<AllocError> for TraceFault {
    ghost use Rattle.std.specs.Prelude.{◌≡◌};
    ghost use Rattle.frame_dump.specs.declared.fault.TraceFault.TheVariants.{Memory};

    ghost from_gives = { λ _ fault. fault ≡ Memory };

    fn from(_error: AllocError) -> Self {
        TraceFault::Memory
    }
}
