//! What is wrong with a table.

use plan_types::MeshKind;
use std::alloc::AllocError;
use thiserror::Error;

/// Why a table is refused.
#[derive(Debug, Clone, Copy, PartialEq, Eq, Error)]
pub enum MeshFault {
    #[error("out of memory")]
    Memory,
    /// The fault that comes first: its line from 1 on, or 0, and its kind.
    #[error("line {line}: {kind:?}")]
    At { line: u64, kind: MeshKind },
}

impl From<AllocError> for MeshFault {
    ghost use Rattle.std.specs.Prelude.{◌≡◌};
    ghost use Rattle.bed_mesh.specs.declared.fault.MeshFault.TheVariants.{Memory};

    ghost from_gives = { λ _ fault. fault ≡ Memory };

    fn from(_error: AllocError) -> Self {
        MeshFault::Memory
    }
}
