//! The machine that the rows of G-code run on.

ghost use Rattle.std.specs.Prelude.{IfOk};
ghost use Rattle.plan_types.specs.Machines.{IsValidMachine};

use crate::configs::changed;
use cfg_text::read_config;
use plan_types::Machine;
use std::alloc::{AllocError, Global};

const HOMED: &str = "[simulation]
start_homed: True";

const NOT_HOMED: &str = "[simulation]
start_homed: False";

/// A machine of 200 mm a side with one board.
pub fn machine(alloc: Global, homed: bool) -> Result<Machine, AllocError>
    ensures valid { IfOk result (λ m. IsValidMachine m) }
{
    let line = if homed { HOMED } else { NOT_HOMED };
    let text = changed(alloc, 43, line)?;
    match read_config(alloc, text.as_bytes()) {
        Ok(machine) => Ok(machine),
        Err(_) => Err(AllocError),
    }
}
