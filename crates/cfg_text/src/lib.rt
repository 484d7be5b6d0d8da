//! The reading of a printer's configuration, in Klipper's form, to a machine.
//!
//! The faults come in this order: a file that is too large; line by line, what is wrong with a line by itself; line by
//! line, what is wrong with pins and boards; what is missing; axes that are too short. `docs/FORMATS.md` has the table
//! of options.
#![tactic(auto)]

ghost use Rattle.std.specs.Prelude.{IfOk};
ghost use Rattle.plan_types.specs.Machines.{IsValidMachine};
ghost use Rattle.cfg_lines.specs.Faults.{AnswersConfiguration};
ghost use Rattle.cfg_text.specs.Reading.{machine_of_text};

mod build;
mod holding;
mod missing;
mod seat;
mod wiring;

use build::build;
pub use cfg_lines::fault::CfgFault;
use cfg_lines::first_pass::first_pass;
use plan_types::{CfgKind, Machine};
use std::alloc::Global;

/// The most bytes that a configuration has.
const LIMIT: usize = 1_048_576;

/// Reads a configuration: the machine, or the fault that comes first.
#[tactic(auto, unfolding(crate::specs::Reading::machine_of_text))]
pub fn read_config(alloc: Global, text: &[u8]) -> Result<Machine, CfgFault>
    ensures reading { AnswersConfiguration result (machine_of_text text.now) }
    ensures valid { IfOk result (λ machine. IsValidMachine machine) }
{
    if text.len() > LIMIT {
        return Err(CfgFault::At {
            line: 0,
            kind: CfgKind::TooLarge,
        });
    }
    let pass = first_pass(alloc, text)?;
    build(alloc, &pass)
}
