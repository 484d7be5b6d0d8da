//! The reading of a whole text.

ghost use Rattle.std.specs.Prelude.{◌≡◌, ◌++◌, ◌≤◌, IfOk};
ghost use Rattle.gcode_state.specs.States.{one_if};
ghost use Rattle.plan_types.specs.Machines.{IsValidMachine};
ghost use Rattle.gcode_program.specs.Readings as specs;
ghost use Rattle.gcode_program.specs.Cuts.{closed};
ghost use Rattle.gcode_program.specs.Held.{ArePlannable};
ghost use Rattle.gcode_program.specs.Programs.{program_sections, program_end};

use crate::cut::{Cut, OutOfMemory, close, new_cut, take};
use crate::step::{Place, step_line};
use gcode_state::{Action, Modes};
use plan_types::{Listed, Machine, ReadEnd, ReadStop, Section};
use std::alloc::Global;
use text_core::first_line;

/// A text of G-code that was read: its sections, and how far it was read.
#[derive(Drop)]
pub struct Program {
    pub sections: Listed<Section>,
    pub end: ReadEnd,
}

/// Reads a text of G-code to its sections, up to the first line that is refused or asks for a stop. Each
/// homed axis is a section of its own.
#[tactic(auto, unfolding(crate::specs::Programs::outcome_of))]
pub fn read_program(alloc: Global, machine: &Machine, text: &[u8]) -> Result<Program, OutOfMemory>
    requires { IsValidMachine machine.now }
    ensures sections { IfOk result (λ program. program.sections ≡ program_sections machine.now text.now) }
    ensures end { IfOk result (λ program. program.end ≡ program_end machine.now text.now) }
    ensures plannable { IfOk result (λ program. ArePlannable program.sections) }
{
    let mut modes = Modes::new(machine);
    let mut cut = new_cut(alloc);
    let size = text.len();
    let mut start = 0;
    let mut rest = text;
    let mut lines = 0;
    let mut passed = 0;
    while !rest.is_empty() {
        let (line, others) = first_line(rest);
        let number = lines + 1;
        let before = *modes.state();
        let step = match step_line(
            &mut modes,
            line,
            Place {
                number,
                start,
                size,
            },
        ) {
            Ok(step) => step,
            Err(kind) => {
                let stop = ReadStop::Refused { line: number, kind };
                return finish(
                    alloc,
                    cut,
                    ReadEnd {
                        lines,
                        passed,
                        stop,
                    },
                );
            }
        };
        take(alloc, machine, &mut cut, &before, step.action)?;
        lines = number;
        passed += one_if(step.passed);
        if is_stop(&step.action) {
            let stop = ReadStop::Stop(number);
            return finish(
                alloc,
                cut,
                ReadEnd {
                    lines,
                    passed,
                    stop,
                },
            );
        }
        start += line.len() + 1;
        rest = others;
    }
    finish(
        alloc,
        cut,
        ReadEnd {
            lines,
            passed,
            stop: ReadStop::End,
        },
    )
}

pub(crate) fn one_if(passed: bool) -> u64
    ensures value { result ≡ one_if passed }
    ensures small { result ≤ 1 }
{
    if passed { 1 } else { 0 }
}

fn is_stop(action: &Action) -> bool
    ensures { result ≡ specs.is_stop action.now }
{
    match action {
        Action::Stop => true,
        _ => false,
    }
}

/// Ends the open section.
fn finish(alloc: Global, cut: Cut, end: ReadEnd) -> Result<Program, OutOfMemory>
    ensures sections { IfOk result (λ program. program.sections ≡ cut.sections ++ closed cut.dwell cut.moves) }
    ensures end { IfOk result (λ program. program.end ≡ end) }
{
    let mut cut = cut;
    close(alloc, &mut cut)?;
    Ok(Program {
        sections: cut.sections,
        end,
    })
}
