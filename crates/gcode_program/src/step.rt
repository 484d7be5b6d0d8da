//! What one line does.

ghost use Rattle.std.specs.Prelude.{◌≡◌, ◌+◌, ◌^◌, ◌<◌, ◌≤◌, length, Result, Ok, Err, IfOk, MatchResult};
ghost use Rattle.gcode_state.specs.States.{IsValidAction, weight};
ghost use Rattle.gcode_program.specs.Readings as specs;
ghost use Rattle.gcode_program.specs.Readings.{text_kind, state_kind, applied_line, line_result, is_large};

use gcode_state::{Action, Modes, StateFault};
use gcode_text::{FaultKind, Word, read_line};
use plan_types::LineKind;

/// The greatest size of a file, in bytes.
const LARGEST: usize = 1_073_741_824;

fn kind_of_text(kind: FaultKind) -> LineKind
    ensures { result ≡ text_kind kind }
{
    match kind {
        FaultKind::BadNumber => LineKind::BadNumber,
        FaultKind::BadLetter => LineKind::BadLetter,
        FaultKind::TooLongLine => LineKind::TooLongLine,
        FaultKind::Unsupported => LineKind::Unsupported,
        FaultKind::TooLarge => LineKind::TooLarge,
    }
}

fn kind_of_state(fault: StateFault) -> LineKind
    ensures { result ≡ state_kind fault }
{
    match fault {
        StateFault::OutOfRange => LineKind::OutOfRange,
        StateFault::NotHomed => LineKind::NotHomed,
        StateFault::BadSpeed => LineKind::BadSpeed,
        StateFault::MoveTooLong => LineKind::MoveTooLong,
        StateFault::TooMany => LineKind::TooMany,
    }
}

/// What a line does, and whether its command was passed over.
#[derive(Clone, Copy)]
pub struct Step {
    pub action: Action,
    pub passed: bool,
}

/// Whether a word is a command that is passed over.
fn is_passed(word: &Word) -> bool
    ensures { result ≡ specs.reads_passed (Ok word.now) }
{
    match word {
        Word::Passed => true,
        _ => false,
    }
}

/// Reads one line, and applies it.
#[tactic(auto, unfolding(crate::specs::Readings::applied_line, crate::specs::Readings::is_passed))]
fn apply_line(modes: &mut Modes, line: &[u8], number: u64) -> Result<Step, LineKind>
    requires { modes.old.lines < 2 ^ 30 }
    ensures value { MatchResult result (λ step. applied_line modes.old line.now ≡ Ok (modes.new, step.action))
        (λ kind. applied_line modes.old line.now ≡ Err kind) }
    ensures passed { IfOk result (λ step. step.passed ≡ specs.is_passed line.now) }
    ensures valid { IfOk result (λ step. IsValidAction step.action) }
    ensures lines { modes.new.lines ≤ modes.old.lines + 1 }
    ensures count { IfOk result (λ step. modes.new.count ≡ modes.old.count + weight step.action) }
    ensures few { IfOk result (λ step. modes.new.count ≤ 2000000) }
{
    match read_line(line, number) {
        Err(fault) => Err(kind_of_text(fault.kind)),
        Ok(word) => {
            let passed = is_passed(&word);
            match modes.apply(&word) {
                Err(fault) => Err(kind_of_state(fault)),
                Ok(action) => Ok(Step { action, passed }),
            }
        }
    }
}

/// Where a line stands: its number, how many bytes stand before it, and how many the text has.
#[derive(Clone, Copy)]
pub struct Place {
    pub number: u64,
    pub start: usize,
    pub size: usize,
}

/// What a line does, if it is accepted.
#[tactic(auto, unfolding(crate::specs::Readings::line_result))]
pub fn step_line(modes: &mut Modes, line: &[u8], place: Place) -> Result<Step, LineKind>
    requires inside { place.start + length line.now ≤ place.size }
    requires few { modes.old.lines ≤ place.start }
    requires some { place.start < place.size }
    ensures value { MatchResult result
        (λ step. line_result place.size place.start modes.old line.now ≡ Ok (modes.new, step.action))
        (λ kind. line_result place.size place.start modes.old line.now ≡ Err kind) }
    ensures passed { IfOk result (λ step. step.passed ≡ specs.is_passed line.now) }
    ensures valid { IfOk result (λ step. IsValidAction step.action) }
    ensures lines { IfOk result (λ step. modes.new.lines ≤ modes.old.lines + 1) }
    ensures small { IfOk result (λ step. place.start + length line.now ≤ 1073741824) }
    ensures count { IfOk result (λ step. modes.new.count ≡ modes.old.count + weight step.action) }
    ensures few { IfOk result (λ step. modes.new.count ≤ 2000000) }
{
    if place.size > LARGEST && place.start + line.len() >= LARGEST {
        return Err(LineKind::TooLarge);
    }
    apply_line(modes, line, place.number)
}
