//! The check of a log, line by line.

ghost use Rattle.std.specs.Prelude.{◌≡◌, ℕ, ◌<◌, ◌≤◌, ◌^◌, ◌++◌, ◌∷◌, [], IfOk, IfNone, OnOk, None, length, slice_index_or};
ghost use Rattle.log_text.specs.Said.{line_said};
ghost use Rattle.log_text.specs.There.{IsThere};
ghost use Rattle.plan_types.specs.Lines.{one_line};
ghost use Rattle.plan_types.specs.Machines.{IsValidMachine, stepper_at};
ghost use Rattle.plan_types.specs.Sections.{base_tick, for_each_stepper};
ghost use Rattle.section_plan.specs.Runs.{IsPlannable};
ghost use Rattle.text_core.specs.Words.{words_of};
ghost use Rattle.log_check.specs.Behind.{told_line, with_further};
ghost use Rattle.log_check.specs.Faults as faults;
ghost use Rattle.log_check.specs.Faults.{fault_at, no_tally};
ghost use Rattle.log_check.specs.Points.{point, section_at};
ghost use Rattle.log_check.specs.Steps.{CanPlan, IsSoundPoint, Took, with_misfit, next_point, point_of, told_at, with_clock, with_line, with_made, with_section};
ghost use Rattle.log_check.specs.Verdicts.{end_cause, log_lines, log_verdict, present_fits};
ghost use Rattle.report_text.specs.declared.line.ReportLine.TheVariants as report;

use crate::fault::{fault, is_short};
use crate::fits::put_fits;
use crate::further::{Further, lines_with, read_further, told_line};
use crate::pulse::with_pulse;
use crate::stand::Stand;
use crate::tally::Tally;
use clock_line::Lines;
use log_text::{LogLine, read_line};
use plan_types::{Cause, Listed, Machine, MisfitKind, Section};
use report_text::ReportLine;
use section_plan::plan_moves;
use std::alloc::{AllocError, Global};
use text_core::next_line;

/// What begins a comment.
const COMMENT: u8 = b'#';

/// The nanoseconds of a turn.
const TURN_NS: u128 = 1_000_000;

/// What a check tells of a log: why it ended, and its lines.
#[derive(Drop)]
pub struct Checked {
    pub cause: Cause,
    pub lines: Vec<ReportLine>,
}

/// A tally of no pulses for each stepper.
fn no_tallies(alloc: Global, machine: &Machine) -> Result<Vec<Tally>, AllocError>
    ensures { IfOk result (λ tallies. tallies.items ≡ for_each_stepper machine.now (λ s. no_tally)) }
{
    let mut tallies = Vec::new(alloc);
    while tallies.len() < machine.steppers.len() {
        tallies.push(Tally {
            made: 0,
            early: 0,
            late: 0,
        })?;
    }
    Ok(tallies)
}

/// Nothing told yet, of a log with some further clock lines.
fn new_stand(alloc: Global, machine: &Machine, further: Vec<Further>) -> Result<Stand, AllocError>
    requires { IsValidMachine machine.now }
    ensures { IfOk result (λ stand. point_of stand ≡ point machine.now [] further.items []) }
{
    let tallies = no_tallies(alloc, machine)?;
    Ok(Stand {
        further,
        clocks: Vec::new(alloc),
        told: Vec::new(alloc),
        begun: 0,
        start: 0,
        end: 0,
        cut: false,
        ended: false,
        plans: Listed::new(alloc),
        bases: Vec::new(alloc),
        tallies,
    })
}

/// The tick at which a stepper's section begins.
fn base_of(machine: &Machine, clocks: &[Lines], turn: u64, s: usize) -> u64
    requires stepper { s < length machine.now.steppers }
    requires board { (stepper_at machine.now s).board < length clocks.now }
    requires small { base_tick machine.now clocks.now turn s < 2 ^ 64 }
    ensures { result ≡ base_tick machine.now clocks.now turn s }
{
    let board = machine.steppers.as_slice()[s].board;
    clocks[board as usize].tick(u128::from(turn) * TURN_NS)
}

/// The ticks at which a section begins, for each stepper.
fn bases_of(
    alloc: Global,
    machine: &Machine,
    clocks: &[Lines],
    turn: u64,
) -> Result<Vec<u64>, AllocError>
    requires boards { (s : ℕ) → s < length machine.now.steppers → (stepper_at machine.now s).board < length clocks.now }
    requires small { (s : ℕ) → s < length machine.now.steppers → base_tick machine.now clocks.now turn s < 2 ^ 64 }
    ensures { IfOk result
        (λ bases. bases.items ≡ for_each_stepper machine.now (base_tick machine.now clocks.now turn)) }
{
    let mut bases = Vec::new(alloc);
    for s in 0..machine.steppers.len() {
        bases.push(base_of(machine, clocks, turn, s))?;
    }
    Ok(bases)
}

/// Begins the next section in a turn.
fn begin(
    alloc: Global,
    machine: &Machine,
    sections: &[Section],
    stand: &mut Stand,
    turn: u64,
) -> Result<(), AllocError>
    requires inside { stand.old.begun < length sections.now }
    requires can { IsPlannable machine.now stand.old.clocks.items (section_at sections.now stand.old.begun).moves turn }
    ensures { OnOk result (point_of stand.new ≡ with_section machine.now sections.now (point_of stand.old) turn) }
{
    let moves = sections[stand.begun].moves.as_slice();
    let plan = plan_moves(alloc, machine, &stand.clocks, moves, turn)?;
    stand.bases = bases_of(alloc, machine, &stand.clocks, turn)?;
    stand.tallies = no_tallies(alloc, machine)?;
    stand.plans = plan.steps;
    stand.begun += 1;
    stand.start = turn;
    stand.end = plan.end;
    stand.cut = false;
    Ok(())
}

/// Counts a pulse of a stepper.
fn count(stand: &mut Stand, s: usize, tick: u64)
    requires there { s < length stand.old.tallies.items }
    requires few { (slice_index_or stand.old.tallies.items s no_tally).made
        ≤ length (slice_index_or stand.old.plans s []) }
    ensures { point_of stand.new ≡ with_made (point_of stand.old) s tick }
{
    let tally = stand.tallies[s];
    let plans = stand.plans.as_slice();
    let plan = if s < plans.len() {
        plans[s].as_slice()
    } else {
        &[]
    };
    stand.tallies[s] = with_pulse(plan, tally, tick);
}

/// Keeps the clock line of a board, and the further ones of the log behind it.
fn keep_clock(
    alloc: Global,
    machine: &Machine,
    stand: &mut Stand,
    board: u8,
    turn: u64,
    tick: u64,
) -> Result<(), AllocError>
    requires machine { IsValidMachine machine.now }
    requires there { board < length machine.now.boards }
    requires turn { turn < 2 ^ 62 }
    ensures { OnOk result (point_of stand.new
        ≡ with_clock (point_of stand.old)
        (with_further machine.now board stand.old.further.items (one_line (told_line machine.now board turn tick)))
        (one_line (told_line machine.now board turn tick))) }
{
    let line = told_line(machine, board, turn, tick);
    let lines = lines_with(alloc, machine, &stand.further, board, line)?;
    stand.clocks.push(lines)?;
    stand.told.push(Lines::new(alloc, line))?;
    Ok(())
}

/// Keeps a further clock line of a board that may hold.
fn keep_line(
    machine: &Machine,
    stand: &mut Stand,
    board: u8,
    turn: u64,
    tick: u64,
    from: u64,
) -> Result<(), AllocError>
    requires there { board < length machine.now.boards }
    requires inside { board < length stand.old.told.items }
    ensures { OnOk result (point_of stand.new ≡ with_line machine.now (point_of stand.old) board turn tick from) }
{
    let line = told_line(machine, board, turn, tick);
    stand.told[board as usize].add_where(u128::from(from), line)?;
    Ok(())
}

/// Goes on behind a line that fits.
fn advance(
    alloc: Global,
    machine: &Machine,
    sections: &[Section],
    stand: &mut Stand,
    line: &LogLine,
    out: &mut Vec<ReportLine>,
) -> Result<(), AllocError>
    requires machine { IsValidMachine machine.now }
    requires sections { CanPlan sections.now }
    requires sound { IsSoundPoint machine.now (point_of stand.old) }
    requires begun { stand.old.begun ≤ length sections.now }
    requires there { IsThere machine.now line.now }
    requires fits { fault_at machine.now sections.now (point_of stand.old) line.now ≡ None }
    ensures point { OnOk result (point_of stand.new
        ≡ next_point machine.now sections.now (point_of stand.old) line.now) }
    ensures told { OnOk result (out.new.items ≡ out.old.items ++ told_at (point_of stand.old) line.now) }
{
    match *line {
        LogLine::Note => {}
        LogLine::Board { board, turn, tick } => {
            keep_clock(alloc, machine, stand, board, turn, tick)?
        }
        LogLine::Line {
            board,
            turn,
            tick,
            from,
        } => keep_line(machine, stand, board, turn, tick, from)?,
        LogLine::Section { turn, .. } => {
            put_fits(out, stand)?;
            begin(alloc, machine, sections, stand, turn)?;
        }
        LogLine::Pulse { stepper, tick, .. } => count(stand, stepper as usize, tick),
        LogLine::Cut { .. } => stand.cut = true,
        LogLine::End => stand.ended = true,
    }
    Ok(())
}

/// Counts a pulse that doesn't fit.
fn count_misfit(machine: &Machine, stand: &mut Stand, line: &LogLine)
    requires sound { IsSoundPoint machine.now (point_of stand.old) }
    requires there { IsThere machine.now line.now }
    ensures { point_of stand.new ≡ with_misfit (point_of stand.old) line.now }
{
    if let LogLine::Pulse { stepper, tick, .. } = *line {
        count(stand, stepper as usize, tick);
    }
}

/// Takes a line. Answers why it doesn't fit.
fn take(
    alloc: Global,
    machine: &Machine,
    sections: &[Section],
    stand: &mut Stand,
    words: &[u8],
    out: &mut Vec<ReportLine>,
) -> Result<Option<MisfitKind>, AllocError>
    requires machine { IsValidMachine machine.now }
    requires sections { CanPlan sections.now }
    requires sound { IsSoundPoint machine.now (point_of stand.old) }
    requires begun { stand.old.begun ≤ length sections.now }
    ensures took { IfOk result (Took machine.now sections.now (point_of stand.old) (point_of stand.new) out.old.items
        out.new.items (line_said machine.now (words_of words.now))) }
    ensures sound { IfOk result (λ found. IfNone found (IsSoundPoint machine.now (point_of stand.new))) }
    ensures begun { IfOk result (λ found. stand.new.begun ≤ length sections.now) }
    ensures few { IfOk result (λ found. length stand.new.plans ≤ 16) }
{
    let line = match read_line(machine, words) {
        Ok(line) => line,
        Err(kind) => return Ok(Some(kind)),
    };
    if let Some(kind) = fault(machine, sections, stand, &line) {
        count_misfit(machine, stand, &line);
        return Ok(Some(kind));
    }
    advance(alloc, machine, sections, stand, &line, out)?;
    Ok(None)
}

/// Tells of the present section, and why the check ended.
fn close(stand: &Stand, out: Vec<ReportLine>, cause: Cause) -> Result<Checked, AllocError>
    requires { length stand.now.plans ≤ 16 }
    ensures cause { IfOk result (λ checked. checked.cause ≡ cause) }
    ensures lines { IfOk result
        (λ checked. checked.lines.items ≡ out.items ++ (present_fits (point_of stand.now) ++ report.End cause ∷ [])) }
{
    let mut lines = out;
    put_fits(&mut lines, stand)?;
    lines.push(ReportLine::End(cause))?;
    Ok(Checked { cause, lines })
}

/// Why a check ends at the end of a log whose last line has this number.
fn cause_at_end(stand: &Stand, last: u64) -> Cause
    ensures { result ≡ end_cause last (faults.is_short stand.now.cut stand.now.plans stand.now.tallies.items) }
{
    if is_short(stand) {
        Cause::Misfit {
            line: last,
            kind: MisfitKind::Missing,
        }
    } else {
        Cause::Done
    }
}

/// Checks the text of a log against the plans of some sections on a machine: whether each line fits, and for
/// each section and stepper how the pulses stand to the plan.
pub fn check_log(
    alloc: Global,
    machine: &Machine,
    sections: &[Section],
    text: &[u8],
) -> Result<Checked, AllocError>
    requires machine { IsValidMachine machine.now }
    requires sections { CanPlan sections.now }
    requires size { length text.now < 2 ^ 63 }
    ensures cause { IfOk result (λ checked. checked.cause ≡ (log_verdict machine.now sections.now text.now).cause) }
    ensures lines { IfOk result (λ checked. checked.lines.items ≡ log_lines machine.now sections.now text.now) }
{
    let further = read_further(alloc, machine, text)?;
    let mut stand = new_stand(alloc, machine, further)?;
    let mut out = Vec::new(alloc);
    let mut last = 0;
    let mut number = 1;
    let mut rest = text;
    while let Some(line) = next_line(rest, number, COMMENT) {
        if let Some(kind) = take(alloc, machine, sections, &mut stand, line.words, &mut out)? {
            let cause = Cause::Misfit {
                line: line.number,
                kind,
            };
            return close(&stand, out, cause);
        }
        last = line.number;
        number = line.number + 1;
        rest = line.rest;
    }
    close(&stand, out, cause_at_end(&stand, last))
}
