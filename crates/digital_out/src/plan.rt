//! When the part fan of a text is switched.

ghost use Rattle.std.specs.Prelude.{◌≡◌, ◌<◌, ◌≤◌, ◌+◌, ◌*◌, ◌-◌, ◌^◌, false, All, IfOk, length, map, slice_index_or};
ghost use Rattle.plan_types.specs.Numbers.{UpFrom};
ghost use Rattle.gcode_program.specs.Held.{ArePlannable};
ghost use Rattle.gcode_program.specs.Programs.{program_end, program_sections};
ghost use Rattle.plan_types.specs.Clock.{tick, tick_limit};
ghost use Rattle.plan_types.specs.Machines.{IsValidBoard, IsValidFan, IsValidMachine, board_at};
ghost use Rattle.plan_types.specs.Sections.{turns_of_move, no_section};
ghost use Rattle.plan_types.specs.Valid.{IsValidLine};
ghost use Rattle.section_plan.specs.Runs.{IsPlannable};
ghost use Rattle.digital_out.specs.Ends.{AreWordsOf, last_time, moves_in};
ghost use Rattle.digital_out.specs.Rising.{Alternate, AreRising, NeverFall};
ghost use Rattle.digital_out.specs.Wants as specs;
ghost use Rattle.digital_out.specs.Wants.{all_wants, switch_times, own_clocks, own_line, want_at};
ghost use Rattle.digital_out.specs.Words.{fan_words_in};

use crate::OutOfMemory;
use crate::settle::{changes, last_ones};
use crate::want::Want;
use crate::word::{FanWord, read_words};
use clock_line::{LineTicks, Lines};
use gcode_program::read_program;
use plan_types::{BoardDef, FanDef, Line, Machine, ReadEnd, Section};
use section_plan::{plan_moves, put_move_ends};
use std::alloc::Global;

/// The first turn in which a section may start.
const FIRST_TURN: u64 = 1_260;

/// The turns between the end of a section and the start of the next.
const BETWEEN: u64 = 260;

/// The nanoseconds of a turn.
const TURN_NS: u128 = 1_000_000;

/// What the lines of a text want of the part fan, and how far the text was read.
#[derive(Drop)]
pub struct FanPlan {
    pub wants: Vec<Want>,
    pub end: ReadEnd,
}

/// A board's own clock line.
fn own_line(board: &BoardDef) -> Line
    ensures { result ≡ own_line board.now }
{
    Line {
        at: 0,
        clock: board.start,
        freq: board.freq,
    }
}

/// The clock lines of all boards.
fn own_clocks(alloc: Global, machine: &Machine) -> Result<Vec<Lines>, OutOfMemory>
    requires { All IsValidBoard machine.now.boards }
    ensures { IfOk result (λ clocks. clocks.items ≡ own_clocks machine.now) }
{
    let mut clocks = Vec::new(alloc);
    for board in machine.boards.as_slice() {
        clocks.push(Lines::new(alloc, own_line(board)))?;
    }
    Ok(clocks)
}

/// The section of a number.
fn section_at(sections: &[Section], i: usize) -> &Section
    requires { i < length sections.now }
    ensures { result.now ≡ slice_index_or sections.now i no_section }
{
    &sections[i]
}

/// The times at which a line may switch the fan, in ns: the beginning of the first turn, and the end of each move.
fn ends_of(alloc: Global, machine: &Machine, sections: &[Section]) -> Result<Vec<u128>, OutOfMemory>
    requires machine { IsValidMachine machine.now }
    requires sections { ArePlannable sections.now }
    ensures value { IfOk result (λ times. times.items ≡ switch_times machine.now sections.now) }
    ensures ordered { IfOk result (λ times. UpFrom 0 times.items) }
    ensures soon { IfOk result (λ times. All (λ t. t ≤ last_time) times.items) }
    ensures count { IfOk result (λ times. length times.items ≡ moves_in sections.now + 1) }
{
    let clocks = own_clocks(alloc, machine)?;
    let mut times = Vec::new(alloc);
    times.push(u128::from(FIRST_TURN) * TURN_NS)?;
    let mut ready = FIRST_TURN;
    for i in 0..sections.len() {
        let section = section_at(sections, i);
        let start = ready + section.dwell;
        let moves = section.moves.as_slice();
        put_move_ends(alloc, machine, &clocks, moves, start, &mut times)?;
        let plan = plan_moves(alloc, machine, &clocks, moves, start)?;
        ready = plan.end + BETWEEN;
    }
    Ok(times)
}

/// What a line wants.
fn want_at(line: &Line, times: &[u128], word: &FanWord) -> Want
    requires there { word.now.moves < length times.now }
    requires small { All (λ t. tick line.now t < 2 ^ 64) times.now }
    requires from { line.now.at ≡ 0 }
    ensures { result ≡ want_at line.now times.now word.now }
{
    Want {
        tick: line.tick(times[word.moves as usize]),
        on: word.on,
    }
}

/// What all lines want.
fn wants_of(
    alloc: Global,
    line: &Line,
    times: &[u128],
    words: &[FanWord],
) -> Result<Vec<Want>, OutOfMemory>
    requires there { All (λ w. w.moves < length times.now) words.now }
    requires small { All (λ t. tick line.now t < 2 ^ 64) times.now }
    requires from { line.now.at ≡ 0 }
    ensures { IfOk result (λ wants. wants.items ≡ map (want_at line.now times.now) words.now) }
{
    let mut wants = Vec::new(alloc);
    for word in words {
        wants.push(want_at(line, times, word))?;
    }
    Ok(wants)
}

/// What the lines of a text want of the part fan of a machine, in ticks of its board, and how far the text is read.
#[tactic(auto, unfolding(crate::specs::Wants::wants))]
pub fn fan_plan(
    alloc: Global,
    machine: &Machine,
    fan: FanDef,
    text: &[u8],
) -> Result<FanPlan, OutOfMemory>
    requires machine { IsValidMachine machine.now }
    requires fan { fan.board < length machine.now.boards }
    ensures wants { IfOk result (λ plan. plan.wants.items ≡ specs.wants machine.now fan text.now) }
    ensures end { IfOk result (λ plan. plan.end ≡ program_end machine.now text.now) }
    ensures rise { IfOk result (λ plan. AreRising plan.wants.items) }
    ensures small { IfOk result (λ plan. All (λ w. w.tick < tick_limit - 2 ^ 32) plan.wants.items) }
    ensures alternate { IfOk result (λ plan. Alternate false plan.wants.items) }
{
    let program = read_program(alloc, machine, text)?;
    let words = read_words(alloc, machine, text)?;
    let times = ends_of(alloc, machine, program.sections.as_slice())?;
    let line = own_line(&machine.boards.as_slice()[fan.board as usize]);
    let all = wants_of(alloc, &line, &times, &words)?;
    let kept = last_ones(alloc, &all)?;
    let wants = changes(alloc, &kept)?;
    Ok(FanPlan {
        wants,
        end: program.end,
    })
}
