//! The section that goes on.

ghost use Rattle.std.specs.Prelude.{◌≡◌, ℕ, ◌+◌, ◌*◌, ◌<◌, ◌≤◌, ◌^◌, List, [], ◌∷◌, All, IfOk, MatchOption, true, false, length};
ghost use Rattle.gcode_program.specs.declared.items.Item.{Item};
ghost use Rattle.gcode_program.specs.Items.{IsGood};
ghost use Rattle.plan_types.specs.Lines.{Clocks};
ghost use Rattle.plan_types.specs.Machines.{IsValidMachine};
ghost use Rattle.plan_types.specs.Sections.{clocks_at};
ghost use Rattle.section_feed.specs.AllBoards.{AreReleased};
ghost use Rattle.section_feed.specs.Boards.{MayStart};
ghost use Rattle.section_feed.specs.On.{IsSectionOn};
ghost use Rattle.section_feed.specs.Queues.{count_in, is_taking};
ghost use Rattle.section_feed.specs.Sections.{boards_in, next_of, queue_of};
ghost use Rattle.motion_work.specs.Seen.{AreBoardClocks};
ghost use Rattle.motion_stream.specs.Courses.{IsStopped};
ghost use Rattle.motion_stream.specs.Gone.{HasEnded, HasGivenRows, HasTaken, HasTakenAll, moves_ahead};

use crate::OutOfMemory;
use crate::course::TURN_NS;
use clock_line::Lines;
use gcode_program::Item;
use motion_work::NO_END;
use msg_code::Unit;
use plan_types::{Listed, Machine};
use section_feed::{MoveQueue, SectionStream};
use std::alloc::Global;
use std::collections::VecDeque;

/// No section gives units in this turn.
const MOST_TURNS: u64 = 1 << 43;

/// The first thing that waits.
pub fn first_item(items: &VecDeque<Item>) -> Option<Item>
    ensures { MatchOption result (items.now.items ≡ []) (λ i. (rest : List Item) × (items.now.items ≡ i ∷ rest)) }
{
    items.front().copied()
}

/// Takes the next thing that waits where it belongs to a section that goes on. Answers whether more may.
fn take_next(items: &mut VecDeque<Item>, section: &mut SectionStream) -> Result<bool, OutOfMemory>
    requires good { All IsGood items.old.items }
    requires open { is_taking (queue_of section.old) ≡ true }
    requires few { count_in (queue_of section.old) + moves_ahead items.old.items ≤ 2_000_000 }
    ensures taken { IfOk result (λ goes. HasTaken section.old section.new items.old.items items.new.items) }
    ensures good { IfOk result (λ goes. All IsGood items.new.items) }
    ensures open { IfOk result (λ goes. goes ≡ true → is_taking (queue_of section.new) ≡ true) }
    ensures stops { IfOk result
        (λ goes. goes ≡ false → is_taking (queue_of section.new) ≡ true → IsStopped items.new.items) }
    ensures few { IfOk result
        (λ goes. goes ≡ true → count_in (queue_of section.new) + moves_ahead items.new.items ≤ 2_000_000) }
{
    match first_item(items) {
        Some(Item::Move(one)) => {
            items.pop_front();
            section.push(one)?;
            Ok(true)
        }
        Some(Item::End) => {
            items.pop_front();
            section.finish()?;
            Ok(false)
        }
        _ => Ok(false),
    }
}

/// Takes the moves that wait for a section that goes on, and its end behind them.
pub fn take_moves(
    items: &mut VecDeque<Item>,
    section: &mut SectionStream,
) -> Result<(), OutOfMemory>
    requires good { All IsGood items.old.items }
    requires open { is_taking (queue_of section.old) ≡ true }
    requires few { count_in (queue_of section.old) + moves_ahead items.old.items ≤ 2_000_000 }
    ensures { IfOk result (λ u. HasTakenAll section.old section.new items.old.items items.new.items) }
{
    for _ in 0..u64::MAX {
        if !take_next(items, section)? {
            return Ok(());
        }
    }
    // No queue is as long.
    Err(OutOfMemory)
}

/// A section that starts in a turn, of which no move was read; in one that homes no clock is set.
pub fn new_section(
    alloc: Global,
    machine: &Machine,
    lines: &[Lines],
    start: u64,
    homes: bool,
) -> Result<SectionStream, OutOfMemory>
    requires machine { IsValidMachine machine.now }
    requires clocks { AreBoardClocks machine.now lines.now start }
    requires early { (b : ℕ) → b < length machine.now.boards → (clocks_at lines.now b).first.clock < 2 ^ 62 }
    requires late { 250 ≤ start }
    requires small { start < 2 ^ 43 }
    ensures on { IfOk result (λ s. IsSectionOn machine.now lines.now start homes s [] (λ b. [])) }
    ensures open { IfOk result (λ s. is_taking (queue_of s) ≡ true) }
    ensures next { IfOk result (λ s. next_of s + 250 ≡ start) }
{
    let begin = u128::from(start) * TURN_NS;
    let queue = MoveQueue::new(alloc, machine.scv, machine.cruise, begin);
    let section = SectionStream::new(alloc, machine, lines, start, homes, queue)?;
    Ok(section)
}

/// What a section has given behind its last turns: it, and the units of these turns.
#[derive(Drop)]
struct Rest {
    pub section: SectionStream,
    pub rows: VecDeque<Listed<Listed<Unit>>>,
}

/// All units of a section of which all steps are packed, from the next turn on.
fn draw_rest(alloc: Global, section: SectionStream, turn: u64) -> Result<Rest, OutOfMemory>
    requires { next_of section ≡ turn }
    ensures given { IfOk result (λ rest. HasGivenRows section rest.section turn rest.rows.items) }
    ensures released { IfOk result (λ rest. AreReleased (boards_in rest.section)) }
{
    let mut section = section;
    let mut rows = VecDeque::new(alloc);
    let mut at = turn;
    while !section.is_released() {
        if at >= MOST_TURNS {
            return Err(OutOfMemory);
        }
        let row = section.batches()?;
        rows.push_back(Listed::of(row))?;
        at += 1;
    }
    Ok(Rest { section, rows })
}

/// A section whose end is known: it, the turn in which it ends, and its units of the turns from the next one on.
#[derive(Drop)]
pub struct Ended {
    pub section: SectionStream,
    pub rows: VecDeque<Listed<Listed<Unit>>>,
    pub end: u64,
}

/// Ends a section of which all steps are packed.
pub fn end_section(alloc: Global, section: SectionStream, turn: u64) -> Result<Ended, OutOfMemory>
    requires { next_of section ≡ turn }
    ensures given { IfOk result (λ e. HasGivenRows section e.section turn e.rows.items) }
    ensures ended { IfOk result (λ e. HasEnded e.section e.end) }
{
    let Rest { section, rows } = draw_rest(alloc, section, turn)?;
    let Some(end) = section.end() else {
        return Err(OutOfMemory);
    };
    if end >= NO_END {
        return Err(OutOfMemory);
    }
    Ok(Ended { section, rows, end })
}
