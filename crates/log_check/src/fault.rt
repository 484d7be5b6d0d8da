//! Why a line doesn't fit.

ghost use Rattle.std.specs.Prelude.{◌≡◌, ◌<◌, ◌≤◌, ◌^◌, [], length, slice_index_or};
ghost use Rattle.log_text.specs.There.{IsThere};
ghost use Rattle.plan_types.specs.Machines.{IsValidMachine, stepper_at};
ghost use Rattle.plan_types.specs.Sections.{clocks_at, is_home};
ghost use Rattle.log_check.specs.Faults as specs;
ghost use Rattle.log_check.specs.Faults.{no_tally};
ghost use Rattle.log_check.specs.Points.{section_at};
ghost use Rattle.log_check.specs.Pulses as pulses;
ghost use Rattle.log_check.specs.Steps.{IsSoundPoint, point_of};

use crate::further::told_line;
use crate::pulse::pulse_fault;
use crate::stand::Stand;
use crate::tally::Tally;
use clock_line::{Lines, capped_tick};
use log_text::LogLine;
use plan_types::{Line, Listed, Machine, MisfitKind, Planned, Section, SectionKind};

/// The first turn in which a section may start.
const FIRST_TURN: u128 = 1_260;

/// The turns between the end of a section and the start of the next.
const BETWEEN: u128 = 260;

/// The nanoseconds of a turn.
const TURN_NS: u128 = 1_000_000;

/// The most turns that a move takes.
const TURNS_OF_MOVE: u128 = 30_000_000;

/// The ticks of a section stay below this.
const ROOM: u64 = 12_999_999_995_705_032_704;

/// The longest time of a move, in ns.
const MOVE_NS: u128 = 17_421_000_000_000;

/// The most steps of a stepper in a move.
const STEPS_OF_MOVE: u128 = 3_072_000_003;

/// The own ticks of a board stay at or below this.
const OWN_ROOM: u128 = 12_999_999_999_999_999_998;

/// Whether some stepper has fewer pulses than planned steps.
fn lacks(plans: &[Listed<Planned>], tallies: &[Tally]) -> bool
    ensures { result ≡ specs.lacks plans.now tallies.now }
{
    let mut rest = plans;
    let mut more = tallies;
    while let [plan, behind @ ..] = rest {
        let [tally, later @ ..] = more else {
            return false;
        };
        if tally.made < plan.len() {
            return true;
        }
        rest = behind;
        more = later;
    }
    false
}

/// Whether the present section has fewer pulses than planned, and wasn't cut.
pub fn is_short(stand: &Stand) -> bool
    ensures { result ≡ specs.is_short stand.now.cut stand.now.plans stand.now.tallies.items }
{
    !stand.cut && lacks(stand.plans.as_slice(), &stand.tallies)
}

/// Whether two sections do the same.
fn same_kind(one: SectionKind, other: SectionKind) -> bool
    ensures { result ≡ specs.same_kind one other }
{
    match (one, other) {
        (SectionKind::Moves, SectionKind::Moves) => true,
        (SectionKind::Home(a), SectionKind::Home(b)) => a == b,
        _ => false,
    }
}

/// Whether a section homes.
fn is_home(kind: SectionKind) -> bool
    ensures { result ≡ is_home kind }
{
    match kind {
        SectionKind::Moves => false,
        SectionKind::Home(_) => true,
    }
}

/// Whether a board's first clock line holds from before a turn on, and has ticks for so many moves behind it.
fn has_room(line: &Line, moves: usize, turn: u64) -> bool
    ensures { result ≡ specs.has_room line.now moves turn }
{
    let last = (u128::from(turn) + moves as u128 * TURNS_OF_MOVE) * TURN_NS;
    line.at <= u128::from(turn) * TURN_NS && capped_tick(line, last) < ROOM
}

/// Whether a board's own ticks are few enough for so many moves, with 4 more for each step that follows too closely.
fn are_few(lines: &Lines, moves: usize, turn: u64) -> bool
    ensures { result ≡ specs.are_few lines.now moves turn }
{
    let end = u128::from(turn) * TURN_NS + moves as u128 * MOVE_NS + TURN_NS;
    let most = OWN_ROOM.saturating_sub(4 * (moves as u128 * STEPS_OF_MOVE)) as u64;
    !lines.is_past(end, most)
}

/// Whether a board has ticks for so many moves from a turn on.
fn is_roomy(lines: &Lines, moves: usize, turn: u64) -> bool
    ensures { result ≡ specs.is_roomy lines.now moves turn }
{
    lines.is_kept();
    has_room(&lines.first(), moves, turn) && are_few(lines, moves, turn)
}

/// Whether all boards have.
fn have_room(clocks: &[Lines], moves: usize, turn: u64) -> bool
    ensures { result ≡ specs.have_room clocks.now moves turn }
{
    let mut rest = clocks;
    while let [first, others @ ..] = rest {
        if !is_roomy(first, moves, turn) {
            return false;
        }
        rest = others;
    }
    true
}

/// The turn from which on the next section may start, without its dwells.
fn ready(stand: &Stand) -> u128
    ensures value { result ≡ specs.ready stand.now.cut stand.now.begun stand.now.start stand.now.end }
    ensures small { result < 2 ^ 65 }
{
    if stand.begun == 0 {
        FIRST_TURN
    } else if stand.cut {
        u128::from(stand.start) + BETWEEN
    } else {
        u128::from(stand.end) + BETWEEN
    }
}

/// Whether a section of this number and kind may start in a turn.
fn may_start(
    machine: &Machine,
    sections: &[Section],
    stand: &Stand,
    number: u64,
    turn: u64,
    kind: SectionKind,
) -> bool
    ensures { result ≡ specs.may_start machine.now sections.now (point_of stand.now) number turn kind }
{
    let place = stand.begun;
    if number != place as u64 || place >= sections.len() {
        return false;
    }
    let section = &sections[place];
    same_kind(kind, section.kind)
        && stand.clocks.len() == machine.boards.len()
        && ready(stand) + u128::from(section.dwell) <= u128::from(turn)
        && have_room(&stand.clocks, section.moves.len(), turn)
}

/// Whether the present section is this one, and homes.
fn may_cut(sections: &[Section], stand: &Stand, number: u64) -> bool
    requires { stand.now.begun ≤ length sections.now }
    ensures { result ≡ specs.may_cut sections.now stand.now.begun number }
{
    let begun = stand.begun;
    begun > 0 && number == (begun - 1) as u64 && is_home(sections[begun - 1].kind)
}

/// Why a pulse of a stepper doesn't fit.
fn place_fault(
    machine: &Machine,
    stand: &Stand,
    s: usize,
    tick: u64,
    up: bool,
) -> Option<MisfitKind>
    requires machine { IsValidMachine machine.now }
    requires sound { IsSoundPoint machine.now (point_of stand.now) }
    requires there { s < length machine.now.steppers }
    ensures { result
        ≡ pulses.pulse_fault (clocks_at stand.now.clocks.items (stepper_at machine.now s).board).first.freq
        (slice_index_or stand.now.bases.items s 0) (slice_index_or stand.now.plans s [])
        (slice_index_or stand.now.tallies.items s no_tally).made tick up }
{
    if s >= stand.plans.len() {
        return Some(MisfitKind::Extra);
    }
    let board = machine.steppers.as_slice()[s].board;
    let freq = stand.clocks[board as usize].first().freq;
    let plan = stand.plans.as_slice()[s].as_slice();
    pulse_fault(freq, stand.bases[s], plan, stand.tallies[s].made, tick, up)
}

/// Whether a further clock line of a board may hold behind those that the board told.
fn may_follow(machine: &Machine, told: &[Lines], board: u8, turn: u64, tick: u64, from: u64) -> bool
    requires { board < length machine.now.boards }
    ensures { result ≡ specs.may_follow machine.now told.now board turn tick from }
{
    let place = board as usize;
    let line = told_line(machine, board, turn, tick);
    place < told.len() && told[place].may_hold(u128::from(from), &line)
}

/// Why a section that begins doesn't fit.
fn section_fault(short: bool, may: bool) -> Option<MisfitKind>
    ensures { result ≡ specs.section_fault short may }
{
    if short {
        Some(MisfitKind::Missing)
    } else if may {
        None
    } else {
        Some(MisfitKind::Section)
    }
}

/// Why a line doesn't fit where no end was told.
fn open_fault(
    machine: &Machine,
    sections: &[Section],
    stand: &Stand,
    line: &LogLine,
) -> Option<MisfitKind>
    requires machine { IsValidMachine machine.now }
    requires sound { IsSoundPoint machine.now (point_of stand.now) }
    requires begun { stand.now.begun ≤ length sections.now }
    requires there { IsThere machine.now line.now }
    ensures { result ≡ specs.open_fault machine.now sections.now (point_of stand.now) line.now }
{
    match *line {
        LogLine::Note => None,
        LogLine::Board { board, .. } => {
            if stand.begun == 0 && board as usize == stand.clocks.len() {
                None
            } else {
                Some(MisfitKind::BadLine)
            }
        }
        LogLine::Line {
            board,
            turn,
            tick,
            from,
        } => {
            if may_follow(machine, &stand.told, board, turn, tick, from) {
                None
            } else {
                Some(MisfitKind::BadLine)
            }
        }
        LogLine::Section {
            section,
            turn,
            kind,
        } => section_fault(
            is_short(stand),
            may_start(machine, sections, stand, section, turn, kind),
        ),
        LogLine::Pulse { stepper, tick, up } => {
            place_fault(machine, stand, stepper as usize, tick, up)
        }
        LogLine::Cut { section } => {
            if may_cut(sections, stand, section) {
                None
            } else {
                Some(MisfitKind::Section)
            }
        }
        LogLine::End => {
            if is_short(stand) {
                Some(MisfitKind::Missing)
            } else {
                None
            }
        }
    }
}

/// Why a line doesn't fit.
pub fn fault(
    machine: &Machine,
    sections: &[Section],
    stand: &Stand,
    line: &LogLine,
) -> Option<MisfitKind>
    requires machine { IsValidMachine machine.now }
    requires sound { IsSoundPoint machine.now (point_of stand.now) }
    requires begun { stand.now.begun ≤ length sections.now }
    requires there { IsThere machine.now line.now }
    ensures { result ≡ specs.fault_at machine.now sections.now (point_of stand.now) line.now }
{
    if stand.ended {
        Some(MisfitKind::BadLine)
    } else {
        open_fault(machine, sections, stand, line)
    }
}
