//! Turns of a board: the bytes that come, and the blocks and pulses that it makes.

use crate::hex::bytes_of;
use board_sim::{Board, PinLevels, TurnOut};
use plan_types::{BoardDef, BoardState, Level, Listed, Name, Pulse};
use std::alloc::{AllocError, Global};
use std::test::Fail;

/// The ticks of these boards stay below this.
const LIMIT: u64 = 1 << 62;

/// A pulse: its tick, the object id of its stepper, and its direction.
type Made = (u64, u8, bool);

/// A turn: the bytes that come, the tick to which the board runs, the bytes of its blocks, and its pulses.
type Row<'a> = (&'a str, u64, &'a str, &'a [Made]);

const UP: bool = true;

const DOWN: bool = false;

fn definition(alloc: Global, freq: u32, slots: u32) -> BoardDef {
    BoardDef {
        name: Name::new(b"mcu"),
        freq,
        start: 0,
        slots,
        drift: 0,
        pins: Listed::new(alloc),
    }
}

/// A board of 16 MHz with queues for so many triples.
fn board(alloc: Global, slots: u32) -> Result<Board, AllocError> {
    Board::new(
        alloc,
        &definition(alloc, 16_000_000, slots),
        Vec::new(alloc),
    )
}

/// A pin that is high from a tick on.
fn closing(alloc: Global, tick: u64) -> Result<PinLevels, AllocError> {
    let mut entries = Vec::new(alloc);
    entries.push(Level { tick, level: true })?;
    Ok(PinLevels::new(entries))
}

/// A tool's board of 48 MHz, of which pin 1 is high from a tick on.
fn tool(alloc: Global, closes: u64) -> Result<Board, AllocError> {
    let mut pins = Vec::new(alloc);
    pins.push(PinLevels::new(Vec::new(alloc)))?;
    pins.push(closing(alloc, closes)?)?;
    Board::new(alloc, &definition(alloc, 48_000_000, 1_024), pins)
}

/// A turn, where the board may run to its tick.
fn turn(board: &mut Board, bytes: &[u8], until: u64) -> Result<Option<TurnOut>, AllocError> {
    if until < board.tick() || until >= LIMIT {
        return Ok(None);
    }
    Ok(Some(board.turn(bytes, until)?))
}

fn are_pulses(pulses: &[Pulse], wanted: &[Made]) -> bool {
    let mut same = pulses.len() == wanted.len();
    for (pulse, made) in pulses.iter().zip(wanted) {
        same = same && (pulse.tick, pulse.stepper, pulse.up) == *made;
    }
    same
}

/// Whether a turn made these blocks and pulses, and left the board so.
fn has_made(
    alloc: Global,
    out: &TurnOut,
    told: &str,
    pulses: &[Made],
    state: BoardState,
) -> Result<bool, AllocError> {
    let mut bytes = Vec::new(alloc);
    for block in out.blocks.as_slice() {
        bytes.extend_from_slice(block.as_slice())?;
    }
    let same = bytes.as_slice() == bytes_of(alloc, told)?.as_slice();
    Ok(same && are_pulses(out.pulses.as_slice(), pulses) && out.state == state)
}

/// Whether a turn is as the row has it.
fn is_so(
    alloc: Global,
    board: &mut Board,
    row: &Row<'_>,
    state: BoardState,
) -> Result<bool, AllocError> {
    let (bytes, until, told, pulses) = *row;
    let Some(out) = turn(board, bytes_of(alloc, bytes)?.as_slice(), until)? else {
        return Ok(false);
    };
    has_made(alloc, &out, told, pulses, state)
}

/// The first turn that isn't as its row has it, or behind which the board isn't in this state.
fn first_wrong(
    alloc: Global,
    board: &mut Board,
    rows: &[Row<'_>],
    state: BoardState,
) -> Result<Option<usize>, AllocError> {
    for (i, row) in rows.iter().enumerate() {
        if !is_so(alloc, board, row, state)? {
            return Ok(Some(i));
        }
    }
    Ok(None)
}

/// The first turn of a board of 16 MHz that isn't as its row has it, while it runs.
fn first_wrong_here(alloc: Global, rows: &[Row<'_>]) -> Result<Option<usize>, AllocError> {
    let mut board = board(alloc, 1_024)?;
    first_wrong(alloc, &mut board, rows, BoardState::Running)
}

/// The same of a tool's board, of which pin 1 is high from a tick on.
fn first_wrong_of_tool(
    alloc: Global,
    closes: u64,
    rows: &[Row<'_>],
) -> Result<Option<usize>, AllocError> {
    let mut board = tool(alloc, closes)?;
    first_wrong(alloc, &mut board, rows, BoardState::Running)
}

const PULSE: Row<'static> = (
    "17 10 07 00 00 01 00 00 0a 00 00 09 00 01 08 00 87 68 01 00 66 13 7e",
    16_000,
    "05 11 8f 08 7e",
    &[(1_000, 0, UP)],
);

/// The tick at which a board stands behind a turn that is as its row has it.
fn tick_behind(alloc: Global, board: &mut Board, row: &Row<'_>) -> Result<Option<u64>, AllocError> {
    if !is_so(alloc, board, row, BoardState::Running)? {
        return Ok(None);
    }
    Ok(Some(board.tick()))
}

/// The same of a new board of 16 MHz.
fn tick_behind_first(alloc: Global, row: &Row<'_>) -> Result<Option<u64>, AllocError> {
    let mut board = board(alloc, 1_024)?;
    tick_behind(alloc, &mut board, row)
}

#[test]
fn a_block_of_commands_makes_a_pulse(rt: HostRuntime) -> Result<(), Fail> {
    assert_eq!(rt; tick_behind_first(rt.alloc(), &PULSE)?, Some(16_000));
    Ok(())
}

/// Stepper 0 is to step at 1,000 and 3,000 and goes down; stepper 1 at 1,000 and 2,000 and goes up.
const ORDER: [Row<'static>; 3] = [
    (
        "21 10 07 00 00 01 00 00 07 01 02 03 00 00 09 01 01 08 00 87 68 02 87 68 08 01 87 68 02 00 26 a1 7e",
        2_000,
        "05 11 8f 08 7e",
        &[(1_000, 0, DOWN), (1_000, 1, UP)],
    ),
    ("", 3_000, "", &[(2_000, 1, UP)]),
    ("", 3_001, "", &[(3_000, 0, DOWN)]),
];

#[test]
fn pulses_come_in_the_order_of_ticks(rt: HostRuntime) -> Result<(), Fail> {
    assert_eq!(rt; first_wrong_here(rt.alloc(), &ORDER)?, None);
    Ok(())
}

/// What shuts a board down: the block that comes, the first tick that came too late, and what the turns give
/// from then on.
type Shutdown<'a> = (&'a str, u64, &'a str, &'a str, &'a str);

/// Each with the reason of its place, from 1 on.
const SHUTDOWNS: [Shutdown<'static>; 5] = [
    (
        "0b 11 08 00 80 64 01 00 82 3e 7e",
        100,
        "0a 12 23 80 fd 00 01 e2 cf 7e 05 12 bd 93 7e",
        "0a 13 20 00 00 01 01 bc d5 7e 0a 13 21 00 81 fa 00 68 88 7e 05 13 ac 1a 7e 07 13 24 01 6b 2b 7e",
        "07 13 24 01 6b 2b 7e",
    ),
    (
        "13 11 08 00 81 9c 20 01 00 08 00 81 9c 20 01 00 99 cb 7e",
        0,
        "0a 12 23 80 fd 00 02 d0 54 7e 05 12 bd 93 7e",
        "0a 13 20 00 00 01 01 bc d5 7e 0a 13 21 00 81 fa 00 68 88 7e 05 13 ac 1a 7e 07 13 24 02 59 b0 7e",
        "07 13 24 02 59 b0 7e",
    ),
    (
        "0f 11 08 00 81 9c 20 01 00 0a 00 05 38 48 7e",
        0,
        "0a 12 23 80 fd 00 03 c1 dd 7e 05 12 bd 93 7e",
        "0a 13 20 00 00 01 01 bc d5 7e 0a 13 21 00 81 fa 00 68 88 7e 05 13 ac 1a 7e 07 13 24 03 48 39 7e",
        "07 13 24 03 48 39 7e",
    ),
    (
        "0c 11 08 00 81 9c 20 00 00 f1 cd 7e",
        0,
        "0a 12 23 80 fd 00 04 b5 62 7e 05 12 bd 93 7e",
        "0a 13 20 00 00 01 01 bc d5 7e 0a 13 21 00 81 fa 00 68 88 7e 05 13 ac 1a 7e 07 13 24 04 3c 86 7e",
        "07 13 24 04 3c 86 7e",
    ),
    (
        "06 11 06 06 95 7e",
        0,
        "0a 12 23 80 fd 00 05 a4 eb 7e 05 12 bd 93 7e",
        "0a 13 20 00 00 01 01 bc d5 7e 0a 13 21 00 81 fa 00 68 88 7e 05 13 ac 1a 7e 07 13 24 05 2d 0f 7e",
        "07 13 24 05 2d 0f 7e",
    ),
];

/// A stepper with room for one triple is made.
const CONFIGURED: Row<'static> = (
    "0b 10 07 00 00 01 00 00 28 24 7e",
    16_000,
    "05 11 8f 08 7e",
    &[],
);

/// Whether a board shuts down: at tick 16,000 a block comes; at tick 32,000 a triple and a direction, which
/// change nothing any more, and two questions; then a turn that stands, and one that runs on.
fn shuts(
    alloc: Global,
    board: &mut Board,
    shutdown: &Shutdown<'_>,
    reason: u8,
) -> Result<bool, AllocError> {
    let (block, first, at_once, answers, later) = *shutdown;
    let rows: [Row<'_>; 4] = [
        (block, 32_000, at_once, &[]),
        (
            "11 12 08 00 81 9c 20 01 00 09 00 01 03 05 0f 2b 7e",
            48_000,
            answers,
            &[],
        ),
        ("", 48_000, "", &[]),
        ("", 64_000, later, &[]),
    ];
    let state = BoardState::Shut {
        reason,
        tick: 16_000,
        first,
    };
    Ok(first_wrong(alloc, board, &rows, state)?.is_none())
}

/// The same, once the stepper is made.
fn shuts_down(
    alloc: Global,
    board: &mut Board,
    shutdown: &Shutdown<'_>,
    reason: u8,
) -> Result<bool, AllocError> {
    Ok(
        is_so(alloc, board, &CONFIGURED, BoardState::Running)?
            && shuts(alloc, board, shutdown, reason)?,
    )
}

/// The same of a new board.
fn shuts_down_first(
    alloc: Global,
    shutdown: &Shutdown<'_>,
    reason: u8,
) -> Result<bool, AllocError> {
    let mut board = board(alloc, 1)?;
    shuts_down(alloc, &mut board, shutdown, reason)
}

/// The first way in which no board shuts down.
fn first_unshut(alloc: Global, shutdowns: &[Shutdown<'_>]) -> Result<Option<usize>, AllocError> {
    for (i, shutdown) in shutdowns.iter().enumerate() {
        if !shuts_down_first(alloc, shutdown, (i % 5) as u8 + 1)? {
            return Ok(Some(i));
        }
    }
    Ok(None)
}

#[test]
fn each_reason_shuts_down(rt: HostRuntime) -> Result<(), Fail> {
    assert_eq!(rt; first_unshut(rt.alloc(), &SHUTDOWNS)?, None);
    Ok(())
}

/// Whether a board that stands at tick 0 answers a block so.
fn answers_so(alloc: Global, board: &mut Board, row: &(&str, &str)) -> Result<bool, AllocError> {
    let (bytes, told) = *row;
    let row: Row<'_> = (bytes, 0, told, &[]);
    is_so(alloc, board, &row, BoardState::Running)
}

/// The same of some blocks, one behind the other.
fn answers_all(
    alloc: Global,
    board: &mut Board,
    rows: &[(&str, &str)],
) -> Result<bool, AllocError> {
    for row in rows {
        if !answers_so(alloc, board, row)? {
            return Ok(false);
        }
    }
    Ok(true)
}

/// Whether a new board answers them so.
fn answers(alloc: Global, rows: &[(&str, &str)]) -> Result<bool, AllocError> {
    let mut board = board(alloc, 64)?;
    answers_all(alloc, &mut board, rows)
}

/// Bytes that end blocks; bad ones, which go on; a block with another number, with emergency_stop; bad ones
/// again; a block in two pieces, with get_uptime, what is no command, and get_uptime; the same block again;
/// the next block.
const ANY_BYTES: [(&str, &str); 10] = [
    ("7e 7e", ""),
    ("01 02", "05 10 9e 81 7e"),
    ("03 7e ff 7e", ""),
    ("06 15 06 61 f5 7e", "05 10 9e 81 7e"),
    ("ff 7e", "05 10 9e 81 7e"),
    ("08 10 05", ""),
    ("5f 05 97 26 7e", "08 11 21 00 00 ec 55 7e 05 11 8f 08 7e"),
    ("08 10 05 5f 05 97 26 7e", "05 11 8f 08 7e"),
    ("05 11 8f 08 7e", "05 12 bd 93 7e"),
    ("", ""),
];

#[test]
fn any_bytes_are_answered_as_they_should(rt: HostRuntime) -> Result<(), Fail> {
    assert!(rt; answers(rt.alloc(), &ANY_BYTES)?);
    Ok(())
}

/// Questions for parts of the dictionary, the first and the last ones and what lies behind it; then allocate_oids,
/// get_config, finalize_config with the number 7, and get_config.
const QUESTIONS: [(&str, &str); 7] = [
    (
        "08 10 01 00 28 5e 9f 7e",
        "30 11 00 00 28 7b 22 63 6f 6d 6d 61 6e 64 73 22 3a 7b 22 61 6c 6c 6f 63 61 74 65 5f 6f 69 64 73 20 63 6f 75 6e 74 3d 25 63 22 3a 32 2c 38 5a 7e 05 11 8f 08 7e",
    ),
    (
        "09 11 01 00 81 7f 90 d8 7e",
        "30 12 00 00 28 7b 22 63 6f 6d 6d 61 6e 64 73 22 3a 7b 22 61 6c 6c 6f 63 61 74 65 5f 6f 69 64 73 20 63 6f 75 6e 74 3d 25 63 22 3a 32 2c b0 82 7e 05 12 bd 93 7e",
    ),
    (
        "08 12 01 0d 05 2d 76 7e",
        "0d 13 00 0d 05 22 61 6c 6c 6f 7e e2 7e 05 13 ac 1a 7e",
    ),
    (
        "09 13 01 89 58 28 b8 bb 7e",
        "22 14 00 89 58 19 6d 65 20 68 69 67 68 3d 25 75 20 63 6c 6f 63 6b 3d 25 75 22 3a 33 33 7d 7d 8c 0b 7e 05 14 d8 a5 7e",
    ),
    (
        "09 14 01 89 71 28 7c 4c 7e",
        "09 15 00 89 71 00 c6 f9 7e 05 15 c9 2c 7e",
    ),
    (
        "08 15 01 7f 01 ff 07 7e",
        "08 16 00 7f 00 91 9f 7e 05 16 fb b7 7e",
    ),
    (
        "0b 16 02 04 03 04 07 03 2a 9d 7e",
        "0a 17 20 00 00 00 40 e6 2c 7e 0a 17 20 01 07 00 40 76 92 7e 05 17 ea 3e 7e",
    ),
];

#[test]
fn dictionary_and_configuration_are_told(rt: HostRuntime) -> Result<(), Fail> {
    assert!(rt; answers(rt.alloc(), &QUESTIONS)?);
    Ok(())
}

/// A stepper, a trigger and an endstop at pin 1; the trigger is started, with reports from 84,481,000 on and
/// a timeout at 85,000,000; the stepper is bound to it. Then steps at 84,487,959 and 84,487,960, and readings
/// as from 60,481,000 on. Behind the trigger a step and an order to trigger.
const SWITCH: [Row<'static>; 5] = [
    ("", 84_400_000, "", &[]),
    (
        "2a 10 07 00 02 03 00 00 0b 01 10 02 01 00 0c 01 a8 a4 a7 68 8e d3 00 02 0d 01 a8 c3 fe 40 0f 00 01 0a 00 a8 a4 a0 00 8e 74 7e",
        84_400_000,
        "05 11 8f 08 7e",
        &[],
    ),
    (
        "1e 11 08 00 be 17 01 00 08 00 01 01 00 11 02 9c eb bb 68 85 50 04 a5 40 01 01 01 65 1c 7e",
        84_480_000,
        "05 12 bd 93 7e",
        &[],
    ),
    (
        "",
        84_528_000,
        "0d 12 22 01 01 00 a8 a4 a7 68 0d f0 7e 0d 12 22 01 00 01 a8 a4 de 18 56 c4 7e",
        &[(84_487_959, 0, DOWN)],
    ),
    (
        "0e 12 08 00 87 68 01 00 0e 01 03 9b d0 7e",
        84_721_001,
        "0d 13 22 01 00 01 a8 a4 de 18 1b 39 7e 05 13 ac 1a 7e 0d 13 22 01 00 01 a8 a4 de 18 1b 39 7e",
        &[],
    ),
];

#[test]
fn a_switch_stops_a_stepper_at_its_tick(rt: HostRuntime) -> Result<(), Fail> {
    assert_eq!(rt; first_wrong_of_tool(rt.alloc(), 84_481_100, &SWITCH)?, None);
    Ok(())
}

/// Two steppers, a trigger and an endstop at pin 1; reports from 10,000 on every 1,000 ticks, a timeout at
/// 12,000 with reason 2; stepper 0 is bound to it. Steps of stepper 0 at 11,999 and 12,000, of stepper 3 at
/// 12,000 and 13,000. Behind the timeout stepper 3 is bound, and halted; a start with a report at 20,000.
/// Steps of stepper 3 at 25,000, 30,000 and 35,000, and readings from 20,000 on: the switch triggers at
/// 30,600. The expected bytes and pulses are those of another program's board.
const TIMEOUT: [Row<'static>; 4] = [
    (
        "29 10 07 00 02 03 00 00 07 03 04 05 00 00 0b 01 10 02 01 00 0c 01 ce 10 87 68 02 0d 01 dd 60 0f 00 01 0a 00 c6 28 17 5e 7e",
        0,
        "05 11 8f 08 7e",
        &[],
    ),
    (
        "20 11 0a 03 c6 28 08 00 97 37 01 00 08 00 01 01 00 08 03 97 38 01 00 08 03 87 68 01 00 11 c4 7e",
        12_500,
        "05 12 bd 93 7e 0b 12 22 01 01 00 ce 10 83 60 7e 0b 12 22 01 01 00 d5 78 1d 17 7e 0b 12 22 01 00 02 dd 60 e6 1d 7e 0b 12 22 01 00 02 dd 60 e6 1d 7e",
        &[(11_999, 0, DOWN), (12_000, 3, DOWN)],
    ),
    (
        "17 12 0f 03 01 08 03 80 64 01 00 0c 01 81 9c 20 81 9c 20 04 eb ef 7e",
        12_600,
        "05 13 ac 1a 7e",
        &[],
    ),
    (
        "1d 13 0a 03 81 9c 20 08 03 a7 08 03 00 11 02 81 9c 20 81 48 04 83 74 01 01 01 49 4a 7e",
        36_000,
        "05 14 d8 a5 7e 0c 14 22 01 01 00 81 9c 20 df 09 7e 0c 14 22 01 00 01 81 ef 08 bf 10 7e",
        &[(25_000, 3, DOWN), (30_000, 3, DOWN)],
    ),
];

#[test]
fn a_timeout_and_a_switch_halt_their_steppers(rt: HostRuntime) -> Result<(), Fail> {
    assert_eq!(rt; first_wrong_of_tool(rt.alloc(), 30_000, &TIMEOUT)?, None);
    Ok(())
}
