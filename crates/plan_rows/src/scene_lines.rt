//! A line: blocks lost, repeated, delayed and garbled, and when it is quiet.
ghost use Rattle.std.specs.Prelude.{◌≡◌, IfOk, false};
ghost use Rattle.wire_scene.specs.Scenes.{NumbersRise};

use crate::scenes::machine;
use block_frame::Block;
use std::alloc::{AllocError, Global};
use std::test::Fail;
use wire_scene::{Came, Deed, Entry, Fate, Scene, Way, Wire, read_scene};

/// What is done with a line: in a turn a block of one byte is put; what is due next, and happens; whether it is quiet.
#[derive(Clone, Copy)]
enum Row {
    Put(u32, u8),
    Due(u32, Option<(u8, Fate)>),
    Quiet(u32, bool),
}

use Row::{Due, Put, Quiet};

/// An entry.
fn entry(board: u8, way: Way, number: u64, deed: Deed) -> Entry
    ensures { result ≡ record { board = board; way = way; connecting = false; number = number; deed = deed } }
{
    Entry {
        board,
        way,
        connecting: false,
        number,
        deed,
    }
}

/// Entries for both lines of two boards.
const ENTRIES: &str = "down mcu 1 drop
down tool 0 drop
down mcu 2 repeat
up mcu 0 delay 2
down mcu 4 delay 3
up mcu 1 repeat
down mcu 6 delay 5
down mcu 7 drop
down mcu 8 delay 1
";

/// The scene with these.
fn scene(alloc: Global) -> Result<Scene, AllocError>
    ensures { IfOk result (λ s. NumbersRise s.entries) }
{
    let machine = machine(alloc)?;
    match read_scene(alloc, ENTRIES.as_bytes(), &machine) {
        Ok(scene) => Ok(scene),
        Err(_) => Err(AllocError),
    }
}

/// A line of that scene, while connecting.
fn line(alloc: Global, board: u8, way: Way) -> Result<Wire, AllocError> {
    let scene = scene(alloc)?;
    Wire::new(alloc, &scene, board, way)
}

/// The first row that isn't as a line of that scene has it.
fn first_wrong_on(
    alloc: Global,
    board: u8,
    way: Way,
    connected: bool,
    rows: &[Row],
) -> Result<Option<usize>, AllocError> {
    let mut wire = line(alloc, board, way)?;
    if connected {
        wire.connected();
    }
    first_wrong(&mut wire, rows)
}

/// The byte of what came, and its fate.
fn seen(came: Option<Came>) -> Option<(u8, Fate)> {
    let came = came?;
    let byte = came.block.as_slice().first()?;
    Some((*byte, came.fate))
}

/// Whether a row is as the line has it.
fn is_so(wire: &mut Wire, row: Row) -> Result<bool, AllocError> {
    match row {
        Put(turn, byte) => {
            let mut block = Block::new();
            block.push(byte);
            wire.put(u64::from(turn), block)?;
            Ok(true)
        }
        Due(turn, wanted) => Ok(seen(wire.due(u64::from(turn))) == wanted),
        Quiet(turn, wanted) => Ok(wire.quiet(u64::from(turn)) == wanted),
    }
}

/// The first row that isn't as the line has it.
fn first_wrong(wire: &mut Wire, rows: &[Row]) -> Result<Option<usize>, AllocError> {
    for i in 0..rows.len() {
        if !is_so(wire, rows[i])? {
            return Ok(Some(i));
        }
    }
    Ok(None)
}

const LOST: Fate = Fate::Lost;

const LAST: Fate = Fate::Last;

const STAYS: Fate = Fate::Stays;

/// On the line down to the first board.
const DOWN: [Row; 43] = [
    Quiet(0, true),
    Due(10, None),
    Put(10, 100),
    Quiet(10, false),
    Due(9, None),
    Due(10, Some((100, LAST))),
    Due(10, None),
    Quiet(10, true),
    // block 1 is lost
    Put(11, 101),
    Due(11, Some((101, LOST))),
    Due(11, None),
    Quiet(11, false),
    Quiet(15, false),
    Quiet(16, true),
    // block 2 arrives twice, before block 3
    Put(12, 102),
    Put(12, 103),
    Due(12, Some((102, STAYS))),
    Due(12, Some((102, LAST))),
    Due(12, Some((103, LAST))),
    Due(12, None),
    // block 4 comes 3 turns later, and block 5 not before it
    Put(13, 104),
    Due(13, None),
    Put(14, 105),
    Due(15, None),
    Due(16, Some((104, LAST))),
    Due(16, Some((105, LAST))),
    Due(16, None),
    Quiet(17, false),
    Quiet(18, true),
    // nor are blocks that are lost or delayed by less
    Put(20, 106),
    Put(20, 107),
    Put(20, 108),
    Due(24, None),
    Due(25, Some((106, LAST))),
    Put(30, 109),
    Due(30, Some((107, LOST))),
    Due(30, Some((108, LAST))),
    Due(29, None),
    Due(30, Some((109, LAST))),
    Quiet(30, true),
    // no entry is left
    Put(1_000_000, 110),
    Due(1_000_000, Some((110, LAST))),
    Quiet(1_000_000, true),
];

#[test]
fn a_line_loses_repeats_and_delays(rt: HostRuntime) -> Result<(), Fail> {
    let wrong = first_wrong_on(rt.alloc(), 0, Way::Down, true, &DOWN)?;
    assert_eq!(rt; wrong, None);
    Ok(())
}

/// On the line up from it.
const UP: [Row; 11] = [
    Put(5, 100),
    Put(5, 101),
    Due(6, None),
    Due(7, Some((100, LAST))),
    Due(7, Some((101, STAYS))),
    Put(7, 102),
    Due(7, Some((101, LAST))),
    Due(7, Some((102, LAST))),
    Due(7, None),
    Quiet(9, false),
    Quiet(10, true),
];

/// On the line down to the other board.
const OTHER: [Row; 6] = [
    Put(0, 100),
    Put(0, 101),
    Due(0, Some((100, LOST))),
    Due(0, Some((101, LAST))),
    Quiet(4, false),
    Quiet(5, true),
];

/// On the line up from that one, while connecting.
const NONE: [Row; 6] = [
    Put(3, 100),
    Put(3, 101),
    Due(3, Some((100, LAST))),
    Due(3, Some((101, LAST))),
    Due(3, None),
    Quiet(3, true),
];

#[test]
fn each_line_has_its_entries(rt: HostRuntime) -> Result<(), Fail> {
    let alloc = rt.alloc();
    assert_eq!(rt; first_wrong_on(alloc, 0, Way::Up, true, &UP)?, None);
    assert_eq!(rt; first_wrong_on(alloc, 1, Way::Down, true, &OTHER)?, None);
    assert_eq!(rt; first_wrong_on(alloc, 1, Way::Up, false, &NONE)?, None);
    Ok(())
}

/// Entries for the time while connecting and for later.
fn connecting(alloc: Global) -> Result<Scene, AllocError>
    ensures { IfOk result (λ s. NumbersRise s.entries) }
{
    let mut scene = Scene::empty(alloc);
    scene.entries.push(Entry {
        board: 0,
        way: Way::Down,
        connecting: true,
        number: 1,
        deed: Deed::Drop,
    })?;
    scene.entries.push(entry(0, Way::Down, 0, Deed::Repeat))?;
    scene
        .entries
        .push(entry(0, Way::Down, 1, Deed::Garble { at: 6, xor: 1 }))?;
    scene
        .entries
        .push(entry(0, Way::Down, 2, Deed::Garble { at: 4, xor: 0 }))?;
    Ok(scene)
}

/// The line down to the board of these.
fn connecting_line(alloc: Global) -> Result<Wire, AllocError> {
    let scene = connecting(alloc)?;
    Wire::new(alloc, &scene, 0, Way::Down)
}

const BEFORE: [Row; 4] = [
    Put(3, 100),
    Put(3, 101),
    Due(3, Some((100, LAST))),
    Due(3, Some((101, LOST))),
];

const BEHIND: [Row; 4] = [
    Quiet(7, false),
    Put(9, 102),
    Due(9, Some((102, STAYS))),
    Due(9, Some((102, LAST))),
];

/// Whether all rows before the end of connecting, and behind it, are as the line has them.
fn counts_anew(wire: &mut Wire) -> Result<bool, AllocError> {
    let before = first_wrong(wire, &BEFORE)?;
    wire.connected();
    wire.connected();
    let behind = first_wrong(wire, &BEHIND)?;
    Ok(before.is_none() && behind.is_none())
}

const EMPTY: [u8; 5] = [0x05, 0x10, 0x9e, 0x81, 0x7e];

const WRONG: [u8; 5] = [0x05, 0x10, 0x9e, 0x80, 0x7e];

/// Whether a block without content that is put comes in the same turn with this fate and these bytes.
fn comes(wire: &mut Wire, fate: Fate, bytes: &[u8]) -> Result<bool, AllocError> {
    let mut block = Block::new();
    let _ = block.try_extend_from_slice(&EMPTY);
    wire.put(10, block)?;
    Ok(is_of(wire.due(10), fate, bytes))
}

fn is_of(came: Option<Came>, fate: Fate, bytes: &[u8]) -> bool {
    match came {
        Some(came) => came.fate == fate && came.block.as_slice() == bytes,
        None => false,
    }
}

#[test]
fn blocks_count_anew_and_come_changed(rt: HostRuntime) -> Result<(), Fail> {
    let mut wire = connecting_line(rt.alloc())?;
    assert!(rt; counts_anew(&mut wire)?);
    assert!(rt; comes(&mut wire, Fate::Garbled, &WRONG)?);
    assert!(rt; comes(&mut wire, LOST, &EMPTY)?);
    assert!(rt; comes(&mut wire, LAST, &EMPTY)?);
    Ok(())
}
