//! The boards and the numbers of their pins.

ghost use Rattle.std.specs.Prelude.{◌≡◌, ◌≢◌, pos, negsuc, ◌≤ℤ◌, ◌≤◌, ◌<◌, ◌+◌, ◌*◌, [], ◌∷◌, length, All, AllPairs, true, IsTrue, IfSome, IfOk, Some, None, slice_index_or};
ghost use Rattle.std.specs.List.{list_all};
ghost use Rattle.plan_types.specs.Machines.{IsValidBoard, IsValidFreq, no_board};
ghost use Rattle.cfg_lines.specs.declared.section.Section.TheVariants.{Simulated};
ghost use Rattle.cfg_lines.specs.declared.table.Key.TheVariants.{ClockFreq, StartClock, MoveSlots, DriftPpm};
ghost use Rattle.cfg_lines.specs.declared.value.Value.TheVariants.{Amount, Signed};
ghost use Rattle.cfg_text.specs.Building as specs;
ghost use Rattle.cfg_text.specs.Building.{board_def, board_defs, fan_def, wire_at, wire_of};
ghost use Rattle.cfg_text.specs.Holding.{amount as held, signed as held_signed};
ghost use Rattle.cfg_lines.specs.Items.{entry_fits};
ghost use Rattle.cfg_lines.specs.Table.{option_row};
ghost use Rattle.cfg_text.specs.Valid.{IsFanOn, NamesDiffer};
ghost use Rattle.cfg_lines.specs.Values.{fits};

use crate::holding::{amount, section_line, signed};
use crate::wiring::{Use, pin_of};
use cfg_lines::fault::CfgFault;
use cfg_lines::first_pass::add_name;
use cfg_lines::item::Entry;
use cfg_lines::section::{Motor, Section};
use cfg_lines::table::Key;
use plan_types::{BoardDef, CfgKind, FanDef, Listed, Name};
use std::alloc::{AllocError, Global};

/// A wire from a pin of a board to a stepper or an axis.
#[derive(Clone, Copy)]
pub struct Wire {
    pub line: u64,
    pub board: u8,
    pub pin: u8,
    pub inverted: bool,
}

/// The number that holds for an option, which is within its limits.
#[tactic(auto, using(crate::proofs::Fitting::amount_fits))]
pub fn limited(entries: &[Entry], section: &Section, key: Key) -> u64
    requires fit { list_all entry_fits entries.now ≡ true }
    requires fallback { fits key (Amount (option_row key).fallback) ≡ true }
    ensures value { result ≡ held entries.now section.now key }
    ensures fits { fits key (Amount result) ≡ true }
{
    amount(entries, section, key)
}

/// The signed number that holds for an option, which is within its limits.
#[tactic(auto, using(crate::proofs::Fitting::signed_fits))]
pub fn limited_signed(entries: &[Entry], section: &Section, key: Key) -> i64
    requires fit { list_all entry_fits entries.now ≡ true }
    requires zero { fits key (Signed (pos 0)) ≡ true }
    ensures value { result ≡ held_signed entries.now section.now key }
    ensures fits { fits key (Signed result) ≡ true }
{
    signed(entries, section, key)
}

/// The pins of a board, in the order of the lines that hold.
fn pins_on(alloc: Global, board: &[u8], uses: &[Use]) -> Result<Listed<Name>, AllocError>
    ensures value { IfOk result (λ pins. pins ≡ specs.pins_on board.now [] uses.now) }
    ensures few { IfOk result (λ pins. length pins ≤ length uses.now) }
    ensures differ { IfOk result (λ pins. AllPairs (λ p q. p ≢ q) pins) }
{
    let mut pins = Vec::new(alloc);
    let mut rest = uses;
    while let [first, others @ ..] = rest {
        if first.pin.board.as_bytes() == board {
            add_name(&mut pins, first.pin.name.as_bytes())?;
        }
        rest = others;
    }
    Ok(Listed::of(pins))
}

fn frequency(entries: &[Entry], board: &Section) -> u32
    requires { list_all entry_fits entries.now ≡ true }
    ensures value { result ≡ held entries.now board.now ClockFreq }
    ensures valid { IsValidFreq result }
{
    limited(entries, board, Key::ClockFreq) as u32
}

fn start_clock(entries: &[Entry], board: &Section) -> u64
    requires { list_all entry_fits entries.now ≡ true }
    ensures value { result ≡ held entries.now board.now StartClock }
    ensures valid { result ≤ 1_099_511_627_776 }
{
    limited(entries, board, Key::StartClock)
}

fn slots(entries: &[Entry], board: &Section) -> u32
    requires { list_all entry_fits entries.now ≡ true }
    ensures value { result ≡ held entries.now board.now MoveSlots }
    ensures low { 64 ≤ result }
    ensures high { result ≤ 4_096 }
{
    limited(entries, board, Key::MoveSlots) as u32
}

fn drift(entries: &[Entry], board: &Section) -> i16
    requires { list_all entry_fits entries.now ≡ true }
    ensures value { result ≡ held_signed entries.now board.now DriftPpm }
    ensures low { negsuc 199 ≤ℤ result }
    ensures high { result ≤ℤ pos 200 }
{
    limited_signed(entries, board, Key::DriftPpm) as i16
}

fn board_of(
    alloc: Global,
    entries: &[Entry],
    uses: &[Use],
    name: &[u8],
) -> Result<BoardDef, AllocError>
    requires fit { list_all entry_fits entries.now ≡ true }
    requires few { length uses.now ≤ 49 }
    requires short { length name.now ≤ 16 }
    ensures value { IfOk result (λ board. board ≡ board_def entries.now uses.now name.now) }
    ensures valid { IfOk result (λ board. IsValidBoard board) }
{
    let section = Section::Simulated(Name::new(name));
    let pins = pins_on(alloc, name, uses)?;
    Ok(BoardDef {
        name: Name::new(name),
        freq: frequency(entries, &section),
        start: start_clock(entries, &section),
        slots: slots(entries, &section),
        drift: drift(entries, &section),
        pins,
    })
}

/// The place of a name among others.
fn place_among(name: &[u8], names: &[Name]) -> Option<usize>
    ensures value { result ≡ specs.place_among 0 name.now names.now }
    ensures inside { IfSome result (λ place. place < length names.now) }
{
    let mut place = 0;
    let mut rest = names;
    while let [first, others @ ..] = rest {
        if first.as_bytes() == name {
            return Some(place);
        }
        place += 1;
        rest = others;
    }
    None
}

/// The boards, in the order of their sections.
pub fn boards_of(
    alloc: Global,
    entries: &[Entry],
    uses: &[Use],
    names: &[Name],
) -> Result<Listed<BoardDef>, AllocError>
    requires fit { list_all entry_fits entries.now ≡ true }
    requires few { length uses.now ≤ 49 }
    requires differ { AllPairs (λ p q. p ≢ q) names.now }
    ensures differ { IfOk result (λ boards. NamesDiffer boards) }
    ensures value { IfOk result (λ boards. boards ≡ board_defs entries.now uses.now names.now) }
    ensures valid { IfOk result (λ boards. All IsValidBoard boards) }
    ensures count { IfOk result (λ boards. length boards ≡ length names.now) }
{
    let mut boards = Listed::new(alloc);
    for name in names {
        boards.push(board_of(alloc, entries, uses, name.as_bytes())?)?;
    }
    Ok(boards)
}

/// The wire of a pin that is in use.
fn wire_at_pin(boards: &[BoardDef], wire: &Use) -> Option<Wire>
    requires few { length boards.now ≤ 8 }
    requires pins { All IsValidBoard boards.now }
    ensures value { result ≡ wire_at 0 wire.now boards.now }
    ensures board { IfSome result (λ found. found.board < length boards.now) }
    ensures pin { IfSome result (λ found. found.pin < length (slice_index_or boards.now found.board no_board).pins) }
{
    for (place, board) in boards.iter().enumerate() {
        if board.name.as_bytes() == wire.pin.board.as_bytes() {
            let pin = place_among(wire.pin.name.as_bytes(), board.pins.as_slice())?;
            return Some(Wire {
                line: wire.line,
                board: place as u8,
                pin: pin as u8,
                inverted: wire.pin.inverted,
            });
        }
    }
    None
}

/// The wire of a stepper's option.
#[tactic(auto, unfolding(crate::specs::Building::wire_of))]
pub fn find_wire(
    entries: &[Entry],
    boards: &[BoardDef],
    motor: Motor,
    key: Key,
) -> Result<Wire, CfgFault>
    requires few { length boards.now ≤ 8 }
    requires pins { All IsValidBoard boards.now }
    ensures value { result ≡ wire_of entries.now boards.now motor key }
    ensures board { IfOk result (λ found. found.board < length boards.now) }
    ensures pin { IfOk result (λ found. found.pin < length (slice_index_or boards.now found.board no_board).pins) }
{
    match pin_of(entries, &Section::Stepper(motor), key) {
        None => Err(CfgFault::At {
            line: section_line(entries, &Section::Stepper(motor)),
            kind: CfgKind::Missing,
        }),
        Some(pin) => match wire_at_pin(boards, &pin) {
            None => Err(CfgFault::At {
                line: pin.line,
                kind: CfgKind::UnknownBoard,
            }),
            Some(found) => Ok(found),
        },
    }
}

/// The part fan, where the configuration has one.
pub fn fan_of(entries: &[Entry], boards: &[BoardDef]) -> Result<Option<FanDef>, CfgFault>
    requires few { length boards.now ≤ 8 }
    requires pins { All IsValidBoard boards.now }
    ensures value { result ≡ fan_def entries.now boards.now }
    ensures valid { IfOk result (λ fan. IsFanOn boards.now fan) }
{
    match pin_of(entries, &Section::Fan, Key::FanPin) {
        None => Ok(None),
        Some(pin) => match wire_at_pin(boards, &pin) {
            None => Err(CfgFault::At {
                line: pin.line,
                kind: CfgKind::UnknownBoard,
            }),
            Some(Wire { board, pin, .. }) => Ok(Some(FanDef { board, pin })),
        },
    }
}
