//! The pins that are in use, and what is wrong with them.

ghost use Rattle.std.specs.Prelude.{◌≡◌, ◌≤◌, ◌+◌, ◌*◌, ◌<◌, [], ◌∷◌, ◌++◌, length, take, drop, Option, IfOk, OnOk, option_map, insert};
ghost use Rattle.cfg_text.specs.Wiring as specs;
ghost use Rattle.cfg_text.specs.Wiring.{pin_use, wired, put, put_some, with_pins_of, uses_of, first_strange, first_twice, first_astray, fault_at, earlier, all_uses, wiring_fault};

use crate::holding::last_set;
use cfg_lines::fault::CfgFault;
use cfg_lines::first_pass::has_name;
use cfg_lines::item::{Entry, Item};
use cfg_lines::section::{Motor, Section, copied, same_section};
use cfg_lines::table::{Key, same_key};
use cfg_lines::value::{Pin, Value};
use plan_types::{CfgKind, Name};
use std::alloc::{AllocError, Global};

/// A pin that holds for an option of a section.
#[derive(Drop)]
pub struct Use {
    pub line: u64,
    pub section: Section,
    pub key: Key,
    pub pin: Pin,
}

fn copied_use(line: u64, section: &Section, key: Key, pin: &Pin) -> Use
    ensures { result ≡ pin_use line section.now key pin.now }
{
    Use {
        line,
        section: copied(section),
        key,
        pin: Pin {
            board: Name::new(pin.board.as_bytes()),
            name: Name::new(pin.name.as_bytes()),
            inverted: pin.inverted,
        },
    }
}

/// The pin that holds for an option of a section.
#[tactic(auto, unfolding(crate::specs::Wiring::wired))]
pub fn pin_of(entries: &[Entry], section: &Section, key: Key) -> Option<Use>
    ensures { result ≡ wired entries.now section.now key }
{
    let entry = last_set(entries, section, key)?;
    match &entry.item {
        Item::Holds(_, _, Value::Pin(pin)) => Some(copied_use(entry.line, section, key, pin)),
        _ => None,
    }
}

/// How many of the pins stand on no later line.
fn place_for(line: u64, uses: &[Use]) -> usize
    ensures place { result ≡ specs.place_for line uses.now }
    ensures inside { result ≤ length uses.now }
{
    let mut place = 0;
    let mut rest = uses;
    while let [first, others @ ..] = rest {
        if line < first.line {
            break;
        }
        place += 1;
        rest = others;
    }
    place
}

/// Whether a line names a board that isn't declared.
fn is_strange(boards: &[Name], item: &Item) -> bool
    ensures { result ≡ specs.is_strange boards.now item.now }
{
    match item {
        Item::Opens(Section::Simulated(board)) => !has_name(boards, board.as_bytes()),
        Item::Holds(_, _, Value::Pin(pin)) => !has_name(boards, pin.board.as_bytes()),
        _ => false,
    }
}

fn strange_line(boards: &[Name], entries: &[Entry]) -> Option<u64>
    ensures { result ≡ first_strange boards.now entries.now }
{
    let mut rest = entries;
    while let [first, others @ ..] = rest {
        if is_strange(boards, &first.item) {
            return Some(first.line);
        }
        rest = others;
    }
    None
}

fn same_pin(one: &Pin, other: &Pin) -> bool
    ensures { result ≡ specs.same_pin one.now other.now }
{
    one.board.as_bytes() == other.board.as_bytes() && one.name.as_bytes() == other.name.as_bytes()
}

fn is_driver(wire: &Use) -> bool
    ensures { result ≡ specs.is_driver wire.now }
{
    same_key(wire.key, Key::StepPin) || same_key(wire.key, Key::DirPin)
}

fn clash(one: &Use, other: &Use) -> bool
    ensures { result ≡ specs.clash one.now other.now }
{
    same_pin(&one.pin, &other.pin) && (is_driver(one) || is_driver(other))
}

fn clashes(one: &Use, others: &[Use]) -> bool
    ensures { result ≡ specs.clashes one.now others.now }
{
    let mut rest = others;
    while let [first, more @ ..] = rest {
        if clash(one, first) {
            return true;
        }
        rest = more;
    }
    false
}

fn twice_line(uses: &[Use]) -> Option<u64>
    ensures { result ≡ first_twice [] uses.now }
{
    for (place, one) in uses.iter().enumerate() {
        if clashes(one, &uses[..place]) {
            return Some(one.line);
        }
    }
    None
}

fn parts(direction: &Use, other: &Use) -> bool
    ensures { result ≡ specs.parts direction.now other.now }
{
    same_key(direction.key, Key::DirPin)
        && same_key(other.key, Key::StepPin)
        && same_section(&direction.section, &other.section)
        && direction.pin.board.as_bytes() != other.pin.board.as_bytes()
}

fn is_astray(one: &Use, others: &[Use]) -> bool
    ensures { result ≡ specs.is_astray one.now others.now }
{
    let mut rest = others;
    while let [first, more @ ..] = rest {
        if parts(one, first) {
            return true;
        }
        rest = more;
    }
    false
}

fn astray_line(uses: &[Use]) -> Option<u64>
    ensures { result ≡ first_astray uses.now uses.now }
{
    let mut rest = uses;
    while let [first, others @ ..] = rest {
        if is_astray(first, uses) {
            return Some(first.line);
        }
        rest = others;
    }
    None
}

fn at(kind: CfgKind, line: Option<u64>) -> Option<CfgFault>
    ensures { result ≡ fault_at kind line }
{
    match line {
        Some(line) => Some(CfgFault::At { line, kind }),
        None => None,
    }
}

/// The fault of the earlier line, and of one line the first.
fn earlier_of(one: Option<CfgFault>, other: Option<CfgFault>) -> Option<CfgFault>
    ensures { result ≡ earlier one other }
{
    match (one, other) {
        (None, other) => other,
        (Some(CfgFault::At { line: first, kind }), Some(CfgFault::At { line, kind: later })) => {
            if line < first {
                Some(CfgFault::At { line, kind: later })
            } else {
                Some(CfgFault::At { line: first, kind })
            }
        }
        (one, _) => one,
    }
}

/// The first line that is wrong about a pin or a board.
#[tactic(auto, unfolding(crate::specs::Wiring::wiring_fault))]
pub fn fault_of_wiring(boards: &[Name], entries: &[Entry], uses: &[Use]) -> Option<CfgFault>
    ensures { result ≡ wiring_fault boards.now entries.now uses.now }
{
    let strange = at(CfgKind::UnknownBoard, strange_line(boards, entries));
    let twice = at(CfgKind::Twice, twice_line(uses));
    let astray = at(CfgKind::BadValue, astray_line(uses));
    earlier_of(strange, earlier_of(twice, astray))
}

#[tactic(auto, using(crate::proofs::Putting::put_insert))]
fn put_in(uses: &mut Vec<Use>, wire: Option<Use>) -> Result<(), AllocError>
    ensures value { OnOk result (uses.new.items ≡ put_some wire uses.old.items) }
    ensures few { OnOk result (length uses.new.items ≤ length uses.old.items + 1) }
{
    if let Some(wire) = wire {
        let place = place_for(wire.line, uses.as_slice());
        uses.insert(place, wire)?;
    }
    Ok(())
}

/// Adds the pins that hold for a stepper.
fn put_pins_of(entries: &[Entry], motor: Motor, uses: &mut Vec<Use>) -> Result<(), AllocError>
    ensures value { OnOk result (uses.new.items ≡ with_pins_of entries.now motor uses.old.items) }
    ensures few { OnOk result (length uses.new.items ≤ length uses.old.items + 3) }
{
    let section = Section::Stepper(motor);
    put_in(uses, pin_of(entries, &section, Key::StepPin))?;
    put_in(uses, pin_of(entries, &section, Key::DirPin))?;
    put_in(uses, pin_of(entries, &section, Key::EndstopPin))?;
    Ok(())
}

/// The pins that hold for steppers, in the order of their lines.
fn pins_of_steppers(
    alloc: Global,
    entries: &[Entry],
    steppers: &[Motor],
) -> Result<Vec<Use>, AllocError>
    ensures value { IfOk result (λ uses. uses.items ≡ uses_of entries.now steppers.now []) }
    ensures few { IfOk result (λ uses. length uses.items ≤ 3 * length steppers.now) }
{
    let mut uses = Vec::new(alloc);
    let mut rest = steppers;
    while let [motor, others @ ..] = rest {
        put_pins_of(entries, *motor, &mut uses)?;
        rest = others;
    }
    Ok(uses)
}

/// The pins that hold, in the order of their lines: those of the steppers and that of the part fan.
pub fn pins_in_use(
    alloc: Global,
    entries: &[Entry],
    steppers: &[Motor],
) -> Result<Vec<Use>, AllocError>
    ensures value { IfOk result (λ uses. uses.items ≡ all_uses entries.now steppers.now) }
    ensures few { IfOk result (λ uses. length uses.items ≤ 3 * length steppers.now + 1) }
{
    let mut uses = pins_of_steppers(alloc, entries, steppers)?;
    put_in(&mut uses, pin_of(entries, &Section::Fan, Key::FanPin))?;
    Ok(uses)
}
