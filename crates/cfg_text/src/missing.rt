//! What a configuration must have, and the ranges of its axes.

ghost use Rattle.std.specs.Prelude.{◌≡◌, ◌<◌, length, IfNone, ◌≤◌, ◌+ℤ◌, ◌≤ℤ◌, pos, unsigned_abs, true, IsTrue, IfOk};
ghost use Rattle.std.specs.List.{list_all};
ghost use Rattle.cfg_lines.specs.declared.value.Value.TheVariants.{Signed};
ghost use Rattle.cfg_text.specs.Holding.{signed as held_signed};
ghost use Rattle.cfg_lines.specs.Items.{entry_fits};
ghost use Rattle.cfg_text.specs.Valid.{IsValidRange};
ghost use Rattle.cfg_lines.specs.Values.{fits};
ghost use Rattle.cfg_lines.specs.declared.section.Section.TheVariants.{Fan, Printer, Stepper};
ghost use Rattle.cfg_text.specs.Missing as specs;
ghost use Rattle.cfg_text.specs.Missing.{missing_of, missing_stepper, missing_digits, missing_drives, missing_board, missing_fan, digits, or_fault, printer_needs, stepper_needs, axis_needs, axis_section};

use crate::holding::{last_set, section_line, signed};
use crate::seat::limited_signed;
use cfg_lines::fault::CfgFault;
use cfg_lines::first_pass::{has_motor, has_name};
use cfg_lines::item::Entry;
use cfg_lines::section::{Drive, Motor, Section};
use cfg_lines::table::{Key, is_axis};
use plan_types::{CfgKind, Name};

/// The first of these options that a section does not set.
fn missing_among(entries: &[Entry], section: &Section, keys: &[Key]) -> Option<CfgFault>
    ensures { result ≡ missing_of entries.now section.now keys.now }
{
    let mut rest = keys;
    while let [key, others @ ..] = rest {
        if last_set(entries, section, *key).is_none() {
            return Some(CfgFault::At {
                line: section_line(entries, section),
                kind: CfgKind::Missing,
            });
        }
        rest = others;
    }
    None
}

fn missing_in_printer(entries: &[Entry]) -> Option<CfgFault>
    ensures { result ≡ missing_of entries.now Printer printer_needs }
{
    let needs = [Key::Kinematics, Key::MaxVelocity, Key::MaxAccel];
    missing_among(entries, &Section::Printer, needs.as_slice())
}

fn missing_in_stepper(entries: &[Entry], motor: Motor) -> Option<CfgFault>
    ensures { result ≡ missing_of entries.now (Stepper motor) stepper_needs }
{
    let needs = [
        Key::StepPin,
        Key::DirPin,
        Key::RotationDistance,
        Key::Microsteps,
    ];
    missing_among(entries, &Section::Stepper(motor), needs.as_slice())
}

fn missing_in_axis(entries: &[Entry], motor: Motor) -> Option<CfgFault>
    ensures { result ≡ missing_of entries.now (Stepper motor) axis_needs }
{
    let needs = [
        Key::StepPin,
        Key::DirPin,
        Key::RotationDistance,
        Key::Microsteps,
        Key::EndstopPin,
        Key::PositionEndstop,
        Key::PositionMax,
    ];
    missing_among(entries, &Section::Stepper(motor), needs.as_slice())
}

fn missing_for(entries: &[Entry], steppers: &[Motor], motor: Motor) -> Option<CfgFault>
    ensures { result ≡ missing_stepper entries.now steppers.now motor }
{
    if is_axis(motor) {
        return missing_in_axis(entries, motor);
    }
    if has_motor(steppers, motor) {
        return missing_in_stepper(entries, motor);
    }
    None
}

fn missing_in_digits(
    entries: &[Entry],
    steppers: &[Motor],
    drive: Drive,
    numbers: &[u8],
) -> Option<CfgFault>
    ensures { result ≡ missing_digits entries.now steppers.now drive numbers.now }
{
    let mut rest = numbers;
    while let [first, others @ ..] = rest {
        let motor = Motor {
            drive,
            digit: *first,
        };
        let fault = missing_for(entries, steppers, motor);
        if fault.is_some() {
            return fault;
        }
        rest = others;
    }
    None
}

/// What is missing in the stepper sections of a coordinate.
fn missing_in_drive(entries: &[Entry], steppers: &[Motor], drive: Drive) -> Option<CfgFault>
    ensures { result ≡ missing_digits entries.now steppers.now drive digits }
{
    let numbers: [u8; 10] = [0, 1, 2, 3, 4, 5, 6, 7, 8, 9];
    missing_in_digits(entries, steppers, drive, numbers.as_slice())
}

fn first_of(one: Option<CfgFault>, later: Option<CfgFault>) -> Option<CfgFault>
    ensures { result ≡ or_fault one later }
{
    match one {
        Some(fault) => Some(fault),
        None => later,
    }
}

fn missing_in_drives(entries: &[Entry], steppers: &[Motor]) -> Option<CfgFault>
    ensures { result ≡ missing_drives entries.now steppers.now }
{
    let extruder = Motor {
        drive: Drive::E,
        digit: 0,
    };
    let x = missing_in_drive(entries, steppers, Drive::X);
    let y = missing_in_drive(entries, steppers, Drive::Y);
    let z = missing_in_drive(entries, steppers, Drive::Z);
    let e = missing_for(entries, steppers, extruder);
    first_of(x, first_of(y, first_of(z, e)))
}

fn missing_in_fan(entries: &[Entry]) -> Option<CfgFault>
    ensures { result ≡ missing_fan entries.now }
{
    if section_line(entries, &Section::Fan) == 0 {
        return None;
    }
    let needs = [Key::FanPin];
    missing_among(entries, &Section::Fan, needs.as_slice())
}

fn missing_main_board(boards: &[Name]) -> Option<CfgFault>
    ensures value { result ≡ missing_board boards.now }
    ensures some { IfNone result (0 < length boards.now) }
{
    if has_name(boards, b"mcu".as_slice()) {
        None
    } else {
        Some(CfgFault::At {
            line: 0,
            kind: CfgKind::Missing,
        })
    }
}

/// What is missing first, in the order of the table.
#[tactic(auto, unfolding(crate::specs::Missing::missing))]
pub fn first_missing(entries: &[Entry], boards: &[Name], steppers: &[Motor]) -> Option<CfgFault>
    ensures value { result ≡ specs.missing entries.now boards.now steppers.now }
    ensures some { IfNone result (0 < length boards.now) }
{
    let printer = missing_in_printer(entries);
    let board = missing_main_board(boards);
    let drives = missing_in_drives(entries, steppers);
    let fan = missing_in_fan(entries);
    first_of(printer, first_of(board, first_of(drives, fan)))
}

/// The range of an axis and the place of its endstop, in nm.
#[derive(Clone, Copy)]
pub struct Range {
    pub low: i64,
    pub high: i64,
    pub endstop: i64,
}

/// Whether an axis is at least 1 mm long, and its endstop lies on it.
fn is_sound(range: Range) -> bool
    ensures value { result ≡ specs.is_sound range }
    ensures apart { IsTrue result → (range.low +ℤ pos 1_000_000) ≤ℤ range.high }
    ensures above { IsTrue result → range.low ≤ℤ range.endstop }
    ensures below { IsTrue result → range.endstop ≤ℤ range.high }
{
    let least = range.low as i128 + 1_000_000;
    if least > range.high as i128 {
        return false;
    }
    if range.endstop < range.low {
        return false;
    }
    range.endstop <= range.high
}

fn range_set(entries: &[Entry], section: &Section) -> Range
    requires fit { list_all entry_fits entries.now ≡ true }
    ensures value { result ≡ specs.range_set entries.now section.now }
    ensures low { unsigned_abs result.low ≤ 500_000_000 }
    ensures high { unsigned_abs result.high ≤ 500_000_000 }
{
    let low = limited_signed(entries, section, Key::PositionMin);
    let high = limited_signed(entries, section, Key::PositionMax);
    let endstop = signed(entries, section, Key::PositionEndstop);
    Range { low, high, endstop }
}

/// The range of an axis, unless it is too short or its endstop lies outside.
#[tactic(auto, unfolding(crate::specs::Missing::range_of))]
pub fn range_of(entries: &[Entry], axis: Drive) -> Result<Range, CfgFault>
    requires fit { list_all entry_fits entries.now ≡ true }
    ensures value { result ≡ specs.range_of entries.now axis }
    ensures valid { IfOk result (λ range. IsValidRange range) }
{
    let section = Section::Stepper(Motor {
        drive: axis,
        digit: 0,
    });
    let range = range_set(entries, &section);
    if is_sound(range) {
        return Ok(range);
    }
    let line = match last_set(entries, &section, Key::PositionMax) {
        Some(entry) => entry.line,
        None => 0,
    };
    Err(CfgFault::At {
        line,
        kind: CfgKind::OutOfLimit,
    })
}
