//! The lines from the top: the first of their faults, or what they say of the machine.

ghost use Rattle.std.specs.Prelude.{◌≡◌, ◌≢◌, AllPairs, ℕ, ◌+◌, ◌^◌, ◌<◌, ◌≤◌, ◌++◌, [], length, vec_len, true, None, IfNone, IfOk, IfErr, OnOk, IsTrue};
ghost use Rattle.std.specs.List.{list_all};
ghost use Rattle.text_core.specs.Lines.{lines_of};
ghost use Rattle.cfg_lines.specs.Items as specs;
ghost use Rattle.cfg_lines.specs.Items.{fault_of, with_name, with_board, with_stepper, entry_of, entry_fits, item_fits, items, first_place, first_fault, entries, boards_behind, steppers_behind, passed_over};
ghost use Rattle.cfg_lines.specs.Faults.{IsFirstFault};

use crate::fault::CfgFault;
use crate::item::{Entry, Item, behind_line, meaning, top};
use crate::line::said;
use crate::section::{Motor, Section, same_motor};
use plan_types::{CfgKind, Name};
use std::alloc::{AllocError, Global};
use text_core::first_line;

/// The most boards and steppers that a machine has.
const BOARDS: usize = 8;

const STEPPERS: usize = 16;

/// What the lines of a configuration say, where none is wrong.
#[derive(Drop)]
pub struct Pass {
    /// The sections of the table and the options that are set, in order.
    pub entries: Vec<Entry>,
    /// The boards, in the order of their sections.
    pub boards: Vec<Name>,
    /// The steppers, in the order of their sections.
    pub steppers: Vec<Motor>,
    /// How many sections and options were passed over.
    pub passed: u64,
}

/// Whether a name is among these.
pub fn has_name(names: &[Name], name: &[u8]) -> bool
    ensures { result ≡ specs.has_name names.now name.now }
{
    let mut rest = names;
    while let [first, others @ ..] = rest {
        if first.as_bytes() == name {
            return true;
        }
        rest = others;
    }
    false
}

pub fn has_motor(motors: &[Motor], motor: Motor) -> bool
    ensures { result ≡ specs.has_motor motors.now motor }
{
    let mut rest = motors;
    while let [first, others @ ..] = rest {
        if same_motor(*first, motor) {
            return true;
        }
        rest = others;
    }
    false
}

/// The fault of one more where there are so many already.
fn crowd(is_there: bool, most: usize, count: usize) -> Option<CfgKind>
    ensures { result ≡ specs.crowded is_there most count }
{
    if !is_there && most <= count {
        Some(CfgKind::OutOfLimit)
    } else {
        None
    }
}

/// The fault of a line behind these boards and steppers.
fn fault(boards: &[Name], steppers: &[Motor], item: &Item) -> Option<CfgKind>
    ensures value { result ≡ fault_of boards.now steppers.now item.now }
    ensures few_boards { IfNone result (length boards.now ≤ 8 → length (with_board boards.now item.now) ≤ 8) }
    ensures few_steppers { IfNone result (length steppers.now ≤ 16 → length (with_stepper steppers.now item.now) ≤ 16) }
{
    match item {
        Item::Wrong(kind) => Some(*kind),
        Item::Opens(Section::Board(name)) => {
            crowd(has_name(boards, name.as_bytes()), BOARDS, boards.len())
        }
        Item::Opens(Section::Stepper(motor)) => {
            crowd(has_motor(steppers, *motor), STEPPERS, steppers.len())
        }
        _ => None,
    }
}

/// Adds a name, unless it is there.
pub fn add_name(names: &mut Vec<Name>, name: &[u8]) -> Result<(), AllocError>
    requires short { length name.now ≤ 16 }
    requires differ { AllPairs (λ p q. p ≢ q) names.old.items }
    ensures value { OnOk result (names.new.items ≡ with_name names.old.items name.now) }
    ensures differ { OnOk result (AllPairs (λ p q. p ≢ q) names.new.items) }
    ensures few { OnOk result (length names.new.items ≤ length names.old.items + 1) }
{
    if !has_name(names.as_slice(), name) {
        names.push(Name::new(name))?;
    }
    Ok(())
}

/// Adds the board of a line, unless it is there.
fn note_board(boards: &mut Vec<Name>, item: &Item) -> Result<(), AllocError>
    requires { AllPairs (λ p q. p ≢ q) boards.old.items }
    ensures value { OnOk result (boards.new.items ≡ with_board boards.old.items item.now) }
    ensures differ { OnOk result (AllPairs (λ p q. p ≢ q) boards.new.items) }
{
    if let Item::Opens(Section::Board(name)) = item {
        add_name(boards, name.as_bytes())?;
    }
    Ok(())
}

/// Adds the stepper of a line, unless it is there.
fn note_stepper(steppers: &mut Vec<Motor>, item: &Item) -> Result<(), AllocError>
    ensures { OnOk result (steppers.new.items ≡ with_stepper steppers.old.items item.now) }
{
    if let Item::Opens(Section::Stepper(motor)) = item {
        if !has_motor(steppers.as_slice(), *motor) {
            steppers.push(*motor)?;
        }
    }
    Ok(())
}

fn one_passed(item: &Item) -> u64
    ensures value { result ≡ specs.one_passed item.now }
    ensures small { result ≤ 1 }
{
    match item {
        Item::PassedOver => 1,
        _ => 0,
    }
}

/// Keeps what a line says of the machine.
fn keep(entries: &mut Vec<Entry>, line: u64, item: Item) -> Result<(), AllocError>
    ensures value { OnOk result (entries.new.items ≡ entries.old.items ++ entry_of line item) }
    ensures fit { OnOk result (IsTrue (item_fits item) → list_all entry_fits entries.old.items ≡ true →
        list_all entry_fits entries.new.items ≡ true) }
{
    match item {
        Item::Opens(section) => entries.push(Entry {
            line,
            item: Item::Opens(section),
        })?,
        Item::Holds(section, key, value) => entries.push(Entry {
            line,
            item: Item::Holds(section, key, value),
        })?,
        _ => {}
    }
    Ok(())
}

/// Reads the lines from the top.
pub fn first_pass(alloc: Global, text: &[u8]) -> Result<Pass, CfgFault>
    requires { length text.now ≤ 2 ^ 20 }
    ensures err { IfErr result (λ fault. IsFirstFault fault
        (first_fault [] [] 1 (items first_place (lines_of text.now)))) }
    ensures ok { OnOk result (first_fault [] [] 1 (items first_place (lines_of text.now)) ≡ None) }
    ensures entries { IfOk result (λ pass. pass.entries.items ≡ entries 1 (items first_place (lines_of text.now))) }
    ensures boards { IfOk result (λ pass. pass.boards.items
        ≡ boards_behind [] (items first_place (lines_of text.now))) }
    ensures steppers { IfOk result
        (λ pass. pass.steppers.items ≡ steppers_behind [] (items first_place (lines_of text.now))) }
    ensures few_boards { IfOk result (λ pass. length pass.boards.items ≤ 8) }
    ensures boards_differ { IfOk result (λ pass. AllPairs (λ p q. p ≢ q) pass.boards.items) }
    ensures few_steppers { IfOk result (λ pass. length pass.steppers.items ≤ 16) }
    ensures fit { IfOk result (λ pass. list_all entry_fits pass.entries.items ≡ true) }
    ensures passed { IfOk result (λ pass. pass.passed ≡ passed_over (items first_place (lines_of text.now))) }
{
    let mut entries = Vec::new(alloc);
    let mut boards = Vec::new(alloc);
    let mut steppers = Vec::new(alloc);
    let mut passed: u64 = 0;
    let mut place = top();
    let mut number: u64 = 1;
    let mut rest = text;
    while !rest.is_empty() {
        let (bytes, others) = first_line(rest);
        let line = said(bytes);
        let item = meaning(&place, line);
        if let Some(kind) = fault(boards.as_slice(), steppers.as_slice(), &item) {
            return Err(CfgFault::At { line: number, kind });
        }
        note_board(&mut boards, &item).map_err(CfgFault::Memory)?;
        note_stepper(&mut steppers, &item).map_err(CfgFault::Memory)?;
        passed += one_passed(&item);
        keep(&mut entries, number, item).map_err(CfgFault::Memory)?;
        place = behind_line(place, line);
        rest = others;
        number += 1;
    }
    Ok(Pass {
        entries,
        boards,
        steppers,
        passed,
    })
}
