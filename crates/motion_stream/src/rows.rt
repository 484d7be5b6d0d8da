//! The units of turns one behind the other.

ghost use Rattle.std.specs.Prelude.{◌≡◌, ℕ, ◌+◌, ◌<◌, ◌++◌, [], IfOk, OnOk, drop, false, map, slice_index_or, true};
ghost use Rattle.std.specs.List.{range_with_len};
ghost use Rattle.motion_work.specs.Feeds.{AreOfTurn};
ghost use Rattle.motion_stream.specs.Rows.{AreJoined, NoneWaits, batches_of, units_in};

use crate::OutOfMemory;
use msg_code::{Batch, Unit};
use plan_types::Listed;
use std::alloc::Global;
use std::collections::VecDeque;
use std::mem;

/// The units of each board in a turn.
pub type Row = Listed<Listed<Unit>>;

/// Adds the units of a board in a turn.
fn add_units(units: &mut Vec<Unit>, row: &[Listed<Unit>], board: usize) -> Result<(), OutOfMemory>
    ensures { OnOk result (units.new.items ≡ units.old.items ++ units_in row.now board) }
{
    if board >= row.len() {
        return Ok(());
    }
    units.extend_from_slice(row[board].as_slice())?;
    Ok(())
}

/// The units of a board in a turn, of two behind one another.
fn units_of(
    alloc: Global,
    one: &[Listed<Unit>],
    two: &[Listed<Unit>],
    board: usize,
) -> Result<Listed<Unit>, OutOfMemory>
    ensures { IfOk result (λ units. units ≡ units_in one.now board ++ units_in two.now board) }
{
    let mut units = Vec::new(alloc);
    add_units(&mut units, one, board)?;
    add_units(&mut units, two, board)?;
    Ok(Listed::of(units))
}

/// The units of so many boards in a turn, of two behind one another.
fn joined(
    alloc: Global,
    boards: usize,
    one: &[Listed<Unit>],
    two: &[Listed<Unit>],
) -> Result<Row, OutOfMemory>
    ensures { IfOk result (λ row. row ≡ map (λ b. units_in one.now b ++ units_in two.now b) (range_with_len 0 boards)) }
{
    let mut row = Listed::new(alloc);
    for board in 0..boards {
        let units = units_of(alloc, one, two, board)?;
        row.push(units)?;
    }
    Ok(row)
}

/// The batches of a turn for so many boards, with the units of two behind one another, in a list whose room
/// is used again.
pub fn batches_of(
    alloc: Global,
    boards: usize,
    turn: u64,
    one: &[Listed<Unit>],
    two: &[Listed<Unit>],
    room: Vec<Batch>,
) -> Result<Vec<Batch>, OutOfMemory>
    ensures value { IfOk result (λ made. made.items ≡ batches_of boards turn one.now two.now) }
    ensures turn { IfOk result (λ made. AreOfTurn turn boards made.items) }
{
    let mut made = room;
    made.clear();
    for board in 0..boards {
        let units = units_of(alloc, one, two, board)?;
        made.push(Batch {
            turn,
            units,
            end: false,
        })?;
    }
    Ok(made)
}

/// The batches of a turn in which no board has a unit, in a list whose room is used again.
pub fn bare_batches(
    alloc: Global,
    boards: usize,
    turn: u64,
    room: Vec<Batch>,
) -> Result<Vec<Batch>, OutOfMemory>
    ensures value { IfOk result (λ made. made.items ≡ batches_of boards turn [] []) }
    ensures turn { IfOk result (λ made. AreOfTurn turn boards made.items) }
{
    let mut made = room;
    made.clear();
    for _ in 0..boards {
        made.push(Batch {
            turn,
            units: Listed::new(alloc),
            end: false,
        })?;
    }
    Ok(made)
}

/// Takes the units of a board out of a row.
fn take_units(alloc: Global, row: &mut Vec<Listed<Unit>>, board: usize) -> Listed<Unit>
    ensures units { result ≡ units_in row.old.items board }
    ensures others { (b : ℕ) → board < b → units_in row.new.items b ≡ units_in row.old.items b }
{
    if board >= row.len() {
        return Listed::new(alloc);
    }
    mem::replace(&mut row[board], Listed::new(alloc))
}

/// The batches of a turn for so many boards, with the units of one row alone, in a list whose room is used again.
pub fn row_batches(
    alloc: Global,
    boards: usize,
    turn: u64,
    row: Vec<Listed<Unit>>,
    room: Vec<Batch>,
) -> Result<Vec<Batch>, OutOfMemory>
    ensures value { IfOk result (λ made. made.items ≡ batches_of boards turn [] row.items) }
    ensures turn { IfOk result (λ made. AreOfTurn turn boards made.items) }
{
    let mut row = row;
    let mut made = room;
    made.clear();
    for board in 0..boards {
        let units = take_units(alloc, &mut row, board);
        made.push(Batch {
            turn,
            units,
            end: false,
        })?;
    }
    Ok(made)
}

/// The units of the next turn, none where none are there.
pub fn next_row(alloc: Global, rows: &mut VecDeque<Row>) -> Row
    ensures row { result ≡ slice_index_or rows.old.items 0 [] }
    ensures rest { rows.new.items ≡ drop 1 rows.old.items }
{
    match rows.pop_front() {
        Some(row) => row,
        None => Listed::new(alloc),
    }
}

/// Turn by turn and board by board the units of two behind one another.
pub fn merged(
    alloc: Global,
    boards: usize,
    one: VecDeque<Row>,
    two: VecDeque<Row>,
) -> Result<VecDeque<Row>, OutOfMemory>
    ensures { IfOk result (λ rows. AreJoined boards one.items two.items rows.items) }
{
    if one.is_empty() {
        return Ok(two);
    }
    let mut one = one;
    let mut two = two;
    let most = one.len().max(two.len());
    let mut rows = VecDeque::new(alloc);
    for _ in 0..most {
        let front = next_row(alloc, &mut one);
        let behind = next_row(alloc, &mut two);
        let row = joined(alloc, boards, front.as_slice(), behind.as_slice())?;
        rows.push_back(row)?;
    }
    Ok(rows)
}

/// Whether a unit waits in a row, on one of so many boards.
fn row_waits(row: &[Listed<Unit>], boards: usize) -> bool
    ensures some { result ≡ true → ((b : ℕ) → b < boards → units_in row.now b ≡ []) → ⊥ }
    ensures none { result ≡ false → (b : ℕ) → b < boards → units_in row.now b ≡ [] }
{
    for board in 0..boards {
        if board < row.len() && !row[board].as_slice().is_empty() {
            return true;
        }
    }
    false
}

/// Whether a unit waits in some rows, on one of so many boards.
pub fn any_waits(rows: &VecDeque<Row>, boards: usize) -> bool
    ensures some { result ≡ true → NoneWaits boards rows.now.items → ⊥ }
    ensures none { result ≡ false → NoneWaits boards rows.now.items }
{
    for place in 0..rows.len() {
        if row_waits(rows[place].as_slice(), boards) {
            return true;
        }
    }
    false
}
