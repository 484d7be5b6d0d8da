//! The reading of a table.

ghost use Rattle.std.specs.Prelude.{◌≡◌, ◌&&◌, ◌+◌, ◌*◌, ◌<◌, ◌≤◌, ◌^◌, ◌++◌, List, ℤ, Ok, Some, None, Err, IfNone, IfSome, IfOk, IfErr, OnOk, All, length, slice_index_or, unsigned_abs, pos, true, false};
ghost use Rattle.std.specs.List.{list_all};
ghost use Rattle.text_core.specs.Lines.{lines_of};
ghost use Rattle.text_core.specs.Words.{words_of, worded_lines};
ghost use Rattle.bed_mesh.specs.Grids.{IsValidGrid, IsValidMesh};
ghost use Rattle.bed_mesh.specs.Tables as specs;
ghost use Rattle.bed_mesh.specs.Tables.{AnswersMesh, AnswersRows, IsFaultAt, chosen, grids_of, six_grids, head_of, numbers_of, mesh_of_text, height_row, rows_of, word_number};

use crate::fault::MeshFault;
use crate::mesh::{Grid, Mesh};
use plan_types::{Listed, MeshKind};
use std::alloc::{AllocError, Global};
use text_core::{WordedLine, next_line, next_word, short_number};

/// The most bytes that a table has.
const LIMIT: usize = 1_048_576;

/// A millimetre, in nm.
const MILLIMETRE: u64 = 1_000_000;

/// What begins a comment.
const COMMENT: u8 = b'#';

/// The number that a whole word spells, in millionths.
fn word_number(word: &[u8]) -> Option<i64>
    ensures value { result ≡ word_number word.now }
{
    let (number, rest) = short_number(word)?;
    if rest.is_empty() { Some(number) } else { None }
}

/// Adds the numbers of a line of so many words. Answers whether there are so many and each is a number.
fn push_numbers(into: &mut Vec<i64>, words: &[u8], count: u64) -> Result<bool, AllocError>
    ensures numbers { IfOk result (λ are. are ≡ true →
        (numbers : List ℤ) × (numbers_of count (words_of words.now) ≡ Some numbers)
        × (into.new.items ≡ into.old.items ++ numbers)) }
    ensures size { IfOk result (λ are. are ≡ true → length into.new.items ≡ length into.old.items + count) }
    ensures none { IfOk result (λ are. are ≡ false → numbers_of count (words_of words.now) ≡ None) }
{
    let mut left = count;
    let mut rest = words;
    while let Some((word, others)) = next_word(rest) {
        let Some(number) = word_number(word) else {
            return Ok(false);
        };
        if left == 0 {
            return Ok(false);
        }
        into.push(number)?;
        left -= 1;
        rest = others;
    }
    Ok(left == 0)
}

/// Whether a number is of whole millimetres.
fn is_whole(number: i64) -> bool
    ensures { result ≡ specs.is_whole number }
{
    number.unsigned_abs() % MILLIMETRE == 0
}

/// Whether a number lies within these limits.
fn is_between(low: i64, high: i64, number: i64) -> bool
    ensures { result ≡ specs.is_between low high number }
{
    low <= number && number <= high
}

/// A grid from its first line, its step and its number of lines, each in millionths, where they are within the limits.
fn grid(from: i64, step: i64, count: i64) -> Option<Grid>
    ensures value { result ≡ specs.grid_if from step count }
    ensures valid { IfSome result (λ g. IsValidGrid g) }
{
    if is_between(-500_000_000, 500_000_000, from)
        && is_between(1_000_000, 500_000_000, step)
        && is_between(2_000_000, 64_000_000, count)
    {
        return Some(Grid {
            from,
            step: step.unsigned_abs(),
            count: count.unsigned_abs() / MILLIMETRE,
        });
    }
    None
}

/// The grids of x and y.
#[derive(Clone, Copy)]
struct Grids {
    x: Grid,
    y: Grid,
}

/// The grids of x and y, where their counts are whole and both are within the limits.
fn choose(whole: bool, x: Option<Grid>, y: Option<Grid>) -> Result<Grids, MeshKind>
    requires x { IfSome x (λ g. IsValidGrid g) }
    requires y { IfSome y (λ g. IsValidGrid g) }
    ensures ok { IfOk result (λ g. chosen whole x y ≡ Ok (g.x, g.y)) }
    ensures err { IfErr result (λ kind. chosen whole x y ≡ Err kind) }
    ensures x { IfOk result (λ g. IsValidGrid g.x) }
    ensures y { IfOk result (λ g. IsValidGrid g.y) }
{
    if !whole {
        return Err(MeshKind::BadLine);
    }
    let Some(x) = x else {
        return Err(MeshKind::OutOfLimit);
    };
    let Some(y) = y else {
        return Err(MeshKind::OutOfLimit);
    };
    Ok(Grids { x, y })
}

/// Whether two numbers are of whole millimetres.
fn are_whole(one: i64, two: i64) -> bool
    ensures { result ≡ (specs.is_whole one && specs.is_whole two) }
{
    is_whole(one) && is_whole(two)
}

/// The grids of x and y from their first lines, steps and numbers of lines.
fn two_grids(x: i64, y: i64, dx: i64, dy: i64, nx: i64, ny: i64) -> Result<Grids, MeshKind>
    ensures ok { IfOk result (λ g. six_grids x y dx dy nx ny ≡ Ok (g.x, g.y)) }
    ensures err { IfErr result (λ kind. six_grids x y dx dy nx ny ≡ Err kind) }
    ensures x { IfOk result (λ g. IsValidGrid g.x) }
    ensures y { IfOk result (λ g. IsValidGrid g.y) }
{
    choose(are_whole(nx, ny), grid(x, dx, nx), grid(y, dy, ny))
}

/// The number at a place.
fn number_at(numbers: &[i64], place: usize) -> i64
    requires { place < length numbers.now }
    ensures { result ≡ slice_index_or numbers.now place (pos 0) }
{
    numbers[place]
}

/// The grids of x and y from the numbers of the first line.
fn read_grids(numbers: &[i64]) -> Result<Grids, MeshKind>
    requires { length numbers.now ≡ 6 }
    ensures ok { IfOk result (λ g. grids_of (Some numbers.now) ≡ Ok (g.x, g.y)) }
    ensures err { IfErr result (λ kind. grids_of (Some numbers.now) ≡ Err kind) }
    ensures x { IfOk result (λ g. IsValidGrid g.x) }
    ensures y { IfOk result (λ g. IsValidGrid g.y) }
{
    let x = number_at(numbers, 0);
    let y = number_at(numbers, 1);
    let dx = number_at(numbers, 2);
    let dy = number_at(numbers, 3);
    let nx = number_at(numbers, 4);
    let ny = number_at(numbers, 5);
    two_grids(x, y, dx, dy, nx, ny)
}

/// Reads the first line: the word `mesh` and six numbers.
fn read_head(alloc: Global, line: &WordedLine) -> Result<Grids, MeshFault>
    ensures ok { IfOk result (λ g. head_of (words_of line.now.words.now) ≡ Ok (g.x, g.y)) }
    ensures fault { IfErr result (IsFaultAt line.now.number (head_of (words_of line.now.words.now))) }
    ensures x { IfOk result (λ g. IsValidGrid g.x) }
    ensures y { IfOk result (λ g. IsValidGrid g.y) }
{
    let bad = MeshFault::At {
        line: line.number,
        kind: MeshKind::BadLine,
    };
    let Some((word, rest)) = next_word(line.words) else {
        return Err(bad);
    };
    if word != b"mesh".as_slice() {
        return Err(bad);
    }
    let mut numbers = Vec::new(alloc);
    if !push_numbers(&mut numbers, rest, 6)? {
        return Err(bad);
    }
    match read_grids(&numbers) {
        Ok(grids) => Ok(grids),
        Err(kind) => Err(MeshFault::At {
            line: line.number,
            kind,
        }),
    }
}

/// Whether all heights are within the limits.
fn are_heights(heights: &[i64]) -> bool
    ensures { result ≡ list_all specs.is_height heights.now }
{
    heights
        .iter()
        .all(|height| height.unsigned_abs() <= 5_000_000)
}

/// Adds the heights of a row.
fn push_row(heights: &mut Vec<i64>, line: &WordedLine, count: u64) -> Result<(), MeshFault>
    ensures row { OnOk result ((row : List ℤ) × (height_row count (words_of line.now.words.now) ≡ Ok row)
        × (heights.new.items ≡ heights.old.items ++ row)) }
    ensures fault { IfErr result (IsFaultAt line.now.number (height_row count (words_of line.now.words.now))) }
    ensures count { OnOk result (length heights.new.items ≡ length heights.old.items + count) }
    ensures limits { OnOk result (All (λ h. unsigned_abs h ≤ 5_000_000) heights.old.items →
        All (λ h. unsigned_abs h ≤ 5_000_000) heights.new.items) }
{
    let before = heights.len();
    if !push_numbers(heights, line.words, count)? {
        return Err(MeshFault::At {
            line: line.number,
            kind: MeshKind::BadLine,
        });
    }
    if !are_heights(&heights[before..]) {
        return Err(MeshFault::At {
            line: line.number,
            kind: MeshKind::OutOfLimit,
        });
    }
    Ok(())
}

/// Reads the rows below the first line, where the text's first line has this number.
fn read_rows(alloc: Global, grids: &Grids, text: &[u8], number: u64) -> Result<Vec<i64>, MeshFault>
    requires { number + length text.now < 2 ^ 64 }
    ensures rows { AnswersRows result
        (rows_of grids.now.x.count grids.now.y.count (worded_lines 35 number (lines_of text.now))) }
    ensures count { IfOk result (λ rows. length rows.items ≡ grids.now.x.count * grids.now.y.count) }
    ensures limits { IfOk result (λ rows. All (λ h. unsigned_abs h ≤ 5_000_000) rows.items) }
{
    let mut heights = Vec::new(alloc);
    let mut left = grids.y.count;
    let mut number = number;
    let mut rest = text;
    while let Some(line) = next_line(rest, number, COMMENT) {
        if left == 0 {
            return Err(MeshFault::At {
                line: line.number,
                kind: MeshKind::BadLine,
            });
        }
        push_row(&mut heights, &line, grids.x.count)?;
        left -= 1;
        number = line.number + 1;
        rest = line.rest;
    }
    if left > 0 {
        return Err(MeshFault::At {
            line: 0,
            kind: MeshKind::Missing,
        });
    }
    Ok(heights)
}

/// Reads a table: the mesh that its lines say, or its first fault. A line that begins with `#` behind blanks
/// is a comment.
///
/// # Errors
///
/// The first fault: `TooLarge` above 1,048,576 bytes, at line 0, before the others; then line by line `BadLine` before
/// `OutOfLimit`; then `Missing` at line 0, where the first line or a row isn't there. `Memory` where memory is wanted.
#[tactic(auto, unfolding(crate::specs::Tables::mesh_of_text))]
pub fn read_mesh(alloc: Global, text: &[u8]) -> Result<Mesh, MeshFault>
    ensures answer { AnswersMesh result (mesh_of_text text.now) }
    ensures valid { IfOk result (λ mesh. IsValidMesh mesh) }
{
    if text.len() > LIMIT {
        return Err(MeshFault::At {
            line: 0,
            kind: MeshKind::TooLarge,
        });
    }
    let Some(head) = next_line(text, 1, COMMENT) else {
        return Err(MeshFault::At {
            line: 0,
            kind: MeshKind::Missing,
        });
    };
    let grids = read_head(alloc, &head)?;
    let heights = read_rows(alloc, &grids, head.rest, head.number + 1)?;
    Ok(Mesh {
        x: grids.x,
        y: grids.y,
        heights: Listed::of(heights),
    })
}
