//! The lines that are written for what a line of G-code does.

ghost use Rattle.std.specs.Prelude.{◌≡◌, ◌+◌, ◌≤◌, ◌^◌, pos, ◌-ℤ◌, ◌∷◌, [], ◌++◌, All, length, IfErr, IfNone, IfOk, IfSome, OnOk, unsigned_abs};
ghost use Rattle.bed_mesh.specs.Cuts.{IsOnTheWay};
ghost use Rattle.bed_mesh.specs.Grids.{IsValidMesh, height};
ghost use Rattle.gcode_state.specs.States.{IsValidAction};
ghost use Rattle.plan_types.specs.Sections.{IsReachable};
ghost use Rattle.plan_types.specs.Valid.{IsValidMove};
ghost use Rattle.bed_mesh.specs.Files.{accepted_state};
ghost use Rattle.bed_mesh.specs.BentLines as specs;
ghost use Rattle.bed_mesh.specs.BentLines.{acceleration_line, at, last_by, letter_if, lines_by, move_line, move_lines, new_acceleration};
ghost use Rattle.bed_mesh.specs.Room.{AreWritten, HasLineRoom, IsNearPlace, IsWhy};

use crate::Mesh;
use crate::back::{Halt, end_line, put_line};
use crate::number::put_word;
use gcode_state::{Action, Modes};
use plan_types::Move;
use report_text::Piece::{Number, Text};
use std::alloc::{AllocError, Global};

/// The bed's height at a place.
fn height_at(mesh: &Mesh, place: &[i64; 4]) -> i64
    requires mesh { IsValidMesh mesh.now }
    requires near { IsNearPlace place.now }
    ensures value { result ≡ height mesh.now (at place.now 0) (at place.now 1) }
    ensures low { unsigned_abs result ≤ 20_000_000 }
{
    mesh.height(place[0], place[1])
}

/// The height of a place over a bed, with the bed's height there.
fn raised(mesh: &Mesh, place: &[i64; 4]) -> i64
    requires mesh { IsValidMesh mesh.now }
    requires near { IsNearPlace place.now }
    ensures { result ≡ specs.raised mesh.now place.now }
{
    place[2] + height_at(mesh, place)
}

/// A change of E.
fn change_of(from: &[i64; 4], place: &[i64; 4]) -> i64
    requires from { unsigned_abs (at from.now 3) ≤ 2 ^ 61 }
    requires near { IsNearPlace place.now }
    ensures { result ≡ at place.now 3 -ℤ at from.now 3 }
{
    place[3] - from[3]
}

/// Adds the line of a move.
#[tactic(auto, unfolding(crate::specs::BentLines::move_line))]
fn put_move(
    text: &mut Vec<u8>,
    mesh: &Mesh,
    speed: u64,
    from: &[i64; 4],
    place: &[i64; 4],
) -> Result<(), AllocError>
    requires mesh { IsValidMesh mesh.now }
    requires speed { speed ≤ 1_000_000_000 }
    requires from { unsigned_abs (at from.now 3) ≤ 2 ^ 61 }
    requires near { IsNearPlace place.now }
    ensures { OnOk result (text.new.items ≡ text.old.items ++ move_line mesh.now speed from.now place.now) }
{
    put_word(text, b"G1 X", place[0])?;
    put_word(text, b" Y", place[1])?;
    put_word(text, b" Z", raised(mesh, place))?;
    put_word(text, b" E", change_of(from, place))?;
    put_word(text, b" F", (60 * speed) as i64)
}

/// Writes the line of a move to a place.
fn put_end(
    text: &mut Vec<u8>,
    mesh: &Mesh,
    speed: u64,
    from: &[i64; 4],
    place: &[i64; 4],
    start: usize,
    modes: &mut Modes,
) -> Result<(), Halt>
    requires mesh { IsValidMesh mesh.now }
    requires speed { speed ≤ 1_000_000_000 }
    requires from { unsigned_abs (at from.now 3) ≤ 2 ^ 61 }
    requires near { IsNearPlace place.now }
    requires room { HasLineRoom start modes.old text.old.items }
    ensures written { OnOk result (AreWritten start modes.old text.old.items
        (move_line mesh.now speed from.now place.now ∷ []) modes.new text.new.items) }
    ensures why { IfErr result (λ halt. IsWhy halt
        (accepted_state (start + length text.old.items) modes.old (move_line mesh.now speed from.now place.now ∷ []))) }
{
    let behind = text.len();
    put_move(text, mesh, speed, from, place)?;
    end_line(text, behind, start, modes)
}

/// The first of some places, and the others.
fn first_of(places: &[[i64; 4]]) -> Option<(&[i64; 4], &[[i64; 4]])>
    ensures some { IfSome result (λ p. places.now ≡ p.0.now ∷ p.1.now) }
    ensures none { IfNone result (places.now ≡ []) }
{
    match places {
        [place, others @ ..] => Some((place, others)),
        [] => None,
    }
}

/// Writes the lines of moves to several places, one behind the other.
fn put_ends(
    text: &mut Vec<u8>,
    mesh: &Mesh,
    speed: u64,
    from: &[i64; 4],
    places: &[[i64; 4]],
    start: usize,
    modes: &mut Modes,
) -> Result<(), Halt>
    requires mesh { IsValidMesh mesh.now }
    requires speed { speed ≤ 1_000_000_000 }
    requires from { unsigned_abs (at from.now 3) ≤ 2 ^ 61 }
    requires near { All IsNearPlace places.now }
    requires room { HasLineRoom start modes.old text.old.items }
    ensures written { OnOk result (AreWritten start modes.old text.old.items
        (move_lines mesh.now speed from.now places.now) modes.new text.new.items) }
    ensures why { IfErr result (λ halt. IsWhy halt
        (accepted_state (start + length text.old.items) modes.old (move_lines mesh.now speed from.now places.now))) }
{
    let mut last = from;
    let mut rest = places;
    while let Some((place, others)) = first_of(rest) {
        put_end(text, mesh, speed, last, place, start, modes)?;
        last = place;
        rest = others;
    }
    Ok(())
}

/// Writes the line of a new acceleration, where it isn't the one that was written last.
fn put_acceleration(
    text: &mut Vec<u8>,
    last: u64,
    acceleration: u64,
    start: usize,
    modes: &mut Modes,
) -> Result<(), Halt>
    requires small { acceleration ≤ 100_000_000_000 }
    requires room { HasLineRoom start modes.old text.old.items }
    ensures written { OnOk result
        (AreWritten start modes.old text.old.items (new_acceleration last acceleration) modes.new text.new.items) }
    ensures why { IfErr result
        (λ halt. IsWhy halt (accepted_state (start + length text.old.items) modes.old
        (new_acceleration last acceleration))) }
{
    if acceleration == last {
        return Ok(());
    }
    let from = text.len();
    put_word(text, b"M204 S", acceleration as i64)?;
    end_line(text, from, start, modes)
}

/// Writes the lines of a move.
fn put_moves(
    alloc: Global,
    text: &mut Vec<u8>,
    mesh: &Mesh,
    last: u64,
    m: &Move,
    start: usize,
    modes: &mut Modes,
) -> Result<(), Halt>
    requires mesh { IsValidMesh mesh.now }
    requires valid { IsValidMove m.now }
    requires reachable { IsReachable m.now }
    requires room { HasLineRoom start modes.old text.old.items }
    ensures written { OnOk result
        (AreWritten start modes.old text.old.items (specs.all_lines mesh.now last m.now) modes.new text.new.items) }
    ensures why { IfErr result (λ halt.
        IsWhy halt (accepted_state (start + length text.old.items) modes.old (specs.all_lines mesh.now last m.now))) }
{
    put_acceleration(text, last, m.a, start, modes)?;
    let ends = mesh.cut(alloc, m)?;
    put_ends(text, mesh, m.v, &m.from, &ends, start, modes)
}

/// The letter of an axis behind a blank, where it is homed.
fn letter_if(named: bool, letter: &'static [u8]) -> &'static [u8]
    ensures { result.now ≡ letter_if named letter.now }
{
    if named { letter } else { b"" }
}

/// Writes the lines of what a line of G-code does.
pub(crate) fn put_action(
    alloc: Global,
    text: &mut Vec<u8>,
    mesh: &Mesh,
    last: u64,
    action: &Action,
    start: usize,
    modes: &mut Modes,
) -> Result<(), Halt>
    requires mesh { IsValidMesh mesh.now }
    requires valid { IsValidAction action.now }
    requires room { HasLineRoom start modes.old text.old.items }
    ensures written { OnOk result
        (AreWritten start modes.old text.old.items (lines_by mesh.now last action.now) modes.new text.new.items) }
    ensures why { IfErr result
        (λ halt. IsWhy halt (accepted_state (start + length text.old.items) modes.old
        (lines_by mesh.now last action.now))) }
{
    match action {
        Action::None => Ok(()),
        Action::Move(m) => put_moves(alloc, text, mesh, last, m, start, modes),
        Action::Dwell(ms) => put_line(text, &[Text(b"G4 P"), Number(*ms)], start, modes),
        Action::Home([x, y, z]) => put_line(
            text,
            &[
                Text(b"G28"),
                Text(letter_if(*x, b" X")),
                Text(letter_if(*y, b" Y")),
                Text(letter_if(*z, b" Z")),
            ],
            start,
            modes,
        ),
        Action::Wait => put_line(text, &[Text(b"M400")], start, modes),
        Action::Stop => put_line(text, &[Text(b"M112")], start, modes),
    }
}

/// The acceleration that is written last behind what a line of G-code does.
pub(crate) fn last_by(last: u64, action: &Action) -> u64
    ensures { result ≡ last_by last action.now }
{
    match action {
        Action::Move(m) => m.a,
        _ => last,
    }
}
