//! What a line of a scene says.

ghost use Rattle.std.specs.Prelude.{◌≡◌, ◌<◌, ◌≤◌, All, length, IfSome, IsTrue};
ghost use Rattle.plan_types.specs.Machines.{IsValidBoard};
ghost use Rattle.text_core.specs.Words.{words_of};
ghost use Rattle.wire_scene.specs.Entries as specs;
ghost use Rattle.wire_scene.specs.Entries.{board_from, pin_from, pins_on, deed_in, moment_of, on_line, line_item, connect_item, at_pin, switch_item, meant, is_on_boards};

use crate::scene::{Deed, Entry, Switch, Way};
use crate::word::number_in;
use plan_types::{BoardDef, Name, SceneKind};
use text_core::{cut, is_end, next_word, without_return};

/// The most turns that a block is delayed by.
const LONGEST: u64 = 100_000;

/// The last tick at which a pin's level changes.
const LAST_TICK: u64 = 9_223_372_036_854_775_807;

/// What a line says.
#[derive(Clone, Copy)]
pub enum Item {
    /// Blanks and a comment.
    Nothing,
    /// What happens to a block.
    OnLine(Entry),
    /// The level of a pin from a tick on.
    AtPin(Switch),
    Wrong(SceneKind),
}

/// The number of the board of a name.
fn board_named(boards: &[BoardDef], name: &[u8]) -> Option<u8>
    requires { length boards.now ≤ 8 }
    ensures value { result ≡ board_from 0 boards.now name.now }
    ensures there { IfSome result (λ board. board < length boards.now) }
{
    let mut place: u8 = 0;
    let mut rest = boards;
    while let [first, others @ ..] = rest {
        if first.name.as_bytes() == name {
            return Some(place);
        }
        place += 1;
        rest = others;
    }
    None
}

/// The number of the pin of a name.
fn pin_named(pins: &[Name], name: &[u8]) -> Option<u8>
    requires { length pins.now ≤ 256 }
    ensures { result ≡ pin_from 0 pins.now name.now }
{
    let mut place: usize = 0;
    let mut rest = pins;
    while let [first, others @ ..] = rest {
        if first.as_bytes() == name {
            return Some(place as u8);
        }
        place += 1;
        rest = others;
    }
    None
}

/// What happens to a block, without a number.
fn plain_deed(word: &[u8]) -> Option<Deed>
    ensures { result ≡ specs.plain_deed word.now }
{
    if word == b"drop".as_slice() {
        Some(Deed::Drop)
    } else if word == b"repeat".as_slice() {
        Some(Deed::Repeat)
    } else {
        None
    }
}

/// A delay of so many turns.
fn delay(word: &[u8], turns: &[u8]) -> Option<Deed>
    ensures { result ≡ specs.delay word.now turns.now }
{
    if word != b"delay".as_slice() {
        return None;
    }
    let turns = number_in(1, LONGEST, turns)?;
    Some(Deed::Delay(turns as u32))
}

/// A change of a byte.
fn garble(word: &[u8], at: &[u8], xor: &[u8]) -> Option<Deed>
    ensures { result ≡ specs.garble word.now at.now xor.now }
{
    if word != b"garble".as_slice() {
        return None;
    }
    let at = number_in(0, u64::MAX, at)?;
    let xor = number_in(1, 255, xor)?;
    Some(Deed::Garble { at, xor: xor as u8 })
}

/// What happens to a block, as the words of the text say.
fn deed_in(text: &[u8]) -> Option<Deed>
    ensures { result ≡ deed_in (words_of text.now) }
{
    let (deed, rest) = next_word(text)?;
    let Some((first, behind)) = next_word(rest) else {
        return plain_deed(deed);
    };
    let Some((second, end)) = next_word(behind) else {
        return delay(deed, first);
    };
    if !is_end(end) {
        return None;
    }
    garble(deed, first, second)
}

/// An entry on the line of a board.
fn entry_at(board: Option<u8>, way: Way, connecting: bool, number: u64, deed: Deed) -> Item
    requires { IfSome board (λ board. board < 8) }
    ensures value { result ≡ on_line board way connecting number deed }
    ensures boards { IsTrue (is_on_boards 8 result) }
{
    match board {
        None => Item::Wrong(SceneKind::UnknownBoard),
        Some(board) => Item::OnLine(Entry {
            board,
            way,
            connecting,
            number,
            deed,
        }),
    }
}

/// What a line says behind `down` or `up`.
fn entry_in(boards: &[BoardDef], way: Way, connecting: bool, text: &[u8]) -> Item
    requires { length boards.now ≤ 8 }
    ensures value { result ≡ line_item boards.now way connecting (words_of text.now) }
    ensures boards { IsTrue (is_on_boards 8 result) }
{
    let Some((board, behind)) = next_word(text) else {
        return Item::Wrong(SceneKind::BadLine);
    };
    let Some((number, deed)) = next_word(behind) else {
        return Item::Wrong(SceneKind::BadLine);
    };
    match (number_in(0, u64::MAX, number), deed_in(deed)) {
        (Some(number), Some(deed)) => {
            entry_at(board_named(boards, board), way, connecting, number, deed)
        }
        _ => Item::Wrong(SceneKind::BadLine),
    }
}

/// The level that a word says.
fn level_in(word: &[u8]) -> Option<bool>
    ensures { result ≡ specs.level_in word.now }
{
    match word {
        [b'0'] => Some(false),
        [b'1'] => Some(true),
        _ => None,
    }
}

/// A tick and the level from it on.
fn moment_in(text: &[u8]) -> Option<(u64, bool)>
    ensures { result ≡ moment_of (words_of text.now) }
{
    let (tick, behind) = next_word(text)?;
    let (level, rest) = next_word(behind)?;
    if !is_end(rest) {
        return None;
    }
    Some((number_in(0, LAST_TICK, tick)?, level_in(level)?))
}

/// The level of a pin of a board from a tick on.
fn switch_on(boards: &[BoardDef], board: u8, pin: &[u8], moment: (u64, bool), line: u64) -> Item
    requires board { board < length boards.now }
    requires few { length boards.now ≤ 8 }
    requires boards { All IsValidBoard boards.now }
    ensures value { result ≡ at_pin line board (pin_from 0 (pins_on boards.now board) pin.now) moment }
    ensures boards { IsTrue (is_on_boards 8 result) }
{
    match pin_named(boards[board as usize].pins.as_slice(), pin) {
        None => Item::Wrong(SceneKind::BadLine),
        Some(pin) => Item::AtPin(Switch {
            board,
            pin,
            tick: moment.0,
            level: moment.1,
            line,
        }),
    }
}

/// What a line says behind `switch`.
fn switch_in(boards: &[BoardDef], line: u64, text: &[u8]) -> Item
    requires few { length boards.now ≤ 8 }
    requires boards { All IsValidBoard boards.now }
    ensures value { result ≡ switch_item boards.now line (words_of text.now) }
    ensures boards { IsTrue (is_on_boards 8 result) }
{
    let Some((board, behind)) = next_word(text) else {
        return Item::Wrong(SceneKind::BadLine);
    };
    let Some((pin, moment)) = next_word(behind) else {
        return Item::Wrong(SceneKind::BadLine);
    };
    let Some(moment) = moment_in(moment) else {
        return Item::Wrong(SceneKind::BadLine);
    };
    match board_named(boards, board) {
        None => Item::Wrong(SceneKind::UnknownBoard),
        Some(board) => switch_on(boards, board, pin, moment, line),
    }
}

/// What a line says behind `connect`.
fn connect_in(boards: &[BoardDef], text: &[u8]) -> Item
    requires { length boards.now ≤ 8 }
    ensures value { result ≡ connect_item boards.now (words_of text.now) }
    ensures boards { IsTrue (is_on_boards 8 result) }
{
    let Some((first, rest)) = next_word(text) else {
        return Item::Wrong(SceneKind::BadLine);
    };
    if first == b"down".as_slice() {
        entry_in(boards, Way::Down, true, rest)
    } else if first == b"up".as_slice() {
        entry_in(boards, Way::Up, true, rest)
    } else {
        Item::Wrong(SceneKind::BadLine)
    }
}

/// What a line says.
pub fn meaning(boards: &[BoardDef], line: u64, text: &[u8]) -> Item
    requires few { length boards.now ≤ 8 }
    requires boards { All IsValidBoard boards.now }
    ensures value { result ≡ meant boards.now line text.now }
    ensures boards { IsTrue (is_on_boards 8 result) }
{
    let Some((first, rest)) = next_word(cut(without_return(text), b'#')) else {
        return Item::Nothing;
    };
    if first == b"down".as_slice() {
        entry_in(boards, Way::Down, false, rest)
    } else if first == b"up".as_slice() {
        entry_in(boards, Way::Up, false, rest)
    } else if first == b"connect".as_slice() {
        connect_in(boards, rest)
    } else if first == b"switch".as_slice() {
        switch_in(boards, line, rest)
    } else {
        Item::Wrong(SceneKind::BadLine)
    }
}
