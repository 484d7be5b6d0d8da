//! The line between host and board, one way, which loses, repeats and delays blocks by a scene.

ghost use Rattle.std.specs.Prelude.{◌≡◌, ◌↔◌, ℕ, ◌+◌, ◌^◌, ◌<◌, ◌≤◌, [], ◌∷◌, ◌++◌, length, max, slice_index_or, ◌==◌, ◌&&◌, IsTrue, IsSome, IfOk, IfSome, IfNone, OnOk, OnErr, true};
ghost use Rattle.wire_scene.specs.Scenes.{NumbersRise};
ghost use Rattle.wire_scene.specs.Wire.{Line, AreFoundOut, IsOldest, IsQuiet, RiseFrom, after_due, entries_behind, calm_from, changed, comes_of, connect, number_behind, deed_of, delay_of, dues_left, entries_of, fate_of, is_oldest_due, new_line, put_on, same_time, same_way};
ghost use Rattle.block_frame.specs.Spoils.{is_found_out};
ghost use Rattle.wire_scene.specs.declared.wire.Fate.TheVariants.{Garbled, Lost};
ghost use Rattle.std.specs.Prelude.{bit_xor, slice_index, slice_set, if◌then◌else◌};

mod laws;

use crate::scene::{Deed, Entry, Scene, Way};
use block_frame::{Block, spoils};
pub use laws::{blocks_are_due, blocks_keep_order, lines_are_quiet};
use std::alloc::{AllocError as OutOfMemory, Global};
use std::collections::VecDeque;
use std::marker::Model;
use std::mem::swap;

/// What happens to a block at the end of its line.
#[derive(Clone, Copy, Debug, PartialEq, Eq)]
pub enum Fate {
    /// It leaves the line without arriving.
    Lost,
    /// It arrives and leaves the line.
    Last,
    /// It arrives and stays, to arrive once more.
    Stays,
    /// It comes with a changed byte, by which it is no block any more, and leaves the line.
    Garbled,
}

/// A block at the end of its line, and what happens to it.
#[derive(Drop)]
pub struct Came {
    pub block: Block,
    pub fate: Fate,
}

// A block under way, what the scene says of it, the turn in which it is due, and what happens to it then.
#[derive(Drop)]
struct Underway {
    block: Block,
    deed: Option<Deed>,
    due: u64,
    fate: Fate,
}

/// A line, one way, on which blocks are under way.
///
/// Blocks arrive in the order in which they were put. One that was put in turn k is due in turn k, or, where
/// the scene delays it by T turns, in turn k + T; but not before one that was put earlier. A block that the
/// scene changes comes in its turn, but doesn't arrive. While connecting the scene's entries for that time
/// are used, and then the others, for which blocks count from 0 anew.
#[derive(Drop)]
pub struct Wire {
    entries: VecDeque<Entry>,
    later: VecDeque<Entry>,
    connected: bool,
    number: u64,
    last: u64,
    calm: u64,
    copies: VecDeque<Underway>,
}

impl Model for Wire {
    ghost use Rattle.wire_scene.specs.Wire.{Line, RiseFrom};

    ghost Value = { Line };

    ghost use Rattle.wire_scene.specs.WireViews.{copies_of};

    ghost view = { λ w. record {
      entries = w.entries.items;
      later = w.later.items;
      connected = w.connected;
      number = w.number;
      last = w.last;
      calm = w.calm;
      copies = copies_of w.copies.items;
    } };

    ghost use Rattle.wire_scene.specs.Wire.{AreFoundOut};

    ghost invariant = { λ w.
        RiseFrom w.number w.entries.items × RiseFrom 0 w.later.items × AreFoundOut (copies_of w.copies.items) };
}

impl Wire {
    /// The line down to a board or up from it, without blocks, while connecting. It keeps the scene's entries
    /// of that line.
    #[tactic(auto, using(crate::proofs::Wires::rises))]
    pub fn new(alloc: Global, s: &Scene, board: u8, way: Way) -> Result<Wire, OutOfMemory>
        requires { NumbersRise s.now.entries }
        ensures { IfOk result (λ w. w ≡ new_line board way s.now.entries) }
    {
        let entries = entries_of(alloc, s.entries.as_slice(), board, way, true)?;
        let later = entries_of(alloc, s.entries.as_slice(), board, way, false)?;
        Ok(Wire {
            entries,
            later,
            connected: false,
            number: 0,
            last: 0,
            calm: 0,
            copies: VecDeque::new(alloc),
        })
    }

    /// Puts a block behind the others in a turn. A want of memory changes nothing.
    #[tactic(auto, using(crate::proofs::Wires::copies_push))]
    pub fn put(&mut self, turn: u64, b: Block) -> Result<(), OutOfMemory>
        requires { turn < 2 ^ 63 }
        ensures ok { OnOk result (self.new ≡ put_on self.old turn b.items) }
        ensures err { OnErr result (self.new ≡ self.old) }
    {
        let deed = deed_of(&self.entries, self.number);
        let due = due_turn(self.last, turn, deed);
        let fate = fate_of(deed, &b);
        self.copies.push_back(Underway {
            block: b,
            deed,
            due,
            fate,
        })?;
        self.number = count(&mut self.entries, self.number);
        self.last = due;
        self.calm = calm_from(self.calm, turn, deed);
        Ok(())
    }

    /// What happens next to the oldest block, where it is due in this turn. It takes no memory.
    #[tactic(auto, using(crate::proofs::Wires::one_fewer))]
    pub fn due(&mut self, turn: u64) -> Option<Came>
        ensures some { IsSome result ↔ (is_oldest_due turn self.old.copies ≡ true) }
        ensures came { IfSome result (λ c. IsOldest self.old.copies c.block.items c.fate) }
        ensures garbled { IfSome result (λ c. c.fate ≡ Garbled → is_found_out c.block.items ≡ true) }
        ensures after { self.new ≡ after_due self.old turn }
        ensures fewer { IsSome result → dues_left self.new.copies + 1 ≡ dues_left self.old.copies }
    {
        next_due(&mut self.copies, turn)
    }

    /// Connecting has ended: from now on blocks count from 0 anew, and the entries for later are used. A
    /// second call changes nothing.
    pub fn connected(&mut self)
        ensures { self.new ≡ connect self.old }
    {
        take_over(self.connected, &mut self.entries, &mut self.later);
        if !self.connected {
            self.number = 0;
        }
        self.connected = true;
    }

    /// Whether the line is quiet in this turn: nothing is under way, and no entry was used in the turn, the four turns
    /// before it, or later.
    #[tactic(auto, using(crate::proofs::Wires::no_copies, crate::proofs::Wires::some_copies))]
    pub fn quiet(&self, turn: u64) -> bool
        ensures { IsTrue result ↔ IsQuiet self.now turn }
    {
        self.copies.is_empty() && self.calm <= turn
    }
}

ghost use Rattle.wire_scene.specs.Wire.{copies_left};
ghost use Rattle.wire_scene.specs.declared.wire.Underway.{Underway};
ghost use Rattle.wire_scene.specs.declared.wire.Fate.TheVariants.{Stays};
ghost use Rattle.wire_scene.specs.WireViews.{copies_of};

/// The entries for later take the place of those for the time while connecting, unless they did so before.
fn take_over(connected: bool, entries: &mut VecDeque<Entry>, later: &mut VecDeque<Entry>)
    ensures entries { entries.new.items ≡ (if connected then entries.old.items else later.old.items) }
    ensures later { later.new.items ≡ (if connected then later.old.items else []) }
{
    if !connected {
        swap(entries, later);
        later.clear();
    }
}

/// The entries of a line, while connecting or later.
fn entries_of(
    alloc: Global,
    entries: &[Entry],
    board: u8,
    way: Way,
    connecting: bool,
) -> Result<VecDeque<Entry>, OutOfMemory>
    ensures { IfOk result (λ found. found.items ≡ entries_of board way connecting entries.now) }
{
    let mut found = VecDeque::new(alloc);
    for entry in entries {
        add_of(&mut found, entry, board, way, connecting)?;
    }
    Ok(found)
}

/// Adds an entry where it is one of a line.
fn add_of(
    found: &mut VecDeque<Entry>,
    entry: &Entry,
    board: u8,
    way: Way,
    connecting: bool,
) -> Result<(), OutOfMemory>
    ensures { OnOk result (found.new.items ≡ found.old.items ++ entries_of board way connecting (entry.now ∷ [])) }
{
    if is_of(entry, board, way, connecting) {
        found.push_back(*entry)?;
    }
    Ok(())
}

/// Whether an entry is one of a line, while connecting or later.
fn is_of(entry: &Entry, board: u8, way: Way, connecting: bool) -> bool
    ensures { result
        ≡ (entry.now.board == board) && same_way entry.now.way way && same_time entry.now.connecting connecting }
{
    entry.board == board && entry.way == way && entry.connecting == connecting
}

/// What happens to the block of this number, before which no entry is.
#[tactic(auto, using(crate::proofs::Wires::not_first))]
fn deed_of(entries: &VecDeque<Entry>, number: u64) -> Option<Deed>
    requires { RiseFrom number entries.now.items }
    ensures { result ≡ deed_of number entries.now.items }
{
    let first = entries.front()?;
    if first.number == number {
        Some(first.deed)
    } else {
        None
    }
}

/// Drops the entry of the block of this number, where there is one, and counts the block while others are left.
fn count(entries: &mut VecDeque<Entry>, number: u64) -> u64
    requires { RiseFrom number entries.old.items }
    ensures entries { entries.new.items ≡ entries_behind number entries.old.items }
    ensures number { result ≡ number_behind number entries.new.items }
    ensures rise { RiseFrom result entries.new.items }
{
    drop_entry(entries, number);
    match entries.front() {
        Some(next) => number_after(number, next),
        None => number,
    }
}

/// The number behind another, which isn't the last: there is an entry behind it.
fn number_after(number: u64, next: &Entry) -> u64
    requires { number < next.now.number }
    ensures { result ≡ number + 1 }
{
    number + 1
}

/// Drops the entry of the block of this number, where there is one.
#[tactic(auto, using(crate::proofs::Wires::first_dropped, crate::proofs::Wires::first_kept))]
fn drop_entry(entries: &mut VecDeque<Entry>, number: u64)
    requires { RiseFrom number entries.old.items }
    ensures entries { entries.new.items ≡ entries_behind number entries.old.items }
    ensures rise { RiseFrom (number + 1) entries.new.items }
{
    if let Some(first) = entries.front() {
        if first.number == number {
            entries.pop_front();
        }
    }
}

/// The turn in which a block is due behind another.
fn due_turn(last: u64, turn: u64, deed: Option<Deed>) -> u64
    requires { turn < 2 ^ 63 }
    ensures { result ≡ max last (turn + delay_of deed) }
{
    let own = match deed {
        Some(Deed::Delay(turns)) => turn + u64::from(turns),
        _ => turn,
    };
    last.max(own)
}

/// What happens to a block when it is due.
fn fate_of(deed: Option<Deed>, block: &Block) -> Fate
    ensures { result ≡ fate_of deed block.now.items }
{
    match deed {
        Some(Deed::Drop) => Fate::Lost,
        Some(Deed::Repeat) => Fate::Stays,
        Some(Deed::Garble { at, xor }) => fate_of_changed(&changed(block, at, xor)),
        _ => Fate::Last,
    }
}

/// What happens to a changed block.
fn fate_of_changed(block: &Block) -> Fate
    ensures { result ≡ (if is_found_out block.now.items then Garbled else Lost) }
{
    if spoils(block) {
        Fate::Garbled
    } else {
        Fate::Lost
    }
}

/// What comes of a block.
fn comes_of(deed: Option<Deed>, block: &Block) -> Block
    ensures { result.items ≡ comes_of deed block.now.items }
{
    match deed {
        Some(Deed::Garble { at, xor }) => changed(block, at, xor),
        _ => copy_of(block),
    }
}

/// A block of which one byte behind the first is changed.
fn changed(block: &Block, at: u64, xor: u8) -> Block
    ensures { result.items ≡ changed at xor block.now.items }
{
    let mut copy = copy_of(block);
    if copy.len() > 1 {
        let place = 1 + (at % (copy.len() as u64 - 1)) as usize;
        change(copy.as_mut_slice(), place, xor);
    }
    copy
}

/// Changes a byte.
fn change(bytes: &mut [u8], place: usize, xor: u8)
    requires { place < length bytes.old }
    ensures { bytes.new ≡ slice_set bytes.old place (bit_xor (slice_index bytes.old place) xor) }
{
    bytes[place] ^= xor;
}

/// From which turn on a line is calm, once an entry, or none, was used in a turn.
fn calm_from(calm: u64, turn: u64, deed: Option<Deed>) -> u64
    requires { turn < 2 ^ 63 }
    ensures { result ≡ calm_from calm turn deed }
{
    match deed {
        Some(_) => calm.max(turn + 5),
        None => calm,
    }
}

/// A block of the same bytes.
fn copy_of(block: &Block) -> Block
    ensures { result.items ≡ block.now.items }
{
    let mut copy = Block::new();
    let _ = copy.try_extend_from_slice(block.as_slice());
    copy
}

/// The oldest block, which arrives twice, arrives, and is to arrive once more.
fn arrive_once(under_way: &mut VecDeque<Underway>) -> Came
    requires some { 0 < length under_way.old.items }
    requires stays { (d : Underway) → (slice_index_or under_way.old.items 0 d).fate ≡ Stays }
    ensures came { IsOldest (copies_of under_way.old.items) result.block.items result.fate }
    ensures left { copies_of under_way.new.items ≡ copies_left (copies_of under_way.old.items) }
{
    let first = &mut under_way[0];
    first.fate = Fate::Last;
    Came {
        block: comes_of(first.deed, &first.block),
        fate: Fate::Stays,
    }
}

/// What happens next to the oldest block, where it is due in this turn.
fn next_due(under_way: &mut VecDeque<Underway>, turn: u64) -> Option<Came>
    ensures some { IsSome result ↔ (is_oldest_due turn (copies_of under_way.old.items) ≡ true) }
    ensures came { IfSome result (λ c. IsOldest (copies_of under_way.old.items) c.block.items c.fate) }
    ensures left { IsSome result → copies_of under_way.new.items ≡ copies_left (copies_of under_way.old.items) }
    ensures unchanged { IfNone result (under_way.new.items ≡ under_way.old.items) }
{
    let first = under_way.front()?;
    if first.due > turn {
        return None;
    }
    if first.fate == Fate::Stays {
        return Some(arrive_once(under_way));
    }
    let first = under_way.pop_front()?;
    Some(Came {
        block: comes_of(first.deed, &first.block),
        fate: first.fate,
    })
}
