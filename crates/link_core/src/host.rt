//! The host's end of a link.
ghost use Rattle.std.specs.Prelude.{◌≡◌, ℕ, ◌+◌, ◌-◌, ◌%◌, ◌^◌, ◌<◌, ◌≤◌, ◌==◌, ◌↔◌, List, [], ◌∷◌, ◌++◌, length, drop, IsTrue, IsSome, IfSome, IfNone, OnOk, OnErr, true, false, None, slice_index_or, ◌⊎◌};
ghost use Rattle.block_frame.specs.Block.{block_text};
ghost use Rattle.link_core.specs.Core.{next_block, window};
ghost use Rattle.link_core.specs.Numbers.{IsNumberOnWire};
ghost use Rattle.link_core.specs.Host.{Host, acked_of, content_of, closes_last, with_queued, given, acked_by, put_again, IsResendDue};

use super::whole_number;
use arrayvec::ArrayVec;
use block_frame::{Block, build};
use std::alloc::{AllocError, Global};
use std::collections::VecDeque;
use std::marker::Model;

// A command that is in no block.
#[derive(Drop)]
struct Waiting {
    bytes: ArrayVec<u8, 59>,
    closes: bool,
}

// A block that the board hasn't acknowledged, and the turn in which it was last put.
#[derive(Default, Drop)]
struct Outstanding {
    content: ArrayVec<u8, 59>,
    put: u64,
}

/// The host's end.
#[derive(Drop)]
pub struct HostEnd {
    waiting: VecDeque<Waiting>,
    outstanding: ArrayVec<Outstanding, 12>,
    sent: u64,
    turn: u64,
    empty: Option<(u64, u64)>,
    closed: bool,
}

impl Model for HostEnd {
    ghost use Rattle.std.specs.Prelude.{◌≤◌, length};
    ghost use Rattle.link_core.specs.Host.{Host};

    ghost Value = { Host };

    ghost use Rattle.link_core.specs.Views.{commands, contents, puts};

    ghost view = { λ h. record {
      waiting = commands h.waiting.items;
      contents = contents h.outstanding.items;
      puts = puts h.outstanding.items;
      sent = h.sent;
      turn = h.turn;
      empty = h.empty;
      closed = h.closed;
    } };

    ghost invariant = { λ h. (length h.outstanding.items ≤ 12) × (length h.outstanding.items ≤ h.sent) };
}

impl HostEnd {
    /// An end to which nothing was given.
    pub fn new(alloc: Global) -> Self
        ensures { result
            ≡ record { waiting = []; contents = []; puts = []; sent = 0; turn = 0; empty = None; closed = false } }
    {
        HostEnd {
            waiting: VecDeque::new(alloc),
            outstanding: ArrayVec::new(),
            sent: 0,
            turn: 0,
            empty: None,
            closed: false,
        }
    }

    #[tactic(auto, using(crate::proofs::Views::commands_push))]
    /// Adds a command behind those that wait.
    pub fn queue(&mut self, c: &[u8], closes: bool) -> Result<(), AllocError>
        requires { (1 ≤ length c.now) × (length c.now ≤ 59) }
        ensures ok { OnOk result (self.new ≡ with_queued self.old c.now closes) }
        ensures err { OnErr result (self.new ≡ self.old) }
    {
        self.waiting.push_back(Waiting {
            bytes: bytes_of(c),
            closes,
        })?;
        Ok(())
    }

    /// How many blocks the board hasn't acknowledged. Of each it is known in which turn it was last put.
    #[tactic(auto, using(crate::proofs::Views::length_contents, crate::proofs::Views::length_puts))]
    pub fn outstanding(&self) -> usize
        ensures number { result ≡ length self.now.contents }
        ensures puts { result ≡ length self.now.puts }
    {
        self.outstanding.len()
    }

    /// The turn that was last given.
    pub fn last_turn(&self) -> u64
        ensures { result ≡ self.now.turn }
    {
        self.turn
    }

    /// How many blocks were given.
    pub fn sent(&self) -> u64
        ensures { result ≡ self.now.sent }
    {
        self.sent
    }

    /// The number of the oldest block that the board hasn't acknowledged, or of the next new one.
    #[tactic(auto, using(crate::proofs::Views::length_contents))]
    pub fn oldest(&self) -> u64
        ensures { result ≡ acked_of self.now }
    {
        self.sent - self.outstanding.len() as u64
    }

    #[tactic(auto, using(crate::proofs::Views::length_contents, crate::proofs::Views::length_commands, crate::proofs::Views::no_contents, crate::proofs::Views::no_commands))]
    /// Nothing waits, and nothing is outstanding.
    pub fn idle(&self) -> bool
        ensures { IsTrue result ↔ (self.now.waiting ≡ []) × (self.now.contents ≡ []) }
    {
        self.waiting.is_empty() && self.outstanding.is_empty()
    }

    /// Whether the last block ends with a command that closes it.
    pub fn closed(&self) -> bool
        ensures { result ≡ self.now.closed }
    {
        self.closed
    }

    #[tactic(auto, using(crate::proofs::Views::length_contents, crate::proofs::Views::length_commands, crate::proofs::Views::no_commands, crate::proofs::Views::commands_drop, crate::proofs::Views::contents_push, crate::proofs::Views::puts_push))]
    /// The next new block. There is none where 12 are outstanding or nothing waits.
    pub fn send(&mut self, turn: u64) -> Option<Block>
        requires { self.old.sent < 2 ^ 63 }
        ensures none { IfNone result ((12 ≤ length self.old.contents) ⊎ (self.old.waiting ≡ [])) }
        ensures unchanged { IfNone result (self.new ≡ self.old) }
        ensures some { IsSome result → (length self.old.contents < 12) × (0 < length self.old.waiting) }
        ensures given { IsSome result → self.new ≡ given self.old turn (next_block 59 self.old.waiting) }
        ensures block { IfSome result
            (λ b. b.items ≡ block_text (self.old.sent % 16) (content_of (next_block 59 self.old.waiting))) }
    {
        if self.outstanding.is_full() || self.waiting.is_empty() {
            return None;
        }
        let mut content = ArrayVec::new();
        self.closed = fill(&mut self.waiting, &mut content, self.closed);
        let block = build((self.sent % 16) as u8, content.as_slice());
        self.outstanding.push(Outstanding { content, put: turn });
        self.sent += 1;
        Some(block)
    }

    /// Whether the outstanding blocks are to be put again in this turn.
    #[tactic(auto, using(crate::proofs::Views::length_contents))]
    pub fn turn(&mut self, turn: u64) -> bool
        ensures due { IsTrue result ↔ IsResendDue self.old turn }
        ensures after { self.new ≡ record self.old { turn = turn } }
    {
        self.turn = turn;
        is_due(self.outstanding.as_slice(), self.sent, self.empty, turn)
    }

    /// The outstanding block at this place, which is put again.
    #[tactic(auto, using(crate::proofs::Views::length_contents))]
    pub fn again(&mut self, i: usize) -> Block
        requires { i < length self.old.contents }
        ensures block { result.items
            ≡ block_text ((acked_of self.old + i) % 16) (slice_index_or self.old.contents i []) }
        ensures after { self.new ≡ put_again self.old i }
    {
        let block = block_at(self.outstanding.as_slice(), self.sent, i);
        put_at(&mut self.outstanding, i, self.turn);
        block
    }

    /// Takes the number of a reply, and gives the whole number that it stands for. One that stands for none
    /// changes nothing, and gives the number of the oldest outstanding block, or the next new one.
    #[tactic(auto, using(crate::proofs::Views::length_contents, crate::proofs::Views::contents_drop, crate::proofs::Views::puts_drop))]
    pub fn acked(&mut self, number: u8, empty: bool) -> u64
        requires { number < 16 }
        ensures found { (w : ℕ) → IsNumberOnWire (acked_of self.old) self.old.sent number w →
            (result ≡ w) × (self.new ≡ acked_by self.old w empty) }
        ensures none { ((w : ℕ) → IsNumberOnWire (acked_of self.old) self.old.sent number w → ⊥) →
            (result ≡ acked_of self.old) × (self.new ≡ self.old) }
    {
        let oldest = self.sent - self.outstanding.len() as u64;
        let Some(n) = whole_number(oldest, self.sent, number) else {
            return oldest;
        };
        if empty && n == oldest && !self.outstanding.is_empty() {
            self.empty = Some((n, self.turn));
        }
        drop_first(&mut self.outstanding, (n - oldest) as usize);
        n
    }
}

/// The bytes as those of a command.
fn bytes_of(bytes: &[u8]) -> ArrayVec<u8, 59>
    requires { length bytes.now ≤ 59 }
    ensures { result.items ≡ bytes.now }
{
    let mut content = ArrayVec::new();
    append(&mut content, bytes);
    content
}

ghost use Rattle.link_core.specs.Views.{commands};

/// Moves the commands that fit into a block, up to one that closes it.
fn fill(waiting: &mut VecDeque<Waiting>, content: &mut ArrayVec<u8, 59>, closed: bool) -> bool
    ensures content { content.new.items
        ≡ content.old.items ++ content_of (next_block (59 - length content.old.items) (commands waiting.old.items)) }
    ensures rest { waiting.new.items
        ≡ drop (length (next_block (59 - length content.old.items) (commands waiting.old.items))) waiting.old.items }
    ensures closed { result
        ≡ closes_last closed (next_block (59 - length content.old.items) (commands waiting.old.items)) }
{
    let Some(first) = waiting.front() else {
        return closed;
    };
    if content.remaining_capacity() < first.bytes.len() {
        return closed;
    }
    let Some(first) = waiting.pop_front() else {
        return closed;
    };
    append(content, first.bytes.as_slice());
    if first.closes {
        true
    } else {
        fill(waiting, content, false)
    }
}

/// Appends bytes.
fn append(content: &mut ArrayVec<u8, 59>, bytes: &[u8])
    requires { length content.old.items + length bytes.now ≤ 59 }
    ensures { content.new.items ≡ content.old.items ++ bytes.now }
{
    for byte in bytes {
        content.push(*byte);
    }
}

ghost use Rattle.std.specs.Prelude.{slice_set, Option};
ghost use Rattle.link_core.specs.Host.{IsOld, HintIs};
ghost use Rattle.link_core.specs.Views.{contents, puts};

/// Drops the first blocks.
fn drop_first(outstanding: &mut ArrayVec<Outstanding, 12>, count: usize)
    requires { count ≤ length outstanding.old.items }
    ensures { outstanding.new.items ≡ drop count outstanding.old.items }
{
    for _i in 0..count {
        outstanding.remove(0);
    }
}

/// The block at this place.
#[tactic(auto, using(crate::proofs::Views::content_at))]
fn block_at(outstanding: &[Outstanding], sent: u64, i: usize) -> Block
    requires place { i < length outstanding.now }
    requires sent { length outstanding.now ≤ sent }
    ensures { result.items
        ≡ block_text ((sent - length outstanding.now + i) % 16) (slice_index_or (contents outstanding.now) i []) }
{
    let number = (sent - outstanding.len() as u64 + i as u64) % 16;
    build(number as u8, outstanding[i].content.as_slice())
}

/// Notes that a block was put in this turn.
fn put_at(outstanding: &mut ArrayVec<Outstanding, 12>, i: usize, turn: u64)
    requires { i < length outstanding.old.items }
    ensures contents { contents outstanding.new.items ≡ contents outstanding.old.items }
    ensures puts { puts outstanding.new.items ≡ slice_set (puts outstanding.old.items) i turn }
    ensures length { length outstanding.new.items ≡ length outstanding.old.items }
{
    let block = &mut outstanding.as_mut_slice()[i];
    block.put = turn;
}

/// Whether a block is old, or the board wants the oldest one.
fn is_due(outstanding: &[Outstanding], sent: u64, empty: Option<(u64, u64)>, turn: u64) -> bool
    requires { length outstanding.now ≤ sent }
    ensures { IsTrue result
        ↔ (0 < length outstanding.now)
        × (IsOld (puts outstanding.now) turn ⊎ HintIs empty (sent - length outstanding.now) turn) }
{
    let Some(oldest) = outstanding.first() else {
        return false;
    };
    if turn >= 4 && oldest.put <= turn - 4 {
        return true;
    }
    match empty {
        Some((number, at)) => number == sent - outstanding.len() as u64
            && turn > 0
            && at == turn - 1,
        None => false,
    }
}
