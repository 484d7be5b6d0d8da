//! Both ends of a link between a host and a board (Klipper's Protocol.md, "Message Blocks" and their sequence numbers):
//! each block is taken once and in order, over lines that lose, repeat and delay blocks.
#![tactic(auto)]

ghost use Rattle.std.specs.Prelude.{◌≡◌, ℕ, ◌+◌, ◌*◌, ◌/◌, ◌%◌, ◌^◌, ◌<◌, ◌≤◌, List, [], ◌∷◌, ◌++◌, length, take};
ghost use Rattle.std.specs.List.{flat_map};
ghost use Rattle.link_core.specs.Core.{Link, Event, Command, InStep, happens, run, new_link, queued, commands_of};

/// The law of numbers: whatever happens, the numbers of a link keep in step.
pub fn in_step()
    ensures first { InStep new_link }
    ensures step { (h : Link) (e : Event) → InStep h → InStep (happens h e) }
    ensures always { (events : List Event) → InStep (run events new_link) }
{}

/// The law of order: the commands that the board took are the first ones that were queued, in order, each once.
pub fn in_order()
    ensures { (events : List Event) →
        (rest : List Command) × (run events new_link).taken ++ rest ≡ flat_map commands_of events }
{}

mod host;

ghost use Rattle.std.specs.Prelude.{IfSome, IfNone, IsTrue, ◌↔◌, ◌==◌, if◌then◌else◌};
ghost use Rattle.link_core.specs.Numbers.{IsNumberOnWire, next_after};

pub use host::HostEnd;
use std::marker::Model;

/// The board's end: it takes each block once, in order.
#[derive(Drop)]
pub struct BoardEnd {
    expected: u8,
}

impl Model for BoardEnd {
    ghost use Rattle.std.specs.Prelude.{ℕ, ◌<◌};

    ghost Value = { ℕ };

    ghost view = { λ b. b.expected };

    ghost invariant = { λ b. b.expected < 16 };
}

/// Whether a block was accepted, and the number of the reply.
#[derive(Clone, Copy, Debug, PartialEq, Eq)]
pub struct Arrival {
    pub accepted: bool,
    pub reply: u8,
}

impl BoardEnd {
    /// It expects number 0 first.
    pub fn new() -> Self
        ensures { result ≡ 0 }
    {
        BoardEnd { expected: 0 }
    }

    /// The number that it expects.
    pub fn expects(&self) -> u8
        ensures number { result ≡ self.now }
        ensures below { result < 16 }
    {
        self.expected
    }

    /// Takes the number of a good block, from 0 to 15: exactly the expected one is accepted, and the reply
    /// has the number that is expected next.
    pub fn arrive(&mut self, number: u8) -> Arrival
        requires { number < 16 }
        ensures below { self.new < 16 }
        ensures accepted { IsTrue result.accepted ↔ number ≡ self.old }
        ensures next { self.new ≡ (if number == self.old then (self.old + 1) % 16 else self.old) }
        ensures reply { result.reply ≡ self.new }
        // Where it stands for the whole number of the block that is expected, and the block that came is near
        // to that one, exactly the expected block is accepted, and it stands for the next one.
        ensures accepts { (accepted n : ℕ) → self.old ≡ accepted % 16 → number ≡ n % 16 → n < accepted + 12 →
            accepted ≤ n + 12 → (IsTrue result.accepted ↔ n ≡ accepted) × (self.new ≡ next_after accepted n % 16) }
    {
        let accepted = number == self.expected;
        if accepted {
            self.expected = (self.expected + 1) % 16;
        }
        Arrival {
            accepted,
            reply: self.expected,
        }
    }
}

/// The whole number that the wire's number stands for.
fn whole_number(acked: u64, sent: u64, number: u8) -> Option<u64>
    requires wire { number < 16 }
    requires window { (acked ≤ sent) × (sent ≤ acked + 12) }
    ensures some { IfSome result (λ n. IsNumberOnWire acked sent number n) }
    ensures none { IfNone result ((w : ℕ) → IsNumberOnWire acked sent number w → ⊥) }
    ensures only { (w : ℕ) → IsNumberOnWire acked sent number w → result ≡ Some w }
{
    let ahead = (u64::from(number) + 16 - acked % 16) % 16;
    if ahead <= sent - acked {
        Some(acked + ahead)
    } else {
        None
    }
}

ghost use Rattle.std.specs.Prelude.{◌⊎◌, drop, false};
ghost use Rattle.link_core.specs.Core.{Reply, sent, next_block, is_empty};
ghost use Rattle.link_core.specs.Core.Event.{Put, Send, Reply_comes, Turn};
ghost use Rattle.link_core.specs.Host.{acked_of, acked_by, given, with_queued};
ghost use Rattle.link_core.specs.Stands.{host_of};

/// The law of the host's end: its calls do what happens to the link.
pub fn host_stands()
    ensures first { host_of new_link
        ≡ record { waiting = []; contents = []; puts = []; sent = 0; turn = 0; empty = None; closed = false } }
    ensures queue { (h : Link) (c : Command) →
        host_of (happens h (Put (c ∷ []))) ≡ with_queued (host_of h) c.bytes c.closes }
    ensures send { (h : Link) → InStep h → sent h < h.acked + 12 → 0 < length h.waiting →
        host_of (happens h Send) ≡ given (host_of h) h.turn (next_block 59 h.waiting) }
    ensures reply { (h : Link) (r : Reply) (rs : List Reply) → InStep h → h.up ≡ r ∷ rs →
        IsNumberOnWire (acked_of (host_of h)) (sent h) (r.number % 16) r.number ×
        (host_of (happens h Reply_comes) ≡ acked_by (host_of h) r.number (is_empty r.answer)) }
    ensures turn { (h : Link) (turn : ℕ) → host_of (happens h (Turn turn)) ≡ record (host_of h) { turn = turn } }
{}
