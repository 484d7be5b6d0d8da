//! What the lanes carry, and the messages among them that say nothing but a flag.
ghost use Rattle.std.specs.Prelude.{◌≡◌, ℕ, Bool};
ghost use Rattle.session_work.specs.Bares.{bare_batch, bare_control, bare_state, bare_word, bare_note, stop_piece};

pub use msg_code::{Ask, Batch, Control, Made, Note, Piece, State, WordMsg};
use plan_types::{Listed, Numbered};
use std::alloc::Global;

/// A message that says nothing but whether the end is here, or memory was wanted. It takes no memory.
pub trait Bare: Numbered {
    ghost bare: { ℕ → Bool → Self };

    fn bare(alloc: Global, turn: u64, flag: bool) -> Self
        ensures bare { result ≡ bare turn flag }
        ensures number { Self.number result ≡ turn };
}

impl Bare for Batch {
    ghost bare = { bare_batch };

    fn bare(alloc: Global, turn: u64, flag: bool) -> Batch {
        Batch {
            turn,
            units: Listed::new(alloc),
            end: flag,
        }
    }
}

impl Bare for Control {
    ghost bare = { bare_control };

    fn bare(alloc: Global, turn: u64, flag: bool) -> Control {
        Control {
            turn,
            commands: Listed::new(alloc),
            connected: true,
            end: flag,
        }
    }
}

impl Bare for State {
    ghost bare = { bare_state };

    fn bare(alloc: Global, turn: u64, flag: bool) -> State {
        State {
            turn,
            news: Listed::new(alloc),
            pulses: Listed::new(alloc),
            asked: Listed::new(alloc),
            shut: None,
            idle: false,
            out: flag,
        }
    }
}

impl Bare for WordMsg {
    ghost bare = { bare_word };

    fn bare(alloc: Global, turn: u64, flag: bool) -> WordMsg {
        WordMsg {
            turn,
            news: Listed::new(alloc),
            end: flag,
        }
    }
}

impl Bare for Note {
    ghost bare = { bare_note };

    fn bare(alloc: Global, turn: u64, flag: bool) -> Note {
        Note {
            turn,
            news: Listed::new(alloc),
            clear: 0,
            out: flag,
        }
    }
}

/// The piece of a file that could not be read in turn k.
pub fn stop_piece(alloc: Global, k: u64, number: u64) -> Piece
    ensures { result ≡ stop_piece k number }
{
    Piece {
        number,
        turn: k,
        bytes: Listed::new(alloc),
        end: false,
        stop: true,
    }
}
