//! The clock of a board.

ghost use Rattle.std.specs.Prelude.{◌≡◌, ℕ, ℤ, pos, ◌*◌, ◌^◌, ◌<◌, ◌≤◌, nat_lt};
ghost use Rattle.plan_types.specs.Clock.{board_tick, clock_of, own_tick, rate, tick, tick_limit, turn_ns};

use crate::BoardDef;

/// The ticks of every run stay below this.
const TICK_LIMIT: u128 = 13_000_000_000_000_000_000;

/// The clock of a board: its tick at the session's start, its ticks a second, and how far it is off, in parts
/// per million.
#[derive(Clone, Copy, Debug, PartialEq, Eq)]
pub struct BoardClock {
    pub start: u64,
    pub freq: u32,
    pub drift: i16,
}

impl BoardClock {
    /// The board's own tick as a turn of one millisecond begins.
    #[tactic(auto, unfolding(crate::specs::Clock::own_tick))]
    pub fn tick(&self, turn: u64) -> u64
        requires { board_tick self.now turn < 2 ^ 64 }
        ensures { result ≡ board_tick self.now turn }
    {
        let millionths = u128::from(turn) * u128::from(self.freq) * u128::from(rate(self.drift));
        self.start + (millionths / 1_000_000_000) as u64
    }

    /// Whether the board's own tick as a turn begins is one that a run may have.
    #[tactic(auto, unfolding(crate::specs::Clock::own_tick))]
    pub fn has_tick(&self, turn: u64) -> bool
        ensures { result ≡ nat_lt (board_tick self.now turn) tick_limit }
    {
        let millionths = u128::from(turn) * u128::from(self.freq) * u128::from(rate(self.drift));
        u128::from(self.start) + millionths / 1_000_000_000 < TICK_LIMIT
    }
}

impl BoardDef {
    /// The board's clock.
    pub fn clock(&self) -> BoardClock
        ensures { result ≡ clock_of self.now }
    {
        BoardClock {
            start: self.start,
            freq: self.freq,
            drift: self.drift,
        }
    }
}

/// A board's own rate, in millionths of its frequency.
fn rate(drift: i16) -> u32
    ensures { result ≡ rate drift }
{
    (1_000_000 + i32::from(drift)) as u32
}

/// The law of own ticks: a board without drift has the ticks of its clock line, and no board's ticks ever fall.
pub fn boards_keep_their_ticks()
    ensures exact { (start freq turn : ℕ) →
        own_tick start freq (pos 0) turn ≡ tick (record { at = 0; clock = start; freq = freq }) (turn * turn_ns) }
    ensures rise { (start freq turn later : ℕ) (drift : ℤ) → turn ≤ later →
        own_tick start freq drift turn ≤ own_tick start freq drift later }
{}
