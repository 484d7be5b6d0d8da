//! A board's own tick as a turn begins. Each turn asks for it twice, so most turns divide no number of 128 bits.

ghost use Rattle.std.specs.Prelude.{◌≡◌, ◌*◌, ◌/◌, ◌^◌, ◌<◌, nat_lt};
ghost use Rattle.plan_types.specs.Clock.{board_tick, own_tick, rate, tick_limit};

use plan_types::BoardClock;

/// The ticks of every run stay below this.
const TICK_LIMIT: u128 = 13_000_000_000_000_000_000;

const BILLION: u64 = 1_000_000_000;

/// A board's own rate, in millionths of its frequency.
fn rate(drift: i16) -> u32
    ensures { result ≡ rate drift }
{
    (1_000_000 + i32::from(drift)) as u32
}

/// A guess of the billions in a number of turns by a rate. It holds in the first 2^32 turns.
fn guess(turn: u64, rate: u64) -> u64 {
    let whole = turn.wrapping_mul(rate / BILLION);
    whole.wrapping_add(turn.wrapping_mul(rate % BILLION) / BILLION)
}

/// The billions in a number, which mostly are those of a guess.
fn billions(n: u128, guess: u64) -> u128
    ensures { result ≡ n / 1_000_000_000 }
{
    let low = u128::from(guess) * 1_000_000_000;
    if low <= n && n - low < 1_000_000_000 {
        return u128::from(guess);
    }
    n / 1_000_000_000
}

/// The ticks of a board that doesn't drift, up to one of the first turns.
fn plain_ticks(freq: u32, turn: u64) -> u64
    requires { turn < 2 ^ 31 }
    ensures { result ≡ turn * freq * 1_000_000 / 1_000_000_000 }
{
    turn * u64::from(freq) / 1_000
}

/// The ticks that a board makes from its start up to a turn.
fn ticks_to(clock: BoardClock, turn: u64) -> u128
    ensures { result ≡ turn * clock.freq * rate clock.drift / 1_000_000_000 }
{
    if clock.drift == 0 && turn < 1 << 31 {
        return u128::from(plain_ticks(clock.freq, turn));
    }
    let rate = rate(clock.drift);
    let millionths = u128::from(turn) * u128::from(clock.freq) * u128::from(rate);
    billions(
        millionths,
        guess(turn, u64::from(clock.freq) * u64::from(rate)),
    )
}

/// The board's own tick as a turn begins.
#[tactic(auto, unfolding(plan_types::specs::Clock::own_tick))]
pub fn tick(clock: BoardClock, turn: u64) -> u64
    requires { board_tick clock turn < 2 ^ 64 }
    ensures { result ≡ board_tick clock turn }
{
    clock.start + ticks_to(clock, turn) as u64
}

/// Whether the board's own tick as a turn begins is one that a run may have.
#[tactic(auto, unfolding(plan_types::specs::Clock::own_tick))]
pub fn has_tick(clock: BoardClock, turn: u64) -> bool
    ensures { result ≡ nat_lt (board_tick clock turn) tick_limit }
{
    u128::from(clock.start) + ticks_to(clock, turn) < TICK_LIMIT
}
