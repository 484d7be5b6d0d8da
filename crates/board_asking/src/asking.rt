//! What a board is asked.

ghost use Rattle.std.specs.Prelude.{◌≡◌, ◌+◌, ◌≤◌, ◌++◌, length, drop, OnOk, IfOk};
ghost use Rattle.std.specs.Prelude.{IfSome, ◌<◌, ◌^◌};
ghost use Rattle.clock_line.specs.Samples.{better as better_sample};
ghost use Rattle.board_asking.specs.Kept.{IsEarly, IsPutEarly, IsSampleEarly};
ghost use Rattle.board_asking.specs.Asking.{more, new_asking, was_put, were_put, is_in_time, tells_clock, put_turn, sample_of, best_of, settled, after_piece, after_clock, if_clock, if_drift, answered, hears_first, listens, ready_stage, ready, is_over, is_question_due, is_out, question, asks, asked, after_asks, gives_up, is_connected};

use crate::OutOfMemory;
use crate::setup::{Setup, put_fitting};
use clock_line::{Sample, better};
use msg_code::{Cmd, News, State};
use plan_types::Listed;

/// How far the connecting of a board has come.
#[derive(Clone, Copy, Debug, PartialEq, Eq)]
pub enum Stage {
    /// It is asked for its dictionary from here on.
    Identify(u32),
    /// It is asked for its clock.
    Uptime,
    /// So many commands of its configuration were queued.
    Configure(u64),
    /// It is asked whether its configuration is complete.
    Config,
    /// It is connected.
    Connected,
}

/// A block that ends with a `get_uptime`: its whole number, and the turn in which it was first put.
#[derive(Clone, Copy, Debug, PartialEq, Eq)]
pub struct Put {
    pub number: u64,
    pub turn: u64,
}

/// What a board is asked.
#[derive(Clone, Copy, Debug, PartialEq, Eq)]
pub struct Asking {
    pub stage: Stage,
    /// The turn in which the asking that is out was queued.
    pub since: Option<u64>,
    /// How many askings in a row were not answered, and the turn of the first of the row.
    pub missed: u64,
    pub first: u64,
    /// How many `get_uptime` are queued and not yet put on the line, and the last block that was put with one.
    pub owed: u64,
    pub put: Option<Put>,
    /// How many samples of the clock came, and the best of them.
    pub samples: u64,
    pub best: Option<Sample>,
    /// Whether an asking waits for room among the controls.
    pub waits: bool,
}

impl Default for Asking {
    fn default() -> Self {
        new_asking()
    }
}

/// A board that was asked nothing.
pub fn new_asking() -> Asking
    ensures value { result ≡ new_asking }
    ensures early { IsEarly result }
{
    Asking {
        stage: Stage::Identify(0),
        since: None,
        missed: 0,
        first: 0,
        owed: 0,
        put: None,
        samples: 0,
        best: None,
        waits: false,
    }
}

/// One more.
pub fn more(n: u64) -> u64
    ensures { result ≡ more n }
{
    n.saturating_add(1)
}

/// Blocks that end with a `get_uptime` were put on the line in a turn.
fn were_put(turn: u64, numbers: &[u64], a: Asking) -> Asking
    requires turn { turn < 2 ^ 59 }
    requires early { IsEarly a }
    ensures value { result ≡ were_put turn numbers.now a }
    ensures early { IsEarly result }
{
    let mut asking = a;
    let mut rest = numbers;
    while let [number, behind @ ..] = rest {
        asking = Asking {
            owed: asking.owed.saturating_sub(1),
            put: Some(Put {
                number: *number,
                turn,
            }),
            ..asking
        };
        rest = behind;
    }
    asking
}

/// Whether an answer counts that comes in a turn.
fn is_in_time(turn: u64, since: Option<u64>) -> bool
    ensures { result ≡ is_in_time turn since }
{
    match since {
        None => false,
        Some(since) => turn.saturating_sub(since) <= 3,
    }
}

/// Whether a clock that the block of this number brings is the answer to the last `get_uptime`.
fn tells_clock(a: &Asking, number: u64) -> bool
    ensures { result ≡ tells_clock a.now number }
{
    match a.put {
        None => false,
        Some(put) => a.owed == 0 && number > put.number && number - put.number == 1,
    }
}

/// The sample that an answer in a turn gives.
fn sample_of(a: &Asking, turn: u64, high: u32, clock: u32) -> Sample
    requires { IsEarly a.now }
    ensures value { result ≡ sample_of a.now turn high clock }
    ensures early { result.sent < 2 ^ 59 }
{
    let sent = match a.put {
        None => 0,
        Some(put) => put.turn,
    };
    Sample {
        sent,
        got: turn,
        clock: (u64::from(high) << 32) + u64::from(clock),
    }
}

/// An asking whose answer came, in its next stage.
fn settled(a: Asking, stage: Stage) -> Asking
    requires { IsEarly a }
    ensures value { result ≡ settled a stage }
    ensures early { IsEarly result }
{
    Asking {
        stage,
        since: None,
        missed: 0,
        ..a
    }
}

/// An asking behind a piece of the dictionary.
fn after_piece(a: Asking, offset: u32, size: usize) -> Asking
    requires { IsEarly a }
    ensures value { result ≡ after_piece a offset size }
    ensures early { IsEarly result }
{
    settled(
        a,
        if size < 40 {
            Stage::Uptime
        } else {
            Stage::Identify(offset.wrapping_add(40))
        },
    )
}

/// The better of two samples.
fn earlier(first: Sample, second: Sample) -> Sample
    requires first { first.sent < 2 ^ 59 }
    requires second { second.sent < 2 ^ 59 }
    ensures value { result ≡ better_sample first second }
    ensures early { result.sent < 2 ^ 59 }
{
    better(first, second)
}

/// The better of the best sample so far and another one.
fn best_of(best: Option<Sample>, sample: Sample) -> Sample
    requires best { IsSampleEarly best }
    requires sample { sample.sent < 2 ^ 59 }
    ensures value { result ≡ best_of best sample }
    ensures early { result.sent < 2 ^ 59 }
{
    match best {
        None => sample,
        Some(best) => earlier(best, sample),
    }
}

/// An asking behind a clock.
fn after_clock(a: Asking, sample: Sample) -> Asking
    requires asking { IsEarly a }
    requires sample { sample.sent < 2 ^ 59 }
    ensures value { result ≡ after_clock a sample }
    ensures early { IsEarly result }
{
    let samples = more(a.samples);
    let stage = if samples >= 8 {
        Stage::Configure(0)
    } else {
        Stage::Uptime
    };
    Asking {
        samples,
        best: Some(best_of(a.best, sample)),
        ..settled(a, stage)
    }
}

/// An asking behind a clock, where that answers it.
fn if_clock(turn: u64, a: Asking, number: u64, high: u32, clock: u32) -> Option<Asking>
    requires { IsEarly a }
    ensures value { result ≡ if_clock turn a number high clock }
    ensures early { IfSome result IsEarly }
{
    if tells_clock(&a, number) {
        let sample = sample_of(&a, turn, high, clock);
        Some(after_clock(a, sample))
    } else {
        None
    }
}

/// The asking of a connected board behind a clock, where that answers it.
fn if_drift(turn: u64, a: Asking, number: u64, high: u32, clock: u32) -> Option<Asking>
    requires { IsEarly a }
    ensures value { result ≡ if_drift turn a number high clock }
    ensures early { IfSome result IsEarly }
{
    if tells_clock(&a, number) {
        let sample = sample_of(&a, turn, high, clock);
        Some(Asking {
            best: Some(sample),
            ..settled(a, Stage::Connected)
        })
    } else {
        None
    }
}

/// What an answer makes of an asking, where it answers it.
fn answered(turn: u64, a: Asking, number: u64, answer: &Cmd) -> Option<Asking>
    requires { IsEarly a }
    ensures value { result ≡ answered turn a a.stage number answer.now }
    ensures early { IfSome result IsEarly }
{
    match (a.stage, answer) {
        (Stage::Identify(offset), Cmd::IdentifyResponse { offset: of, bytes }) => {
            if offset == *of {
                Some(after_piece(a, offset, bytes.len()))
            } else {
                None
            }
        }
        (Stage::Uptime, Cmd::Uptime { high, clock }) => if_clock(turn, a, number, *high, *clock),
        (Stage::Connected, Cmd::Uptime { high, clock }) => {
            if_drift(turn, a, number, *high, *clock)
        }
        (Stage::Config, Cmd::Config { is_config, .. }) => {
            if *is_config == 1 {
                Some(settled(a, Stage::Connected))
            } else {
                None
            }
        }
        _ => None,
    }
}

/// What news make of an asking: the first that answers it.
fn hears(turn: u64, news: &[News], a: Asking) -> Asking
    requires { IsEarly a }
    ensures value { result ≡ hears_first turn news.now a }
    ensures early { IsEarly result }
{
    let mut rest = news;
    while let [first, behind @ ..] = rest {
        let answer = answered(turn, a, first.number, &first.answer);
        if let Some(asking) = answer {
            return asking;
        }
        rest = behind;
    }
    a
}

/// What the state of a turn makes of an asking.
pub fn listens(a: Asking, s: &State) -> Asking
    requires turn { s.now.turn < 2 ^ 59 }
    requires early { IsEarly a }
    ensures value { result ≡ listens a s.now }
    ensures early { IsEarly result }
{
    let asking = were_put(s.turn, s.asked.as_slice(), a);
    if is_in_time(s.turn, asking.since) {
        hears(s.turn, s.news.as_slice(), asking)
    } else {
        asking
    }
}

/// Once all of the configuration is queued, the board is asked for it.
pub fn ready(setups: &[Setup], a: Asking) -> Asking
    requires few { length setups.now ≤ 24 }
    requires early { IsEarly a }
    ensures value { result ≡ ready setups.now a }
    ensures early { IsEarly result }
{
    let stage = match a.stage {
        Stage::Configure(n) => {
            if is_over(from_place(setups, n)) {
                Stage::Config
            } else {
                a.stage
            }
        }
        _ => a.stage,
    };
    Asking { stage, ..a }
}

fn is_over(setups: &[Setup]) -> bool
    ensures { result ≡ is_over setups.now }
{
    match setups {
        [] => true,
        [_first, _rest @ ..] => false,
    }
}

/// Whether a board is asked in turn k.
fn is_due(k: u64, since: Option<u64>) -> bool
    ensures { result ≡ is_question_due k since }
{
    match since {
        None => true,
        Some(since) => k.saturating_sub(since) >= 4,
    }
}

/// The board was asked in turn k.
fn asked(k: u64, a: Asking) -> Asking
    requires { IsEarly a }
    ensures value { result ≡ asked k a }
    ensures early { IsEarly result }
{
    let out = a.since.is_some();
    Asking {
        since: Some(k),
        missed: if out { more(a.missed) } else { 0 },
        first: if out { a.first } else { k },
        owed: if a.stage == Stage::Uptime {
            more(a.owed)
        } else {
            a.owed
        },
        ..a
    }
}

/// Asks a board in turn k: adds the commands, and answers the asking behind them.
pub fn ask(
    setups: &[Setup],
    k: u64,
    a: Asking,
    out: &mut Listed<Cmd>,
) -> Result<Asking, OutOfMemory>
    requires few { length setups.now ≤ 24 }
    requires early { IsEarly a }
    ensures commands { OnOk result (out.new ≡ out.old ++ asks setups.now k a a.stage) }
    ensures asking { IfOk result (λ b. b ≡ after_asks setups.now k a a.stage) }
    ensures early { IfOk result IsEarly }
{
    match a.stage {
        Stage::Configure(n) => {
            let count = put_fitting(42, from_place(setups, n), out)?;
            Ok(Asking {
                stage: Stage::Configure(n.saturating_add(count)),
                ..a
            })
        }
        Stage::Connected => Ok(a),
        _ => {
            if !is_due(k, a.since) {
                return Ok(a);
            }
            put_question(a.stage, out)?;
            Ok(asked(k, a))
        }
    }
}

/// The commands from a place on.
fn from_place(setups: &[Setup], n: u64) -> &[Setup]
    requires { length setups.now ≤ 24 }
    ensures { result.now ≡ drop n setups.now }
{
    let from = n.min(setups.len() as u64);
    &setups[from as usize..]
}

/// Adds what a board is asked in a stage.
fn put_question(stage: Stage, out: &mut Listed<Cmd>) -> Result<(), OutOfMemory>
    ensures { OnOk result (out.new ≡ out.old ++ question stage) }
{
    match stage {
        Stage::Identify(offset) => out.push(Cmd::Identify { offset, count: 40 })?,
        Stage::Uptime => out.push(Cmd::GetUptime)?,
        Stage::Config => out.push(Cmd::GetConfig)?,
        Stage::Configure(_) | Stage::Connected => {}
    }
    Ok(())
}

/// Whether the eighth asking in a row is unanswered in turn k.
pub fn gives_up(k: u64, a: &Asking) -> bool
    ensures { result ≡ gives_up k a.now }
{
    a.since.is_some() && is_due(k, a.since) && a.missed >= 7
}
