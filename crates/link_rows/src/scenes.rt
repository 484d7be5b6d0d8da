//! Links over long random scenes: what they tell, turn by turn, is what another program's link tells.
//!
//! That program stands apart from this repository. It makes the same scenes, controls and batches from the
//! same seeds, and both take each state into the same digest.

ghost use Rattle.std.specs.Prelude.{◌≤◌};

use crate::links::{Running, start, turn};
use msg_code::{Batch, Cmd, Control, State, Unit, encode};
use msg_dict::{Dict, own_formats};
use plan_types::{Listed, Triple};
use std::alloc::{AllocError, Global};
use std::test::Fail;

/// The next number of a row of numbers that look random.
fn next(x: u64) -> u64 {
    x.wrapping_mul(6_364_136_223_846_793_005)
        .wrapping_add(1_442_695_040_888_963_407)
}

/// A number below another one, from such a row.
fn below(row: &mut u64, limit: u32) -> u32
    ensures { result ≤ limit }
{
    *row = next(*row);
    ((*row >> 33) as u32) % limit.max(1)
}

/// A link's run: its seed, one of how many blocks is disturbed, for how many turns at most one is held, by how much the
/// board's clock is off, and in which turn the board is told to stop.
#[derive(Clone, Copy)]
struct Run {
    seed: u64,
    one_of: u32,
    longest: u32,
    drift: i16,
    stop: u64,
}

/// What happens to a block.
fn deed(alloc: Global, row: &mut u64, longest: u32) -> Result<String, AllocError> {
    match below(row, 8) {
        0..=2 => format!(in alloc; "drop"),
        3 | 4 => format!(in alloc; "repeat"),
        5 | 6 => {
            let turns = below(row, longest).saturating_add(1);
            format!(in alloc; "delay {turns}")
        }
        _ => {
            let at = below(row, 1_000);
            let xor = below(row, 255).saturating_add(1);
            format!(in alloc; "garble {at} {xor}")
        }
    }
}

/// The entries of one line for its first blocks.
fn put_line(
    alloc: Global,
    text: &mut String,
    row: &mut u64,
    run: &Run,
    line: &str,
    blocks: u32,
) -> Result<(), AllocError> {
    for number in 0..blocks {
        if below(row, run.one_of) == 0 {
            let deed = deed(alloc, row, run.longest)?;
            let entry = format!(in alloc; "{line} mcu {number} {}\n", deed.as_str())?;
            text.push_str(entry.as_str())?;
        }
    }
    Ok(())
}

/// The scene.
fn scene(alloc: Global, row: &mut u64, run: &Run) -> Result<String, AllocError> {
    let mut text = String::new(alloc);
    put_line(alloc, &mut text, row, run, "connect down", 60)?;
    put_line(alloc, &mut text, row, run, "connect up", 60)?;
    put_line(alloc, &mut text, row, run, "down", 2_000)?;
    put_line(alloc, &mut text, row, run, "up", 2_000)?;
    Ok(text)
}

fn make_stepper(oid: u8) -> Cmd {
    Cmd::ConfigStepper {
        oid,
        step_pin: 0,
        dir_pin: 1,
        invert_step: 0,
        step_pulse_ticks: 0,
    }
}

/// Two steppers and a trigger are made.
fn put_objects(commands: &mut Listed<Cmd>) -> Result<(), AllocError> {
    commands.push(Cmd::AllocateOids { count: 3 })?;
    commands.push(make_stepper(0))?;
    commands.push(make_stepper(1))?;
    commands.push(Cmd::ConfigTrsync { oid: 2 })
}

/// In about half of the turns a command that is answered, or sets the trigger's clock.
fn put_asking(commands: &mut Listed<Cmd>, row: &mut u64, turn: u64) -> Result<(), AllocError> {
    let turn = u32::try_from(turn).unwrap_or(0);
    let clock = turn.saturating_add(below(row, 40)).wrapping_mul(16_000);
    let command = match below(row, 12) {
        0 => Cmd::GetUptime,
        1 => Cmd::Identify {
            offset: below(row, 30).wrapping_mul(40),
            count: 40,
        },
        2 => Cmd::GetConfig,
        3 => Cmd::TrsyncTrigger { oid: 2, reason: 3 },
        4 => Cmd::TrsyncStart {
            oid: 2,
            report_clock: clock,
            report_ticks: 80_000,
            expire_reason: 2,
        },
        5 => Cmd::TrsyncSetTimeout { oid: 2, clock },
        _ => return Ok(()),
    };
    commands.push(command)
}

/// The control of a turn. Connecting ends in turn 39.
fn control(alloc: Global, row: &mut u64, turn: u64, stops: bool) -> Result<Control, AllocError> {
    let mut commands = Listed::new(alloc);
    if turn == 0 {
        put_objects(&mut commands)?;
    } else {
        put_asking(&mut commands, row, turn)?;
    }
    if stops {
        commands.push(Cmd::EmergencyStop)?;
    }
    Ok(Control {
        turn,
        commands,
        connected: turn >= 40,
        end: false,
    })
}

/// A stepper's last tick and whether it has moved.
#[derive(Clone, Copy)]
struct Stepper {
    oid: u8,
    last: u64,
    begun: bool,
}

/// The ticks from the first to the last step of a triple.
fn span(triple: &Triple) -> u64 {
    let steps = i64::from(triple.count).saturating_sub(1);
    let pairs = steps.saturating_mul(steps.saturating_add(1)) / 2;
    let even = steps.saturating_mul(i64::from(triple.interval));
    let span = even.saturating_add(pairs.saturating_mul(i64::from(triple.add)));
    u64::try_from(span).unwrap_or(0)
}

/// A triple behind the stepper's last tick.
fn unit(stepper: &mut Stepper, triple: Triple, up: Option<bool>, reset: Option<u64>) -> Unit {
    let first = stepper.last.saturating_add(u64::from(triple.interval));
    let last = first.saturating_add(span(&triple));
    stepper.last = last;
    Unit {
        stepper: stepper.oid,
        first,
        last,
        due: first / 16_000,
        triple,
        up,
        reset,
    }
}

/// The first unit of a stepper in a turn: one step, behind the beginning of the turn that comes 250 turns
/// later or sooner.
fn begin(row: &mut u64, stepper: &mut Stepper, start: u64, first: u64) -> Unit {
    let begins = !stepper.begun;
    if begins {
        stepper.last = start;
        stepper.begun = true;
    }
    let turns = begins || below(row, 4) == 0;
    let up = if turns {
        Some(below(row, 2) == 1)
    } else {
        None
    };
    let triple = Triple {
        interval: u32::try_from(first.saturating_sub(stepper.last)).unwrap_or(0),
        count: 1,
        add: 0,
    };
    unit(stepper, triple, up, if begins { Some(start) } else { None })
}

/// One to three steps close behind.
fn follow(row: &mut u64, stepper: &mut Stepper) -> Unit {
    let interval = below(row, 200).saturating_add(100);
    let count = below(row, 3) as u16 + 1;
    let add = below(row, 21) as i16 - 10;
    let triple = Triple {
        interval,
        count,
        add,
    };
    unit(stepper, triple, None, None)
}

/// In one of three turns the units of a stepper.
fn put_units(
    units: &mut Listed<Unit>,
    row: &mut u64,
    stepper: &mut Stepper,
    start: u64,
) -> Result<(), AllocError> {
    if below(row, 3) != 0 {
        return Ok(());
    }
    let first = start.saturating_add(u64::from(below(row, 1_000)) + 1_000);
    if first <= stepper.last {
        return Ok(());
    }
    let more = below(row, 6);
    units.push(begin(row, stepper, start, first))?;
    for _ in 0..more {
        units.push(follow(row, stepper))?;
    }
    Ok(())
}

/// What is queued is made from a row of numbers: two steppers, and by how many turns units are held back. And
/// what was told so far, as a digest.
#[derive(Drop)]
struct Plan {
    row: u64,
    first: Stepper,
    second: Stepper,
    spill: u64,
    digest: u64,
}

/// The units of a turn.
fn batch(alloc: Global, plan: &mut Plan, turn: u64) -> Result<Batch, AllocError> {
    let mut units = Listed::new(alloc);
    if turn >= 40 {
        plan.spill = match below(&mut plan.row, 8) {
            0 => plan.spill.saturating_add(1).min(60),
            1 => plan.spill.saturating_sub(1),
            _ => plan.spill,
        };
        let due = turn.saturating_add(250).saturating_sub(plan.spill);
        let start = due.saturating_mul(16_000);
        put_units(&mut units, &mut plan.row, &mut plan.first, start)?;
        put_units(&mut units, &mut plan.row, &mut plan.second, start)?;
    }
    Ok(Batch {
        turn,
        units,
        end: false,
    })
}

/// A digest takes a number in.
fn take(digest: &mut u64, number: u64) {
    *digest = next(*digest ^ number);
}

/// It takes the news in: how many there are, and of each the block's number, and its command's bytes.
fn take_news(digest: &mut u64, formats: &Dict, state: &State) {
    take(digest, state.news.len() as u64);
    for news in state.news.as_slice() {
        take(digest, news.number);
        if let Ok(bytes) = encode(formats, &news.answer) {
            take(digest, bytes.len() as u64);
            for byte in bytes.as_slice() {
                take(digest, u64::from(*byte));
            }
        }
    }
}

/// It takes the pulses in, and the blocks that ask.
fn take_lists(digest: &mut u64, state: &State) {
    take(digest, state.pulses.len() as u64);
    for pulse in state.pulses.as_slice() {
        take(digest, pulse.tick);
        take(digest, u64::from(pulse.stepper));
        take(digest, u64::from(pulse.up));
    }
    take(digest, state.asked.len() as u64);
    for number in state.asked.as_slice() {
        take(digest, *number);
    }
}

/// It takes a whole state in: the turn, the news, the pulses, the blocks that ask, why the board shut down
/// with the spoiled turns and the spill, and whether the link is idle. So a digest tells of all states up to
/// a turn.
fn take_state(digest: &mut u64, formats: &Dict, state: &State) {
    take(digest, state.turn);
    take_news(digest, formats, state);
    take_lists(digest, state);
    take(digest, u64::from(state.shut.is_some()));
    if let Some(shut) = state.shut {
        for number in [
            u64::from(shut.reason),
            shut.tick,
            shut.first,
            shut.spoiled,
            shut.spill,
        ] {
            take(digest, number);
        }
    }
    take(digest, u64::from(state.idle));
}

/// A stepper that hasn't moved.
fn new_stepper(oid: u8) -> Stepper {
    Stepper {
        oid,
        last: 0,
        begun: false,
    }
}

/// Nothing is queued and told yet.
fn new_plan(seed: u64) -> Plan {
    Plan {
        row: seed,
        first: new_stepper(0),
        second: new_stepper(1),
        spill: 0,
        digest: 0,
    }
}

/// The state of a turn.
fn state(
    alloc: Global,
    link: &mut Running,
    plan: &mut Plan,
    run: &Run,
    k: u64,
) -> Result<Option<State>, AllocError> {
    let control = control(alloc, &mut plan.row, k, k == run.stop)?;
    let batch = batch(alloc, plan, k)?;
    turn(link, control, batch)
}

/// A turn, which the digest takes in; whether others may follow.
fn advance(
    alloc: Global,
    link: &mut Running,
    plan: &mut Plan,
    run: &Run,
    formats: &Dict,
    k: u64,
) -> Result<bool, AllocError> {
    let Some(state) = state(alloc, link, plan, run, k)? else {
        return Ok(false);
    };
    take_state(&mut plan.digest, formats, &state);
    Ok(state.shut.is_none())
}

/// Adds the digest behind every fifty turns, and behind that in which the board shuts down.
fn put_digests(
    alloc: Global,
    link: &mut Running,
    plan: &mut Plan,
    run: &Run,
    formats: &Dict,
    digests: &mut Vec<u64>,
) -> Result<(), AllocError> {
    for k in 0..1_000 {
        let goes_on = advance(alloc, link, plan, run, formats, k)?;
        if !goes_on || k % 50 == 49 {
            digests.push(plan.digest)?;
        }
        if !goes_on {
            return Ok(());
        }
    }
    Ok(())
}

/// The link of a run's scene, which is made from the plan's row of numbers.
fn link_of(alloc: Global, plan: &mut Plan, run: &Run) -> Result<Option<Running>, AllocError> {
    let scene = scene(alloc, &mut plan.row, run)?;
    start(alloc, scene.as_str(), run.drift)
}

/// Adds the digests of a run.
fn put_run(
    alloc: Global,
    run: &Run,
    formats: &Dict,
    digests: &mut Vec<u64>,
) -> Result<(), AllocError> {
    let mut plan = new_plan(run.seed);
    match link_of(alloc, &mut plan, run)? {
        None => Ok(()),
        Some(mut link) => put_digests(alloc, &mut link, &mut plan, run, formats, digests),
    }
}

/// The digests of a run.
fn digests(alloc: Global, run: &Run) -> Result<Vec<u64>, AllocError> {
    let mut digests = Vec::new(alloc);
    let formats = own_formats(alloc)?;
    put_run(alloc, run, &formats, &mut digests)?;
    Ok(digests)
}

/// Few blocks are disturbed, until the board is told to stop; more, until a step comes too late; and so with
/// a clock that is off. Each with its digests.
const RUNS: [(Run, &[u64]); 3] = [
    (
        Run {
            seed: 3,
            one_of: 50,
            longest: 20,
            drift: 0,
            stop: 600,
        },
        &[
            0x24e3f9057afbf33f,
            0xa3657244ee3c0cfe,
            0xcee2e8501635faae,
            0xcf48039972ee86bb,
            0x896d30bc54fa03a2,
            0xfd4fbe4e2eb4199f,
            0x73a80a85d5f035c2,
            0x0e021a0869651110,
            0x6f8bff03605a45df,
            0x97f3c89aa29fa0c0,
            0x4a2dd14b76f196ba,
            0x55adf03f9ea4eaff,
            0x00530b775ed9689a,
        ],
    ),
    (
        Run {
            seed: 9,
            one_of: 20,
            longest: 350,
            drift: 0,
            stop: 600,
        },
        &[
            0x0fce467bb56a26c0,
            0x29c20879e3d074cc,
            0xe025d680b7bf0fad,
            0xb998ede747318769,
            0x53275e65ee57ac71,
            0xf2e151c0f9542a90,
            0x47e31bb0c758b274,
            0x1c6ced7c103e2a93,
            0x4be20a0b3705fcc5,
            0x72de7db23cb1ab09,
            0x16d03a14d49d237b,
        ],
    ),
    (
        Run {
            seed: 27,
            one_of: 30,
            longest: 300,
            drift: 150,
            stop: 600,
        },
        &[
            0xc7cf57e93baf7bb1,
            0x9c8b05ebef8bdb2d,
            0x7ea02bcb3d9b693a,
            0x5fe1ee6896e6b33e,
            0x4c5dfe21f683aba0,
            0xc010e1696d8441e1,
            0xa100df68ddd4eaa8,
            0x639fba75321de25c,
            0x6383baff31ea5cc4,
            0xe70a4617b39280b8,
            0x4bca9f181fd96212,
            0xc1f3e49cf19ea967,
            0x4d1e14dbd064e79a,
            0x8063cff2f4a7896b,
        ],
    ),
];

/// The seed of the first run that tells something else.
fn first_wrong(alloc: Global, runs: &[(Run, &[u64])]) -> Result<Option<u64>, AllocError> {
    for (run, wanted) in runs {
        let told = digests(alloc, run)?;
        if told.as_slice() != *wanted {
            return Ok(Some(run.seed));
        }
    }
    Ok(None)
}

#[test]
fn links_tell_what_another_program_tells(rt: HostRuntime) -> Result<(), Fail> {
    assert_eq!(rt; first_wrong(rt.alloc(), &RUNS)?, None);
    Ok(())
}
