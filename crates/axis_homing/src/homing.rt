//! Homing.

ghost use Rattle.std.specs.Prelude.{◌≡◌, ◌+◌, ◌*◌, ◌/◌, ◌<◌, ◌≤◌, ◌^◌, ◌++◌, ◌==◌, length, All, Some, OnOk, IfOk};
ghost use Rattle.msg_code.specs.Units.{bit};
ghost use Rattle.trigger_group.specs.declared.order.Order.TheVariants.{Home};
ghost use Rattle.arrayvec.specs.ArrayVec.{array_vec_len};
ghost use Rattle.plan_types.specs.Board.{nearest};
ghost use Rattle.plan_types.specs.Machines.{axis_at, board_at, stepper_at};
ghost use Rattle.axis_homing.specs.Homing.{StartsTogether};
ghost use Rattle.board_asking.specs.Machine.{trigger_of, endstop_pins};
ghost use Rattle.axis_homing.specs.Homing.{moving_on, member_where, members_from, homing_with, homing_of, came_at, hears_report, hears_answer, hears_news, hears_state, hears_states, answer_in, low, place_from, order_command, command_to, commands_to, by_answer, goes_on_homing, hears_all, homing_turn, homing_after};

use crate::OutOfMemory;
use arrayvec::ArrayVec;
use board_asking::{endstop_pins, steppers_on};
use clock_line::Lines;
use msg_code::{Cmd, News, State};
use plan_types::{AxisDef, BoardDef, Cause, Listed, Machine, SectionKind, StepperDef, TrigState};
use trigger_group::{BY_HOST, BY_SWITCH, BY_TIMEOUT, Ctl, End, Group, Member, Order};

/// A homing section: its number, its axis, the turn of its start, and the boards that home.
#[derive(Drop)]
pub struct Homing {
    pub section: u64,
    pub axis: u8,
    pub start: u64,
    pub group: Group,
}

/// What homing does in a turn for a section, its start and its axis: the orders to the boards; the tick of
/// the switch, where the group answered so; the end, where it answered otherwise.
#[derive(Drop)]
pub struct HomingTurn {
    pub section: u64,
    pub start: u64,
    pub axis: u8,
    pub ctls: ArrayVec<Ctl, 64>,
    pub cut: Option<u64>,
    pub end: Option<Cause>,
}

/// Of the steppers that move, a bit for each, those of a board.
fn moving_on(board: u8, word: u16, steppers: &[StepperDef]) -> u16
    ensures value { result ≡ moving_on board word steppers.now }
    ensures most { result ≤ word }
{
    match steppers {
        [] => 0,
        [first, rest @ ..] => {
            let others = moving_on(board, word / 2, rest);
            if first.board == board && word % 2 == 1 {
                1 + 2 * others
            } else {
                2 * others
            }
        }
    }
}

/// Adds a board, where it is a member.
fn put_member(board: u8, endstop: bool, moving: u16, out: &mut ArrayVec<Member, 8>)
    requires { array_vec_len out.old < 8 }
    ensures items { out.new.items ≡ out.old.items ++ member_where board endstop moving }
    ensures few { array_vec_len out.new ≤ array_vec_len out.old + 1 }
{
    if endstop || moving > 0 {
        out.push(Member {
            board,
            endstop,
            moving,
        });
    }
}

/// Adds the members from a board on.
fn put_members(
    m: &Machine,
    axis: &AxisDef,
    moving: u16,
    board: u8,
    boards: &[BoardDef],
    out: &mut ArrayVec<Member, 8>,
)
    requires room { array_vec_len out.old + length boards.now ≤ 8 }
    requires numbers { board + length boards.now ≤ 255 }
    ensures { out.new.items ≡ out.old.items ++ members_from m.now axis.now moving board boards.now }
{
    match boards {
        [] => {}
        [_first, rest @ ..] => {
            let on = moving_on(board, moving, m.steppers.as_slice());
            put_member(board, axis.board == board, on, out);
            put_members(m, axis, moving, board + 1, rest, out);
        }
    }
}

/// The axis of a number.
pub fn axis_at(m: &Machine, axis: u8) -> AxisDef
    ensures { result ≡ axis_at m.now axis }
{
    match m.axes.get(axis as usize) {
        Some(axis) => *axis,
        None => AxisDef {
            min: 0,
            max: 0,
            endstop: 0,
            speed: 100_000,
            board: 0,
            pin: 0,
            pressed: true,
        },
    }
}

/// The homing of a section of which a note tells.
pub fn homing_of(
    m: &Machine,
    section: u64,
    kind: SectionKind,
    turn: u64,
    last: u64,
    moving: u16,
) -> Option<Homing>
    requires { length m.now.boards ≤ 8 }
    ensures value { result ≡ homing_of m.now section kind turn last moving }
    ensures starts { StartsTogether result }
{
    let axis = match kind {
        SectionKind::Moves => return None,
        SectionKind::Home(axis) => axis,
    };
    let mut members = ArrayVec::new();
    let which = axis_at(m, axis);
    put_members(m, &which, moving, 0, m.boards.as_slice(), &mut members);
    match Group::of(members, turn, last) {
        None => None,
        Some(group) => Some(Homing {
            section,
            axis,
            start: turn,
            group,
        }),
    }
}

/// The tick nearest to `now` that has the clock, the later one of two, where it has 64 bits.
fn nearest(now: u64, clock: u32) -> u128
    ensures { result ≡ nearest now clock }
{
    let now = u128::from(now);
    let ahead = (u128::from(clock) + (1 << 32) - now % (1 << 32)) % (1 << 32);
    if ahead > 1 << 31 && now + ahead >= 1 << 32 {
        now + ahead - (1 << 32)
    } else {
        now + ahead
    }
}

/// A report came from a board in the state of a turn.
fn hear_report(clocks: &Lines, board: u8, turn: u64, state: TrigState, g: &mut Group)
    ensures value { g.new ≡ hears_report clocks.now board turn state g.old }
    ensures start { g.new.start ≡ g.old.start }
{
    let at = nearest(clocks.turn_tick(turn), state.clock);
    if at > u128::from(u64::MAX) {
        return;
    }
    let at = at as u64;
    if let Some(of) = clocks.turn_in_run(at) {
        g.state_came(board, state, at, of);
    }
}

/// An answer came from a board in the state of a turn.
fn hear_answer(clocks: &Lines, board: u8, turn: u64, answer: &Cmd, g: &mut Group)
    ensures value { g.new ≡ hears_answer clocks.now board turn answer.now g.old }
    ensures start { g.new.start ≡ g.old.start }
{
    if let Cmd::TrsyncState {
        can_trigger,
        trigger_reason,
        clock,
        ..
    } = answer
    {
        let state = TrigState {
            can: *can_trigger != 0,
            reason: *trigger_reason,
            clock: *clock,
        };
        hear_report(clocks, board, turn, state, g);
    }
}

/// The news of a board's state are heard.
fn hear_news(clocks: &Lines, board: u8, turn: u64, news: &[News], g: &mut Group)
    ensures value { g.new ≡ hears_news clocks.now board turn news.now g.old }
    ensures start { g.new.start ≡ g.old.start }
{
    let mut rest = news;
    while let [first, behind @ ..] = rest {
        hear_answer(clocks, board, turn, &first.answer, g);
        rest = behind;
    }
}

/// A board's state is heard.
fn hear_state(clocks: &Lines, board: u8, start: u64, s: &State, g: &mut Group)
    requires { s.now.turn < 2 ^ 59 }
    ensures value { g.new ≡ hears_state clocks.now board start s.now g.old }
    ensures start { g.new.start ≡ g.old.start }
{
    if start <= s.turn + 1 {
        hear_news(clocks, board, s.turn, s.news.as_slice(), g);
    }
}

/// The states of the boards, from a board on, are heard.
fn hear_states(clocks: &[Lines], board: u8, start: u64, states: &[State], g: &mut Group)
    requires numbers { board + length states.now ≤ 255 }
    requires turns { All (λ s. s.turn < 2 ^ 59) states.now }
    ensures value { g.new ≡ hears_states clocks.now board start states.now g.old }
    ensures start { g.new.start ≡ g.old.start }
{
    match clocks {
        [] => {}
        [first, rest @ ..] => match states {
            [] => {}
            [state, others @ ..] => {
                hear_state(first, board, start, state, g);
                hear_states(rest, board + 1, start, others, g);
            }
        },
    }
}

/// How the group answers in a turn.
fn answer_in(k: u64, start: u64, g: &Group) -> Option<End>
    ensures { result ≡ answer_in k start g.now }
{
    if start <= k { g.ended() } else { None }
}

/// Of a tick the wire carries 32 bits.
fn low(tick: u64) -> u32
    ensures { result ≡ low tick }
{
    (tick % (1 << 32)) as u32
}

/// The place of a pin among some pins.
fn place_from(place: u8, pin: u8, pins: &[u8]) -> u8
    requires { place + length pins.now ≤ 255 }
    ensures { result ≡ place_from place pin pins.now }
{
    match pins {
        [] => place,
        [first, rest @ ..] => {
            if *first == pin {
                place
            } else {
                place_from(place + 1, pin, rest)
            }
        }
    }
}

fn flag(set: bool) -> u8
    ensures { result ≡ bit set }
{
    if set { 1 } else { 0 }
}

/// The frequency of a board.
pub fn freq_of(m: &Machine, board: u8) -> u32
    ensures { result ≡ (board_at m.now board).freq }
{
    match m.boards.as_slice().get(board as usize) {
        None => 1_000_000,
        Some(board) => board.freq,
    }
}

/// The object id of a stepper.
fn oid_of(m: &Machine, stepper: u8) -> u8
    ensures { result ≡ (stepper_at m.now stepper).oid }
{
    match m.steppers.as_slice().get(stepper as usize) {
        None => 0,
        Some(stepper) => stepper.oid,
    }
}

/// The reading of the endstop.
fn home_command(m: &Machine, clocks: &Lines, board: u8, start: u64, axis: &AxisDef) -> Cmd
    requires { length m.now.steppers ≤ 16 }
    ensures { result ≡ order_command m.now clocks.now board start axis.now Home }
{
    let trigger = steppers_on(board, m.steppers.as_slice());
    let pins = endstop_pins(m, board);
    let freq = u64::from(freq_of(m, board));
    Cmd::EndstopHome {
        oid: place_from(trigger + 1, axis.pin, pins.as_slice()),
        clock: low(clocks.turn_tick(start)),
        sample_ticks: (freq * 15 / 1_000_000) as u32,
        sample_count: 4,
        rest_ticks: (freq / 10_000) as u32,
        pin_value: flag(axis.pressed),
        trsync_oid: trigger,
        trigger_reason: BY_SWITCH,
    }
}

/// The command of an order to a board.
fn order_command(
    m: &Machine,
    clocks: &Lines,
    board: u8,
    start: u64,
    axis: &AxisDef,
    order: Order,
) -> Cmd
    requires { length m.now.steppers ≤ 16 }
    ensures { result ≡ order_command m.now clocks.now board start axis.now order }
{
    let trigger = steppers_on(board, m.steppers.as_slice());
    match order {
        Order::Reset(stepper) => Cmd::ResetStepClock {
            oid: oid_of(m, stepper),
            clock: low(clocks.turn_tick(start)),
        },
        Order::Stop(stepper) => Cmd::StepperStopOnTrigger {
            oid: oid_of(m, stepper),
            trsync_oid: trigger,
        },
        Order::Start => Cmd::TrsyncStart {
            oid: trigger,
            report_clock: low(clocks.turn_tick(start)),
            report_ticks: (u64::from(freq_of(m, board)) * 5 / 1_000) as u32,
            expire_reason: BY_TIMEOUT,
        },
        Order::Timeout(turn) => Cmd::TrsyncSetTimeout {
            oid: trigger,
            clock: low(clocks.turn_tick(turn)),
        },
        Order::Home => home_command(m, clocks, board, start, axis),
        Order::Trigger => Cmd::TrsyncTrigger {
            oid: trigger,
            reason: BY_HOST,
        },
    }
}

/// Adds the commands of the orders to a board.
pub fn put_commands(
    m: &Machine,
    clocks: &Lines,
    board: u8,
    start: u64,
    axis: &AxisDef,
    ctls: &[Ctl],
    out: &mut Listed<Cmd>,
) -> Result<(), OutOfMemory>
    requires { length m.now.steppers ≤ 16 }
    ensures commands { OnOk result (out.new ≡ out.old ++ commands_to m.now clocks.now board start axis.now ctls.now) }
    ensures few { OnOk result (length out.new ≤ length out.old + length ctls.now) }
{
    match ctls {
        [] => {}
        [first, rest @ ..] => {
            if first.board == board {
                out.push(order_command(m, clocks, board, start, axis, first.what))?;
            }
            put_commands(m, clocks, board, start, axis, rest, out)?;
        }
    }
    Ok(())
}

/// What homing does in a turn in which the group answered.
fn answered(h: &Homing, end: End) -> HomingTurn
    ensures { result ≡ by_answer 0 h.now (Some end) }
{
    let cut = match end {
        End::Endstop { tick } => Some(tick),
        _ => None,
    };
    let cause = match end {
        End::Endstop { .. } => None,
        End::NoSwitch => Some(Cause::NoSwitch { section: h.section }),
        End::Expired { board, turn } => Some(Cause::Expired { board, turn }),
    };
    HomingTurn {
        section: h.section,
        start: h.start,
        axis: h.axis,
        ctls: ArrayVec::new(),
        cut,
        end: cause,
    }
}

/// What homing does in a turn, and the homing behind it.
pub fn home(
    clocks: &[Lines],
    k: u64,
    states: &[State],
    homing: Option<Homing>,
) -> (Option<Homing>, HomingTurn)
    requires numbers { length states.now ≤ 8 }
    requires turns { All (λ s. s.turn < 2 ^ 59) states.now }
    requires starts { StartsTogether homing }
    ensures starts { StartsTogether result.0 }
    ensures after { result.0 ≡ homing_after clocks.now k states.now homing }
    ensures turn { result.1 ≡ homing_turn clocks.now k states.now homing }
{
    match homing {
        None => (
            None,
            HomingTurn {
                section: 0,
                start: 0,
                axis: 0,
                ctls: ArrayVec::new(),
                cut: None,
                end: None,
            },
        ),
        Some(homing) => go_home(clocks, k, states, homing),
    }
}

/// The same of a homing section.
#[tactic(auto, using(crate::proofs::Starts::after_start))]
fn go_home(
    clocks: &[Lines],
    k: u64,
    states: &[State],
    homing: Homing,
) -> (Option<Homing>, HomingTurn)
    requires numbers { length states.now ≤ 8 }
    requires turns { All (λ s. s.turn < 2 ^ 59) states.now }
    requires starts { homing.group.start ≡ homing.start }
    ensures starts { StartsTogether result.0 }
    ensures after { result.0 ≡ homing_after clocks.now k states.now (Some homing) }
    ensures turn { result.1 ≡ homing_turn clocks.now k states.now (Some homing) }
{
    let mut homing = homing;
    hear_states(clocks, 0, homing.start, states, &mut homing.group);
    match answer_in(k, homing.start, &homing.group) {
        Some(end) => {
            let turn = answered(&homing, end);
            (None, turn)
        }
        None => {
            let turn = HomingTurn {
                section: homing.section,
                start: homing.start,
                axis: homing.axis,
                ctls: homing.group.turn(k),
                cut: None,
                end: None,
            };
            (Some(homing), turn)
        }
    }
}
