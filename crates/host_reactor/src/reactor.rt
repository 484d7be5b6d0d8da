//! The reactor of a run.

ghost use Rattle.std.specs.Prelude.{◌≡◌, ℕ, ◌+◌, ◌<◌, ◌≤◌, ◌^◌, ◌++◌, [], true, None, length, All, OnOk, IfOk, IfSome, IfNone};
ghost use Rattle.arrayvec.specs.ArrayVec.{array_vec_len};
ghost use Rattle.plan_types.specs.Machines.{IsValidMachine};
ghost use Rattle.axis_homing.specs.Homing.{StartsTogether};
ghost use Rattle.host_reactor.specs.Free.{free_turns, IsAtRest};
ghost use Rattle.board_asking.specs.Kept.{IsEarly};
ghost use Rattle.host_reactor.specs.Kept.{HasAskings};
ghost use Rattle.host_reactor.specs.Notes.{news_of};
ghost use Rattle.host_reactor.specs.Reactor.{Run, first_run, new_askings, new_known, reacts, stopped_by};

use crate::OutOfMemory;
use crate::calm::{calm_controls, is_calm, is_still};
use crate::free::free_turns;
use crate::notes::{is_out, is_plain, news_of, take_note};
use crate::ordered::{Known, Ordered, Phase, Setting};
use crate::react::{no_word, react};
use crate::report::pulses_told;
use arrayvec::ArrayVec;
use board_asking::{AllClocks, Asking, new_asking};
use msg_code::{Control, Note, State};
use plan_types::{BoardDef, Cause, Machine};
use std::alloc::Global;
use std::marker::Model;
use std::mem;
use wire_scene::Scene;

/// No run has this turn.
const LAST_TURN: u64 = 1 << 59;

/// What takes the states of the boards and the notes of the motion machine, and orders what is to be done,
/// turn by turn.
#[derive(Drop)]
pub struct Reactor<'a> {
    setting: Setting<'a>,
    known: Known,
    next: u64,
    /// The list of an earlier turn's controls, whose room the next one uses.
    room: Vec<Control>,
    /// Whether it is known that the run goes on, no asking is out, nothing homes, and no end was told.
    still: bool,
}

impl<'a> Model for Reactor<'a> {
    ghost use Rattle.plan_types.specs.Machines.{IsValidMachine};
    ghost use Rattle.axis_homing.specs.Homing.{StartsTogether};
    ghost use Rattle.std.specs.Prelude.{◌≡◌, true};
    ghost use Rattle.host_reactor.specs.Calm.{is_still};
    ghost use Rattle.host_reactor.specs.Free.{free_turns, IsAtRest};
    ghost use Rattle.host_reactor.specs.Kept.{HasAskings};
    ghost use Rattle.host_reactor.specs.Reactor.{Run};

    ghost Value = { Run };

    ghost view = { λ r. record {
      machine = r.setting.machine.now;
      switches = r.setting.scene.now.switches;
      known = r.known;
      next = r.next;
    } };

    ghost invariant = { λ r. IsValidMachine r.setting.machine.now × HasAskings r.setting.machine.now r.known
        × (r.still ≡ true → is_still r.known ≡ true) };
}

impl<'a> Reactor<'a> {
    /// The reactor of a run on a machine in a scene, before its first turn.
    pub fn new(alloc: Global, m: &'a Machine, s: &'a Scene) -> Reactor<'a>
        requires { IsValidMachine m.now }
        ensures { result ≡ first_run m.now s.now.switches }
    {
        Reactor {
            setting: Setting {
                alloc,
                machine: m,
                scene: s,
            },
            known: new_known(alloc, m),
            next: 0,
            room: Vec::new(alloc),
            still: false,
        }
    }

    /// A turn: what the boards and the motion machine told of the turn before is taken, and the orders of this turn are
    /// given. After want of memory the reactor is only dropped.
    pub fn turn(
        &mut self,
        k: u64,
        states: &[State],
        note: &Option<Note>,
    ) -> Result<Ordered, OutOfMemory>
        requires next { k ≡ self.old.next }
        requires few { k < 2 ^ 59 }
        requires turns { All (λ s. s.turn + 1 ≡ k) states.now }
        requires boards { length states.now ≤ length self.old.machine.boards }
        ensures known { OnOk result
            (self.new.known ≡ (reacts self.old.machine self.old.switches self.old.known k states.now note.now).known) }
        ensures ordered { IfOk result
            (λ o. o ≡ (reacts self.old.machine self.old.switches self.old.known k states.now note.now).ordered) }
        ensures next { OnOk result (self.new.next ≡ k + 1) }
        ensures machine { self.new.machine ≡ self.old.machine }
        ensures switches { self.new.switches ≡ self.old.switches }
    {
        self.still = false;
        take_note(self.setting.machine, &mut self.known, note)?;
        let out = is_out(note);
        self.next = k + 1;
        react(
            &self.setting,
            &mut self.known,
            k,
            states,
            news_of(note),
            out,
        )
    }

    /// The next turn, where nothing is ordered in it, nothing but pulses is told, and nothing ends. None where it is
    /// another turn, or memory was wanted: then nothing happened.
    #[tactic(auto, using(crate::proofs::Unmoved::calm_known, crate::proofs::Unmoved::calm_ordered, crate::proofs::Unmoved::left_free))]
    pub fn calm_turn(&mut self, k: u64, states: &[State], note: &Option<Note>) -> Option<Ordered>
        requires next { k ≡ self.old.next }
        requires few { k < 2 ^ 59 }
        requires boards { length states.now ≤ length self.old.machine.boards }
        ensures known { IfSome result (λ o.
            self.new.known ≡ (reacts self.old.machine self.old.switches self.old.known k states.now note.now).known) }
        ensures ordered { IfSome result
            (λ o. o ≡ (reacts self.old.machine self.old.switches self.old.known k states.now note.now).ordered) }
        ensures next { IfSome result (λ o. self.new.next ≡ k + 1) }
        ensures machine { self.new.machine ≡ self.old.machine }
        ensures switches { self.new.switches ≡ self.old.switches }
        ensures goes_on { IfSome result (λ o. o.end ≡ None) }
        ensures news { IfSome result (λ o. news_of note.now ≡ []) }
        ensures free { IfSome result (λ o. free_turns self.old.machine self.old.known k
            ≤ free_turns self.new.machine self.new.known (k + 1) + 1) }
        ensures rest { IfSome result (λ o. (n : ℕ) → n + 1 ≤ free_turns self.old.machine self.old.known k →
            IsAtRest self.old.machine self.old.known k (n + 1)) }
        ensures none { IfNone result (self.new ≡ self.old) }
    {
        let Some(note) = note else {
            return None;
        };
        if !self.still {
            self.still = is_still(&self.known);
        }
        if !self.still || !is_plain(note, self.known.clear) || !is_calm(&self.known, k, states) {
            return None;
        }
        let alloc = self.setting.alloc;
        let lines = pulses_told(alloc, self.setting.machine, states).ok()?;
        let room = mem::replace(&mut self.room, Vec::new(alloc));
        let controls = calm_controls(
            alloc,
            k,
            self.known.clocks.as_slice(),
            self.known.askings.as_slice(),
            room,
        )
        .ok()?;
        self.known.clear = note.clear;
        self.next = k + 1;
        Some(Ordered {
            controls,
            word: no_word(alloc, k, false),
            lines,
            end: None,
        })
    }

    /// Whether a turn is the next one, and there are not too many.
    pub fn can_turn(&self, k: u64) -> bool
        ensures can { result ≡ true → (k ≡ self.now.next) × (k < 2 ^ 59) }
        ensures all { (k ≡ self.now.next) × (k < 2 ^ 59) → result ≡ true }
    {
        k == self.next && k < LAST_TURN
    }

    /// For how many turns, from the next one on, the controls have no commands and the word has no news,
    /// whatever states come, as long as notes have no news and the run goes on.
    pub fn free(&self) -> u64
        requires { self.now.next < 2 ^ 60 }
        ensures value { result ≡ free_turns self.now.machine self.now.known self.now.next }
        ensures rest { (n : ℕ) → n + 1 ≤ result → IsAtRest self.now.machine self.now.known self.now.next (n + 1) }
    {
        free_of(self.setting.machine, &self.known, self.next)
    }

    /// Takes the list of a turn's controls back, whose room the next turn uses.
    pub fn give_back(&mut self, room: Vec<Control>)
        ensures { self.new ≡ self.old }
    {
        self.room = room;
    }

    /// Ends the run in the next turn for a cause, unless one that comes first holds then; of two the first told holds.
    pub fn stop(&mut self, cause: Cause)
        ensures { self.new ≡ record self.old { known = stopped_by cause self.old.known } }
    {
        self.still = false;
        stop_by(&mut self.known, cause);
    }
}

/// The run is to end for a cause.
fn stop_by(r: &mut Known, cause: Cause)
    ensures value { r.new ≡ stopped_by cause r.old }
    ensures askings { r.new.askings ≡ r.old.askings }
    ensures homing { r.new.homing ≡ r.old.homing }
{
    if r.stopped.is_none() {
        r.stopped = Some(cause);
    }
}

/// Adds an asking for each board.
fn put_new(boards: &[BoardDef], out: &mut ArrayVec<Asking, 8>)
    requires room { array_vec_len out.old + length boards.now ≤ 8 }
    requires before { All IsEarly out.old.items }
    ensures items { out.new.items ≡ out.old.items ++ new_askings boards.now }
    ensures count { array_vec_len out.new ≡ array_vec_len out.old + length boards.now }
    ensures early { All IsEarly out.new.items }
{
    match boards {
        [] => {}
        [_first, rest @ ..] => {
            out.push(new_asking());
            put_new(rest, out);
        }
    }
}

/// What a reactor knows before its first turn.
fn new_known(alloc: Global, m: &Machine) -> Known
    requires { IsValidMachine m.now }
    ensures value { result ≡ new_known m.now }
    ensures kept { HasAskings m.now result }
{
    let mut askings = ArrayVec::new();
    put_new(m.boards.as_slice(), &mut askings);
    Known {
        phase: Phase::Connecting,
        askings,
        clocks: AllClocks::new(alloc),
        begun: None,
        homing: None,
        done: 0,
        ended: 0,
        reading: None,
        stopped: None,
        clear: 0,
    }
}

/// For how many turns a reactor rests.
fn free_of(m: &Machine, r: &Known, turn: u64) -> u64
    requires turn { turn < 2 ^ 60 }
    requires starts { StartsTogether r.now.homing }
    ensures value { result ≡ free_turns m.now r.now turn }
    ensures rest { (n : ℕ) → n + 1 ≤ result → IsAtRest m.now r.now turn (n + 1) }
{
    free_turns(m, r, turn)
}
