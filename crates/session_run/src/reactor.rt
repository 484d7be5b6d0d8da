//! The reactor, as a run drives it.
ghost use Rattle.std.specs.Prelude.{◌≡◌, ◌+◌, ◌<◌, ◌≤◌, true, None};
ghost use Rattle.host_reactor.specs.Notes.{are_lines, news_of};
ghost use Rattle.host_reactor.specs.Reactor.{first_run};
ghost use Rattle.plan_types.specs.Machines.{IsValidMachine};

use host_reactor::{Reactor, orders_stand_in_rows};
use msg_code::{Control, Note, NoteNews, State};
use plan_types::{Cause, Machine};
use session_work::{Ordered, ReactorMachine};
use std::alloc::{AllocError, Global};
use std::marker::Model;
use wire_scene::Scene;

/// The reactor of a run. Once memory was wanted, it makes no turn.
#[derive(Drop)]
pub struct Host<'a> {
    reactor: Reactor<'a>,
    live: bool,
}

impl<'a> Model for Host<'a> {
    ghost use Rattle.std.specs.Prelude.{◌≡◌, true};
    ghost use Rattle.host_reactor.specs.Reactor.{Run};
    ghost use Rattle.host_reactor.specs.Rows.{HasEachBoard};

    ghost Value = { Run };

    ghost view = { λ h. h.reactor };

    ghost invariant = { λ h. h.live ≡ true → HasEachBoard h.reactor.machine h.reactor.known };
}

impl<'a> Host<'a> {
    /// The reactor of a run on a machine in a scene, before its first turn.
    pub fn new(alloc: Global, machine: &'a Machine, scene: &'a Scene) -> Host<'a>
        requires { IsValidMachine machine.now }
        ensures { result ≡ first_run machine.now scene.now.switches }
    {
        orders_stand_in_rows();
        Host {
            reactor: Reactor::new(alloc, machine, scene),
            live: true,
        }
    }
}

/// Whether news tell of further clock lines alone.
fn are_lines(news: &[NoteNews]) -> bool
    ensures { result ≡ are_lines news.now }
{
    match news {
        [] => true,
        [NoteNews::Line { .. }, rest @ ..] => are_lines(rest),
        [_first, ..] => false,
    }
}

/// Whether a note has no news but of further clock lines.
fn is_calm(note: &Option<Note>) -> bool
    ensures { result ≡ true → are_lines (news_of note.now) ≡ true }
{
    match note {
        None => true,
        Some(note) => are_lines(note.news.as_slice()),
    }
}

/// Whether a reactor that was free for some turns is free for those that are left, unless it ends the run.
fn stays_free(end: &Option<Cause>, calm: bool, before: u64, behind: u64) -> bool
    ensures { result ≡ true → end.now ≡ None → 0 < before → (calm ≡ true) × (before ≤ behind + 1) }
{
    end.is_some() || before == 0 || (calm && before - 1 <= behind)
}

/// What a reactor ordered, as its thread takes it.
fn order(ordered: host_reactor::Ordered) -> Ordered
    ensures controls { result.controls.items ≡ ordered.controls }
    ensures word { result.word ≡ ordered.word }
    ensures lines { result.lines ≡ ordered.lines }
    ensures end { result.end ≡ ordered.end }
{
    Ordered {
        controls: ordered.controls.into_vec(),
        word: ordered.word,
        lines: ordered.lines,
        end: ordered.end,
    }
}

impl<'a> ReactorMachine for Host<'a> {
    ghost use Rattle.std.specs.Prelude.{◌≡◌, length};
    ghost use Rattle.session_run.specs.Reactors.{CanTurnReactor, IsFree, Stops, TurnsReactor};

    ghost boards = { λ h. length h.machine.boards };

    ghost can = { CanTurnReactor };

    ghost turns = { TurnsReactor };

    ghost stops = { Stops };

    ghost free = { IsFree };

    fn can_turn(&self, k: u64) -> bool {
        self.live && self.reactor.can_turn(k)
    }

    fn free(&self, k: u64, most: u64) -> u64 {
        if !self.reactor.can_turn(k) {
            return 0;
        }
        most.min(self.reactor.free())
    }

    fn turn(
        &mut self,
        k: u64,
        states: &[State],
        note: &Option<Note>,
    ) -> Result<Ordered, AllocError> {
        if let Some(ordered) = self.reactor.calm_turn(k, states, note) {
            return Ok(order(ordered));
        }
        let calm = is_calm(note);
        let before = self.reactor.free();
        self.live = false;
        let ordered = self.reactor.turn(k, states, note)?;
        let behind = self.reactor.free();
        // The motion machine's notes tell of no section in free turns: that is its law of clear turns.
        if !stays_free(&ordered.end, calm, before, behind) {
            return Err(AllocError);
        }
        self.live = true;
        Ok(order(ordered))
    }

    fn give_back(&mut self, room: Vec<Control>) {
        self.reactor.give_back(room);
    }

    fn stop(&mut self, cause: Cause) {
        self.reactor.stop(cause);
    }
}
