//! A board with its link: a host's end, a simulated board, and the blocks under way between them.

ghost use Rattle.std.specs.Prelude.{◌≡◌, ℕ, ◌^◌, ◌<◌, ◌↔◌, List, [], ◌++◌, length, slice_index_or, IsTrue, true, false, OnOk, IfOk};
ghost use Rattle.plan_types.specs.Clock.{tick_limit};
ghost use Rattle.plan_types.specs.declared.plan.BoardState.TheVariants.{Running};
ghost use Rattle.link_core.specs.Core.{sent};
ghost use Rattle.link_core.specs.Host.{Host, acked_of, IsResendDue};
ghost use Rattle.link_core.specs.Stands.{host_of, last_closes};
ghost use Rattle.msg_code.specs.declared.unit.Batch.{Batch};
ghost use Rattle.msg_code.specs.declared.unit.Control.{Control};
ghost use Rattle.board_world.specs.declared.event.Event.{Event};
ghost use Rattle.wire_scene.specs.declared.scene.Way.{Way};
ghost use Rattle.board_world.specs.World.{Core, after_event, in_turn, new_world};
ghost use Rattle.board_world.specs.Stands.{SeenWorld, WorldStandsFor, CanHappen, IsStill, under_way, blocks_of, all_put_again, blocks_from};

use crate::event::Event;
use crate::line::{Line, found_in};
use crate::orders::{queue_commands, queue_units};
use block_frame::{Block, Found};
use board_sim::{BlockTaker, PinLevels};
use link_core::HostEnd;
use msg_code::{Batch, Cmd, Control, decode};
use msg_dict::{Dict, own_formats};
use plan_types::{BoardDef, BoardState, Pulse};
use std::alloc::{AllocError, Global};
use std::marker::Model;
use wire_scene::Way;

/// The ticks of every run stay below this.
const TICK_LIMIT: u64 = 13_000_000_000_000_000_000;

/// A board and its link.
#[derive(Drop)]
pub struct World {
    alloc: Global,
    host: HostEnd,
    taker: BlockTaker,
    formats: Dict,
    down: Line,
    up: Line,
    pulses: Vec<Pulse>,
}

impl Model for World {
    ghost use Rattle.std.specs.Prelude.{◌≡◌};
    ghost use Rattle.msg_dict.specs.Own.{own_formats};
    ghost use Rattle.board_world.specs.Stands.{SeenWorld};

    ghost Value = { SeenWorld };

    ghost view = { λ w.
        record { host = w.host; station = w.taker; down = w.down; up = w.up; pulses = w.pulses.items } };

    ghost invariant = { λ w. w.formats.formats ≡ own_formats };
}

impl World {
    /// A world in which nothing has happened, whose board's pins have these levels.
    pub fn new(alloc: Global, b: &BoardDef, pins: Vec<PinLevels>) -> Result<Self, AllocError>
        ensures { IfOk result (λ w. WorldStandsFor w (new_world b.now pins.items)) }
    {
        Ok(World {
            alloc,
            host: HostEnd::new(alloc),
            taker: BlockTaker::new(alloc, b, pins)?,
            formats: own_formats(alloc)?,
            down: Line::new(alloc),
            up: Line::new(alloc),
            pulses: Vec::new(alloc),
        })
    }

    /// An event happens. After want of memory the world is only dropped.
    pub fn step(&mut self, e: Event) -> Result<(), AllocError>
        requires { CanHappen self.old e }
        ensures { OnOk result ((h : Core) → WorldStandsFor self.old h → WorldStandsFor self.new (after_event h e)) }
    {
        match e {
            Event::Put(batch) => self.put(&batch)?,
            Event::Control(control) => self.control(&control)?,
            Event::Send => self.send()?,
            Event::Resend => self.resend()?,
            Event::Arrive => self.arrive()?,
            Event::Lose => self.lose(),
            Event::Garble => self.garble()?,
            Event::Repeat => self.repeat()?,
            Event::Reply => self.reply(),
            Event::LoseReply => self.lose_reply(),
            Event::Pass(until) => self.pass(until)?,
        }
        Ok(())
    }

    /// The units of a batch are queued.
    pub fn put(&mut self, batch: &Batch) -> Result<(), AllocError>
        ensures { OnOk result
            ((h : Core) → WorldStandsFor self.old h → WorldStandsFor self.new (after_event h (Event.Put batch.now))) }
    {
        queue_units(&mut self.host, &self.formats, batch.units.as_slice())?;
        Ok(())
    }

    /// The commands of a control are queued.
    pub fn control(&mut self, control: &Control) -> Result<(), AllocError>
        ensures { OnOk result
            ((h : Core) → WorldStandsFor self.old h →
            WorldStandsFor self.new (after_event h (Event.Control control.now))) }
    {
        queue_commands(&mut self.host, &self.formats, control.commands.as_slice())?;
        Ok(())
    }

    fn send(&mut self) -> Result<(), AllocError>
        requires { self.old.host.sent < 2 ^ 63 }
        ensures { OnOk result ((h : Core) → WorldStandsFor self.old h →
            WorldStandsFor self.new (after_event h Event.Send)) }
    {
        let turn = self.host.last_turn();
        if let Some(block) = self.host.send(turn) {
            self.down.put(block)?;
        }
        Ok(())
    }

    fn resend(&mut self) -> Result<(), AllocError>
        ensures { OnOk result ((h : Core) → WorldStandsFor self.old h →
            WorldStandsFor self.new (after_event h Event.Resend)) }
    {
        put_all_again(&mut self.host, &mut self.down)?;
        Ok(())
    }

    fn arrive(&mut self) -> Result<(), AllocError>
        requires { self.old.station.rig.controller.tick < tick_limit }
        ensures { OnOk result ((h : Core) → WorldStandsFor self.old h →
            WorldStandsFor self.new (after_event h Event.Arrive)) }
    {
        self.repeat()?;
        self.lose();
        Ok(())
    }

    fn lose(&mut self)
        ensures { (h : Core) → WorldStandsFor self.old h → WorldStandsFor self.new (after_event h Event.Lose) }
    {
        self.down.lose();
    }

    fn garble(&mut self) -> Result<(), AllocError>
        requires { self.old.station.rig.controller.tick < tick_limit }
        ensures { OnOk result ((h : Core) → WorldStandsFor self.old h →
            WorldStandsFor self.new (after_event h Event.Garble)) }
    {
        if self.down.len() == 0 {
            return Ok(());
        }
        let mut answers = Vec::new(self.alloc);
        self.taker.take(&Found::Bad, &mut answers)?;
        self.up.put_all(answers.as_slice())?;
        self.down.lose();
        Ok(())
    }

    fn repeat(&mut self) -> Result<(), AllocError>
        requires { self.old.station.rig.controller.tick < tick_limit }
        ensures { OnOk result ((h : Core) → WorldStandsFor self.old h →
            WorldStandsFor self.new (after_event h Event.Repeat)) }
    {
        let Some(block) = self.down.first() else {
            return Ok(());
        };
        let found = found_in(block);
        let mut answers = Vec::new(self.alloc);
        self.taker.take(&found, &mut answers)?;
        self.up.put_all(answers.as_slice())?;
        Ok(())
    }

    fn reply(&mut self)
        ensures { (h : Core) → WorldStandsFor self.old h → WorldStandsFor self.new (after_event h Event.Reply) }
    {
        let Some(block) = self.up.first() else {
            return;
        };
        if let Found::Block { number, content } = found_in(block) {
            let _acked = self.host.acked(number, content.is_empty());
        }
    }

    /// The answer in the oldest block under way to the host, where it has one.
    pub fn answer(&self) -> Option<Cmd>
        ensures { (h : Core) → WorldStandsFor self.now h → IsFirstAnswer h.link.up result }
    {
        let Some(block) = self.up.first() else {
            return None;
        };
        let Found::Block { content, .. } = found_in(block) else {
            return None;
        };
        whole_command(&self.formats, content.as_slice())
    }

    fn lose_reply(&mut self)
        ensures { (h : Core) → WorldStandsFor self.old h → WorldStandsFor self.new (after_event h Event.LoseReply) }
    {
        self.up.lose();
    }

    /// The board is run on to a tick.
    pub fn pass(&mut self, until: u64) -> Result<(), AllocError>
        requires { until < tick_limit }
        ensures { OnOk result ((h : Core) → WorldStandsFor self.old h →
            WorldStandsFor self.new (after_event h (Event.Pass until))) }
    {
        // Mostly the board makes steps and tells nothing.
        if self.is_still(until) {
            self.pass_still(until)?;
            return Ok(());
        }
        let from = self.taker.tick();
        if until < from {
            return Ok(());
        }
        let before = shut_before(self.taker.state(), from);
        let mut answers = Vec::new(self.alloc);
        let pulses = self.taker.pass(until, &mut answers)?;
        self.taker.say_shut(before, from, until, &mut answers)?;
        self.up.put_all(answers.as_slice())?;
        self.pulses = pulses;
        Ok(())
    }

    /// Whether the board runs on to a tick and tells nothing before it.
    pub fn is_still(&self, until: u64) -> bool
        ensures { result ≡ true → IsStill self.now.station.rig until }
    {
        self.taker.tick() <= until && self.taker.is_still(until)
    }

    /// The board, which tells nothing before a tick, is run on to it.
    pub fn pass_still(&mut self, until: u64) -> Result<(), AllocError>
        requires until { until < tick_limit }
        requires still { IsStill self.old.station.rig until }
        ensures stands { OnOk result ((h : Core) → WorldStandsFor self.old h →
            WorldStandsFor self.new (after_event h (Event.Pass until))) }
        ensures host { OnOk result (self.new.host ≡ self.old.host) }
        ensures up { OnOk result (self.new.up ≡ self.old.up) }
        ensures runs { OnOk result (self.new.station.rig.controller.state ≡ Running) }
    {
        self.taker.pass_asleep(until, &mut self.pulses)?;
        Ok(())
    }

    /// Whether an event may happen now.
    #[tactic(auto, using(crate::proofs::Telling::none_asked))]
    pub fn can_step(&self, e: &Event) -> bool
        ensures { IsTrue result ↔ CanHappen self.now e.now }
    {
        match e {
            Event::Send => self.host.sent() < 1 << 63,
            Event::Arrive | Event::Garble | Event::Repeat => self.taker.tick() < TICK_LIMIT,
            Event::Pass(until) => *until < TICK_LIMIT,
            _ => true,
        }
    }

    /// Whether a resend is due in this turn. A block that is put from now on is put in this turn.
    pub fn due(&mut self, turn: u64) -> bool
        ensures seen { IsTrue result ↔ IsResendDue self.old.host turn }
        ensures due { (h : Core) → WorldStandsFor self.old h → IsTrue result ↔ IsResendDue (host_of h.link) turn }
        ensures board { self.new.station ≡ self.old.station }
        ensures stands { (h : Core) → WorldStandsFor self.old h → WorldStandsFor self.new (in_turn h turn) }
    {
        self.host.turn(turn)
    }

    /// The pulses that the board made when it was run on last.
    pub fn pulses(&self) -> &[Pulse]
        ensures seen { result.now ≡ self.now.pulses }
        ensures stands { (h : Core) → WorldStandsFor self.now h → result.now ≡ h.last }
    {
        self.pulses.as_slice()
    }

    /// Whether the board runs, or why it shut down.
    pub fn state(&self) -> BoardState
        ensures seen { result ≡ self.now.station.rig.controller.state }
        ensures stands { (h : Core) → WorldStandsFor self.now h → result ≡ h.board.controller.state }
    {
        self.taker.state()
    }

    /// The board's tick.
    pub fn tick(&self) -> u64
        ensures seen { result ≡ self.now.station.rig.controller.tick }
        ensures stands { (h : Core) → WorldStandsFor self.now h → result ≡ h.board.controller.tick }
    {
        self.taker.tick()
    }

    /// How many blocks are under way.
    pub fn copies(&self, way: Way) -> usize
        ensures seen { result ≡ length (under_way way self.now) }
        ensures stands { (h : Core) → WorldStandsFor self.now h → result ≡ length (blocks_of way h) }
    {
        match way {
            Way::Down => self.down.len(),
            Way::Up => self.up.len(),
        }
    }

    /// A block under way, by its place; the oldest stands at 0.
    pub fn copy(&self, way: Way, i: usize) -> Block
        requires { i < length (under_way way self.now) }
        ensures seen { result.items ≡ slice_index_or (under_way way self.now) i [] }
        ensures stands { (h : Core) → WorldStandsFor self.now h → result.items ≡ slice_index_or (blocks_of way h) i [] }
    {
        match way {
            Way::Down => self.down.block(i),
            Way::Up => self.up.block(i),
        }
    }

    /// The number of the oldest block that the board hasn't acknowledged, or of the next new one.
    pub fn acked(&self) -> u64
        ensures seen { result ≡ acked_of self.now.host }
        ensures stands { (h : Core) → WorldStandsFor self.now h → result ≡ h.link.acked }
    {
        self.host.oldest()
    }

    /// How many blocks were sent.
    pub fn sent(&self) -> u64
        ensures seen { result ≡ self.now.host.sent }
        ensures stands { (h : Core) → WorldStandsFor self.now h → result ≡ sent h.link }
    {
        self.host.sent()
    }

    /// No command waits, and no block is outstanding.
    pub fn idle(&self) -> bool
        ensures seen { IsTrue result ↔ (self.now.host.waiting ≡ []) × (self.now.host.contents ≡ []) }
        ensures stands { (h : Core) → WorldStandsFor self.now h →
            IsTrue result ↔ (h.link.waiting ≡ []) × (h.link.acked ≡ sent h.link) }
    {
        self.host.idle()
    }

    /// Whether the last block ends with a `get_uptime`.
    pub fn closed(&self) -> bool
        ensures seen { result ≡ self.now.host.closed }
        ensures stands { (h : Core) → WorldStandsFor self.now h → result ≡ last_closes false h.link.blocks }
    {
        self.host.closed()
    }
}

ghost use Rattle.std.specs.Prelude.{Some};
ghost use Rattle.msg_code.specs.Text.{IsText};
ghost use Rattle.msg_code.specs.declared.cmd.Cmd.{Cmd};
ghost use Rattle.board_world.specs.Stands.{IsFirstAnswer};
ghost use Rattle.board_world.specs.World.{shut_before};

/// The state in which a board went into its present turn: a shutdown at the present tick came in this turn.
fn shut_before(state: BoardState, now: u64) -> BoardState
    ensures { result ≡ shut_before state now }
{
    match state {
        BoardState::Shut { tick, .. } if tick >= now => BoardState::Running,
        _ => state,
    }
}

/// The command that these bytes are.
fn whole_command(d: &Dict, bytes: &[u8]) -> Option<Cmd>
    ensures { (c : Cmd) → (result ≡ Some c) ↔ IsText d.now.formats c bytes.now }
{
    let Ok((c, used)) = decode(d, bytes) else {
        return None;
    };
    if used != bytes.len() {
        return None;
    }
    Some(c)
}

/// Puts all outstanding blocks on the line again, in order.
fn put_all_again(host: &mut HostEnd, down: &mut Line) -> Result<(), AllocError>
    ensures host { OnOk result (host.new ≡ all_put_again host.old) }
    ensures down { OnOk result (down.new ≡ down.old ++ blocks_from (acked_of host.old) host.old.contents) }
{
    for i in 0..host.outstanding() {
        down.put(host.again(i))?;
    }
    Ok(())
}
