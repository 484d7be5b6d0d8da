//! What the reactor keeps, and what it gives in a turn.

use arrayvec::ArrayVec;
use axis_homing::Homing;
use board_asking::{AllClocks, Asking};
use msg_code::{Control, WordMsg};
use plan_types::{Cause, Listed, Machine, ReadEnd, SectionKind};
use report_text::ReportLine;
use std::alloc::Global;
use wire_scene::Scene;

/// What a run stands on: the memory, and its machine in a scene.
#[derive(Drop)]
pub struct Setting<'a> {
    pub alloc: Global,
    pub machine: &'a Machine,
    pub scene: &'a Scene,
}

/// The controls of the links, the word to the motion machine, the report's lines, and the end where the run ends.
#[derive(Drop)]
pub struct Ordered {
    pub controls: Listed<Control>,
    pub word: WordMsg,
    pub lines: Listed<ReportLine>,
    pub end: Option<Cause>,
}

/// What a run does.
#[derive(Clone, Copy, Debug, PartialEq, Eq)]
pub enum Phase {
    Connecting,
    Running,
    /// The boards were told to stop, for this line.
    Stopping(u64),
}

/// A section that will begin, or has begun.
#[derive(Clone, Copy, Debug, PartialEq, Eq)]
pub struct Begun {
    pub section: u64,
    pub kind: SectionKind,
    pub turn: u64,
}

/// How the text was read, and how many sections it has.
#[derive(Clone, Copy, Debug, PartialEq, Eq)]
pub struct Reading {
    pub end: ReadEnd,
    pub sections: u64,
}

/// What the reactor knows of a run.
#[derive(Drop)]
pub struct Known {
    pub phase: Phase,
    /// What each board is asked.
    pub askings: ArrayVec<Asking, 8>,
    /// The clock lines of each board, once all are connected.
    pub clocks: AllClocks,
    /// The last section of which the motion machine told that it begins.
    pub begun: Option<Begun>,
    /// The homing section that will begin or runs.
    pub homing: Option<Homing>,
    /// How many sections ended, and the turn in which the last one, or connecting, ended.
    pub done: u64,
    pub ended: u64,
    pub reading: Option<Reading>,
    /// Why the run is to end, where the reading or the writing failed.
    pub stopped: Option<Cause>,
    /// The first turn whose note may have news.
    pub clear: u64,
}
