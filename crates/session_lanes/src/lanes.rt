//! The lanes of a run, and the machines at them before turn 0.
ghost use Rattle.std.specs.Prelude.{◌≡◌, ◌+◌, ◌≤◌, ◌++◌, ℕ, Some, [], map, length, vec_len, vec_capacity, IfOk};
ghost use Rattle.std.specs.VecDeque.{deque_len, deque_capacity};
ghost use Rattle.session_lanes.specs.Lanes.{AreLanes, IsNewOne, IsNewRow, AreNewTakes, AreNewSends, IsPlaces, IsBegun};
ghost use Rattle.session_lanes.specs.Levels.{AreLinks, most_late};

use crate::near::{Far, LinkLog};
use lane_queue::{Lane, SendPass, TakePass, lane};
use plan_types::Numbered;
use session_work::{
    Ask, Batch, Control, Head, Lanes, Late, LinkDone, LinkMachine, MotionDone, MotionMachine, Note,
    Outside, Piece, ReactorDone, ReactorMachine, Seat, State, WordMsg,
};
use std::alloc::{AllocError, Global};
use std::collections::VecDeque;

/// So many messages a lane holds.
const ROOM: u32 = 128;

/// So many turns of the planner wait at most, where one thread makes all turns. A lane has room for as many.
pub const LATE: usize = 128;

// A lane for each board.
#[derive(Drop)]
pub struct Row<T: Numbered> {
    pub lanes: Vec<Lane<T>>,
    pub sends: Vec<SendPass<T>>,
    pub takes: Vec<TakePass<T>>,
}

pub fn make_row<T: Numbered + Send>(alloc: Global, boards: usize) -> Result<Row<T>, AllocError>
    ensures { IfOk result (λ r. IsNewRow boards r.lanes.items r.sends.items r.takes.items) }
{
    let mut lanes = Vec::new(alloc);
    let mut sends = Vec::new(alloc);
    let mut takes = Vec::new(alloc);
    for _board in 0..boards {
        let (one, send, take) = lane::<T>(alloc, ROOM, 0)?;
        lanes.push(one)?;
        sends.push(send)?;
        takes.push(take)?;
    }
    Ok(Row {
        lanes,
        sends,
        takes,
    })
}

// A lane and its passes.
#[derive(Drop)]
pub struct One<T: Numbered> {
    pub lane: Lane<T>,
    pub send: SendPass<T>,
    pub take: TakePass<T>,
}

pub fn make_one<T: Numbered + Send>(alloc: Global) -> Result<One<T>, AllocError>
    ensures { IfOk result (λ x. IsNewOne x.lane x.send x.take) }
{
    let (lane, send, take) = lane::<T>(alloc, ROOM, 0)?;
    Ok(One { lane, send, take })
}

// New lanes with their passes, and room for what comes back.
#[derive(Drop)]
pub struct Places<L> {
    pub ones: Ones,
    pub rows: Rows,
    pub room: VecDeque<LinkDone<L>>,
    pub logs: Vec<LinkLog>,
    pub home: Vec<L>,
    pub late: VecDeque<Late>,
}

// Two lanes.
fn make_two<A: Numbered + Send, B: Numbered + Send>(
    alloc: Global,
) -> Result<(One<A>, One<B>), AllocError>
    ensures { IfOk result (λ x. IsNewOne x.0.lane x.0.send x.0.take × IsNewOne x.1.lane x.1.send x.1.take) }
{
    let first = make_one::<A>(alloc)?;
    let second = make_one::<B>(alloc)?;
    Ok((first, second))
}

// The lanes that are not of one board.
#[derive(Drop)]
pub struct Ones {
    pub words: One<WordMsg>,
    pub notes: One<Note>,
    pub asks: One<Ask>,
    pub pieces: One<Piece>,
}

fn make_ones(alloc: Global) -> Result<Ones, AllocError>
    ensures { IfOk result (λ x. IsNewOne x.words.lane x.words.send x.words.take
        × IsNewOne x.notes.lane x.notes.send x.notes.take × IsNewOne x.asks.lane x.asks.send x.asks.take
        × IsNewOne x.pieces.lane x.pieces.send x.pieces.take) }
{
    let told = make_two::<WordMsg, Note>(alloc)?;
    let (asks, pieces) = make_two::<Ask, Piece>(alloc)?;
    let (words, notes) = told;
    Ok(Ones {
        words,
        notes,
        asks,
        pieces,
    })
}

// The lanes of each board.
#[derive(Drop)]
pub struct Rows {
    pub controls: Row<Control>,
    pub batches: Row<Batch>,
    pub states: Row<State>,
}

fn make_rows(alloc: Global, boards: usize) -> Result<Rows, AllocError>
    ensures { IfOk result (λ x. IsNewRow boards x.controls.lanes.items x.controls.sends.items x.controls.takes.items
        × IsNewRow boards x.batches.lanes.items x.batches.sends.items x.batches.takes.items
        × IsNewRow boards x.states.lanes.items x.states.sends.items x.states.takes.items) }
{
    let controls = make_row::<Control>(alloc, boards)?;
    let batches = make_row::<Batch>(alloc, boards)?;
    let states = make_row::<State>(alloc, boards)?;
    Ok(Rows {
        controls,
        batches,
        states,
    })
}

// Room for what comes back, and for the turns that wait.
fn make_room<L: LinkMachine>(
    alloc: Global,
    boards: usize,
) -> Result<(VecDeque<LinkDone<L>>, Vec<LinkLog>, Vec<L>, VecDeque<Late>), AllocError>
    ensures { IfOk result (λ x. ((x.0.items ≡ []) × (deque_len x.0 ≡ 0) × (boards ≤ deque_capacity x.0))
        × ((x.1.items ≡ []) × (vec_len x.1 ≡ 0) × (boards ≤ vec_capacity x.1))
        × ((x.2.items ≡ []) × (vec_len x.2 ≡ 0) × (boards ≤ vec_capacity x.2))
        × ((x.3.items ≡ []) × (most_late ≤ deque_capacity x.3))) }
{
    let room = VecDeque::with_capacity(alloc, boards)?;
    let logs = Vec::with_capacity(alloc, boards)?;
    let home = Vec::with_capacity(alloc, boards)?;
    let late = VecDeque::with_capacity(alloc, LATE)?;
    Ok((room, logs, home, late))
}

/// New lanes for so many boards. All memory that a start wants is taken here, before any machine moves.
pub fn make_places<L: LinkMachine>(alloc: Global, boards: usize) -> Result<Places<L>, AllocError>
    ensures { IfOk result (λ p. IsPlaces boards p) }
{
    let ones = make_ones(alloc)?;
    let rows = make_rows(alloc, boards)?;
    let (room, logs, home, late) = make_room::<L>(alloc, boards)?;
    Ok(Places {
        ones,
        rows,
        room,
        logs,
        home,
        late,
    })
}

// All lanes of a run, with the memory that they stand in.
#[derive(Drop)]
pub struct AllLanes {
    pub words: Lane<WordMsg>,
    pub notes: Lane<Note>,
    pub asks: Lane<Ask>,
    pub pieces: Lane<Piece>,
    pub controls: Vec<Lane<Control>>,
    pub batches: Vec<Lane<Batch>>,
    pub states: Vec<Lane<State>>,
}

// What the workers have of them.
pub fn lanes_of(lanes: &AllLanes) -> Lanes<'_>
    ensures { AreLanes lanes.now result }
{
    Lanes {
        words: &lanes.words,
        notes: &lanes.notes,
        asks: &lanes.asks,
        pieces: &lanes.pieces,
        controls: lanes.controls.as_slice(),
        batches: lanes.batches.as_slice(),
        states: lanes.states.as_slice(),
    }
}

// All machines of a run at its lanes, before turn 0.
#[derive(Drop)]
pub struct Begun<M, L, A, O> {
    pub lanes: AllLanes,
    pub links: VecDeque<LinkDone<L>>,
    pub far: Far<M, L, A, O>,
}

// The links at their lanes, the last one first, before those that stand there.
fn set_links<L: LinkMachine>(
    lanes: &Lanes<'_>,
    controls: Vec<TakePass<Control>>,
    batches: Vec<TakePass<Batch>>,
    states: Vec<SendPass<State>>,
    links: Vec<L>,
    set: VecDeque<LinkDone<L>>,
) -> VecDeque<LinkDone<L>>
    requires counts { (vec_len controls ≡ vec_len links) × (vec_len batches ≡ vec_len links)
        × (vec_len states ≡ vec_len links) }
    requires new { AreNewTakes lanes.now.controls.now controls.items × AreNewTakes lanes.now.batches.now batches.items
        × AreNewSends lanes.now.states.now states.items }
    requires set { AreLinks L.LinkMachine (vec_len links) lanes.now set.items }
    requires room { deque_len set + vec_len links ≤ deque_capacity set }
    ensures set { AreLinks L.LinkMachine 0 lanes.now result.items }
    ensures machines { map (λ d. d.machine) result.items ≡ links.items ++ map (λ d. d.machine) set.items }
    ensures count { deque_len result ≡ deque_len set + vec_len links }
{
    let mut controls = controls;
    let mut batches = batches;
    let mut states = states;
    let mut links = links;
    let mut set = set;
    let Some(machine) = links.pop() else {
        return set;
    };
    let at = links.len();
    let link = LinkDone {
        machine,
        out: false,
        control_pass: controls.remove(at),
        batch_pass: batches.remove(at),
        state_pass: states.remove(at),
    };
    match set.push_front(link) {
        Ok(()) => set_links(lanes, controls, batches, states, links, set),
        Err(_) => unreachable!(),
    }
}

/// Sets the machines at new lanes.
pub fn begin<M: MotionMachine, L: LinkMachine, A: ReactorMachine, O: Outside>(
    places: Places<L>,
    motion: M,
    links: Vec<L>,
    head: Head<A, O>,
) -> Begun<M, L, A, O>
    requires places { IsPlaces (vec_len links) places }
    requires boards { (M.boards motion ≡ vec_len links) × (A.boards head.machine ≡ vec_len links) }
    requires wants { M.wants motion 0 ≡ Some 0 }
    ensures { IsBegun M.MotionMachine L.LinkMachine A.ReactorMachine O.Outside motion links.items head result }
{
    let Places {
        ones,
        rows,
        room,
        logs,
        home,
        late,
    } = places;
    let Ones {
        words,
        notes,
        asks,
        pieces,
    } = ones;
    let Rows {
        controls,
        batches,
        states,
    } = rows;
    let One {
        lane: words,
        send: word_send,
        take: word_take,
    } = words;
    let One {
        lane: notes,
        send: note_send,
        take: note_take,
    } = notes;
    let One {
        lane: asks,
        send: ask_send,
        take: ask_take,
    } = asks;
    let One {
        lane: pieces,
        send: piece_send,
        take: piece_take,
    } = pieces;
    let Row {
        lanes: controls,
        sends: control_sends,
        takes: control_takes,
    } = controls;
    let Row {
        lanes: batches,
        sends: batch_sends,
        takes: batch_takes,
    } = batches;
    let Row {
        lanes: states,
        sends: state_sends,
        takes: state_takes,
    } = states;
    let lanes = AllLanes {
        words,
        notes,
        asks,
        pieces,
        controls,
        batches,
        states,
    };
    let links = set_links(
        &lanes_of(&lanes),
        control_takes,
        batch_takes,
        state_sends,
        links,
        room,
    );
    let far = Far {
        motion: MotionDone {
            seat: Seat {
                machine: motion,
                halted: false,
                quiet: false,
                out: false,
                heard: 0,
            },
            asks: 0,
            closed: false,
            sated: 0,
            word_pass: word_take,
            note_pass: note_send,
            ask_pass: ask_send,
            piece_pass: piece_take,
            batch_passes: batch_sends,
            late,
        },
        hand: ReactorDone {
            head,
            served: 0,
            next: 0,
            closed: false,
            sated: 0,
            word_pass: word_send,
            note_pass: note_take,
            ask_pass: ask_take,
            piece_pass: piece_send,
            control_passes: control_sends,
            state_passes: state_takes,
        },
        logs,
        home,
    };
    Begun { lanes, links, far }
}
