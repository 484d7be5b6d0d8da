//! A section of moves on one machine.

ghost use Rattle.std.specs.Prelude.{◌≡◌, ℕ, ◌+◌, ◌<◌, ◌*◌, ◌^◌, [], All, IfNone, IfOk, IfSome, OnOk, IsTrue, length, max, slice_index_or, true, ◌≤◌};
ghost use Rattle.plan_types.specs.Clock.{turn_ns};
ghost use Rattle.plan_types.specs.Lines.{lines_tick};
ghost use Rattle.plan_types.specs.Machines.{IsValidMachine};
ghost use Rattle.section_stream.specs.Ready.{IsReadyMove};
ghost use Rattle.section_feed.specs.Boards.{MayStart};
ghost use Rattle.section_feed.specs.Changes.{AreChanged};
ghost use Rattle.section_feed.specs.Feeding.{IsBoardOf, lines_of_board, packed_of, fed_time, turn_of};
ghost use Rattle.section_feed.specs.Going.{HasBatch, IsAhead, IsAtTurn, IsBoardStill, IsOpen, IsPlanned, IsPushed};
ghost use Rattle.section_feed.specs.Ended.{AreEnded};
ghost use Rattle.section_feed.specs.Sets.{goes_of, set_from, set_of};
ghost use Rattle.section_feed.specs.Kinds.{board_kinds};
ghost use Rattle.section_feed.specs.AllBoards.{ArePast, AreReleased, latest_packed};
ghost use Rattle.section_feed.specs.Left.{AreLeftOn};

use crate::OutOfMemory;
use crate::board::BoardStream;
use crate::queue::MoveQueue;
use clock_line::Lines;
use msg_code::Unit;
use plan_types::{Line, Listed, Machine, Move};
use section_stream::Ready;
use std::alloc::Global;
use std::mem;
use step_feed::LEAD;

/// No section has more moves.
const MOST_MOVES: u64 = 2_000_000;

/// So many turns are packed at once.
const PIECE: u64 = 8;

/// The nanoseconds of a turn.
const TURN_NS: u128 = 1_000_000;

/// No section ends as late as this, in ns.
const MOST_NS: u128 = 17_592_186_044_416_000_000;

/// Adds a move to all boards.
fn push_boards(boards: &mut Vec<BoardStream>, ready: &Ready) -> Result<(), OutOfMemory>
    requires ready { IsReadyMove ready.now }
    requires going { All IsOpen boards.old.items }
    ensures { OnOk result (AreChanged (IsPushed ready.now) boards.old.items boards.new.items) }
{
    let mut place = 0;
    while place < boards.len() {
        boards[place].push(ready)?;
        place += 1;
    }
    Ok(())
}

/// No more moves come for all boards.
fn finish_boards(boards: &mut Vec<BoardStream>)
    ensures { AreChanged IsBoardStill boards.old.items boards.new.items }
{
    let mut place = 0;
    while place < boards.len() {
        boards[place].finish();
        place += 1;
    }
}

/// Plans and packs the steps of all boards up to a turn.
fn plan_boards(boards: &mut Vec<BoardStream>, turn: u64) -> Result<(), OutOfMemory>
    requires { turn < 2 ^ 44 }
    ensures { OnOk result (AreChanged (IsPlanned turn) boards.old.items boards.new.items) }
{
    let mut place = 0;
    while place < boards.len() {
        boards[place].plan(turn)?;
        place += 1;
    }
    Ok(())
}

/// Whether the steps of all boards are packed far enough ahead of a turn.
fn are_ahead(boards: &[BoardStream], turn: u64) -> bool
    requires small { turn < 2 ^ 43 }
    requires next { All (IsAtTurn turn) boards.now }
    ensures { IsTrue result → All (IsAhead turn) boards.now }
{
    for board in boards {
        if !board.is_ahead(turn) {
            return false;
        }
    }
    true
}

/// Whether all boards have released all units of the moves that they were given.
fn are_done(boards: &[BoardStream]) -> bool
    ensures { IsTrue result → AreReleased boards.now }
{
    for board in boards {
        if !board.is_done() {
            return false;
        }
    }
    true
}

/// The turn of the last step of the boards, or one before it, if all steps of the moves that they were given
/// are packed.
fn last_turn(boards: &[BoardStream], first: u64) -> Option<u64>
    ensures past { IfSome result (λ t. ArePast t boards.now) }
    ensures value { IfSome result (λ t. t ≡ max first (latest_packed boards.now)) }
    ensures left { IfNone result (AreLeftOn boards.now) }
{
    let mut last = first;
    for board in boards {
        let turn = board.last_turn()?;
        if turn > last {
            last = turn;
        }
    }
    Some(last)
}

/// The units of the next turn of all boards.
fn batch_boards(
    alloc: Global,
    boards: &mut Vec<BoardStream>,
    turn: u64,
) -> Result<Vec<Listed<Unit>>, OutOfMemory>
    requires next { All (IsAtTurn turn) boards.old.items }
    requires small { turn < 2 ^ 44 }
    requires ahead { All (IsAhead turn) boards.old.items }
    ensures boards { IfOk result (λ batches.
        AreChanged (HasBatch turn (λ b. slice_index_or batches.items b [])) boards.old.items boards.new.items) }
    ensures count { IfOk result (λ batches. length batches.items ≡ length boards.old.items) }
{
    let mut batches = Vec::new(alloc);
    let mut place = 0;
    while place < boards.len() {
        let units = boards[place].batch(turn)?;
        batches.push(Listed::of(units))?;
        place += 1;
    }
    Ok(batches)
}

/// A board with its steppers, in a section that begins with a turn.
fn board_of(
    alloc: Global,
    machine: &Machine,
    number: usize,
    lines: Lines,
    turn: u64,
    homing: bool,
) -> Result<BoardStream, OutOfMemory>
    requires machine { IsValidMachine machine.now }
    requires there { number < length machine.now.boards }
    requires start { MayStart lines turn }
    requires lead { 250 ≤ turn }
    ensures empty { IfOk result (λ board.
        IsBoardOf board (board_kinds machine.now lines number turn homing) (lines_tick lines (turn * turn_ns)) [] []) }
    ensures time { IfOk result (λ board. fed_time board ≡ turn * turn_ns) }
    ensures turn { IfOk result (λ board. turn_of board + 250 ≡ turn) }
    ensures lines { IfOk result (λ board. lines_of_board board ≡ lines) }
    ensures set { IfOk result (λ board. set_of board ≡ set_from machine.now lines turn number) }
    ensures packed { IfOk result (λ board. packed_of board ≡ turn) }
    ensures goes { IfOk result (λ board. goes_of board ≡ true) }
{
    let slots = machine.boards.as_slice()[number].slots;
    let mut board = BoardStream::new(alloc, lines, turn, slots);
    let steppers = machine.steppers.as_slice();
    for place in 0..steppers.len() {
        let stepper = &steppers[place];
        if usize::from(stepper.board) == number {
            board.add(machine.corexy, stepper, homing)?;
        }
    }
    Ok(board)
}

/// The steppers of a machine in one section, whose moves come one by one.
#[derive(Drop)]
pub struct SectionStream {
    alloc: Global,
    queue: MoveQueue,
    boards: Vec<BoardStream>,
    next: u64,
    ghost turns: { All (IsAtTurn next) boards.items },
    ghost ended: { AreEnded boards.items queue },
}

impl SectionStream {
    ghost use Rattle.std.specs.Prelude.{◌≡◌, ℕ, ◌+◌, ◌<◌, ◌≤◌, ◌*◌, ◌/◌, ◌^◌, Bool, List, [], ◌∷◌, ◌++◌, All, IfNone, IfOk, IfSome, OnOk, IsTrue, true, false, length, max, slice_index_or};
    ghost use Rattle.plan_types.specs.declared.plan.Move.{Move};
    ghost use Rattle.plan_types.specs.Clock.{turn_ns};
    ghost use Rattle.plan_types.specs.Lines.{Clocks, lines_tick};
    ghost use Rattle.plan_types.specs.Machines.{IsValidMachine};
    ghost use Rattle.plan_types.specs.Sections.{clocks_at};
    ghost use Rattle.section_plan.specs.Runs.{IsShortMove};
    ghost use Rattle.section_stream.specs.Steppers.{StepperKind};
    ghost use Rattle.step_feed.specs.Pacing.{Release, at_turn};
    ghost use Rattle.section_feed.specs.Boards.{MayStart, MayTake};
    ghost use Rattle.section_feed.specs.Lined.{HasLine};
    ghost use Rattle.section_feed.specs.Going.{IsAhead, IsPackedTo, most_ahead};
    ghost use Rattle.section_feed.specs.Kinds.{board_kinds};
    ghost use Rattle.section_feed.specs.Queues.{IsDrawn, IsQueueOf, begin_in, count_in, cruise_in, drawn_to, is_taking, settled_to};
    ghost use Rattle.section_feed.specs.AllBoards.{ArePast, AreReleased, latest_packed};
    ghost use Rattle.section_feed.specs.Rests.{AreAllRested};
    ghost use Rattle.section_feed.specs.Sections.{IsLeft, IsSectionOf, boards_of, next_of, queue_of, sets_of};
    ghost use Rattle.section_feed.specs.Sets.{BoardSet, start_set};

    /// A section of a machine that begins with a turn, of which these moves were read so far; in a homing
    /// section no clock is set by its units.
    pub fn new(
        alloc: Global,
        machine: &Machine,
        clocks: &[Lines],
        turn: u64,
        homing: bool,
        queue: MoveQueue,
    ) -> Result<SectionStream, OutOfMemory>
        requires machine { IsValidMachine machine.now }
        requires boards { length clocks.now ≡ length machine.now.boards }
        requires start { (b : ℕ) (d : Clocks) → b < length clocks.now → MayStart (slice_index_or clocks.now b d) turn }
        requires lead { 250 ≤ turn }
        requires begun { drawn_to queue ≡ turn * turn_ns }
        ensures empty { IfOk result (λ s. (scv : ℕ) (moves : List Move) → IsQueueOf queue scv moves [] →
            IsSectionOf s scv moves (λ b. board_kinds machine.now (clocks_at clocks.now b) b turn homing)
            (λ b. lines_tick (clocks_at clocks.now b) (turn * turn_ns)) (λ b. [])) }
        ensures next { IfOk result (λ s. next_of s + 250 ≡ turn) }
        ensures boards { IfOk result (λ s. boards_of s ≡ length machine.now.boards) }
        ensures queue { IfOk result (λ s. queue_of s ≡ queue) }
        ensures sets { IfOk result (λ s. (b : ℕ) (d : BoardSet) → b < length machine.now.boards →
            slice_index_or (sets_of s) b d ≡ start_set machine.now clocks.now turn b) }
    {
        let mut boards = Vec::new(alloc);
        for (number, lines) in clocks.iter().enumerate() {
            let board = board_of(alloc, machine, number, lines.copied(alloc)?, turn, homing)?;
            boards.push(board)?;
        }
        Ok(SectionStream {
            alloc,
            queue,
            boards,
            next: turn - LEAD,
        })
    }

    /// Adds a move behind the others.
    pub fn push(&mut self, one: Move) -> Result<(), OutOfMemory>
        requires short { IsShortMove one }
        requires open { is_taking (queue_of self.old) ≡ true }
        requires few { count_in (queue_of self.old) < 2_000_000 }
        ensures on { OnOk result ((scv : ℕ) (moves : List Move) (kinds : ℕ → ℕ → StepperKind) (base : ℕ → ℕ)
            (released : ℕ → List Release) → IsSectionOf self.old scv moves kinds base released →
            IsSectionOf self.new scv (moves ++ one ∷ []) kinds base released) }
        ensures open { is_taking (queue_of self.new) ≡ true }
        ensures count { OnOk result (count_in (queue_of self.new) ≡ count_in (queue_of self.old) + 1) }
        ensures next { next_of self.new ≡ next_of self.old }
        ensures cruise { cruise_in (queue_of self.new) ≡ cruise_in (queue_of self.old) }
        ensures begin { begin_in (queue_of self.new) ≡ begin_in (queue_of self.old) }
        ensures boards { boards_of self.new ≡ boards_of self.old }
        ensures sets { sets_of self.new ≡ sets_of self.old }
        ensures same { self.new.boards ≡ self.old.boards }
    {
        self.queue.push(one)
    }

    /// The section ends behind the last move.
    pub fn finish(&mut self) -> Result<(), OutOfMemory>
        requires open { is_taking (queue_of self.old) ≡ true }
        ensures on { OnOk result ((scv : ℕ) (moves : List Move) (kinds : ℕ → ℕ → StepperKind) (base : ℕ → ℕ)
            (released : ℕ → List Release) → IsSectionOf self.old scv moves kinds base released →
            IsSectionOf self.new scv moves kinds base released) }
        ensures open { is_taking (queue_of self.new) ≡ false }
        ensures next { next_of self.new ≡ next_of self.old }
        ensures cruise { cruise_in (queue_of self.new) ≡ cruise_in (queue_of self.old) }
        ensures begin { begin_in (queue_of self.new) ≡ begin_in (queue_of self.old) }
        ensures boards { boards_of self.new ≡ boards_of self.old }
        ensures sets { sets_of self.new ≡ sets_of self.old }
        ensures same { self.new.boards ≡ self.old.boards }
    {
        self.queue.finish()
    }

    /// Gives the next move to the boards, if one waits whose speeds are final.
    fn draw_next(&mut self) -> Result<bool, OutOfMemory>
        ensures on { OnOk result ((scv : ℕ) (moves : List Move) (kinds : ℕ → ℕ → StepperKind) (base : ℕ → ℕ)
            (released : ℕ → List Release) → IsSectionOf self.old scv moves kinds base released →
            IsSectionOf self.new scv moves kinds base released) }
        ensures open { is_taking (queue_of self.new) ≡ is_taking (queue_of self.old) }
        ensures count { count_in (queue_of self.new) ≡ count_in (queue_of self.old) }
        ensures next { next_of self.new ≡ next_of self.old }
        ensures cruise { cruise_in (queue_of self.new) ≡ cruise_in (queue_of self.old) }
        ensures begin { begin_in (queue_of self.new) ≡ begin_in (queue_of self.old) }
        ensures boards { OnOk result (boards_of self.new ≡ boards_of self.old) }
        ensures sets { OnOk result (sets_of self.new ≡ sets_of self.old) }
    {
        let Some(ready) = self.queue.next() else {
            return Ok(false);
        };
        let mut boards = mem::replace(&mut self.boards, Vec::new(self.alloc));
        push_boards(&mut boards, &ready)?;
        self.boards = boards;
        Ok(true)
    }

    /// Tells the boards that no more moves come, where none can.
    fn end_boards(&mut self)
        ensures on { (scv : ℕ) (moves : List Move) (kinds : ℕ → ℕ → StepperKind) (base : ℕ → ℕ)
            (released : ℕ → List Release) → IsSectionOf self.old scv moves kinds base released →
            IsSectionOf self.new scv moves kinds base released }
        ensures queue { queue_of self.new ≡ queue_of self.old }
        ensures next { next_of self.new ≡ next_of self.old }
        ensures boards { boards_of self.new ≡ boards_of self.old }
        ensures sets { sets_of self.new ≡ sets_of self.old }
    {
        if self.queue.is_done() {
            let mut boards = mem::replace(&mut self.boards, Vec::new(self.alloc));
            finish_boards(&mut boards);
            self.boards = boards;
        }
    }

    /// Gives the boards the moves that begin before a turn.
    fn draw(&mut self, turn: u64) -> Result<(), OutOfMemory>
        ensures on { OnOk result ((scv : ℕ) (moves : List Move) (kinds : ℕ → ℕ → StepperKind) (base : ℕ → ℕ)
            (released : ℕ → List Release) → IsSectionOf self.old scv moves kinds base released →
            IsSectionOf self.new scv moves kinds base released) }
        ensures open { is_taking (queue_of self.new) ≡ is_taking (queue_of self.old) }
        ensures count { count_in (queue_of self.new) ≡ count_in (queue_of self.old) }
        ensures next { next_of self.new ≡ next_of self.old }
        ensures cruise { cruise_in (queue_of self.new) ≡ cruise_in (queue_of self.old) }
        ensures begin { begin_in (queue_of self.new) ≡ begin_in (queue_of self.old) }
        ensures boards { OnOk result (boards_of self.new ≡ boards_of self.old) }
        ensures sets { OnOk result (sets_of self.new ≡ sets_of self.old) }
    {
        for _ in 0..MOST_MOVES {
            if self.queue.drawn() >= u128::from(turn) * TURN_NS {
                return Ok(());
            }
            if !self.draw_next()? {
                break;
            }
        }
        self.end_boards();
        Ok(())
    }

    /// Plans and packs the steps up to a turn.
    fn plan(&mut self, turn: u64) -> Result<(), OutOfMemory>
        requires small { turn < 2 ^ 44 }
        requires near { turn ≤ next_of self.old + most_ahead }
        ensures on { OnOk result ((scv : ℕ) (moves : List Move) (kinds : ℕ → ℕ → StepperKind) (base : ℕ → ℕ)
            (released : ℕ → List Release) → IsSectionOf self.old scv moves kinds base released →
            IsSectionOf self.new scv moves kinds base released) }
        ensures queue { queue_of self.new ≡ queue_of self.old }
        ensures next { next_of self.new ≡ next_of self.old }
        ensures boards { OnOk result (boards_of self.new ≡ boards_of self.old) }
        ensures sets { OnOk result (sets_of self.new ≡ sets_of self.old) }
        ensures packed { OnOk result (All (IsPackedTo turn) self.new.boards.items) }
    {
        let mut boards = mem::replace(&mut self.boards, Vec::new(self.alloc));
        plan_boards(&mut boards, turn)?;
        self.boards = boards;
        Ok(())
    }

    /// Plans and packs the steps as far as the units of a turn need.
    fn prepare(&mut self, turn: u64) -> Result<(), OutOfMemory>
        requires small { turn < 2 ^ 43 }
        requires next { turn ≡ next_of self.old }
        ensures on { OnOk result ((scv : ℕ) (moves : List Move) (kinds : ℕ → ℕ → StepperKind) (base : ℕ → ℕ)
            (released : ℕ → List Release) → IsSectionOf self.old scv moves kinds base released →
            IsSectionOf self.new scv moves kinds base released) }
        ensures open { is_taking (queue_of self.new) ≡ is_taking (queue_of self.old) }
        ensures count { count_in (queue_of self.new) ≡ count_in (queue_of self.old) }
        ensures next { next_of self.new ≡ next_of self.old }
        ensures cruise { cruise_in (queue_of self.new) ≡ cruise_in (queue_of self.old) }
        ensures begin { begin_in (queue_of self.new) ≡ begin_in (queue_of self.old) }
        ensures boards { OnOk result (boards_of self.new ≡ boards_of self.old) }
        ensures sets { OnOk result (sets_of self.new ≡ sets_of self.old) }
        ensures ahead { OnOk result (All (IsAhead turn) self.new.boards.items) }
    {
        // The last units of a turn may be of steps that are planned in the next one, or while the ticks stand still.
        if are_ahead(&self.boards, turn) {
            return Ok(());
        }
        let until = turn + LEAD + 2 + PIECE;
        self.draw(until + 1)?;
        self.plan(until)?;
        Ok(())
    }

    /// Lets a clock line hold on a board from the beginning of a turn on, which is behind those up to which
    /// steps are packed.
    pub fn add_line(&mut self, board: usize, turn: u64, line: Line) -> Result<(), OutOfMemory>
        requires there { board < boards_of self.old }
        requires may { (d : BoardSet) → MayTake (slice_index_or (sets_of self.old) board d).clocks turn line }
        requires behind { next_of self.old + most_ahead < turn }
        ensures { OnOk result (HasLine board turn line self.old self.new) }
    {
        let mut boards = mem::replace(&mut self.boards, Vec::new(self.alloc));
        boards[board].add_line(turn, line)?;
        self.boards = boards;
        Ok(())
    }

    /// The units of the next turn, board by board.
    pub fn batches(&mut self) -> Result<Vec<Listed<Unit>>, OutOfMemory>
        requires small { next_of self.old < 2 ^ 43 }
        ensures on { IfOk result (λ batches. (scv : ℕ) (moves : List Move) (kinds : ℕ → ℕ → StepperKind) (base : ℕ → ℕ)
            (released : ℕ → List Release) → IsSectionOf self.old scv moves kinds base released →
            IsSectionOf self.new scv moves kinds base
            (λ b. released b ++ at_turn (next_of self.old) (slice_index_or batches.items b []))) }
        ensures count { IfOk result (λ batches. length batches.items ≡ boards_of self.old) }
        ensures open { is_taking (queue_of self.new) ≡ is_taking (queue_of self.old) }
        ensures moves { count_in (queue_of self.new) ≡ count_in (queue_of self.old) }
        ensures next { OnOk result (next_of self.new ≡ next_of self.old + 1) }
        ensures cruise { cruise_in (queue_of self.new) ≡ cruise_in (queue_of self.old) }
        ensures begin { begin_in (queue_of self.new) ≡ begin_in (queue_of self.old) }
        ensures boards { OnOk result (boards_of self.new ≡ boards_of self.old) }
        ensures sets { OnOk result (sets_of self.new ≡ sets_of self.old) }
        ensures rested { OnOk result (AreAllRested (next_of self.new + 250) self.new.boards.items) }
        ensures packed { OnOk result (All (IsPackedTo (next_of self.new + 251)) self.new.boards.items) }
    {
        let turn = self.next;
        self.prepare(turn)?;
        let mut boards = mem::replace(&mut self.boards, Vec::new(self.alloc));
        let batches = batch_boards(self.alloc, &mut boards, turn)?;
        self.next = turn + 1;
        self.boards = boards;
        Ok(batches)
    }

    /// Whether another move may be pushed.
    pub fn takes_more(&self) -> bool
        ensures open { IsTrue result → is_taking (queue_of self.now) ≡ true }
        ensures few { IsTrue result → count_in (queue_of self.now) < 2_000_000 }
        ensures more { is_taking (queue_of self.now) ≡ true → count_in (queue_of self.now) < 2_000_000 → IsTrue result }
    {
        self.queue.takes_more()
    }

    /// Whether more moves may come.
    pub fn is_open(&self) -> bool
        ensures { result ≡ is_taking (queue_of self.now) }
    {
        self.queue.is_open()
    }

    /// When the first move begins that is not settled, or the last one ends, in ns.
    pub fn reach(&self) -> u128
        ensures value { result ≡ settled_to (queue_of self.now) }
        ensures small { result < 2 ^ 100 }
    {
        self.queue.reach()
    }

    /// The turn in which the section ends, that of its end or that of its last step where this is later, once
    /// all its moves have come and all its steps are packed.
    pub fn end(&self) -> Option<u64>
        ensures drawn { IfSome result (λ e. IsDrawn (queue_of self.now)) }
        ensures steps { IfSome result (λ e. ArePast e self.now.boards.items) }
        ensures value { IfSome result
            (λ e. e ≡ max (drawn_to (queue_of self.now) / turn_ns) (latest_packed self.now.boards.items)) }
        ensures none { IfNone result (IsLeft self.now) }
    {
        let drawn = self.queue.drawn();
        if !self.queue.is_done() || drawn >= MOST_NS {
            return None;
        }
        last_turn(&self.boards, (drawn / TURN_NS) as u64)
    }

    /// Whether all units of the moves that the boards were given were released.
    pub fn is_released(&self) -> bool
        ensures { IsTrue result → AreReleased self.now.boards.items }
    {
        are_done(&self.boards)
    }
}
