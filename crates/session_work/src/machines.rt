//! The machines, one turn at a time, and what the reactor reaches outside. Their ghost relations say what a turn may
//! give.
ghost use Rattle.std.specs.Prelude.{◌≡◌, ◌+◌, ◌<◌, ◌≤◌, ℕ, Bool, true, false, List, Option, None, Result, length, vec_len, IfOk, OnOk, IfSome, IfNone, is_some};
ghost use Rattle.session_work.specs.Bares.{bare_control, bare_word};
ghost use Rattle.session_work.specs.Rows.{AreOf, AllEnd, copies};

use crate::messages::{Batch, Control, Made, Note, Piece, State, WordMsg};
use plan_types::{Cause, Listed};
use report_text::ReportLine;
use std::alloc::AllocError;

/// A board with its link.
pub trait LinkMachine: Drop {
    ghost use Rattle.msg_code.specs.declared.unit.Control.{Control};
    ghost use Rattle.msg_code.specs.declared.unit.Batch.{Batch};
    ghost use Rattle.msg_code.specs.declared.talk.State.{State};

    ghost can: { Self → ℕ → Type 0 };

    ghost turns: { Self → ℕ → Control → Batch → State → Self → Type 0 };

    /// Whether turn k is its next one, and nothing in it passes a limit.
    fn can_turn(&self, k: u64) -> bool
        ensures { result ≡ true → can self.now k };

    /// Its turn k. After a refusal the machine is used no more.
    fn turn(&mut self, k: u64, control: Control, batch: Batch) -> Result<State, AllocError>
        requires can { can self.old k }
        requires control { control.turn ≡ k }
        requires batch { batch.turn ≡ k }
        ensures state { IfOk result (λ s. turns self.old k control batch s self.new) }
        ensures number { IfOk result (λ s. s.turn ≡ k) }
        ensures out { IfOk result (λ s. s.out ≡ false) };
}

/// The planner.
pub trait MotionMachine: Drop {
    ghost use Rattle.msg_code.specs.declared.talk.WordMsg.{WordMsg};
    ghost use Rattle.msg_code.specs.declared.talk.Piece.{Piece};
    ghost use Rattle.msg_code.specs.declared.unit.Batch.{Batch};
    ghost use Rattle.msg_code.specs.declared.talk.Note.{Note};

    ghost boards: { Self → ℕ };

    ghost wants: { Self → ℕ → Option ℕ };

    ghost hungry: { Self → ℕ → Bool };

    ghost can: { Self → ℕ → Type 0 };

    ghost hears: { Self → WordMsg → Self → Type 0 };

    ghost reads: { Self → Piece → Self → Type 0 };

    ghost turns: { Self → ℕ → List Batch → Note → Self → Type 0 };

    /// The word that must be taken before the batches of turn k, from turn 64 on word k - 64 or a later one.
    fn wants(&self, k: u64) -> Option<u64>
        ensures value { result ≡ wants self.now k }
        ensures bound { IfSome result (λ j. j ≤ k) };

    /// Whether it needs more of the file before the batches of turn k.
    fn hungry(&self, k: u64) -> bool
        ensures { result ≡ hungry self.now k };

    /// The first turn behind k before whose batches it may need more of the file, whatever words it takes.
    fn sated(&self, k: u64) -> u64;

    /// Whether turn k is its next one, and nothing in it passes a limit.
    fn can_turn(&self, k: u64) -> bool
        ensures { result ≡ true → can self.now k };

    /// Takes the next word.
    fn word(&mut self, word: WordMsg) -> Result<(), AllocError>
        ensures word { OnOk result (hears self.old word self.new) }
        ensures boards { boards self.new ≡ boards self.old };

    /// Takes the next piece of the file.
    fn text(&mut self, piece: Piece) -> Result<(), AllocError>
        ensures text { OnOk result (reads self.old piece self.new) }
        ensures boards { boards self.new ≡ boards self.old };

    /// Its turn k. After a refusal the machine is used no more.
    fn turn(&mut self, k: u64) -> Result<Made, AllocError>
        requires can { can self.old k }
        requires fed { hungry self.old k ≡ false }
        ensures made { IfOk result (λ m. turns self.old k m.batches.items m.note self.new) }
        ensures note { IfOk result (λ m. (m.note.turn ≡ k) × (m.note.out ≡ false)) }
        ensures batches { IfOk result
            (λ m. (vec_len m.batches ≡ boards self.old) × AreOf (λ b. b.turn) k m.batches.items) }
        ensures boards { boards self.new ≡ boards self.old };

    /// Takes a list back, whose room a later turn may use again.
    fn give_back(&mut self, room: Vec<Batch>)
        ensures { self.new ≡ self.old };
}

/// What the reactor orders in a turn: a control for each board, a word, lines of the report, and the end where the run
/// ends.
#[derive(Drop)]
pub struct Ordered {
    pub controls: Vec<Control>,
    pub word: WordMsg,
    pub lines: Listed<ReportLine>,
    pub end: Option<Cause>,
}

/// The reactor.
pub trait ReactorMachine: Drop {
    ghost use Rattle.report_text.specs.declared.line.ReportLine.{ReportLine};
    ghost use Rattle.plan_types.specs.declared.cause.Cause.{Cause};
    ghost use Rattle.msg_code.specs.declared.talk.State.{State};
    ghost use Rattle.msg_code.specs.declared.talk.Note.{Note};
    ghost use Rattle.msg_code.specs.declared.unit.Control.{Control};
    ghost use Rattle.msg_code.specs.declared.talk.WordMsg.{WordMsg};

    ghost boards: { Self → ℕ };

    ghost can: { Self → ℕ → Type 0 };

    ghost turns: { Self → ℕ → List State → Option Note → List Control → WordMsg → List ReportLine → Option Cause →
        Self → Type 0 };

    ghost stops: { Self → Cause → Self → Type 0 };

    ghost free: { Self → ℕ → ℕ → Type 0 };

    /// Whether turn k is its next one, and nothing in it passes a limit.
    fn can_turn(&self, k: u64) -> bool
        ensures { result ≡ true → can self.now k };

    /// For how many turns from turn k on, its next one, it says nothing unless it ends the run; no more than so many.
    fn free(&self, k: u64, most: u64) -> u64
        ensures free { free self.now k result }
        ensures most { result ≤ most };

    /// Its turn k, over the states of the turn before, one of each board, and its note.
    fn turn(&mut self, k: u64, states: &[State], note: &Option<Note>) -> Result<Ordered, AllocError>
        requires can { can self.old k }
        requires states { AreOf (λ s. s.turn + 1) k states.now }
        requires note { IfSome note.now (λ n. n.turn + 1 ≡ k) }
        requires first { IfNone note.now ((k ≡ 0) × (length states.now ≡ 0)) }
        requires later { 0 < k → length states.now ≡ boards self.old }
        ensures ordered { IfOk result
            (λ o. turns self.old k states.now note.now o.controls.items o.word o.lines o.end self.new) }
        ensures controls { IfOk result
            (λ o. (vec_len o.controls ≡ boards self.old) × AreOf (λ c. c.turn) k o.controls.items) }
        ensures word { IfOk result (λ o. o.word.turn ≡ k) }
        ensures last { IfOk result (λ o. (o.word.end ≡ is_some o.end) × AllEnd (is_some o.end) o.controls.items) }
        ensures free { IfOk result (λ o. (n : ℕ) → free self.old k (n + 1) → o.end ≡ None →
            (o.controls.items ≡ copies (boards self.old) (bare_control k false)) × (o.word ≡ bare_word k false)
            × free self.new (k + 1) n) }
        ensures boards { boards self.new ≡ boards self.old };

    /// Takes a list back, whose room a later turn may use again.
    fn give_back(&mut self, room: Vec<Control>)
        ensures { self.new ≡ self.old };

    /// The next turn answers this end, unless an earlier cause holds.
    fn stop(&mut self, cause: Cause)
        ensures stops { stops self.old cause self.new }
        ensures free { (k n : ℕ) → free self.old k n → free self.new k n }
        ensures boards { boards self.new ≡ boards self.old };
}

/// What the reactor's thread reaches outside: where the report goes, and where the file comes from.
pub trait Outside: Drop {
    ghost use Rattle.report_text.specs.declared.line.ReportLine.{ReportLine};
    ghost use Rattle.plan_types.specs.declared.cause.Cause.{Cause};
    ghost use Rattle.msg_code.specs.declared.talk.Piece.{Piece};

    ghost writes: { Self → List ReportLine → Self → Bool → Type 0 };

    ghost serves: { Self → ℕ → Result Piece Cause → Self → Type 0 };

    /// Writes the lines; whether all of them are out.
    fn write(&mut self, lines: Listed<ReportLine>) -> bool
        ensures { writes self.old lines self.new result };

    /// Reads the next piece of the file, in a turn of the reactor.
    fn piece(&mut self, number: u64, turn: u64) -> Result<Piece, Cause>
        ensures piece { serves self.old number result self.new }
        ensures number { IfOk result (λ p. (p.number ≡ number) × (p.turn ≡ turn) × (p.stop ≡ false)) };
}
