//! The rows of a run's table: what each worker took and put in one turn. They stand in contracts alone.
use crate::messages::{Batch, Control, Note, Piece, State, WordMsg};
use plan_types::Cause;
use report_text::ReportLine;
use std::collections::LinkedList;

/// A turn of a link.
pub struct LinkTurn {
    pub control: Control,
    pub batch: Batch,
    pub state: State,
}

/// A turn of the motion worker: the words and the pieces that it took before its batches, one for each board.
pub struct MotionTurn {
    pub words: LinkedList<WordMsg>,
    pub pieces: LinkedList<Piece>,
    pub batches: LinkedList<Batch>,
    pub note: Note,
}

/// A turn of the reactor: the states, one of each board, and the note that it took, what it put and wrote,
/// and the pieces that it read behind them.
pub struct ReactorTurn {
    pub states: LinkedList<State>,
    pub note: Option<Note>,
    pub controls: LinkedList<Control>,
    pub word: WordMsg,
    pub lines: LinkedList<ReportLine>,
    pub end: Option<Cause>,
    pub pieces: LinkedList<Piece>,
}
