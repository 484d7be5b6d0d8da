//! The lanes of a run, as its workers have them.
use crate::messages::{Ask, Batch, Control, Note, Piece, State, WordMsg};
use lane_queue::Lane;

/// All lanes of a run: those between the motion worker and the reactor, and those of each board.
#[derive(Clone, Copy)]
pub struct Lanes<'a> {
    pub words: &'a Lane<WordMsg>,
    pub notes: &'a Lane<Note>,
    pub asks: &'a Lane<Ask>,
    pub pieces: &'a Lane<Piece>,
    pub controls: &'a [Lane<Control>],
    pub batches: &'a [Lane<Batch>],
    pub states: &'a [Lane<State>],
}
