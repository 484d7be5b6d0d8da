//! A text that is read in pieces gives what it gives whole.

ghost use Rattle.std.specs.Prelude.{◌≡◌, ℕ, ◌+◌, ◌∷◌, ◌++◌, List, Some, length};
ghost use Rattle.gcode_state.specs.declared.state.State.{State};
ghost use Rattle.plan_types.specs.declared.machine.Machine.{Machine};
ghost use Rattle.plan_types.specs.declared.plan.Move.{Move};
ghost use Rattle.plan_types.specs.declared.plan.Section.{Section};
ghost use Rattle.plan_types.specs.declared.plan.SectionKind.{SectionKind};
ghost use Rattle.gcode_program.specs.declared.items.Item.{Item};
ghost use Rattle.gcode_program.specs.declared.reader.Reader.{Reader};
ghost use Rattle.gcode_program.specs.declared.items.Item.TheVariants as told_items;
ghost use Rattle.gcode_program.specs.Items.{items_of, moves_in};
ghost use Rattle.gcode_program.specs.Programs.{program_sections};
ghost use Rattle.gcode_program.specs.Readers.{IsReaderOf, section_with};
ghost use Rattle.gcode_program.specs.Readings.{outcome, with_front};
ghost use Rattle.gcode_program.specs.Pieces.{final, lines_length};

/// Lines that are all accepted can be read first, and the rest from the state behind them.
pub fn reads_in_pieces()
    ensures { (size : ℕ) (lines more : List (List ℕ)) (s t : State) (number start : ℕ) →
        final size s start lines ≡ Some t →
        outcome size s number start (lines ++ more)
        ≡ with_front (outcome size s number start lines).deeds (outcome size s number start lines).passed
        (outcome size t (number + length lines) (start + lines_length lines) more) }
{}

/// What a reader told of a text is the first of what the text's sections are, whatever follows.
pub fn items_stay()
    ensures { (r : Reader) (m : Machine) (text more : List ℕ) (told : List Item) → IsReaderOf r m text told →
        (rest : List Item) × (items_of (program_sections m (text ++ more)) ≡ told ++ rest) }
{}

/// The sections that a reader told whole are the first ones of the text's, and the one that has begun is the
/// next, with the moves that were told first, whatever follows.
pub fn sections_are_told()
    ensures whole { (r : Reader) (m : Machine) (text more : List ℕ) (done : List Section) →
        IsReaderOf r m text (items_of done) →
        (others : List Section) × (program_sections m (text ++ more) ≡ done ++ others) }
    ensures open_one { (r : Reader) (m : Machine) (text more : List ℕ) (done : List Section) (kind : SectionKind)
        (dwell : ℕ) (moves : List Move) →
        IsReaderOf r m text (items_of done ++ told_items.Begin kind dwell ∷ moves_in moves) →
        (last : List Move) × (others : List Section)
        × (program_sections m (text ++ more) ≡ done ++ section_with kind (moves ++ last) dwell ∷ others) }
{}
