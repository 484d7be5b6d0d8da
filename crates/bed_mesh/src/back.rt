//! Lines that are read back as soon as they are written.

ghost use Rattle.std.specs.Prelude.{◌≡◌, ◌+◌, ◌≤◌, ◌∷◌, [], ◌++◌, drop, length, Result, Ok, Err, IfErr, IfOk, OnOk, MatchResult};
ghost use Rattle.report_text.specs.Pieces.{pieces_text};
ghost use Rattle.bed_mesh.specs.Files.{accepted_state};
ghost use Rattle.bed_mesh.specs.Room.{AreWritten, HasLineRoom, IsWhy};

use gcode_program::{Place, step_line};
use gcode_state::Modes;
use plan_types::LineKind;
use report_text::{Piece, put_pieces};
use std::alloc::AllocError;

/// Why a line was not written.
#[derive(Clone, Copy)]
pub(crate) enum Halt {
    /// Memory was wanted.
    Memory,
    /// It is refused as it is read back.
    Refused(LineKind),
}

impl From<AllocError> for Halt {
    ghost use Rattle.std.specs.Prelude.{◌≡◌};
    ghost use Rattle.bed_mesh.specs.declared.back.Halt.TheVariants.{Memory};

    ghost from_gives = { λ _ halt. halt ≡ Memory };

    fn from(_error: AllocError) -> Self {
        Halt::Memory
    }
}

/// Reads a line back, before which so many bytes were written.
pub(crate) fn read_back(modes: &mut Modes, line: &[u8], start: usize) -> Result<(), LineKind>
    requires few { modes.old.lines ≤ start }
    requires near { start ≤ 1_073_741_825 }
    ensures value { MatchResult result (λ _. accepted_state start modes.old (line.now ∷ []) ≡ Ok modes.new)
        (λ kind. accepted_state start modes.old (line.now ∷ []) ≡ Err kind) }
    ensures lines { OnOk result (modes.new.lines ≤ modes.old.lines + 1) }
    ensures small { OnOk result (start + length line.now ≤ 1_073_741_824) }
{
    let place = Place {
        number: 0,
        start,
        size: start + (line.len() + 1),
    };
    step_line(modes, line, place)?;
    Ok(())
}

/// Ends the line that stands in a text from a place on, and reads it back. So many bytes stand before the text.
pub(crate) fn end_line(
    text: &mut Vec<u8>,
    from: usize,
    start: usize,
    modes: &mut Modes,
) -> Result<(), Halt>
    requires inside { from ≤ length text.old.items }
    requires few { modes.old.lines ≤ start + from }
    requires near { start + from ≤ 1_073_741_825 }
    ensures accepted { OnOk result (accepted_state (start + from) modes.old (drop from text.old.items ∷ [])
        ≡ Ok modes.new) }
    ensures text { OnOk result (text.new.items ≡ text.old.items ++ 10 ∷ []) }
    ensures room { OnOk result (HasLineRoom start modes.new text.new.items) }
    ensures why { IfErr result
        (λ halt. IsWhy halt (accepted_state (start + from) modes.old (drop from text.old.items ∷ []))) }
{
    match read_back(modes, &text[from..], start + from) {
        Ok(()) => {
            text.extend_from_slice(b"\n")?;
            Ok(())
        }
        Err(kind) => Err(Halt::Refused(kind)),
    }
}

/// Writes a line of these pieces.
pub(crate) fn put_line(
    text: &mut Vec<u8>,
    pieces: &[Piece],
    start: usize,
    modes: &mut Modes,
) -> Result<(), Halt>
    requires { HasLineRoom start modes.old text.old.items }
    ensures written { OnOk result
        (AreWritten start modes.old text.old.items (pieces_text pieces.now ∷ []) modes.new text.new.items) }
    ensures why { IfErr result
        (λ halt. IsWhy halt (accepted_state (start + length text.old.items) modes.old (pieces_text pieces.now ∷ []))) }
{
    let from = text.len();
    put_pieces(text, pieces)?;
    end_line(text, from, start, modes)
}
