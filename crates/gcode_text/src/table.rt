//! The table of commands.

ghost use Rattle.std.specs.Prelude.{◌≡◌};
ghost use Rattle.gcode_text.specs.Commands.{table_entry};

use crate::word::Command;

/// What the table says of a command.
#[derive(Clone, Copy)]
pub(crate) enum Entry {
    Known(Command),
    Unsupported,
    Unknown,
}

/// Looks a command up.
#[tactic(auto, unfolding(crate::specs::Commands::table_entry))]
pub(crate) fn look_up(letter: u8, number: u64) -> Entry
    ensures { result ≡ table_entry letter number }
{
    match (letter, number) {
        (b'G', 0) => Entry::Known(Command::G0),
        (b'G', 1) => Entry::Known(Command::G1),
        (b'G', 4) => Entry::Known(Command::G4),
        (b'G', 28) => Entry::Known(Command::G28),
        (b'G', 90) => Entry::Known(Command::G90),
        (b'G', 91) => Entry::Known(Command::G91),
        (b'G', 92) => Entry::Known(Command::G92),
        (b'G', 2 | 3 | 10 | 11 | 20) => Entry::Unsupported,
        (b'M', 82) => Entry::Known(Command::M82),
        (b'M', 83) => Entry::Known(Command::M83),
        (b'M', 112) => Entry::Known(Command::M112),
        (b'M', 204) => Entry::Known(Command::M204),
        (b'M', 220) => Entry::Known(Command::M220),
        (b'M', 221) => Entry::Known(Command::M221),
        (b'M', 400) => Entry::Known(Command::M400),
        _ => Entry::Unknown,
    }
}
