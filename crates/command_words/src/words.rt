//! What the words ask for.

ghost use Rattle.std.specs.Prelude.{◌≡◌, Some, None, map, string_bytes, IfOk, IfErr, option_map};
ghost use Rattle.std.specs.List.{list_all};
ghost use Rattle.command_words.specs.Calls.{called_form, view_call};
ghost use Rattle.command_words.specs.Forms as specs;
ghost use Rattle.command_words.specs.Forms.{asked, form_of_two, form_of_three, make_of, view};

use crate::number::{moves_of, seed_of};
use crate::parse::{Call, parsed_call};
use std::alloc::{AllocError, Global};
use thiserror::Error;

/// What a command asks for.
#[derive(Clone, Copy)]
pub enum Words<'a> {
    /// A run of a G-code on the machine of a configuration.
    Run {
        config: &'a str,
        gcode: &'a str,
    },
    /// The same with a scene.
    Scene {
        config: &'a str,
        gcode: &'a str,
        scene: &'a str,
    },
    /// A run of a load that is made from a seed.
    Make {
        seed: u64,
        moves: u64,
    },
    /// When the part fan of a G-code is switched on the machine of a configuration.
    Fan {
        config: &'a str,
        gcode: &'a str,
    },
    /// Whether the pulses of a report follow the plan of a G-code on the machine of a configuration.
    Check {
        config: &'a str,
        gcode: &'a str,
        report: &'a str,
    },
    /// What the bytes of a trace hold for a board of a configuration.
    Dump {
        config: &'a str,
        board: &'a str,
        trace: &'a str,
    },
    /// What a board of a configuration makes of a trace.
    Replay {
        config: &'a str,
        board: &'a str,
        trace: &'a str,
    },
    /// A G-code on the machine of a configuration, as it follows a measured bed.
    Mesh {
        config: &'a str,
        gcode: &'a str,
        table: &'a str,
    },
}

/// Why words are refused.
#[derive(Debug, Clone, Copy, PartialEq, Eq, Error)]
pub enum WordsFault {
    #[error("out of memory")]
    Memory,
    #[error("no form of the program's")]
    Usage,
}

impl From<AllocError> for WordsFault {
    ghost use Rattle.std.specs.Prelude.{◌≡◌};
    ghost use Rattle.command_words.specs.declared.words.WordsFault.TheVariants.{Memory};

    ghost from_gives = { λ _ fault. fault ≡ Memory };

    fn from(_error: AllocError) -> Self {
        WordsFault::Memory
    }
}

/// Whether a word may name a file: it isn't empty and doesn't begin with a dash.
fn is_name(word: &[u8]) -> bool
    ensures { result ≡ specs.is_name word.now }
{
    match word {
        [first, ..] => *first != b'-',
        [] => false,
    }
}

/// Whether no word is empty or begins with a dash.
fn are_names(words: &[String]) -> bool
    ensures { result ≡ list_all (λ w. specs.is_name (string_bytes w)) words.now }
{
    words.iter().all(|word| is_name(word.as_bytes()))
}

/// A load from two operands.
fn make_of<'a>(seed: &str, moves: &str) -> Option<Words<'a>>
    ensures { option_map view result ≡ make_of (specs.seed_of seed.now) (specs.move_count moves.now) }
{
    let seed = seed_of(seed)?;
    let moves = moves_of(moves)?;
    Some(Words::Make { seed, moves })
}

/// What a subcommand with two operands asks for.
fn form_of_two<'a>(name: &str, first: &'a str, second: &'a str) -> Option<Words<'a>>
    ensures { option_map view result ≡ form_of_two name.now first.now second.now }
{
    if name == "run" {
        return Some(Words::Run {
            config: first,
            gcode: second,
        });
    }
    if name == "make" {
        return make_of(first, second);
    }
    if name == "fan" {
        return Some(Words::Fan {
            config: first,
            gcode: second,
        });
    }
    None
}

/// What a subcommand with three operands asks for.
fn form_of_three<'a>(
    name: &str,
    first: &'a str,
    second: &'a str,
    third: &'a str,
) -> Option<Words<'a>>
    ensures { option_map view result ≡ form_of_three name.now first.now second.now third.now }
{
    if name == "run" {
        return Some(Words::Scene {
            config: first,
            gcode: second,
            scene: third,
        });
    }
    if name == "check" {
        return Some(Words::Check {
            config: first,
            gcode: second,
            report: third,
        });
    }
    if name == "dump" {
        return Some(Words::Dump {
            config: first,
            board: second,
            trace: third,
        });
    }
    if name == "replay" {
        return Some(Words::Replay {
            config: first,
            board: second,
            trace: third,
        });
    }
    if name == "mesh" {
        return Some(Words::Mesh {
            config: first,
            gcode: second,
            table: third,
        });
    }
    None
}

/// What a subcommand with its operands asks for.
fn form_of<'a>(call: &Call<'a>) -> Option<Words<'a>>
    ensures { option_map view result ≡ called_form (view_call call.now) }
{
    let (Some(first), Some(second)) = (call.first, call.second) else {
        return None;
    };
    match call.third {
        Some(third) => form_of_three(call.name, first, second, third),
        None => form_of_two(call.name, first, second),
    }
}

/// Reads the words of a command, without the program's name.
///
/// # Errors
///
/// `Usage` where the words are none of the program's forms, or one of them is empty or begins with a dash.
/// `Memory` where memory is wanted.
pub fn read_words<'a>(alloc: Global, words: &'a [String]) -> Result<Words<'a>, WordsFault>
    ensures form { IfOk result (λ w. asked (map string_bytes words.now) ≡ Some (view w)) }
    ensures usage { IfErr result (λ e. e ≡ WordsFault.Usage → asked (map string_bytes words.now) ≡ None) }
{
    if !are_names(words) {
        return Err(WordsFault::Usage);
    }
    let call = parsed_call(alloc, words)?;
    match form_of(&call) {
        Some(form) => Ok(form),
        None => Err(WordsFault::Usage),
    }
}
