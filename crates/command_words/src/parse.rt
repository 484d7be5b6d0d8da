//! The words as a subcommand with its operands.

ghost use Rattle.std.specs.Prelude.{◌≡◌, ◌≢◌, [], Some, None, false, true, map, string_bytes, IfOk, IfErr, IsSome, option_map};
ghost use Rattle.std.specs.List.{list_all};
ghost use Rattle.clap.specs.Words.{subcommand_of, subcommand_rows_of};
ghost use Rattle.clap.specs.Words as clap;
ghost use Rattle.clap.specs.Walk.{is_empty};
ghost use Rattle.command_words.specs.Calls.{call_in, call_of, view_call};
ghost use Rattle.command_words.specs.Commands.{program};
ghost use Rattle.command_words.specs.Forms.{is_name};

use crate::command::program;
use crate::words::WordsFault;
use clap::ArgMatches;
use clap::error::ErrorKind;
use std::alloc::Global;

/// A subcommand and the operands that it was given.
#[derive(Clone, Copy)]
pub struct Call<'a> {
    pub name: &'a str,
    pub first: Option<&'a str>,
    pub second: Option<&'a str>,
    pub third: Option<&'a str>,
}

/// What a parse that failed says of the words.
fn fault_of(kind: ErrorKind) -> WordsFault
    ensures { result ≡ WordsFault.Usage → kind ≢ ErrorKind.OutOfMemory }
{
    match kind {
        ErrorKind::OutOfMemory => WordsFault::Memory,
        _ => WordsFault::Usage,
    }
}

/// Parses the words by the program's command.
fn parse<'a>(alloc: Global, words: &'a [String]) -> Result<ArgMatches<'a>, WordsFault>
    requires { list_all is_name (map string_bytes words.now) ≡ true }
    ensures found { IfOk result (λ m. call_in (subcommand_rows_of m) ≡ call_of (map string_bytes words.now)) }
    ensures some { IfOk result (λ m. IsSome (call_of (map string_bytes words.now))) }
    ensures usage { IfErr result (λ e. e ≡ WordsFault.Usage → call_of (map string_bytes words.now) ≡ None) }
{
    let command = program(alloc)?;
    match command.try_get_matches_from(words) {
        Ok(matches) => Ok(matches),
        Err(error) => Err(fault_of(error.kind())),
    }
}

/// The subcommand of a parse, with its operands.
fn called<'a>(matches: &ArgMatches<'a>) -> Option<Call<'a>>
    ensures { option_map view_call result ≡ call_in (subcommand_rows_of matches.now) }
{
    let (name, found) = matches.subcommand()?;
    Some(Call {
        name,
        first: found.get_str("first"),
        second: found.get_str("second"),
        third: found.get_str("third"),
    })
}

/// The words as a subcommand with its operands. None of them is empty or begins with a dash.
pub fn parsed_call<'a>(alloc: Global, words: &'a [String]) -> Result<Call<'a>, WordsFault>
    requires { list_all is_name (map string_bytes words.now) ≡ true }
    ensures call { IfOk result (λ c. call_of (map string_bytes words.now) ≡ Some (view_call c)) }
    ensures usage { IfErr result (λ e. e ≡ WordsFault.Usage → call_of (map string_bytes words.now) ≡ None) }
{
    let matches = parse(alloc, words)?;
    match called(&matches) {
        Some(call) => Ok(call),
        None => unreachable!(),
    }
}
