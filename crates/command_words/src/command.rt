//! The command that parses the words.

ghost use Rattle.std.specs.Prelude.{◌≡◌, IfOk, false};
ghost use Rattle.clap.specs.Words.{App, app_of, rule_of, with_subcommand};
ghost use Rattle.clap.specs.declared.builder.command.Command.TheViews.{out-Command};
ghost use Rattle.command_words.specs.Commands as specs;

use clap::{Arg, ArgAction, Command};
use std::alloc::{AllocError, Global};

/// An operand, which must be there or may be left out.
fn operand<'a>(alloc: Global, id: &'a str, needed: bool) -> Arg<'a>
    ensures rule { rule_of result ≡ specs.operand needed id.now }
    ensures local { result.global ≡ false }
{
    Arg::new(alloc, id).required(needed).action(ArgAction::Set)
}

/// A subcommand with two operands.
fn of_two<'a>(alloc: Global, name: &'a str) -> Result<Command<'a>, AllocError>
    ensures app { IfOk result (λ c. app_of c ≡ specs.of_two name.now) }
    ensures local { IfOk result (λ c. (out-Command c).has_globals ≡ false) }
{
    Command::new(alloc, name)
        .arg(operand(alloc, "first", true))?
        .arg(operand(alloc, "second", true))
}

/// A subcommand with three operands, of which the third may be left out.
fn of_three<'a>(alloc: Global, name: &'a str) -> Result<Command<'a>, AllocError>
    ensures app { IfOk result (λ c. app_of c ≡ specs.of_three name.now) }
    ensures local { IfOk result (λ c. (out-Command c).has_globals ≡ false) }
{
    of_two(alloc, name)?.arg(operand(alloc, "third", false))
}

/// A subcommand with three operands, all of which must be there.
fn of_all_three<'a>(alloc: Global, name: &'a str) -> Result<Command<'a>, AllocError>
    ensures app { IfOk result (λ c. app_of c ≡ specs.of_all_three name.now) }
    ensures local { IfOk result (λ c. (out-Command c).has_globals ≡ false) }
{
    of_two(alloc, name)?.arg(operand(alloc, "third", true))
}

/// A command that has subcommands alone: no flag, no help.
fn bare<'a>(alloc: Global) -> Command<'a>
    ensures app { app_of result ≡ specs.bare }
{
    Command::new(alloc, "luqhabu")
        .no_binary_name(true)
        .disable_help_flag(true)
        .disable_help_subcommand(true)
        .disable_version_flag(true)
        .subcommand_required(true)
}

/// A command with one more subcommand, where there was memory for both.
fn with<'a>(
    whole: Result<Command<'a>, AllocError>,
    part: Result<Command<'a>, AllocError>,
) -> Result<Command<'a>, AllocError>
    requires local { IfOk part (λ p. (out-Command p).has_globals ≡ false) }
    ensures app { (w a : App) → IfOk whole.entry (λ c. app_of c ≡ w) → IfOk part.entry (λ c. app_of c ≡ a) →
        IfOk result (λ c. app_of c ≡ with_subcommand w a.top) }
{
    whole?.subcommand(part?)
}

/// The command with the subcommands that plan a G-code.
fn runs<'a>(alloc: Global) -> Result<Command<'a>, AllocError>
    ensures app { IfOk result (λ c. app_of c ≡ specs.planning_commands) }
{
    let whole = with(Ok(bare(alloc)), of_three(alloc, "run"));
    let whole = with(whole, of_two(alloc, "make"));
    with(whole, of_two(alloc, "fan"))
}

/// The same with the subcommand that checks a report of them.
fn checks<'a>(alloc: Global) -> Result<Command<'a>, AllocError>
    ensures app { IfOk result (λ c. app_of c ≡ specs.checks) }
{
    with(runs(alloc), of_all_three(alloc, "check"))
}

/// The program's command.
pub fn program<'a>(alloc: Global) -> Result<Command<'a>, AllocError>
    ensures { IfOk result (λ c. app_of c ≡ specs.program) }
{
    let whole = with(checks(alloc), of_all_three(alloc, "dump"));
    let whole = with(whole, of_all_three(alloc, "replay"));
    with(whole, of_all_three(alloc, "mesh"))
}
