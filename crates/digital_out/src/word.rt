//! The lines of a text that switch the part fan.

ghost use Rattle.std.specs.Prelude.{◌≡◌, ◌++◌, ◌≤◌, true, IfOk, OnOk};
ghost use Rattle.gcode_program.specs.Readings as readings;
ghost use Rattle.gcode_state.specs.States.{weight, one_if};
ghost use Rattle.plan_types.specs.Machines.{IsValidMachine};
ghost use Rattle.text_core.specs.Lines.{lines_of};
ghost use Rattle.digital_out.specs.Words as specs;
ghost use Rattle.digital_out.specs.Words.{fan_words, word_if};

use crate::OutOfMemory;
use gcode_program::{Place, step_line};
use gcode_state::{Action, Modes};
use gcode_text::read_fan;
use plan_types::Machine;
use std::alloc::Global;
use text_core::first_line;

/// A line that switches the fan: how many moves stand before it, and to what it switches.
#[derive(Clone, Copy)]
pub struct FanWord {
    pub moves: u64,
    pub on: bool,
}

fn one_if(named: bool) -> u64
    ensures value { result ≡ one_if named }
    ensures small { result ≤ 1 }
{
    if named { 1 } else { 0 }
}

/// How many moves an action makes.
fn moves_of(action: &Action) -> u64
    ensures value { result ≡ specs.moves_by action.now }
    ensures small { result ≤ weight action.now }
    ensures few { result ≤ 3 }
{
    match action {
        Action::Move(_) => 1,
        Action::Home([x, y, z]) => one_if(*x) + one_if(*y) + one_if(*z),
        _ => 0,
    }
}

fn is_stop(action: &Action) -> bool
    ensures { result ≡ readings.is_stop action.now }
{
    match action {
        Action::Stop => true,
        _ => false,
    }
}

/// Adds a line that switches the fan, where it does.
fn put_word(words: &mut Vec<FanWord>, moves: u64, line: &[u8]) -> Result<(), OutOfMemory>
    ensures { OnOk result (words.new.items ≡ words.old.items ++ word_if moves line.now) }
{
    if let Some(on) = read_fan(line) {
        words.push(FanWord { moves, on })?;
    }
    Ok(())
}

/// The lines that switch the fan, among those that are accepted.
#[tactic(auto, unfolding(crate::specs::Words::fan_words_in))]
pub fn read_words(
    alloc: Global,
    machine: &Machine,
    text: &[u8],
) -> Result<Vec<FanWord>, OutOfMemory>
    requires { IsValidMachine machine.now }
    ensures { IfOk result (λ words. words.items ≡ specs.fan_words_in machine.now text.now) }
{
    let mut modes = Modes::new(machine);
    let mut words = Vec::new(alloc);
    let size = text.len();
    let mut start = 0;
    let mut rest = text;
    let mut number: u64 = 1;
    let mut moves = 0;
    while !rest.is_empty() {
        let (line, others) = first_line(rest);
        let place = Place {
            number,
            start,
            size,
        };
        let Ok(step) = step_line(&mut modes, line, place) else {
            return Ok(words);
        };
        put_word(&mut words, moves, line)?;
        if is_stop(&step.action) {
            return Ok(words);
        }
        moves += moves_of(&step.action);
        start += line.len() + 1;
        rest = others;
        number += 1;
    }
    Ok(words)
}
