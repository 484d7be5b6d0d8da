//! The modes of a file of G-code.

ghost use Rattle.std.specs.Prelude.{◌≡◌, ◌+◌, ◌^◌, ◌<◌, ◌≤◌, ◌≤ℤ◌, Result, Ok, Err, IfOk, IfErr, MatchResult};
ghost use Rattle.plan_types.specs.Machines.{IsValidMachine};
ghost use Rattle.gcode_state.specs.Sound.{IsSound};
ghost use Rattle.gcode_state.specs.States.{IsValidAction, applied, axis_of, homed_at, weight};
ghost use Rattle.gcode_state.specs.Starts.{initial};

use crate::others::{command_action, with_homed};
use crate::starts::first_state;
use crate::state::{Action, State, StateFault};
use gcode_text::Word;
use plan_types::Machine;
use std::marker::Model;

/// What the words before left. Contracts see the state.
#[derive(Drop)]
pub struct Modes {
    state: State,
}

impl Model for Modes {
    ghost use Rattle.gcode_state.specs.declared.state.State.{State};
    ghost use Rattle.gcode_state.specs.Sound.{IsSound};

    ghost Value = { State };

    ghost view = { λ m. m.state };

    ghost invariant = { λ m. IsSound m.state };
}

impl Modes {
    /// The modes before the first word.
    pub fn new(machine: &Machine) -> Modes
        requires { IsValidMachine machine.now }
        ensures { result ≡ initial machine.now }
    {
        Modes {
            state: first_state(machine),
        }
    }

    /// What the words before left.
    pub fn state(&self) -> &State
        ensures value { result.now ≡ self.now }
        ensures sound { IsSound result.now }
    {
        &self.state
    }

    /// Applies one word. A refusal changes nothing.
    pub fn apply(&mut self, word: &Word) -> Result<Action, StateFault>
        requires { self.old.lines < 2 ^ 30 }
        ensures value { MatchResult result (λ action. applied self.old word.now ≡ Ok (self.new, action))
            (λ fault. applied self.old word.now ≡ Err fault) }
        ensures valid { IfOk result (λ action. IsValidAction action) }
        ensures lines { self.new.lines ≤ self.old.lines + 1 }
        ensures count { IfOk result (λ action. self.new.count ≡ self.old.count + weight action) }
        ensures few { self.new.count ≤ 2000000 }
        ensures err { IfErr result (λ fault. self.new ≡ self.old) }
    {
        let (state, action) = word_action(&self.state, word)?;
        self.state = state;
        Ok(action)
    }

    /// Says that an axis, 0 to 2, is homed: it stands at `at`, in nm, and reads as `at`, whatever a G92 before it said.
    pub fn homed(&mut self, axis: u8, at: i64)
        requires axis { axis < 3 }
        requires low { (axis_of self.old axis).min ≤ℤ at }
        requires high { at ≤ℤ (axis_of self.old axis).max }
        ensures { self.new ≡ homed_at self.old axis at }
    {
        self.state = with_homed(&self.state, axis, at);
    }
}

/// Applies one word to a state.
fn word_action(state: &State, word: &Word) -> Result<(State, Action), StateFault>
    requires sound { IsSound state.now }
    requires few { state.now.lines < 2 ^ 30 }
    ensures value { result ≡ applied state.now word.now }
    ensures sound { IfOk result (λ next. IsSound next.0) }
    ensures valid { IfOk result (λ next. IsValidAction next.1) }
    ensures lines { IfOk result (λ next. next.0.lines ≤ state.now.lines + 1) }
{
    match word {
        Word::Blank => Ok((*state, Action::None)),
        Word::Passed => Ok((*state, Action::None)),
        Word::Command { name, values } => command_action(state, *name, values),
    }
}
