//! The scene of a run.

ghost use Rattle.std.specs.Prelude.{◌≡◌, ◌++◌, [], IfOk, option_map};
ghost use Rattle.wire_scene.specs.Scenes.{SwitchesRise, last_switch, level_of, levels_of, line_of};
ghost use Rattle.plan_types.specs.Levels.{TicksStand};

use plan_types::{Level, Listed};
use std::alloc::{AllocError as OutOfMemory, Global};

/// A direction of a link: down to the board, or up to the host.
#[derive(Clone, Copy, Debug, PartialEq, Eq)]
pub enum Way {
    Down,
    Up,
}

/// What happens to a block on its line.
#[derive(Clone, Copy, Debug, PartialEq, Eq)]
pub enum Deed {
    /// It is lost.
    Drop,
    /// It arrives twice, one after the other.
    Repeat,
    /// It arrives so many turns later.
    Delay(u32),
    /// Of its bytes behind the first, the one at this place, counted around, is xored with this number.
    Garble { at: u64, xor: u8 },
}

/// What happens to the block of a number on a line, where blocks count from 0, and from 0 anew once
/// connecting has ended.
#[derive(Clone, Copy, Debug, PartialEq, Eq)]
pub struct Entry {
    /// The number of the board.
    pub board: u8,
    pub way: Way,
    /// Whether it is for the time while connecting.
    pub connecting: bool,
    pub number: u64,
    pub deed: Deed,
}

/// The level that a pin has from a tick of its board on.
#[derive(Clone, Copy, Debug, PartialEq, Eq)]
pub struct Switch {
    /// The number of the board, and of the pin on it.
    pub board: u8,
    pub pin: u8,
    pub tick: u64,
    pub level: bool,
    /// The line of the scene's text, from 1 on.
    pub line: u64,
}

/// What happens on the links and at the pins in a run.
#[derive(Drop)]
pub struct Scene {
    pub entries: Listed<Entry>,
    pub switches: Listed<Switch>,
}

impl Scene {
    /// The scene in which every block arrives once, in its turn, and no switch closes. It takes no memory.
    pub fn empty(alloc: Global) -> Scene
        ensures entries { result.entries ≡ [] }
        ensures switches { result.switches ≡ [] }
    {
        Scene {
            entries: Listed::new(alloc),
            switches: Listed::new(alloc),
        }
    }

    /// The level of a pin at a tick of its board: that of its last entry at or before the tick, false before any.
    pub fn level(&self, board: u8, pin: u8, tick: u64) -> bool
        ensures { result ≡ level_of (last_switch board pin tick self.now.switches) }
    {
        match switch_at(self.switches.as_slice(), board, pin, tick) {
            None => false,
            Some(switch) => switch.level,
        }
    }

    /// The ticks and levels of a pin's entries, in order.
    #[tactic(auto, using(crate::proofs::PinLevels::levels_stand))]
    pub fn levels(&self, alloc: Global, board: u8, pin: u8) -> Result<Vec<Level>, OutOfMemory>
        ensures levels { IfOk result (λ levels. levels.items ≡ levels_of board pin self.now.switches) }
        ensures stand { IfOk result (λ levels. SwitchesRise self.now.switches → TicksStand levels.items) }
    {
        let levels = levels_of(alloc, self.switches.as_slice(), board, pin)?;
        Ok(levels)
    }

    /// The line of the scene's text from which the level of a pin comes at a tick of its board: 0 before any entry.
    pub fn line(&self, board: u8, pin: u8, tick: u64) -> u64
        ensures { result ≡ line_of (last_switch board pin tick self.now.switches) }
    {
        match switch_at(self.switches.as_slice(), board, pin, tick) {
            None => 0,
            Some(switch) => switch.line,
        }
    }
}

/// The ticks and levels of a pin's entries, in order.
fn levels_of(
    alloc: Global,
    switches: &[Switch],
    board: u8,
    pin: u8,
) -> Result<Vec<Level>, OutOfMemory>
    ensures { IfOk result (λ levels. levels.items ≡ levels_of board pin switches.now) }
{
    let mut levels = Vec::new(alloc);
    let mut rest = switches;
    while let [first, others @ ..] = rest {
        if first.board == board && first.pin == pin {
            levels.push(Level {
                tick: first.tick,
                level: first.level,
            })?;
        }
        rest = others;
    }
    Ok(levels)
}

/// The last entry of a pin at or before a tick.
fn switch_at(switches: &[Switch], board: u8, pin: u8, tick: u64) -> Option<Switch>
    ensures { result ≡ last_switch board pin tick switches.now }
{
    let mut found = None;
    let mut rest = switches;
    while let [first, others @ ..] = rest {
        if first.board == board && first.pin == pin && first.tick <= tick {
            found = Some(*first);
        }
        rest = others;
    }
    found
}
