//! The commands of the part fan.

ghost use Rattle.std.specs.Prelude.{◌≡◌, Some};
ghost use Rattle.gcode_text.specs.Fans as specs;
ghost use Rattle.gcode_text.specs.Fans.{fan_by, words_for};

use crate::line::read_of;
use crate::word::{Given, Letters};

/// Whether the words of M106 switch the fan on: they do, but for an S of 0 or less.
fn switches_on(words: &Letters) -> bool
    ensures { result ≡ specs.switches_on words.now }
{
    match words.get(b'S') {
        Some(Given::Number(value)) => value > 0,
        _ => true,
    }
}

/// To what a line switches the part fan, if it does.
#[tactic(auto, unfolding(crate::specs::Fans::fan_of))]
pub fn read_fan(line: &[u8]) -> Option<bool>
    ensures { result ≡ specs.fan_of line.now }
{
    if read_of(line, b'M', 107).is_some() {
        return Some(false);
    }
    let words = read_of(line, b'M', 106)?;
    Some(switches_on(&words))
}
