//! What a report shows.

use std::alloc::{AllocError, Global};

/// What stands before the pulses of a section of moves, on one board.
pub const MOVES: &str = "machine cartesian boards 1 steppers 4
board mcu freq 16000000 turn 1260 tick 20160000
section 0 turn 1260 move
";

/// How many pulses there are, and the ticks of the first and of the last.
pub type Pulses = (u64, u64, u64);

/// The tick of a line, where it is one of a pulse of this stepper.
fn tick_of(line: &str, stepper: &str) -> Option<u64> {
    let rest = line.strip_prefix("pulse mcu ")?;
    let (name, rest) = rest.split_once(' ')?;
    let (tick, _) = rest.split_once(' ')?;
    if name == stepper {
        tick.parse::<u64>().ok()
    } else {
        None
    }
}

/// The ticks of the pulses of a stepper, in order.
pub fn ticks(alloc: Global, report: &[u8], stepper: &str) -> Result<Vec<u64>, AllocError> {
    let mut ticks = Vec::new(alloc);
    for line in str::from_utf8(report).unwrap_or("").lines() {
        if let Some(tick) = tick_of(line, stepper) {
            ticks.push(tick)?;
        }
    }
    Ok(ticks)
}

/// The pulses of a stepper.
pub fn pulses(alloc: Global, report: &[u8], stepper: &str) -> Result<Pulses, AllocError> {
    let ticks = ticks(alloc, report, stepper)?;
    let first = ticks.first().copied().unwrap_or(0);
    let last = ticks.last().copied().unwrap_or(0);
    Ok((ticks.len() as u64, first, last))
}

/// How many pulses of a stepper are down.
pub fn downs(report: &[u8], stepper: &str) -> u64 {
    let mut downs = 0_u64;
    for line in str::from_utf8(report).unwrap_or("").lines() {
        if tick_of(line, stepper).is_some() && line.ends_with(" -") {
            downs = downs.saturating_add(1);
        }
    }
    downs
}

/// The lines of a report that are no pulses.
pub fn others(alloc: Global, report: &[u8]) -> Result<String, AllocError> {
    let mut others = String::new(alloc);
    for line in str::from_utf8(report).unwrap_or("").lines() {
        if line.strip_prefix("pulse ").is_none() {
            others.push_str(line)?;
            others.push_str("\n")?;
        }
    }
    Ok(others)
}

/// Whether these are the lines of a report that are no pulses, as the first and the last ones.
pub fn tells(alloc: Global, report: &[u8], wanted: [&str; 2]) -> Result<bool, AllocError> {
    let [head, tail] = wanted;
    let mut lines = String::from_str(alloc, head)?;
    lines.push_str(tail)?;
    Ok(others(alloc, report)?.as_str() == lines.as_str())
}

/// Whether a report tells exactly one further clock line, this one.
pub fn tells_alone(report: &[u8], wanted: &str) -> bool {
    let mut told = false;
    for line in str::from_utf8(report).unwrap_or("").lines() {
        if line.strip_prefix("line ").is_some() {
            if told || line != wanted {
                return false;
            }
            told = true;
        }
    }
    told
}
