//! Which wants hold, and which change the level.

ghost use Rattle.std.specs.Prelude.{◌≡◌, [], false, IfOk};
ghost use Rattle.digital_out.specs.Wants as specs;

use crate::OutOfMemory;
use crate::want::Want;
use std::alloc::Global;

/// The wants that hold: of those at one tick the last one.
pub fn last_ones(alloc: Global, wants: &[Want]) -> Result<Vec<Want>, OutOfMemory>
    ensures { IfOk result (λ kept. kept.items ≡ specs.last_ones wants.now) }
{
    let mut kept = Vec::new(alloc);
    let mut rest = wants;
    while let [want, others @ ..] = rest {
        if is_last(want, others) {
            kept.push(*want)?;
        }
        rest = others;
    }
    Ok(kept)
}

/// Whether a want is the last one at its tick.
fn is_last(want: &Want, others: &[Want]) -> bool
    ensures { result ≡ specs.is_last want.now others.now }
{
    match others {
        [next, ..] => want.tick != next.tick,
        [] => true,
    }
}

/// The wants that change the level, which is off at first.
pub fn changes(alloc: Global, wants: &[Want]) -> Result<Vec<Want>, OutOfMemory>
    ensures { IfOk result (λ kept. kept.items ≡ specs.changes false wants.now) }
{
    let mut kept = Vec::new(alloc);
    let mut level = false;
    let mut rest = wants;
    while let [want, others @ ..] = rest {
        if want.on != level {
            kept.push(*want)?;
        }
        level = want.on;
        rest = others;
    }
    Ok(kept)
}
