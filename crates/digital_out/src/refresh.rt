//! Commands that keep an output alive.

ghost use Rattle.std.specs.Prelude.{◌≡◌, ◌++◌, ◌<◌, ◌≤◌, ◌+◌, ◌*◌, ◌^◌, List, All, IfOk, OnOk};
ghost use Rattle.digital_out.specs.declared.want.Want.{Want};
ghost use Rattle.digital_out.specs.Refreshes.{AreBehindWant, AreOns, AreRefreshed};
ghost use Rattle.digital_out.specs.Rising.{AreRising, WantsRiseFrom};

use crate::OutOfMemory;
use crate::want::{Want, behind, nth};
use std::alloc::Global;

/// Adds a command that holds the output on every so many ticks behind one tick, before another.
fn put_ons(out: &mut Vec<Want>, from: u64, until: u64, every: u64) -> Result<(), OutOfMemory>
    requires some { 0 < every }
    requires small { until + every < 2 ^ 64 }
    requires before { from < until }
    ensures { OnOk result ((ons : List Want) × (out.new.items ≡ out.old.items ++ ons) × AreOns every from until ons) }
{
    let mut tick = from + every;
    while tick < until {
        out.push(Want { tick, on: true })?;
        tick += every;
    }
    Ok(())
}

/// Adds the commands behind a want, up to the next one.
fn put_behind(
    out: &mut Vec<Want>,
    want: Want,
    others: &[Want],
    every: u64,
) -> Result<(), OutOfMemory>
    requires some { 0 < every }
    requires small { want.tick + 2 * every < 2 ^ 64 }
    requires others { All (λ w. w.tick + 2 * every < 2 ^ 64) others.now }
    requires rise { WantsRiseFrom (want.tick + 1) others.now }
    ensures { OnOk result
        ((behind : List Want) × (out.new.items ≡ out.old.items ++ behind)
        × AreBehindWant every want others.now behind) }
{
    if !want.on {
        return Ok(());
    }
    match others {
        [next, ..] => put_ons(out, want.tick, next.tick, every),
        [] => {
            let tick = want.tick + every;
            out.push(Want { tick, on: true })?;
            out.push(Want {
                tick: tick + every,
                on: false,
            })?;
            Ok(())
        }
    }
}

/// The wants, and while the output is on a further command every so many ticks until the next want; behind a
/// last want that is on one further, and then off.
pub fn refreshed(alloc: Global, wants: &[Want], every: u64) -> Result<Vec<Want>, OutOfMemory>
    requires some { 0 < every }
    requires rise { AreRising wants.now }
    requires small { All (λ w. w.tick + 2 * every < 2 ^ 64) wants.now }
    ensures { IfOk result (λ commands. AreRefreshed every wants.now commands.items) }
{
    let mut out = Vec::new(alloc);
    for i in 0..wants.len() {
        let want = nth(wants, i);
        out.push(want)?;
        put_behind(&mut out, want, behind(wants, i), every)?;
    }
    Ok(out)
}
