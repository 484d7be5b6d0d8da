ghost use Rattle.std.specs.Prelude.{◌≤◌, All, slice_index_or};
ghost use Rattle.plan_types.specs.declared.plan.Segment.{Segment};
ghost use Rattle.plan_types.specs.Valid.{IsValidSegment};

use clock_line::Lines;
use plan_types::{Gear, Line, Planned, Segment};
use std::alloc::Global;
use step_ticks::{OutOfMemory, StepStream, planned};

const GEAR: Gear = Gear {
    distance: 40_000_000,
    steps: 3_200,
};

/// A board of 16 MHz.
const LINE: Line = Line {
    at: 0,
    clock: 0,
    freq: 16_000_000,
};

/// The tick at which the sections start.
const BASE: u64 = 20_160_000;

/// One millimetre at 10 mm/s.
fn one_millimetre() -> [Segment; 3]
    ensures valid { All (λ s. IsValidSegment s 16_000_000) result }
    ensures first { (d : Segment) → (slice_index_or result 0 d).end ≤ (slice_index_or result 1 d).start }
    ensures second { (d : Segment) → (slice_index_or result 1 d).end ≤ (slice_index_or result 2 d).start }
{
    [
        Segment {
            start: 20_160_000,
            end: 20_213_331,
            dur: 53_331,
            d: 16_666,
            v0: 0,
            v1: 10_000_000,
            before: 0,
            len: 1_000_000,
            p0: 0,
            dp: 1_000_000,
        },
        Segment {
            start: 20_213_331,
            end: 21_760_000,
            dur: 1_546_669,
            d: 966_668,
            v0: 10_000_000,
            v1: 10_000_000,
            before: 16_666,
            len: 1_000_000,
            p0: 0,
            dp: 1_000_000,
        },
        Segment {
            start: 21_760_000,
            end: 21_813_331,
            dur: 53_331,
            d: 16_666,
            v0: 10_000_000,
            v1: 0,
            before: 983_334,
            len: 1_000_000,
            p0: 0,
            dp: 1_000_000,
        },
    ]
}

/// Half a step, 6,250 nm, half of it cruised.
fn half_step() -> [Segment; 3]
    ensures { All (λ s. IsValidSegment s 16_000_000) result }
{
    [
        Segment {
            start: 20_160_000,
            end: 20_176_324,
            dur: 16_324,
            d: 1_562,
            v0: 0,
            v1: 3_061_862,
            before: 0,
            len: 6_250,
            p0: 0,
            dp: 6_250,
        },
        Segment {
            start: 20_176_324,
            end: 20_192_659,
            dur: 16_335,
            d: 3_126,
            v0: 3_061_862,
            v1: 3_061_862,
            before: 1_562,
            len: 6_250,
            p0: 0,
            dp: 6_250,
        },
        Segment {
            start: 20_192_659,
            end: 20_208_984,
            dur: 16_325,
            d: 1_562,
            v0: 3_061_862,
            v1: 0,
            before: 4_688,
            len: 6_250,
            p0: 0,
            dp: 6_250,
        },
    ]
}

/// Half a step, and back again.
fn half_step_and_back() -> [Segment; 6]
    ensures { All (λ s. IsValidSegment s 16_000_000) result }
{
    [
        Segment {
            start: 20_160_000,
            end: 20_176_324,
            dur: 16_324,
            d: 1_562,
            v0: 0,
            v1: 3_061_862,
            before: 0,
            len: 6_250,
            p0: 0,
            dp: 6_250,
        },
        Segment {
            start: 20_176_324,
            end: 20_192_659,
            dur: 16_335,
            d: 3_126,
            v0: 3_061_862,
            v1: 3_061_862,
            before: 1_562,
            len: 6_250,
            p0: 0,
            dp: 6_250,
        },
        Segment {
            start: 20_192_659,
            end: 20_208_984,
            dur: 16_325,
            d: 1_562,
            v0: 3_061_862,
            v1: 0,
            before: 4_688,
            len: 6_250,
            p0: 0,
            dp: 6_250,
        },
        Segment {
            start: 20_208_984,
            end: 20_225_309,
            dur: 16_325,
            d: 1_562,
            v0: 0,
            v1: 3_061_862,
            before: 0,
            len: 6_250,
            p0: 6_250,
            dp: -6_250,
        },
        Segment {
            start: 20_225_309,
            end: 20_241_644,
            dur: 16_335,
            d: 3_126,
            v0: 3_061_862,
            v1: 3_061_862,
            before: 1_562,
            len: 6_250,
            p0: 6_250,
            dp: -6_250,
        },
        Segment {
            start: 20_241_644,
            end: 20_257_969,
            dur: 16_325,
            d: 1_562,
            v0: 3_061_862,
            v1: 0,
            before: 4_688,
            len: 6_250,
            p0: 6_250,
            dp: -6_250,
        },
    ]
}

/// The way back alone.
fn back() -> [Segment; 3]
    ensures { All (λ s. IsValidSegment s 16_000_000) result }
{
    [
        Segment {
            start: 20_208_984,
            end: 20_225_309,
            dur: 16_325,
            d: 1_562,
            v0: 0,
            v1: 3_061_862,
            before: 0,
            len: 6_250,
            p0: 6_250,
            dp: -6_250,
        },
        Segment {
            start: 20_225_309,
            end: 20_241_644,
            dur: 16_335,
            d: 3_126,
            v0: 3_061_862,
            v1: 3_061_862,
            before: 1_562,
            len: 6_250,
            p0: 6_250,
            dp: -6_250,
        },
        Segment {
            start: 20_241_644,
            end: 20_257_969,
            dur: 16_325,
            d: 1_562,
            v0: 3_061_862,
            v1: 0,
            before: 4_688,
            len: 6_250,
            p0: 6_250,
            dp: -6_250,
        },
    ]
}

/// Half a step, of which nothing is cruised.
fn sharp() -> [Segment; 2]
    ensures { All (λ s. IsValidSegment s 16_000_000) result }
{
    [
        Segment {
            start: 20_160_000,
            end: 20_183_094,
            dur: 23_094,
            d: 3_125,
            v0: 0,
            v1: 4_330_127,
            before: 0,
            len: 6_250,
            p0: 0,
            dp: 6_250,
        },
        Segment {
            start: 20_183_094,
            end: 20_206_188,
            dur: 23_094,
            d: 3_125,
            v0: 4_330_127,
            v1: 0,
            before: 3_125,
            len: 6_250,
            p0: 0,
            dp: 6_250,
        },
    ]
}

/// And back again.
fn sharp_back() -> [Segment; 2]
    ensures { All (λ s. IsValidSegment s 16_000_000) result }
{
    [
        Segment {
            start: 20_206_188,
            end: 20_229_282,
            dur: 23_094,
            d: 3_125,
            v0: 0,
            v1: 4_330_127,
            before: 0,
            len: 6_250,
            p0: 6_250,
            dp: -6_250,
        },
        Segment {
            start: 20_229_282,
            end: 20_252_376,
            dur: 23_094,
            d: 3_125,
            v0: 4_330_127,
            v1: 0,
            before: 3_125,
            len: 6_250,
            p0: 6_250,
            dp: -6_250,
        },
    ]
}

/// The first drive of a CoreXY printer, along x and y.
fn diagonal() -> [Segment; 3]
    ensures { All (λ s. IsValidSegment s 16_000_000) result }
{
    [
        Segment {
            start: 20_160_000,
            end: 20_213_331,
            dur: 53_331,
            d: 16_666,
            v0: 0,
            v1: 10_000_000,
            before: 0,
            len: 1_414_213,
            p0: 0,
            dp: 2_000_000,
        },
        Segment {
            start: 20_213_331,
            end: 22_422_740,
            dur: 2_209_409,
            d: 1_380_881,
            v0: 10_000_000,
            v1: 10_000_000,
            before: 16_666,
            len: 1_414_213,
            p0: 0,
            dp: 2_000_000,
        },
        Segment {
            start: 22_422_740,
            end: 22_476_072,
            dur: 53_332,
            d: 16_666,
            v0: 10_000_000,
            v1: 0,
            before: 1_397_547,
            len: 1_414_213,
            p0: 0,
            dp: 2_000_000,
        },
    ]
}

/// The second drive, which stands still meanwhile.
fn still() -> [Segment; 3]
    ensures { All (λ s. IsValidSegment s 16_000_000) result }
{
    [
        Segment {
            start: 20_160_000,
            end: 20_213_331,
            dur: 53_331,
            d: 16_666,
            v0: 0,
            v1: 10_000_000,
            before: 0,
            len: 1_414_213,
            p0: 0,
            dp: 0,
        },
        Segment {
            start: 20_213_331,
            end: 22_422_740,
            dur: 2_209_409,
            d: 1_380_881,
            v0: 10_000_000,
            v1: 10_000_000,
            before: 16_666,
            len: 1_414_213,
            p0: 0,
            dp: 0,
        },
        Segment {
            start: 22_422_740,
            end: 22_476_072,
            dur: 53_332,
            d: 16_666,
            v0: 10_000_000,
            v1: 0,
            before: 1_397_547,
            len: 1_414_213,
            p0: 0,
            dp: 0,
        },
    ]
}

/// The planned steps of some parts.
fn steps_of(alloc: Global, segments: &[Segment]) -> Result<Vec<Planned>, OutOfMemory>
    requires { All (λ s. IsValidSegment s 16_000_000) segments.now }
{
    let lines = Lines::new(alloc, LINE);
    planned(alloc, &GEAR, &lines, segments, BASE)
}

/// The steps of one millimetre.
fn steps_of_one(alloc: Global) -> Result<Vec<Planned>, OutOfMemory> {
    steps_of(alloc, &one_millimetre())
}

/// The tick of a step of one millimetre.
fn tick(i: u64) -> u64 {
    match i {
        0 => 20_192_660,
        79 => 21_780_672,
        _ => 20_216_666_u64.saturating_add(i.saturating_sub(1).saturating_mul(20_000)),
    }
}

/// The first step that isn't one up at its tick.
fn first_wrong(steps: &[Planned]) -> Option<u64> {
    let mut i = 0_u64;
    for step in steps {
        if !step.up || step.tick != tick(i) {
            return Some(i);
        }
        i = i.saturating_add(1);
    }
    None
}

#[test]
fn steps_of_one_millimetre(rt: HostRuntime) -> Result<(), OutOfMemory> {
    let steps = steps_of_one(rt.alloc())?;
    assert!(rt; steps.len() == 80);
    assert_eq!(rt; first_wrong(&steps), None);
    Ok(())
}

/// The steps of half a step.
const HALF: [Planned; 1] = [Planned {
    tick: 20_208_984,
    up: true,
}];

/// Whether half a step is a step at its end.
fn half_is_one(alloc: Global) -> Result<bool, OutOfMemory> {
    let steps = steps_of(alloc, &half_step())?;
    Ok(steps.as_slice() == HALF.as_slice())
}

/// The one step of some parts.
fn one_step(alloc: Global, segments: &[Segment]) -> Result<Option<Planned>, OutOfMemory>
    requires { All (λ s. IsValidSegment s 16_000_000) segments.now }
{
    let steps = steps_of(alloc, segments)?;
    match steps.as_slice() {
        [step] => Ok(Some(*step)),
        _ => Ok(None),
    }
}

/// The step of the way back, 414 ticks behind the other one.
const BACK: Planned = Planned {
    tick: 20_209_398,
    up: false,
};

/// The steps where nothing is cruised, as many ticks apart.
const SHARP: Planned = Planned {
    tick: 20_206_188,
    up: true,
};

const SHARP_BACK: Planned = Planned {
    tick: 20_206_602,
    up: false,
};

/// Whether each of the two ways is a step at its own tick.
fn each_is_one(alloc: Global) -> Result<bool, OutOfMemory> {
    Ok(
        one_step(alloc, &back())? == Some(BACK)
            && one_step(alloc, &sharp())? == Some(SHARP)
            && one_step(alloc, &sharp_back())? == Some(SHARP_BACK),
    )
}

/// Whether it is none where it goes back again.
fn back_is_none(alloc: Global) -> Result<bool, OutOfMemory> {
    let steps = steps_of(alloc, &half_step_and_back())?;
    Ok(steps.is_empty())
}

/// Whether there are 160 along the diagonal, all up.
fn along_is_up(alloc: Global) -> Result<bool, OutOfMemory> {
    let steps = steps_of(alloc, &diagonal())?;
    Ok(steps.len() == 160 && steps.iter().all(|step| step.up))
}

/// Whether there are none of the drive that stands still.
fn across_is_none(alloc: Global) -> Result<bool, OutOfMemory> {
    let steps = steps_of(alloc, &still())?;
    Ok(steps.is_empty())
}

#[test]
fn steps_of_moves(rt: HostRuntime) -> Result<(), OutOfMemory> {
    let alloc = rt.alloc();
    assert!(rt; half_is_one(alloc)? && each_is_one(alloc)? && back_is_none(alloc)?);
    assert!(rt; along_is_up(alloc)? && across_is_none(alloc)?);
    Ok(())
}

/// A stream that was given the parts of one millimetre.
fn stream(alloc: Global) -> Result<StepStream, OutOfMemory> {
    let lines = Lines::new(alloc, LINE);
    let segments = one_millimetre();
    let mut stream = StepStream::new(alloc, &GEAR, &lines, BASE)?;
    stream.push(&segments[0])?;
    stream.push(&segments[1])?;
    stream.push(&segments[2])?;
    Ok(stream)
}

/// What it gives at once, and how many steps behind that.
fn streamed(alloc: Global) -> Result<(Vec<Planned>, usize), OutOfMemory> {
    let mut stream = stream(alloc)?;
    stream.finish();
    let all = take(&mut stream)?;
    let none = take(&mut stream)?;
    Ok((all, none.len()))
}

fn take(stream: &mut StepStream) -> Result<Vec<Planned>, OutOfMemory> {
    stream.take(22_000_000)
}

/// Whether these are the steps of one millimetre, and no others come.
fn gives_the_same(alloc: Global) -> Result<bool, OutOfMemory> {
    let steps = steps_of_one(alloc)?;
    let (all, behind) = streamed(alloc)?;
    Ok(all.as_slice() == steps.as_slice() && behind == 0)
}

#[test]
fn a_stream_gives_the_same_steps(rt: HostRuntime) -> Result<(), OutOfMemory> {
    assert!(rt; gives_the_same(rt.alloc())?);
    Ok(())
}
