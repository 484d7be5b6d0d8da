use plan_types::{Planned, Triple};
use std::alloc::Global;
use step_pack::{OutOfMemory, Placed, are_spaced, max_error, pack, pack_placed};

/// How a plan is packed behind tick 0: its steps, how early they may be, their windows, and what each triple covers.
#[derive(Drop)]
struct Row<'a> {
    steps: &'a [Planned],
    max_error: u64,
    windows: &'a [(u64, u64)],
    counts: &'a [u16],
}

fn up(tick: u64) -> Planned {
    Planned { tick, up: true }
}

fn down(tick: u64) -> Planned {
    Planned { tick, up: false }
}

/// How many steps of some triples are not in their windows, when the gaps are added up as a board does.
fn outside(placed: &[Placed], windows: &[(u64, u64)]) -> u64 {
    let mut wrong = 0u64;
    let mut rest = windows.iter();
    for one in placed {
        let (mut tick, mut gap) = (one.first, one.triple.interval);
        for place in 0..one.triple.count {
            if place > 0 {
                gap = gap.wrapping_add_signed(i32::from(one.triple.add));
                tick = tick.wrapping_add(u64::from(gap));
            }
            let within = rest
                .next()
                .is_some_and(|window| window.0 <= tick && tick <= window.1);
            wrong = wrong.saturating_add(u64::from(!within));
        }
        wrong = wrong.saturating_add(u64::from(tick != one.last));
    }
    wrong.saturating_add(u64::from(rest.next().is_some()))
}

const ROWS: [Row<'static>; 5] = [
    Row {
        steps: &[
            Planned {
                tick: 1000,
                up: true,
            },
            Planned {
                tick: 2000,
                up: true,
            },
            Planned {
                tick: 3000,
                up: true,
            },
        ],
        max_error: 400,
        windows: &[(600, 1000), (1600, 2000), (3000, 3000)],
        counts: &[3],
    },
    Row {
        steps: &[
            Planned {
                tick: 1000,
                up: true,
            },
            Planned {
                tick: 2000,
                up: true,
            },
            Planned {
                tick: 3000,
                up: true,
            },
            Planned {
                tick: 3500,
                up: true,
            },
            Planned {
                tick: 4000,
                up: true,
            },
        ],
        max_error: 400,
        windows: &[
            (600, 1000),
            (1600, 2000),
            (2600, 3000),
            (3250, 3500),
            (4000, 4000),
        ],
        counts: &[5],
    },
    Row {
        steps: &[
            Planned {
                tick: 1000,
                up: true,
            },
            Planned {
                tick: 2000,
                up: false,
            },
        ],
        max_error: 400,
        windows: &[(600, 1000), (2000, 2000)],
        counts: &[1, 1],
    },
    Row {
        steps: &[],
        max_error: 400,
        windows: &[],
        counts: &[],
    },
    Row {
        steps: &[Planned {
            tick: 9_600_000_000,
            up: true,
        }],
        max_error: 0,
        windows: &[(9_600_000_000, 9_600_000_000)],
        counts: &[1],
    },
];

/// How some steps behind tick 0 are packed, with where their triples lie; nothing, where they are not spaced.
fn placed(
    alloc: Global,
    steps: &[Planned],
    max_error: u64,
) -> Result<Option<Vec<Placed>>, OutOfMemory> {
    if !are_spaced(0, steps) {
        return Ok(None);
    }
    Ok(Some(pack_placed(alloc, 0, steps, max_error)?))
}

/// The same, without that.
fn packed(
    alloc: Global,
    steps: &[Planned],
    max_error: u64,
) -> Result<Option<Vec<Triple>>, OutOfMemory> {
    if !are_spaced(0, steps) {
        return Ok(None);
    }
    Ok(Some(pack(alloc, 0, steps, max_error)?))
}

/// Whether triples cover so many steps, and are those that are placed.
fn are_those(triples: &[Triple], placed: &[Placed], counts: &[u16]) -> bool {
    let mut same = triples.len() == counts.len() && triples.len() == placed.len();
    for (triple, count) in triples.iter().zip(counts) {
        same = same && triple.count == *count;
    }
    for (triple, one) in triples.iter().zip(placed) {
        same = same && *triple == one.triple;
    }
    same
}

/// Whether a plan is packed as its row has it.
fn is_so(alloc: Global, row: &Row<'_>) -> Result<bool, OutOfMemory> {
    let Some(placed) = placed(alloc, row.steps, row.max_error)? else {
        return Ok(false);
    };
    let Some(triples) = packed(alloc, row.steps, row.max_error)? else {
        return Ok(false);
    };
    Ok(are_those(&triples, &placed, row.counts) && outside(&placed, row.windows) == 0)
}

/// The first row whose plan is packed otherwise.
fn first_wrong(alloc: Global, rows: &[Row<'_>]) -> Result<Option<usize>, OutOfMemory> {
    for (i, row) in rows.iter().enumerate() {
        if !is_so(alloc, row)? {
            return Ok(Some(i));
        }
    }
    Ok(None)
}

#[test]
fn plans_are_packed_in_their_windows(rt: HostRuntime) -> Result<(), OutOfMemory> {
    let wrong = first_wrong(rt.alloc(), &ROWS)?;
    assert!(rt; wrong.is_none());
    Ok(())
}

/// The triple of a step that is more than 2^32 ticks away.
const FAR: Triple = Triple {
    interval: 1_010_065_408,
    count: 1,
    add: 0,
};

#[test]
fn a_far_step_is_alone(rt: HostRuntime) -> Result<(), OutOfMemory> {
    let triples = packed(rt.alloc(), &[up(9_600_000_000)], 0)?;
    assert!(rt; triples.is_some_and(|triples| triples.as_slice() == [FAR].as_slice()));
    Ok(())
}

#[test]
fn early_by_25_microseconds_at_most(rt: HostRuntime) {
    let boards = [(16_000_000, 400), (180_000_000, 4_500), (1_039_000, 25)];
    for (freq, ticks) in boards {
        assert_eq!(rt; max_error(freq), ticks);
    }
}

#[test]
fn ticks_that_are_not_spaced(rt: HostRuntime) {
    let rows: [(u64, &[Planned], bool); 5] = [
        (0, &[up(4), down(8)], true),
        (0, &[up(4), down(7)], false),
        (0, &[up(3)], false),
        (10, &[up(9)], false),
        (u64::MAX, &[], true),
    ];
    for (last, steps, spaced) in rows {
        assert_eq!(rt; are_spaced(last, steps), spaced);
    }
}
