ghost use Rattle.std.specs.Prelude.{All};
ghost use Rattle.plan_types.specs.Valid.{IsValidMove};

use plan_types::{Move, Part};
use trapezoid::segments;

/// A move along x at 10 mm/s, 3,000 mm/s².
const ONE_MILLIMETRE: Move = Move {
    from: [0, 0, 0, 0],
    to: [1_000_000, 0, 0, 0],
    d: 1_000_000,
    v: 10_000_000,
    a: 3_000_000_000,
};

/// One millimetre, the travel of half a step, and a nanometre.
fn moves() -> [Move; 3]
    ensures { All IsValidMove result }
{
    [
        ONE_MILLIMETRE,
        Move {
            to: [6_250, 0, 0, 0],
            d: 6_250,
            ..ONE_MILLIMETRE
        },
        Move {
            to: [1, 0, 0, 0],
            d: 1,
            ..ONE_MILLIMETRE
        },
    ]
}

/// A move's number, its share of cruising, the distances and times of its three parts, and the speed of the second one.
type Row = (usize, u32, [u64; 3], [u64; 3], u64);

const ROWS: [Row; 4] = [
    (
        0,
        0,
        [16_666, 966_668, 16_666],
        [3_333_200, 96_666_800, 3_333_200],
        10_000_000,
    ),
    (
        1,
        0,
        [3_125, 0, 3_125],
        [1_443_375, 0, 1_443_375],
        4_330_127,
    ),
    (
        1,
        500_000,
        [1_562, 3_126, 1_562],
        [1_020_294, 1_020_947, 1_020_294],
        3_061_862,
    ),
    (2, 500_000, [0, 1, 0], [0, 18_257, 0], 54_772),
];

/// The parts of one of these moves that begins and ends at rest.
fn parts(place: usize, cruise: u32) -> Option<[Part; 3]> {
    if place >= 3 || cruise >= 1_000_000 {
        return None;
    }
    Some(segments(&moves()[place], 0, 0, cruise))
}

fn are_so(parts: &[Part; 3], distances: [u64; 3], times: [u64; 3], along: u64) -> bool {
    parts.map(|part| part.d) == distances
        && parts.map(|part| part.ns) == times
        && parts[1].v0 == along
        && parts[1].v1 == along
}

/// The first row whose parts are others.
fn first_wrong(rows: &[Row]) -> Option<usize> {
    for (i, (place, cruise, distances, times, along)) in rows.iter().enumerate() {
        let Some(parts) = parts(*place, *cruise) else {
            return Some(i);
        };
        if !are_so(&parts, *distances, *times, *along) {
            return Some(i);
        }
    }
    None
}

/// The times of the parts of the first move where it begins, and where it ends, at full speed.
fn through() -> Option<([u64; 3], [u64; 3])> {
    let one = &moves()[0];
    if one.v != 10_000_000 || one.a != 3_000_000_000 || one.d != 1_000_000 {
        return None;
    }
    let first = segments(one, 0, 100_000_000_000_000, 500_000);
    let second = segments(one, 100_000_000_000_000, 0, 500_000);
    Some((first.map(|part| part.ns), second.map(|part| part.ns)))
}

#[test]
fn parts_of_moves(rt: HostRuntime) {
    assert_eq!(rt; first_wrong(&ROWS), None);
    // two moves through a straight junction at full speed: 203,333,200 ns together
    let there = [3_333_200, 98_333_400, 0];
    let back = [0, 98_333_400, 3_333_200];
    assert!(rt; through() == Some((there, back)));
}
