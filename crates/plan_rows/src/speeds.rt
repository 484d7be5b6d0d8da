ghost use Rattle.std.specs.Prelude.{◌≡◌, true, All};
ghost use Rattle.plan_types.specs.Valid.{IsValidMove};

use lookahead::{LookStream, OutOfMemory, junction_cap, speeds};
use plan_types::Move;
use std::alloc::Global;
use trapezoid::segments;

/// Two millimetres along x, in two moves of 10 mm/s.
fn straight() -> [Move; 2]
    ensures { All IsValidMove result }
{
    [
        Move {
            from: [0, 0, 0, 0],
            to: [1_000_000, 0, 0, 0],
            d: 1_000_000,
            v: 10_000_000,
            a: 3_000_000_000,
        },
        Move {
            from: [1_000_000, 0, 0, 0],
            to: [2_000_000, 0, 0, 0],
            d: 1_000_000,
            v: 10_000_000,
            a: 3_000_000_000,
        },
    ]
}

/// Ten millimetres along x, and then along y, at 100 mm/s.
fn corner() -> [Move; 2]
    ensures { All IsValidMove result }
{
    [
        Move {
            from: [0, 0, 0, 0],
            to: [10_000_000, 0, 0, 0],
            d: 10_000_000,
            v: 100_000_000,
            a: 3_000_000_000,
        },
        Move {
            from: [10_000_000, 0, 0, 0],
            to: [10_000_000, 10_000_000, 0, 0],
            d: 10_000_000,
            v: 100_000_000,
            a: 3_000_000_000,
        },
    ]
}

/// The squared speeds with which the next move that is settled begins and ends.
fn settled(stream: &mut LookStream) -> Option<(u128, u128)> {
    match stream.settled() {
        Some((_, start, end)) => Some((start, end)),
        None => None,
    }
}

/// A stream of these two moves, and whether none was settled behind the first.
fn stream(alloc: Global) -> Result<(LookStream, bool), OutOfMemory> {
    let moves = straight();
    let mut stream = LookStream::new(alloc, 5_000_000);
    stream.push(moves[0])?;
    let none = settled(&mut stream).is_none();
    stream.push(moves[1])?;
    Ok((stream, none))
}

/// Whether one is settled then, and the other at the end.
fn settles(stream: &mut LookStream) -> bool {
    let first = settled(stream) == Some((0, 100_000_000_000_000)) && settled(stream).is_none();
    stream.finish();
    first && settled(stream) == Some((100_000_000_000_000, 0)) && settled(stream).is_none()
}

#[test]
fn a_stream_settles_as_soon_as_it_can(rt: HostRuntime) -> Result<(), OutOfMemory> {
    let (mut stream, none) = stream(rt.alloc())?;
    assert!(rt; none && settles(&mut stream));
    Ok(())
}

/// The greatest speed round the corner, squared.
fn cap() -> u128 {
    let moves = corner();
    junction_cap(&moves[0], &moves[1], 5_000_000)
}

/// Whether these are the squared speeds between the moves.
fn are_speeds(alloc: Global, wanted: &[u128]) -> Result<bool, OutOfMemory> {
    let speeds = speeds(alloc, &corner(), 5_000_000)?;
    Ok(speeds.as_slice() == wanted)
}

/// The speeds with which the first move ends and the second one begins, in nm/s.
fn corner_speeds() -> Option<(u64, u64)> {
    let [one, two] = &corner();
    if !is_fast(one) || !is_fast(two) {
        return None;
    }
    let [_, _, down] = segments(one, 0, 24_999_999_954_963, 500_000);
    let [up, _, _] = segments(two, 24_999_999_954_963, 0, 500_000);
    Some((down.v1, up.v0))
}

/// Whether a move is one of ten millimetres at 100 mm/s.
fn is_fast(one: &Move) -> bool
    ensures { result ≡ true → (one.now.d ≡ 10_000_000) × (one.now.v ≡ 100_000_000) × (one.now.a ≡ 3_000_000_000) }
{
    one.d == 10_000_000 && one.v == 100_000_000 && one.a == 3_000_000_000
}

#[test]
fn speeds_round_a_corner(rt: HostRuntime) -> Result<(), OutOfMemory> {
    assert!(rt; cap() == 24_999_999_954_963);
    assert!(rt; are_speeds(rt.alloc(), &[0, 24_999_999_954_963, 0])?);
    assert!(rt; corner_speeds() == Some((4_999_999, 4_999_999)));
    Ok(())
}
