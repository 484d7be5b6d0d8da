use clock_line::{LineTicks, Lines, OutOfMemory};
use plan_types::Line;

/// 16 MHz from the session's start on.
const FIRST: Line = Line {
    at: 0,
    clock: 0,
    freq: 16_000_000,
};

#[test]
#[tactic(auto, using(clock_line::proofs::Turns::turn_within))]
fn a_line_has_ticks_and_turns(rt: HostRuntime) -> Result<(), OutOfMemory> {
    assert!(rt; FIRST.tick(1_500_000) == 24_000);
    assert!(rt; FIRST.turn(15_999) == 0);
    assert!(rt; FIRST.turn(16_000) == 1);
    Ok(())
}

#[test]
#[tactic(auto, using(clock_line::proofs::Turns::turn_within))]
fn a_line_runs_ahead(rt: HostRuntime) -> Result<(), OutOfMemory> {
    let mut ahead = Lines::new(rt.alloc(), FIRST);
    ahead.add(
        1_500_000_000,
        Line {
            at: 1_000_000_000,
            clock: 16_001_600,
            freq: 16_000_000,
        },
    )?;
    assert!(rt; ahead.tick(1_499_999_999) == 23_999_999);
    assert!(rt; ahead.tick(1_500_000_000) == 24_001_600);
    assert!(rt; ahead.turn(23_999_999) == 1_499);
    assert!(rt; ahead.turn(24_001_599) == 1_499);
    assert!(rt; ahead.turn(24_001_600) == 1_500);
    assert!(rt; ahead.board(23_999_999) == 23_999_999);
    assert!(rt; ahead.board(24_000_000) == 24_001_600);
    Ok(())
}

#[test]
fn a_line_runs_behind(rt: HostRuntime) -> Result<(), OutOfMemory> {
    let mut behind = Lines::new(rt.alloc(), FIRST);
    behind.add(
        1_500_000_000,
        Line {
            at: 1_000_000_000,
            clock: 15_998_400,
            freq: 16_000_000,
        },
    )?;
    assert!(rt; behind.tick(1_500_000_000) == 24_000_000);
    assert!(rt; behind.tick(1_500_100_000) == 24_000_000);
    assert!(rt; behind.tick(1_500_200_000) == 24_001_600);
    assert!(rt; behind.board(24_003_200) == 24_001_600);
    Ok(())
}
