//! The rows.

use crate::machines::{one_board, two_boards};
use crate::script::{Script, Trigger, run};
use clock_line::{LineTicks, Sample, choose};
use msg_code::NoteNews;
use plan_types::{Line, ReadEnd, ReadStop, SectionKind};
use std::test::Fail;
use wire_scene::{Scene, read_scene};

/// The text has so many lines and sections.
fn read(lines: u64, passed: u64, sections: u64) -> NoteNews {
    NoteNews::Read {
        end: ReadEnd {
            lines,
            passed,
            stop: ReadStop::End,
        },
        sections,
    }
}

fn homes(section: u64, axis: u8, turn: u64, last: u64, moving: u16) -> NoteNews {
    NoteNews::Start {
        section,
        kind: SectionKind::Home(axis),
        turn,
        last,
        moving,
    }
}

fn moves(section: u64, turn: u64) -> NoteNews {
    NoteNews::Start {
        section,
        kind: SectionKind::Moves,
        turn,
        last: 0,
        moving: 0,
    }
}

fn takes_up(line: Line) -> NoteNews {
    NoteNews::Line {
        board: 0,
        line,
        from: 1_342_000_000,
    }
}

fn done(section: u64, turn: u64) -> NoteNews {
    NoteNews::Done { section, turn }
}

/// Samples of a board of 16 MHz.
const SAMPLES: [Sample; 3] = [
    Sample {
        sent: 10,
        got: 12,
        clock: 1_000,
    },
    Sample {
        sent: 20,
        got: 20,
        clock: 321_000,
    },
    Sample {
        sent: 30,
        got: 33,
        clock: 9,
    },
];

/// The line of the sample that came soonest.
const BEST: Line = Line {
    at: 20_000_000,
    clock: 321_000,
    freq: 16_000_000,
};

/// Its tick at a time, where that isn't before it.
fn tick(time: u64) -> u64 {
    if time < 20_000_000 {
        return 0;
    }
    BEST.tick(u128::from(time))
}

#[test]
fn the_best_sample_is_the_line(rt: HostRuntime) -> Result<(), Fail> {
    assert_eq!(rt; choose(&SAMPLES, 16_000_000), BEST);
    assert_eq!(rt; tick(21_000_000), 337_000);
    Ok(())
}

/// The report of a run in which nothing is printed.
const CONNECTED: &str = "machine cartesian boards 1 steppers 1
board mcu freq 16000000 turn 1260 tick 20160000
lines 0 passed 0
end 0 done
";

/// The askings of a board that never answers.
const UNANSWERED: &str = "0 0 identify 0 40
4 0 identify 0 40
8 0 identify 0 40
12 0 identify 0 40
16 0 identify 0 40
20 0 identify 0 40
24 0 identify 0 40
28 0 identify 0 40
";

/// The last askings of a board that answers at once, but for one answer that was lost.
const HEALED: &str = "46 0 allocate_oids 3
46 0 config_stepper 0
46 0 config_trsync 1
46 0 config_endstop 2 1
46 0 finalize_config
47 0 get_config
lines
";

#[test]
fn boards_connect(rt: HostRuntime) -> Result<(), Fail> {
    let alloc = rt.alloc();
    let m = one_board(alloc, false)?;
    let scene = Scene::empty(alloc);
    let notes = [(0, read(0, 0, 0))];
    let healed = Script {
        quiet: 0,
        again: 1,
        triggers: &[],
        notes: &notes,
        noted: &[(46, 60)],
    };
    let ran = run(alloc, &m, &scene, &healed, 100)?;
    assert_eq!(rt; ran.orders.as_str(), HEALED);
    assert_eq!(rt; ran.report.as_str(), CONNECTED);
    let silent = Script {
        quiet: 0,
        again: 100,
        triggers: &[],
        notes: &notes,
        noted: &[(0, 100)],
    };
    let ran = run(alloc, &m, &scene, &silent, 100)?;
    assert_eq!(rt; ran.orders.as_str(), UNANSWERED);
    assert_eq!(rt;
        ran.report.as_str(),
        "machine cartesian boards 1 steppers 1\nend 10 connect mcu 0\n"
    );
    Ok(())
}

/// What is ordered around the start of a homing section, and around its end.
const HOMING: &str = "1006 0 reset_step_clock 0 20160000
1009 0 trsync_start 1 20160000 80000 2
1009 0 trsync_set_timeout 1 20560000
1009 0 stepper_stop_on_trigger 0 1
1009 1 trsync_start 0 60481000 240000 2
1009 1 trsync_set_timeout 0 61681000
1010 1 endstop_home 1 60481000 720 4 4800 1
1266 0 trsync_set_timeout 1 20640000
1266 1 trsync_set_timeout 0 61921000
1761 0 trsync_set_timeout 1 28560000
1761 0 trsync_trigger 1 3
1761 1 trsync_set_timeout 0 85681000
1762 homed
";

const HOMED: &str = "machine cartesian boards 2 steppers 1
board mcu freq 16000000 turn 1260 tick 20160000
board tool freq 48000000 turn 1260 tick 60481000
section 0 turn 1260 home x
cut 0 tool PA1 84487960 1
lines 1 passed 0
end 0 done
";

#[test]
fn an_axis_homes_over_two_boards(rt: HostRuntime) -> Result<(), Fail> {
    let alloc = rt.alloc();
    let m = two_boards(alloc)?;
    let scene = read_scene(alloc, b"switch tool PA1 84481100 1\n", &m)?;
    let script = Script {
        quiet: 0,
        again: 0,
        triggers: &[
            Trigger {
                board: 0,
                start: 1_260,
                turn: 1_761,
                reason: 3,
                clock: 28_176_000,
            },
            Trigger {
                board: 1,
                start: 1_260,
                turn: 1_760,
                reason: 1,
                clock: 84_487_960,
            },
        ],
        notes: &[
            (0, read(1, 0, 1)),
            (1_000, homes(0, 0, 1_260, 31_360, 1)),
            (1_762, done(0, 1_762)),
        ],
        noted: &[(1_000, 1_270), (1_757, 1_800)],
    };
    let ran = run(alloc, &m, &scene, &script, 3_000)?;
    assert_eq!(rt; ran.orders.as_str(), HOMING);
    assert_eq!(rt; ran.report.as_str(), HOMED);
    Ok(())
}

/// No switch closes before the last turn of a planned step, 1300: the boards are told to trigger five turns later.
const WITHOUT_SWITCH: &str = "1281 0 trsync_set_timeout 1 20816000
1281 1 trsync_set_timeout 0 62449000
1305 0 trsync_trigger 1 3
1305 1 trsync_trigger 0 3
";

#[test]
fn homing_ends_without_a_switch(rt: HostRuntime) -> Result<(), Fail> {
    let alloc = rt.alloc();
    let m = two_boards(alloc)?;
    let scene = Scene::empty(alloc);
    let notes = [(0, read(1, 0, 1)), (1_000, homes(0, 0, 1_260, 1_300, 1))];
    let told = [(0, 1_305, 3, 20_880_000), (1, 1_305, 3, 62_641_000)];
    let open = Script {
        quiet: 0,
        again: 0,
        triggers: &told.map(|(board, turn, reason, clock)| Trigger {
            board,
            start: 1_260,
            turn,
            reason,
            clock,
        }),
        notes: &notes,
        noted: &[(1_280, 1_400)],
    };
    let ran = run(alloc, &m, &scene, &open, 2_000)?;
    assert_eq!(rt; ran.orders.as_str(), WITHOUT_SWITCH);
    assert!(rt;
        ran.report
            .as_str()
            .ends_with("section 0 turn 1260 home x\nend 9 noswitch 0\n")
    );
    let told = [(0, 1_285, 2, 20_560_000), (1, 1_286, 3, 61_729_000)];
    let expired = Script {
        triggers: &told.map(|(board, turn, reason, clock)| Trigger {
            board,
            start: 1_260,
            turn,
            reason,
            clock,
        }),
        noted: &[],
        ..open
    };
    let ran = run(alloc, &m, &scene, &expired, 2_000)?;
    assert!(rt;
        ran.report
            .as_str()
            .ends_with("section 0 turn 1260 home x\nend 9 expired mcu 1285\n")
    );
    Ok(())
}

const PROLOGUE: &str = "machine cartesian boards 1 steppers 1
board mcu freq 16000000 turn 1260 tick 20160000
section 0 turn 1260 home x
cut 0 mcu PC0 20160720 1
section 1 turn 1521 home y
cut 1 mcu PC0 24336720 1
section 2 turn 1782 home z
cut 2 mcu PC0 28512720 1
section 3 turn 2043 move
lines 12 passed 4
end 0 done
";

#[test]
fn axes_home_one_after_the_other(rt: HostRuntime) -> Result<(), Fail> {
    let alloc = rt.alloc();
    let m = one_board(alloc, false)?;
    let scene = read_scene(alloc, b"switch mcu PC0 0 1\n", &m)?;
    let script = Script {
        quiet: 0,
        again: 0,
        triggers: &[
            (1_260, 20_160_720),
            (1_521, 24_336_720),
            (1_782, 28_512_720),
        ]
        .map(|(turn, clock)| Trigger {
            board: 0,
            start: turn,
            turn,
            reason: 1,
            clock,
        }),
        notes: &[
            (0, read(12, 4, 4)),
            (1_000, homes(0, 0, 1_260, 4_000, 1)),
            (1_261, done(0, 1_261)),
            (1_261, homes(1, 1, 1_521, 4_000, 0)),
            (1_522, done(1, 1_522)),
            (1_522, homes(2, 2, 1_782, 4_000, 0)),
            (1_783, done(2, 1_783)),
            (1_783, moves(3, 2_043)),
            (2_500, done(3, 2_500)),
        ],
        noted: &[],
    };
    let ran = run(alloc, &m, &scene, &script, 4_000)?;
    assert_eq!(rt; ran.report.as_str(), PROLOGUE);
    Ok(())
}

#[test]
fn drifting_boards_are_asked_again(rt: HostRuntime) -> Result<(), Fail> {
    let alloc = rt.alloc();
    let m = one_board(alloc, true)?;
    let scene = Scene::empty(alloc);
    let line = Line {
        at: 1_000_000_000,
        clock: 16_001_600,
        freq: 16_000_000,
    };
    let asked = Script {
        quiet: 0,
        again: 0,
        triggers: &[],
        notes: &[
            (0, read(0, 0, 1)),
            (1_065, takes_up(line)),
            (1_400, done(0, 1_400)),
        ],
        noted: &[(950, 1_500)],
    };
    let ran = run(alloc, &m, &scene, &asked, 3_000)?;
    assert_eq!(rt;
        ran.orders.as_str(),
        "1000 0 get_uptime\n1001 line 0 1000000000 16001600\n"
    );
    assert!(rt;
        ran.report
            .as_str()
            .contains("\nline mcu turn 1000 tick 16001600 from 1342000000\n")
    );
    let silent = Script {
        quiet: 1_000,
        again: 2_000,
        noted: &[],
        ..asked
    };
    let ran = run(alloc, &m, &scene, &silent, 1_399)?;
    assert!(rt; !ran.report.as_str().contains("end"));
    let stale = Script {
        notes: &[(0, read(0, 0, 1))],
        ..silent
    };
    let ran = run(alloc, &m, &scene, &stale, 3_000)?;
    assert!(rt; ran.report.as_str().ends_with("end 10 stale mcu 1000\n"));
    Ok(())
}
