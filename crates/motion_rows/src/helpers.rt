//! What the rows share: the printer, the words that a machine hears, and what it put.

use msg_code::{Batch, Note, NoteNews, Unit, WordMsg, WordNews};
use plan_types::{Line, Listed, SectionKind};
use std::alloc::{AllocError, Global};

/// A cartesian printer with one board and four steppers; x and y have 80 steps a millimetre.
pub const PRINTER: &str = "[printer]
kinematics: cartesian
max_velocity: 300
max_accel: 3000
square_corner_velocity: 5
[simulation]
start_homed: True
[mcu]
[simulated_mcu]
clock_freq: 16000000
[stepper_x]
step_pin: PB0
dir_pin: PB1
rotation_distance: 40
microsteps: 16
endstop_pin: PC0
position_endstop: 0
position_max: 200
homing_speed: 10
[stepper_y]
step_pin: PB2
dir_pin: !PB3
rotation_distance: 40
microsteps: 16
endstop_pin: PC1
position_endstop: 0
position_max: 200
homing_speed: 10
[stepper_z]
step_pin: PB4
dir_pin: PB5
rotation_distance: 8
microsteps: 16
endstop_pin: PC2
position_endstop: 0
position_max: 200
homing_speed: 10
[extruder]
step_pin: PB6
dir_pin: PB7
rotation_distance: 32
microsteps: 16
";

/// The same printer with an x axis of two millimetres and a y axis of one.
pub const SHORT: &str = "[printer]
kinematics: cartesian
max_velocity: 300
max_accel: 3000
square_corner_velocity: 5
[simulation]
start_homed: True
[mcu]
[simulated_mcu]
clock_freq: 16000000
[stepper_x]
step_pin: PB0
dir_pin: PB1
rotation_distance: 40
microsteps: 16
endstop_pin: PC0
position_endstop: 0
position_max: 2
homing_speed: 10
[stepper_y]
step_pin: PB2
dir_pin: !PB3
rotation_distance: 40
microsteps: 16
endstop_pin: PC1
position_endstop: 0
position_max: 1
homing_speed: 10
[stepper_z]
step_pin: PB4
dir_pin: PB5
rotation_distance: 8
microsteps: 16
endstop_pin: PC2
position_endstop: 0
position_max: 200
homing_speed: 10
[extruder]
step_pin: PB6
dir_pin: PB7
rotation_distance: 32
microsteps: 16
";

/// The same printer with a slow board and very fine steps: x has 512,000 steps a millimetre, and the steps of
/// a board of 1 MHz are at least four microseconds apart.
pub const SLOW: &str = "[printer]
kinematics: cartesian
max_velocity: 300
max_accel: 3000
square_corner_velocity: 5
[simulation]
start_homed: True
[mcu]
[simulated_mcu]
clock_freq: 1000000
[stepper_x]
step_pin: PB0
dir_pin: PB1
rotation_distance: 0.1
microsteps: 256
endstop_pin: PC0
position_endstop: 0
position_max: 200
homing_speed: 10
[stepper_y]
step_pin: PB2
dir_pin: !PB3
rotation_distance: 40
microsteps: 16
endstop_pin: PC1
position_endstop: 0
position_max: 200
homing_speed: 10
[stepper_z]
step_pin: PB4
dir_pin: PB5
rotation_distance: 8
microsteps: 16
endstop_pin: PC2
position_endstop: 0
position_max: 200
homing_speed: 10
[extruder]
step_pin: PB6
dir_pin: PB7
rotation_distance: 32
microsteps: 16
";

/// The turns of a run.
pub const TURNS: u64 = 2_200;

/// A printer with a fast board that has few slots for triples: x has 204,800 steps a millimetre.
pub const BURST: &str = "[printer]
kinematics: cartesian
max_velocity: 1000
max_accel: 100000
square_corner_velocity: 5
[simulation]
start_homed: True
[mcu]
[simulated_mcu]
clock_freq: 200000000
move_slots: 64
[stepper_x]
step_pin: PB0
dir_pin: PB1
rotation_distance: 0.5
full_steps_per_rotation: 400
microsteps: 256
endstop_pin: PC0
position_endstop: 0
position_max: 200
homing_speed: 10
[stepper_y]
step_pin: PB2
dir_pin: PB3
rotation_distance: 40
microsteps: 16
endstop_pin: PC1
position_endstop: 0
position_max: 200
homing_speed: 10
[stepper_z]
step_pin: PB4
dir_pin: PB5
rotation_distance: 8
microsteps: 16
endstop_pin: PC2
position_endstop: 0
position_max: 200
homing_speed: 10
[extruder]
step_pin: PB6
dir_pin: PB7
rotation_distance: 32
microsteps: 16
";

/// What a machine put: the units of the first board, each with its turn, and the news of the notes, each with
/// its turn; the word that it wanted before each turn; and how many bytes of the text were taken by each turn
/// before which some were.
#[derive(Drop)]
pub struct Ran {
    pub units: Vec<(u64, Unit)>,
    pub news: Vec<(u64, NoteNews)>,
    pub wants: Vec<(u64, u64)>,
    pub taken: Vec<(u64, usize)>,
}

/// Nothing was put yet.
pub fn new_ran(alloc: Global) -> Ran {
    Ran {
        units: Vec::new(alloc),
        news: Vec::new(alloc),
        wants: Vec::new(alloc),
        taken: Vec::new(alloc),
    }
}

/// Adds the units of the first board in a turn, and the news of its note.
pub fn add_turn(ran: &mut Ran, batches: &[Batch], note: &Note) -> Result<(), AllocError> {
    for one in note.news.as_slice() {
        ran.news.push((note.turn, *one))?;
    }
    for batch in batches {
        for unit in batch.units.as_slice() {
            ran.units.push((batch.turn, *unit))?;
        }
    }
    Ok(())
}

/// Adds a board's line of a frequency.
fn add_line(alloc: Global, news: &mut Listed<WordNews>, freq: u32) -> Result<(), AllocError> {
    let mut lines = Listed::new(alloc);
    lines.push(Line {
        at: 0,
        clock: 0,
        freq,
    })?;
    news.push(WordNews::Lines(lines))
}

/// The word of a turn: in turn 44 the board's line, that of 16 MHz, of 1 MHz or of 200 MHz (the others are
/// passed over), in some turns the answer of a homing group, and in some a further line of the board.
pub fn word(
    alloc: Global,
    turn: u64,
    answers: &[u64],
    lines: &[(u64, Line)],
) -> Result<WordMsg, AllocError> {
    let mut news = Listed::new(alloc);
    if answers.contains(&turn) {
        news.push(WordNews::Homed)?;
    }
    for (told, line) in lines {
        if *told == turn {
            news.push(WordNews::Line {
                board: 0,
                line: *line,
            })?;
        }
    }
    if turn == 44 {
        add_line(alloc, &mut news, 16_000_000)?;
        add_line(alloc, &mut news, 1_000_000)?;
        add_line(alloc, &mut news, 200_000_000)?;
    }
    Ok(WordMsg {
        turn,
        news,
        end: false,
    })
}

/// The news of an axis' homing section.
pub fn homing(axis: u8, turn: u64, last: u64, moving: u16) -> NoteNews {
    NoteNews::Start {
        section: u64::from(axis),
        kind: SectionKind::Home(axis),
        turn,
        last,
        moving,
    }
}

/// The news of a section of moves.
pub fn moving(section: u64, turn: u64) -> NoteNews {
    NoteNews::Start {
        section,
        kind: SectionKind::Moves,
        turn,
        last: 0,
        moving: 0,
    }
}

/// A section ends.
pub fn done(section: u64, turn: u64) -> NoteNews {
    NoteNews::Done { section, turn }
}

/// The news of a text by which all axes home, each at a switch that is closed already, and the printer moves then.
pub fn slicer_news() -> [(u64, NoteNews); 7] {
    let moves = moving(3, 2_043);
    [
        (1_000, homing(0, 1_260, 31_261, 1)),
        (1_261, done(0, 1_261)),
        (1_261, homing(1, 1_521, 31_522, 2)),
        (1_522, done(1, 1_522)),
        (1_522, homing(2, 1_782, 31_784, 4)),
        (1_783, done(2, 1_783)),
        (1_783, moves),
    ]
}

/// Whether these words are wanted where an axis homes until turn 1,762: that of the same turn before turn 45,
/// when connecting ended, and from its start on, else that of 64 turns before.
pub fn are_wanted(wants: &[(u64, u64)]) -> bool {
    for (turn, word) in wants {
        let together = *turn < 45 || (1_260..1_763).contains(turn);
        let want = if together {
            *turn
        } else {
            turn.saturating_sub(64)
        };
        if *word != want {
            return false;
        }
    }
    true
}
