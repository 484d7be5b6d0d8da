//! The numbers of boards and steppers, by their names.

ghost use Rattle.std.specs.Prelude.{◌≡◌, ◌<◌, ◌≤◌, length, IfSome};
ghost use Rattle.log_text.specs.Names.{board_from, stepper_from};

use plan_types::{BoardDef, StepperDef};

/// The number of the first board of a name.
pub fn board_named(boards: &[BoardDef], name: &[u8]) -> Option<u8>
    requires { length boards.now ≤ 8 }
    ensures value { result ≡ board_from 0 name.now boards.now }
    ensures there { IfSome result (λ board. board < length boards.now) }
{
    let mut place: u8 = 0;
    let mut rest = boards;
    while let [first, others @ ..] = rest {
        if first.name.as_bytes() == name {
            return Some(place);
        }
        place += 1;
        rest = others;
    }
    None
}

/// The number of the first stepper of a name.
pub fn stepper_named(steppers: &[StepperDef], name: &[u8]) -> Option<u8>
    requires { length steppers.now ≤ 16 }
    ensures value { result ≡ stepper_from 0 name.now steppers.now }
    ensures there { IfSome result (λ stepper. stepper < length steppers.now) }
{
    let mut place: u8 = 0;
    let mut rest = steppers;
    while let [first, others @ ..] = rest {
        if first.name.as_bytes() == name {
            return Some(place);
        }
        place += 1;
        rest = others;
    }
    None
}
