//! What holds of the dictionaries of a configuration's boards.

ghost use Rattle.std.specs.Prelude.{◌≡◌, ℕ, List, Ok};
ghost use Rattle.plan_types.specs.declared.machine.Machine.{Machine};
ghost use Rattle.cfg_text.specs.Reading.{machine_of_text};
ghost use Rattle.laws_board.specs.causes.Short.{HaveShortDictionaries};

/// The law of dictionaries: where the text of a configuration is read as a machine, each board of it has a
/// dictionary of less than 2,360 bytes, which comes in at most 59 pieces of 40 bytes. For at most 49 pins are
/// named, three for each of at most 16 steppers and one for a part fan, and a pin's name has at most 16
/// bytes.
pub fn configured_boards_have_short_dictionaries()
    ensures { (text : List ℕ) (m : Machine) → machine_of_text text ≡ Ok m → HaveShortDictionaries m }
{}
