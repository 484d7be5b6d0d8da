//! The law of the texts of loads.

ghost use Rattle.std.specs.Prelude.{◌≡◌, ◌≤◌, ◌+◌, ℕ};
ghost use Rattle.generated_load.specs.Printer.{load_machine};
ghost use Rattle.generated_load.specs.Text.{load_text};
ghost use Rattle.gcode_program.specs.Cuts.{closed};
ghost use Rattle.gcode_program.specs.Programs.{program_end, program_sections};
ghost use Rattle.laws_report.specs.loads.Path.{accepted_whole, load_path};
ghost use Rattle.laws_report.specs.meshes.Bent.{origin};

/// The law of loads: the text of a load of at most two million moves is accepted whole on its printer. It is
/// one section of moves, from each place to the next.
pub fn loads_are_accepted()
    ensures accepted { (seed moves : ℕ) → moves ≤ 2_000_000 →
        program_end load_machine (load_text seed moves) ≡ accepted_whole (moves + 1) }
    ensures sections { (seed moves : ℕ) → moves ≤ 2_000_000 →
        program_sections load_machine (load_text seed moves) ≡ closed 0 (load_path moves seed origin) }
{}
