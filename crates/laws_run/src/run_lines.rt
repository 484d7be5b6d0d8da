//! What the lines of a whole run of moves tell of its sections, as a law.

ghost use Rattle.std.specs.Prelude.{ℕ, List};
ghost use Rattle.gcode_program.specs.Programs.{program_sections};
ghost use Rattle.plan_types.specs.declared.machine.Machine.{Machine};
ghost use Rattle.plan_types.specs.Lines.{Clocks};
ghost use Rattle.report_text.specs.declared.line.ReportLine.{ReportLine};
ghost use Rattle.laws_run.specs.run_headline.Timely.{AreOfMoves};
ghost use Rattle.laws_run.specs.run_lines.Due.{HaveTheirLines};
ghost use Rattle.laws_run.specs.home_headline.Follow.{HaveBegunLines};

use plan_types::Cause;

/// The law of due lines: where sections of a text of moves have their line in the report of a whole run
/// (`HaveBegunLines`), they are the first ones of the text, in their order, each in the turn in which it is due by the
/// clock lines; and all of them where the run went through.
pub fn sections_have_their_lines()
    ensures { (m : Machine) (text : List ℕ) (clocks : List Clocks) (ready : ℕ) (c : Cause) (lines : List ReportLine) →
        HaveBegunLines m text clocks ready c lines → AreOfMoves (program_sections m text) →
        HaveTheirLines m text clocks ready c lines }
{}
