//! The laws of reports that check.

ghost use Rattle.std.specs.Prelude.{◌≡◌, ◌⊎◌, ◌∷◌, ◌++◌, [], ℕ, List, Ok, Some};
ghost use Rattle.cfg_text.specs.Reading.{machine_of_text};
ghost use Rattle.laws_report.specs.reports.Checks.{check_cause};
ghost use Rattle.laws_report.specs.reports.Promises.{sections_over};
ghost use Rattle.laws_report.specs.reports.Linked.{IsLinkReport, MeetPremise};
ghost use Rattle.plan_types.specs.declared.machine.Machine.{Machine};
ghost use Rattle.report_text.specs.declared.line.ReportLine.{ReportLine};
ghost use Rattle.laws_run.specs.run_ends.Ends.{GoesThrough};
ghost use Rattle.laws_run.specs.run_headline.Timely.{AreOfMoves, HoldsNothingLong};
ghost use Rattle.laws_run.specs.home_headline.Near.{AllTakeNear};
ghost use Rattle.session_lanes.specs.declared.near.LinkLog.{LinkLog};
ghost use Rattle.wire_scene.specs.declared.scene.Scene.{Scene};

use io_core::{Files, Sink};
use plan_types::Cause;

/// The law of runs of moves: where no line of such a run held a command for half a round of the 32-bit clock
/// (`HoldsNothingLong`), and it did not end for want of memory, each board takes all near (`AllTakeNear`). So
/// what a run over links shows of its text, and the laws below, hold of it.
pub fn runs_of_moves_over_links_take_near<F: Files, S: Sink>()
    ensures { (printer : List ℕ) (m : Machine) (s : Scene) (gcode : List ℕ) (files files' : F) (out out' : S)
        (c : Cause) (lines : List ReportLine) (counts : List ℕ) (links : List LinkLog) →
        machine_of_text printer ≡ Ok m →
        (r : IsLinkReport F.Files S.Sink m s gcode files files' out out' c lines counts links) → (text : List ℕ) →
        AreOfMoves (sections_over m text) → (r.reported.told.cause ≡ Cause.Memory → ⊥) →
        HoldsNothingLong m s text r.reported.runs.runs.0 (r.reported.runs.runs.1 ++ r.reported.runs.runs.2 ∷ []) →
        AllTakeNear m s text r.reported.runs.runs.0 (r.reported.runs.runs.1 ++ r.reported.runs.runs.2 ∷ []) }
{}

/// The law of what runs write: where a run over links went through, on the machine of a configuration, and met the
/// premise of what it shows, or its text has no sections, and nothing was written before, the check of what is written
/// then against this G-code on the same machine ends with all done.
pub fn what_runs_write_checks<F: Files, S: Sink>()
    ensures { (printer : List ℕ) (m : Machine) (s : Scene) (gcode : List ℕ) (files files' : F) (out out' : S)
        (c : Cause) (lines : List ReportLine) (counts : List ℕ) (links : List LinkLog) →
        machine_of_text printer ≡ Ok m →
        (r : IsLinkReport F.Files S.Sink m s gcode files files' out out' c lines counts links) → (text : List ℕ) →
        F.told files gcode ≡ Some text → GoesThrough c →
        MeetPremise m s text r.reported.runs.runs.0 r.reported.runs.runs.1 r.reported.runs.runs.2 r.reported.told.cause
        ⊎ (sections_over m text ≡ []) →
        (log : List ℕ) → S.written out ≡ Some [] → S.written out' ≡ Some log → check_cause m text log ≡ Cause.Done }
{}
