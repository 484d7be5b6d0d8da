//! The law of what a run over links shows.

ghost use Rattle.std.specs.Prelude.{◌≡◌, ◌≢◌, ◌++◌, ◌∷◌, [], ℕ, List, Ok, Some};
ghost use Rattle.cfg_text.specs.Reading.{machine_of_text};
ghost use Rattle.laws_report.specs.reports.Checks.{check_cause};
ghost use Rattle.laws_report.specs.reports.Promises.{sections_over};
ghost use Rattle.laws_report.specs.reports.Linked.{IsLinkReport, KeepUp, MeetPremise};
ghost use Rattle.plan_types.specs.declared.machine.Machine.{Machine};
ghost use Rattle.report_text.specs.declared.line.ReportLine.{ReportLine};
ghost use Rattle.report_text.specs.declared.line.ReportLine.TheVariants as report;
ghost use Rattle.report_text.specs.Text.{report_text};
ghost use Rattle.laws_report.specs.page.Report.{Shows};
ghost use Rattle.laws_report.specs.page.Log.{Follows, SaysLog, StartsOnTime, log_of};
ghost use Rattle.laws_run.specs.run_ends.Ends.{GoesThrough};
ghost use Rattle.session_lanes.specs.declared.near.LinkLog.{LinkLog};
ghost use Rattle.wire_scene.specs.declared.scene.Scene.{Scene};

use io_core::{Files, Sink};
use plan_types::Cause;

/// The law of printed lines: whatever ended a run over links, of moves or homing, the lines that were printed before
/// the end line say a log that follows the plan of its text as far as the run came, where it met its premise. By the
/// clock lines that it tells the pulses of every stepper in each section fit the first of its planned steps; a section
/// that was not cut, and behind whose next one's line a pulse of the same board stands, has them all; and where the run
/// went through so has every section that was not cut. Each section behind one that was not cut starts exactly in its
/// turn, and where the run went through all sections have their line.
pub fn printed_lines_follow_the_plan<F: Files, S: Sink>()
    ensures { (printer : List ℕ) (m : Machine) (s : Scene) (gcode : List ℕ) (files files' : F) (out out' : S)
        (c : Cause) (lines : List ReportLine) (counts : List ℕ) (links : List LinkLog) →
        machine_of_text printer ≡ Ok m →
        (r : IsLinkReport F.Files S.Sink m s gcode files files' out out' c lines counts links) →
        (text : List ℕ) → F.told files gcode ≡ Some text →
        MeetPremise m s text r.reported.runs.runs.0 r.reported.runs.runs.1 r.reported.runs.runs.2
        r.reported.told.cause →
        ∥ (SaysLog m (report_text m r.reported.said) (log_of r.reported.said)
        × Follows (GoesThrough c) m (sections_over m text) (log_of r.reported.said)
        × StartsOnTime (GoesThrough c) m (sections_over m text) (log_of r.reported.said)) ∥₁ }
{}

/// The law of boards that keep up: less than that they take all near is enough for what a run shows, and for its check.
/// Where each board is timely, and it takes the set-up of each homing section in time, or its reports are read true, in
/// all turns or, where memory ran out, in those before the last one (`KeepUp`), the run shows the same (`Shows`),
/// whatever ended it; and where it went through its report checks.
pub fn runs_that_keep_up_show_the_same<F: Files, S: Sink>()
    ensures shows { (printer : List ℕ) (m : Machine) (s : Scene) (gcode : List ℕ) (files files' : F) (out out' : S)
        (c : Cause) (lines : List ReportLine) (counts : List ℕ) (links : List LinkLog) →
        machine_of_text printer ≡ Ok m →
        (r : IsLinkReport F.Files S.Sink m s gcode files files' out out' c lines counts links) →
        (text : List ℕ) → F.told files gcode ≡ Some text →
        KeepUp m s text r.reported.runs.runs.0 r.reported.runs.runs.1 r.reported.runs.runs.2 r.reported.told.cause →
        ∥ Shows (Unit {0}) m s text c r.reported.said ∥₁ }
    ensures checks { (printer : List ℕ) (m : Machine) (s : Scene) (gcode : List ℕ) (files files' : F) (out out' : S)
        (c : Cause) (lines : List ReportLine) (counts : List ℕ) (links : List LinkLog) →
        machine_of_text printer ≡ Ok m →
        (r : IsLinkReport F.Files S.Sink m s gcode files files' out out' c lines counts links) →
        (text : List ℕ) → F.told files gcode ≡ Some text →
        KeepUp m s text r.reported.runs.runs.0 r.reported.runs.runs.1 r.reported.runs.runs.2 r.reported.told.cause →
        GoesThrough c →
        check_cause m text (report_text m (r.reported.said ++ report.End c ∷ [])) ≡ Cause.Done }
{}
