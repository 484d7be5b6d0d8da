//! The law of reports that are read back.

ghost use Rattle.std.specs.Prelude.{◌≡◌, ◌∷◌, ◌++◌, ◌≤◌, ◌<◌, [], ℕ, List, Ok, length, map};
ghost use Rattle.cfg_text.specs.Reading.{machine_of_text};
ghost use Rattle.clock_line.specs.Kept.{AreKept};
ghost use Rattle.log_check.specs.Verdicts.{log_verdict};
ghost use Rattle.laws_report.specs.logs.Follows.{all_said, ok_line};
ghost use Rattle.plan_types.specs.declared.machine.Machine.{Machine};
ghost use Rattle.plan_types.specs.declared.plan.Move.{Move};
ghost use Rattle.plan_types.specs.declared.plan.Section.{Section};
ghost use Rattle.plan_types.specs.Lines.{Clocks};
ghost use Rattle.plan_types.specs.Machines.{IsValidMachine};
ghost use Rattle.plan_types.specs.Sections.{clocks_at, for_each_stepper, latest, stepper_end};
ghost use Rattle.laws_report.specs.reports.Logged.{AreOfRun, IsCauseOn, logged};
ghost use Rattle.laws_report.specs.reports.Names.{HasNames};
ghost use Rattle.section_feed.specs.Fewer.{AreFirstLines};
ghost use Rattle.laws_report.specs.reports.Retold.{HaveLines, PlanAlike, PlansAlike, all_retold};
ghost use Rattle.laws_report.specs.reports.Spelled.{numbered};
ghost use Rattle.laws_report.specs.reports.Through.{GoThrough};
ghost use Rattle.laws_report.specs.reports.Within.{GoWithin};
ghost use Rattle.report_text.specs.declared.line.ReportLine.{ReportLine};
ghost use Rattle.report_text.specs.declared.line.ReportLine.TheVariants as report;
ghost use Rattle.report_text.specs.Text.{report_text};
ghost use Rattle.text_core.specs.Lines.{lines_of};
ghost use Rattle.text_core.specs.Words.{worded_lines};

use plan_types::Cause;

/// The law of names: a machine that is read from a configuration has words for names.
pub fn configured_machines_have_names()
    ensures { (printer : List ℕ) (m : Machine) → machine_of_text printer ≡ Ok m → HasNames m }
{}

/// The law of lines: the text of a run's report has its lines, in order and each with its number, and a log's
/// line of their words says what the report's line does.
pub fn report_lines_are_read_back()
    ensures lines { (m : Machine) (lines : List ReportLine) → IsValidMachine m → HasNames m → AreOfRun m lines →
        worded_lines 35 1 (lines_of (report_text m lines)) ≡ numbered m 1 lines }
    ensures said { (m : Machine) (lines : List ReportLine) → IsValidMachine m → HasNames m → AreOfRun m lines →
        all_said m (numbered m 1 lines) ≡ map ok_line (map logged lines) }
{}

/// The law of runs that go through: where the lines of a report go through the sections of a text, the check
/// of its text, with an end line of any cause behind them, ends with all done.
pub fn reports_that_go_through_check()
    ensures { (m : Machine) (sections : List Section) (lines : List Clocks) (ready : ℕ) (said : List ReportLine)
        (c : Cause) → IsValidMachine m → HasNames m → GoThrough m sections lines ready said → IsCauseOn m c →
        (log_verdict m sections (report_text m (said ++ report.End c ∷ []))).cause ≡ Cause.Done }
{}

/// The law of runs that go through where axes home: the same of a report in which the cut line of a homing
/// section stands behind its line, and the next section starts 260 turns or more behind the start of one that
/// was cut.
pub fn reports_with_cuts_that_go_through_check()
    ensures { (m : Machine) (sections : List Section) (lines : List Clocks) (ready : ℕ) (said : List ReportLine)
        (c : Cause) → IsValidMachine m → HasNames m → GoWithin m sections lines ready said → IsCauseOn m c →
        (log_verdict m sections (report_text m (said ++ report.End c ∷ []))).cause ≡ Cause.Done }
{}

/// The law of clock lines that are told later: the plan of a section that starts in a turn or behind it is
/// the same where the boards' first clock lines are told at the beginning of that turn, from which on or
/// later the further ones hold.
pub fn lines_may_be_told_later()
    ensures { (m : Machine) (clocks : List Clocks) (moves : List Move) (ready turn : ℕ) → IsValidMachine m →
        HaveLines m clocks ready → ready ≤ turn → PlanAlike m (all_retold ready clocks) clocks moves turn }
{}

/// The law of clock lines that hold later: the plan of a section that starts by a turn, with its planned
/// steps before that turn, is the same without the further lines of the boards that hold from behind the
/// beginning of the turn on.
pub fn lines_that_hold_later_may_be_left_out()
    ensures { (m : Machine) (short clocks : List Clocks) (moves : List Move) (turn last : ℕ) → IsValidMachine m →
        ((b : ℕ) → b < length m.boards → AreKept (clocks_at clocks b)) →
        ((b : ℕ) → b < length m.boards → AreFirstLines (clocks_at short b) (clocks_at clocks b) last) → turn ≤ last →
        latest (for_each_stepper m (stepper_end m clocks moves turn)) < last → PlansAlike m short clocks moves turn }
{}
