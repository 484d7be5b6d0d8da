//! The law of logs that check.

ghost use Rattle.std.specs.Prelude.{◌≡◌, ℕ, List, map};
ghost use Rattle.log_check.specs.Verdicts.{log_verdict};
ghost use Rattle.log_text.specs.declared.line.LogLine.{LogLine};
ghost use Rattle.laws_report.specs.logs.Follows.{FollowsPlan, StandsWell, all_said, in_order, ok_line};
ghost use Rattle.plan_types.specs.declared.cause.Cause.TheVariants as cause;
ghost use Rattle.plan_types.specs.declared.machine.Machine.{Machine};
ghost use Rattle.plan_types.specs.declared.plan.Section.{Section};
ghost use Rattle.text_core.specs.Lines.{lines_of};
ghost use Rattle.text_core.specs.Words.{worded_lines};

/// The law of logs: where the check of a log ends with all done, its lines are those that its text says, and
/// they follow the plan.
pub fn checked_logs_follow_the_plan()
    ensures said { (m : Machine) (sections : List Section) (text : List ℕ) →
        (log_verdict m sections text).cause ≡ cause.Done →
        all_said m (worded_lines 35 1 (lines_of text)) ≡ map ok_line (in_order (log_verdict m sections text).lines) }
    ensures follows { (m : Machine) (sections : List Section) (text : List ℕ) →
        (log_verdict m sections text).cause ≡ cause.Done → FollowsPlan m sections (log_verdict m sections text).lines }
{}

/// The converse: where the lines that the text of a log says follow the plan and stand where they may, its
/// check ends with all done.
pub fn logs_that_follow_the_plan_check()
    ensures { (m : Machine) (sections : List Section) (text : List ℕ) (lines : List LogLine) →
        all_said m (worded_lines 35 1 (lines_of text)) ≡ map ok_line (in_order lines) → FollowsPlan m sections lines →
        StandsWell m sections lines →
        ((log_verdict m sections text).cause ≡ cause.Done) × ((log_verdict m sections text).lines ≡ lines) }
{}
