//! The cause at the end of a report.

ghost use Rattle.std.specs.Prelude.{◌≡◌};
ghost use Rattle.laws_report.specs.reports.Body.{cause_of};

use plan_types::{Cause, ReadStop};

/// The cause with which a run ends that nothing cuts.
pub fn cause_of(stop: &ReadStop) -> Cause
    ensures { result ≡ cause_of stop.now }
{
    match *stop {
        ReadStop::End => Cause::Done,
        ReadStop::Stop(line) => Cause::Asked { line },
        ReadStop::Refused { line, kind } => Cause::Line { line, kind },
    }
}
