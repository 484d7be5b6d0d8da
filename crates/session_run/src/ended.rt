//! How a run ends: its exit status, its cause and its report.

ghost use Rattle.std.specs.Prelude.{◌≡◌};
ghost use Rattle.session_run.specs.Ends.{status_of};

use plan_types::{Cause, Listed};
use report_text::ReportLine;
use session_lanes::LinkLog;

/// What a run reported, line by line.
#[derive(Drop)]
pub struct Report {
    /// But for the lines of pulses.
    pub lines: Listed<ReportLine>,
    /// How many pulses each stepper made in a run over links.
    pub counts: Listed<u64>,
    /// What the lanes of each board carried in it.
    pub links: Vec<LinkLog>,
}

/// How a run ended: its exit status, its cause and its report.
#[derive(Drop)]
pub struct Ended {
    pub status: u8,
    pub cause: Cause,
    pub report: Report,
}

/// The exit status of a cause.
pub fn status_of(cause: &Cause) -> u8
    ensures { result ≡ status_of cause.now }
{
    match *cause {
        Cause::Done => 0,
        Cause::Memory => 1,
        Cause::Usage => 2,
        Cause::ReadFault => 3,
        Cause::WriteFault => 4,
        Cause::Config { .. } => 5,
        Cause::Scene { .. } => 6,
        Cause::Line { .. } => 7,
        Cause::Late { .. } | Cause::Asked { .. } => 8,
        Cause::NoSwitch { .. } | Cause::Expired { .. } => 9,
        Cause::Connect { .. } | Cause::Stale { .. } => 10,
        Cause::Trace { .. } => 11,
        Cause::NoBoard => 12,
        Cause::Mesh { .. } => 13,
        Cause::NoFan => 14,
        Cause::Misfit { .. } => 15,
    }
}
