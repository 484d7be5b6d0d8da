//! What a run answers before its report is written.

use plan_types::{Cause, Machine};
use session_run::Report;

/// A run's cause, its machine, which has no boards where no configuration was read, and its report.
#[derive(Drop)]
pub struct Answer {
    pub cause: Cause,
    pub machine: Machine,
    pub report: Report,
}
