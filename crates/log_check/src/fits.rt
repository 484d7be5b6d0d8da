//! What is told of the pulses of a section.

ghost use Rattle.std.specs.Prelude.{◌≡◌, ◌++◌, ◌+◌, ◌<◌, ◌≤◌, length, OnOk};
ghost use Rattle.log_check.specs.Steps.{point_of};
ghost use Rattle.log_check.specs.Verdicts as specs;

use crate::stand::Stand;
use crate::tally::Tally;
use plan_types::{Listed, Planned};
use report_text::ReportLine;
use std::alloc::AllocError;

/// Adds the line of a stepper that has or should have pulses.
fn put_fit(
    out: &mut Vec<ReportLine>,
    section: u64,
    stepper: u8,
    plan: &[Planned],
    tally: &Tally,
) -> Result<(), AllocError>
    ensures { OnOk result (out.new.items ≡ out.old.items ++ specs.fit_line section stepper plan.now tally.now) }
{
    if tally.made > 0 || !plan.is_empty() {
        out.push(ReportLine::Fit {
            section,
            stepper,
            pulses: tally.made as u64,
            planned: plan.len() as u64,
            early: tally.early,
            late: tally.late,
        })?;
    }
    Ok(())
}

/// Adds the lines of the steppers of a section.
fn put_steppers(
    out: &mut Vec<ReportLine>,
    section: u64,
    plans: &[Listed<Planned>],
    tallies: &[Tally],
) -> Result<(), AllocError>
    requires { length plans.now ≤ 16 }
    ensures { OnOk result (out.new.items ≡ out.old.items ++ specs.fit_lines section 0 plans.now tallies.now) }
{
    let mut stepper: u8 = 0;
    let mut rest = plans;
    let mut more = tallies;
    while let [plan, behind @ ..] = rest {
        let [tally, later @ ..] = more else {
            return Ok(());
        };
        put_fit(out, section, stepper, plan.as_slice(), tally)?;
        stepper += 1;
        rest = behind;
        more = later;
    }
    Ok(())
}

/// Adds the lines of the present section.
pub fn put_fits(out: &mut Vec<ReportLine>, stand: &Stand) -> Result<(), AllocError>
    requires { length stand.now.plans ≤ 16 }
    ensures { OnOk result (out.new.items ≡ out.old.items ++ specs.present_fits (point_of stand.now)) }
{
    let section = stand.begun.saturating_sub(1) as u64;
    put_steppers(out, section, stand.plans.as_slice(), &stand.tallies)
}
