// The reports of what was played.

ghost use Rattle.std.specs.Prelude.{◌≡◌, IfOk};
ghost use Rattle.qs_meaning.specs.audit.Serial.{IsLegal};
ghost use Rattle.qs_serve.specs.audit.RunReports.{report_by};
ghost use Rattle.qs_serve.specs.audit.Due.{told_report};
ghost use Rattle.qs_serve.specs.Due.{IsReportBetween, IsReportOf};

use crate::due::{Due, due_of_bytes};
use crate::run_report::{styled_report, styled_run_report};
use qs_check::Program;
use qs_line::ReportStyle;
use qs_played::{Outcome, Played};
use qs_steps::Told;
use std::alloc::{AllocError, Global};

/// The report of what was played, where it was written.
pub(crate) fn due_of_played(
    alloc: Global,
    program: &Program,
    style: ReportStyle,
    played: Played,
) -> Due
    requires legal { IsLegal program.now played.order }
    ensures due { IsReportOf style program.now played result }
{
    let text = styled_report(alloc, program, style, &played);
    drop(played);
    due_of_bytes(text)
}

/// The report of what ran on threads, where it was written.
pub(crate) fn due_of_outcome(
    alloc: Global,
    program: &Program,
    style: ReportStyle,
    outcome: Outcome,
) -> Due
    requires legal { IsLegal program.now outcome.order }
    ensures due { IsReportOf style program.now outcome result }
{
    let text = styled_run_report(alloc, program, style, &outcome);
    drop(outcome);
    due_of_bytes(text)
}

// A report between the lines of its steps and of its queues.
fn joined(steps: Vec<u8>, report: &[u8], queues: &[u8]) -> Result<Vec<u8>, AllocError>
    ensures text { IfOk result (λ text. text.items ≡ told_report steps.items queues.now report.now) }
{
    let mut text = steps;
    text.extend_from_slice(report)?;
    text.extend_from_slice(queues)?;
    Ok(text)
}

// The report of what was told, between the lines of its steps and of its queues.
fn report_between(
    alloc: Global,
    program: &Program,
    style: ReportStyle,
    told: Told,
) -> Result<Vec<u8>, AllocError>
    requires legal { IsLegal program.now told.played.order }
    ensures text { IfOk result (λ text. text.items ≡ told_report told.steps.items told.queues.items (report_by style program.now told.played)) }
{
    let (steps, queues, played) = told.into_parts();
    let report = styled_report(alloc, program, style, &played);
    drop(played);
    let report = report?;
    joined(steps, report.as_slice(), queues.as_slice())
}

/// What is due for a run whose steps and queues were written: its report between them.
pub(crate) fn due_of_told(alloc: Global, program: &Program, style: ReportStyle, told: Told) -> Due
    requires legal { IsLegal program.now told.played.order }
    ensures due { IsReportBetween told.steps.items told.queues.items style program.now told.played result }
{
    due_of_bytes(report_between(alloc, program, style, told))
}
