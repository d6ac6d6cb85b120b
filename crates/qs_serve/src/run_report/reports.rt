// The reports of runs.

ghost use Rattle.std.specs.Prelude.{◌≡◌, IfOk};
ghost use Rattle.qs_meaning.specs.audit.Serial.{IsLegal};
ghost use Rattle.qs_report.specs.audit.Report.{styled_run_text};
ghost use Rattle.qs_serve.specs.audit.RunReports.{locals_at_end, report_by};
ghost use Rattle.qs_svg.specs.audit.RunSvg.{run_svg as svg_of_run};

use crate::run_report::ends::end_of;
use qs_json::run_json;
use qs_line::{ReportFormat, ReportStyle};
use qs_played::{Outcome, Played};
use qs_program::Program;
use qs_report::{report, report_counts, report_run, report_run_counts, report_with_refusals};
use qs_svg::run_svg;
use std::alloc::{AllocError, Global};

// The report of what was played as text, with what was refused and with the counts of synchronisations where they are
// asked for.
fn report_text(
    alloc: Global,
    program: &Program,
    style: ReportStyle,
    played: &Played,
) -> Result<Vec<u8>, AllocError>
    ensures text { IfOk result (λ text. text.items ≡ styled_run_text style.refusals style.counts program.now played.now) }
{
    if style.refusals {
        report_with_refusals(alloc, program, played, style.counts)
    } else if style.counts {
        report_counts(alloc, program, played)
    } else {
        report(alloc, program, played)
    }
}

// The picture of what was played, with the variables at its end.
fn report_svg(alloc: Global, program: &Program, played: &Played) -> Result<Vec<u8>, AllocError>
    requires legal { IsLegal program.now played.now.order }
    ensures picture { IfOk result (λ picture. picture.items ≡ svg_of_run program.now played.now (locals_at_end program.now played.now)) }
{
    let end = end_of(alloc, program, played)?;
    run_svg(alloc, program, played, end.as_ref())
}

/// The report of what was played, in the style that is asked for. An error says that an allocation failed.
pub fn styled_report(
    alloc: Global,
    program: &Program,
    style: ReportStyle,
    played: &Played,
) -> Result<Vec<u8>, AllocError>
    requires legal { IsLegal program.now played.now.order }
    ensures text { IfOk result (λ text. text.items ≡ report_by style program.now played.now) }
{
    match style.format {
        ReportFormat::Text => report_text(alloc, program, style, played),
        ReportFormat::Json => run_json(alloc, program, played, style.counts),
        ReportFormat::Svg => report_svg(alloc, program, played),
    }
}

// The report of what ran on threads as text, with what was refused and with the counts of synchronisations where they
// are asked for.
fn run_report_text(
    alloc: Global,
    program: &Program,
    style: ReportStyle,
    outcome: &Outcome,
) -> Result<Vec<u8>, AllocError>
    ensures text { IfOk result (λ text. text.items ≡ styled_run_text style.refusals style.counts program.now outcome.now) }
{
    if style.refusals {
        report_with_refusals(alloc, program, outcome.played(), style.counts)
    } else if style.counts {
        report_run_counts(alloc, program, outcome)
    } else {
        report_run(alloc, program, outcome)
    }
}

/// The report of what ran on threads, in the style that is asked for. An error says that an allocation failed.
pub fn styled_run_report(
    alloc: Global,
    program: &Program,
    style: ReportStyle,
    outcome: &Outcome,
) -> Result<Vec<u8>, AllocError>
    requires legal { IsLegal program.now outcome.now.order }
    ensures text { IfOk result (λ text. text.items ≡ report_by style program.now outcome.now) }
{
    match style.format {
        ReportFormat::Text => run_report_text(alloc, program, style, outcome),
        ReportFormat::Json | ReportFormat::Svg => {
            styled_report(alloc, program, style, outcome.played())
        }
    }
}
