// The report of a run.

ghost use Rattle.std.specs.Prelude.{◌≡◌, ◌++◌, IfOk, OnOk, codes, true};
ghost use Rattle.qs_report.specs.audit.Report.{styled_run_text, states_text, finished_text};
ghost use Rattle.qs_report.specs.Report.{counted_report_text, report_text, run_text};
ghost use Rattle.qs_text.specs.audit.Texts.{count_line};

use crate::refusals::put_marked_order;
use crate::states::put_states;
use crate::tickets::put_order;
use qs_played::{Outcome, Played};
use qs_program::Program;
use qs_text::fates::journal_fates;
use qs_text::{put, put_count_line};
use std::alloc::{AllocError, Global};

fn finished_line(finished: bool) -> &'static [u8]
    ensures word { result.now ≡ finished_text finished }
{
    if finished {
        b"finished\n"
    } else {
        b"unfinished\n"
    }
}

// What stands behind the order: the objects' states, the number of syncs, and whether the run is finished.
fn put_end(out: &mut Vec<u8>, program: &Program, played: &Played) -> Result<(), AllocError>
    ensures ok { OnOk result (out.new.items ≡ out.old.items ++ states_text program.now played.now
        ++ count_line (codes "syncs") played.now.syncs ++ finished_text played.now.finished) }
{
    put_states(out, program, played)?;
    put_count_line(out, b"syncs", played.syncs())?;
    put(out, finished_line(played.is_finished()))
}

// The text of a run, with or without its counts.
fn text_of_run(
    alloc: Global,
    program: &Program,
    played: &Played,
    counts: bool,
) -> Result<Vec<u8>, AllocError>
    ensures text { IfOk result (λ bytes. bytes.items ≡ run_text counts program.now played.now) }
{
    let mut out = Vec::new(alloc);
    put_order(&mut out, program, played, counts)?;
    put_end(&mut out, program, played)?;
    Ok(out)
}

/// The text of a run: the order of its tickets, each with its trace; the objects' states; the number of syncs; and
/// whether it is finished. A number past the program's objects or clients has no name. An error says that an allocation
/// failed, and nothing is left.
pub fn report(alloc: Global, program: &Program, played: &Played) -> Result<Vec<u8>, AllocError>
    ensures text { IfOk result (λ bytes. bytes.items ≡ report_text program.now played.now) }
{
    text_of_run(alloc, program, played, false)
}

/// The text of a run on threads: the same, where each ticket is done and the run is finished. An error says that an
/// allocation failed, and nothing is left.
pub fn report_run(
    alloc: Global,
    program: &Program,
    outcome: &Outcome,
) -> Result<Vec<u8>, AllocError>
    ensures text { IfOk result (λ bytes. bytes.items ≡ report_text program.now outcome.now) }
{
    report(alloc, program, outcome.played())
}

/// The text of a run as `report` makes it, and after each ticket's trace a line for each object of its block's list, in
/// the list's order: how many synchronisations the block has sent for it. An error says that an allocation failed, and
/// nothing is left.
pub fn report_counts(
    alloc: Global,
    program: &Program,
    played: &Played,
) -> Result<Vec<u8>, AllocError>
    ensures text { IfOk result (λ bytes. bytes.items ≡ counted_report_text program.now played.now) }
{
    text_of_run(alloc, program, played, true)
}

/// The text of a run on threads as `report_run` makes it, with the lines of `report_counts`. An error says that an
/// allocation failed, and nothing is left.
pub fn report_run_counts(
    alloc: Global,
    program: &Program,
    outcome: &Outcome,
) -> Result<Vec<u8>, AllocError>
    ensures text { IfOk result (λ bytes. bytes.items ≡ counted_report_text program.now outcome.now) }
{
    report_counts(alloc, program, outcome.played())
}

/// The text of a run as `report` makes it, or as `report_counts`, where each command that its object refused has the
/// word `refused` at its line's end, and each query of what is not there the word `none`. An error says that an
/// allocation failed, and nothing is left.
pub fn report_with_refusals(
    alloc: Global,
    program: &Program,
    played: &Played,
    counts: bool,
) -> Result<Vec<u8>, AllocError>
    ensures text { IfOk result (λ bytes. bytes.items ≡ styled_run_text true counts program.now played.now) }
{
    let fates = journal_fates(alloc, program, played)?;
    let mut out = Vec::new(alloc);
    put_marked_order(&mut out, program, played, &fates, counts)?;
    put_end(&mut out, program, played)?;
    Ok(out)
}
