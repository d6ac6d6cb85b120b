// How often each end came in many runs on threads.

ghost use Rattle.std.specs.Prelude.{◌≡◌, ◌⊎◌, []};
ghost use Rattle.std.specs.List.{AllByRecursion};
ghost use Rattle.qs_outcomes.specs.Outcomes.{HasPlaces};
ghost use Rattle.qs_report.specs.declared.faults.Fault.TheVariants as fault;
ghost use Rattle.qs_line.specs.audit.Line.{tally};
ghost use Rattle.qs_serve.specs.Due.{HasAskedTimes, IsCounted, IsDueOfProgram, IsOutOfMemory, IsRefusedBy};

use crate::due::{Due, due_of_bytes};
use qs_check::Program;
use qs_json::tally_json;
use qs_line::Format;
use qs_report::{Fault, tally_text};
use qs_run::Starter;
use qs_run::many::{Repeats, run_times_with};
use qs_tally::Tally;
use std::alloc::Global;
use std::sync::Wait;
use std::thread::Threads;

// Ends have the numbers of outcomes, where there are no more configurations than these.
const MOST_NUMBERED: u32 = 1_000_000;

// A tally of so many runs, in a format.
fn due_of_counted(alloc: Global, program: &Program, format: Format, times: u32, tally: Tally) -> Due
    requires places { AllByRecursion (λ e. HasPlaces program.now e.standing) tally.ends }
    ensures due { IsCounted format program.now times tally result }
{
    let text = match format {
        Format::Text => tally_text(alloc, program, times, &tally),
        Format::Json => tally_json(alloc, program, times, &tally),
    };
    drop(tally);
    due_of_bytes(text)
}

/// How often each end came in many runs on threads, in a format. Where it is told to be refused, one of the runs was:
/// its starter was asked what a refused run asks, and no more.
pub(crate) fn due_of_tally<S: Starter, T: Threads + Wait + Sync>(
    rt: &T,
    alloc: Global,
    program: &Program,
    format: Format,
    repeats: Repeats,
    starter: &mut S,
) -> Due
    ensures not_input { ¬ IsRefusedBy fault.Input result }
    ensures due { IsOutOfMemory result ⊎ IsDueOfProgram (tally format repeats.mode repeats.size repeats.times) [] program.now result }
    ensures started { HasAskedTimes S.answers repeats.times program.now starter.old starter.new result }
{
    let times = repeats.times;
    match run_times_with(rt, alloc, program, repeats, MOST_NUMBERED, starter) {
        Ok(tally) => due_of_counted(alloc, program, format, times, tally),
        Err(fault) => Due::Refused(Fault::Run(fault)),
    }
}
