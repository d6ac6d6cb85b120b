// The values of a sum at the ends of a program's orders.

ghost use Rattle.std.specs.List.{AllByRecursion};
ghost use Rattle.qs_line.specs.declared.question.Question.TheVariants as Question;
ghost use Rattle.qs_outcomes.specs.Outcomes.{HasPlaces};
ghost use Rattle.qs_report.specs.declared.faults.Fault.TheVariants as fault;
ghost use Rattle.qs_serve.specs.Due.{AreValuesDue, IsAnswerAfterDue, IsRefusedBy};

use crate::due::{Due, due_of_bytes};
use qs_check::Program;
use qs_conditions::Sum;
use qs_json::values_json;
use qs_line::Format;
use qs_outcomes::{AllOutcomes, Watcher, outcomes_watched};
use qs_questions::values_of;
use qs_report::{Fault, values_text};
use std::alloc::Global;

// The values of a sum at these ends, in a format.
fn due_of_values(
    alloc: Global,
    program: &Program,
    sum: &Sum,
    format: Format,
    all: &AllOutcomes,
) -> Due
    requires places { AllByRecursion (HasPlaces program.now) all.now.found }
    ensures due { AreValuesDue format program.now sum.now all.now result }
{
    let Ok(values) = values_of(alloc, program, sum, all.found()) else {
        return Due::Refused(Fault::Memory);
    };
    match format {
        Format::Text => due_of_bytes(values_text(alloc, values.as_slice(), all)),
        Format::Json => due_of_bytes(values_json(alloc, values.as_slice(), all)),
    }
}

/// What is due of the values of a sum after the blocks of some clients, found over so many configurations at most; a
/// watcher is told of each.
pub(crate) fn due_of_values_after<P: Watcher>(
    alloc: Global,
    program: &Program,
    sum: &Sum,
    format: Format,
    limit: u32,
    clients: &[u8],
    watcher: &mut P,
) -> Due
    ensures not_input { ¬ IsRefusedBy fault.Input result }
    ensures due { IsAnswerAfterDue format program.now (Question.Values sum.now) limit clients.now result }
{
    match outcomes_watched(alloc, program, clients, limit, watcher) {
        Ok(all) => due_of_values(alloc, program, sum, format, &all),
        Err(fault) => Due::Refused(Fault::Outcomes(fault)),
    }
}
