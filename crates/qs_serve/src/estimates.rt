// How many configurations a search can have.

ghost use Rattle.std.specs.Prelude.{◌≡◌, ◌⊎◌, []};
ghost use Rattle.qs_report.specs.declared.faults.Fault.TheVariants as fault;
ghost use Rattle.qs_line.specs.audit.Line.{estimate};
ghost use Rattle.qs_serve.specs.Due.{IsDueOfProgram, IsEstimated, IsOutOfMemory, IsRefusedBy};

use crate::due::{Due, due_of_bytes, due_of_list};
use qs_check::Program;
use qs_json::estimate_json;
use qs_line::{Format, Part, clients_of};
use qs_outcomes::OutcomesFault;
use qs_outcomes::estimate::{Estimate, estimate_after};
use qs_report::{Fault, estimate_text};
use std::alloc::Global;

// An estimate, in a format.
fn due_of_bounds(alloc: Global, format: Format, estimate: Estimate) -> Due
    ensures due { IsEstimated format estimate result }
{
    due_of_bytes(match format {
        Format::Text => estimate_text(alloc, estimate),
        Format::Json => estimate_json(alloc, estimate),
    })
}

/// How many configurations there can be after the blocks of the clients that a list names, in a format.
pub(crate) fn due_of_estimate(
    alloc: Global,
    program: &Program,
    format: Format,
    front: &[Part],
) -> Due
    ensures not_input { ¬ IsRefusedBy fault.Input result }
    ensures due { IsOutOfMemory result ⊎ IsDueOfProgram (estimate format front.now) [] program.now result }
{
    let clients = match clients_of(alloc, program, front) {
        Ok(clients) => clients,
        Err(fault) => return due_of_list(fault),
    };
    match estimate_after(program, clients.as_slice()) {
        Some(estimate) => due_of_bounds(alloc, format, estimate),
        None => Due::Refused(Fault::Outcomes(OutcomesFault::Order)),
    }
}
