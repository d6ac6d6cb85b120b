// The configurations after so many blocks.

ghost use Rattle.std.specs.Prelude.{◌≡◌, ◌⊎◌, ◌++◌, [], map, IfErr, IfOk, IsOkAnd, OnOk};
ghost use Rattle.std.specs.List.{AllByRecursion};
ghost use Rattle.qs_outcomes.specs.Outcomes.{HasPlaces};
ghost use Rattle.qs_report.specs.declared.faults.Fault.TheVariants as fault;
ghost use Rattle.qs_line.specs.audit.Line.{fronts};
ghost use Rattle.qs_line.specs.audit.Named.{clients_of as named};
ghost use Rattle.qs_serve.specs.Due.{IsDueOfProgram, IsFaultOfFronts, IsFaultOfOrder, IsFrontsText, IsOutOfMemory, IsRefusedBy, fronts_in};

use crate::due::Due;
use qs_check::Program;
use qs_json::fronts_json;
use qs_levels::fronts_after;
use qs_line::{Format, ListFault, Part, clients_of};
use qs_outcomes::OutcomesFault;
use qs_report::{Fault, fronts_text};
use qs_standings::Standing;
use std::alloc::{AllocError, Global};

// The text of fronts, in a format.
fn text_of_fronts(
    alloc: Global,
    program: &Program,
    format: Format,
    found: &[Standing],
) -> Result<Vec<u8>, AllocError>
    requires places { AllByRecursion (HasPlaces program.now) found.now }
    ensures text { IfOk result (λ bytes. bytes.items ≡ fronts_in format program.now found.now) }
{
    match format {
        Format::Text => fronts_text(alloc, program, found),
        Format::Json => fronts_json(alloc, program, found),
    }
}

// The text of the configurations after the blocks of some clients and so many blocks more.
fn text_after(
    alloc: Global,
    program: &Program,
    format: Format,
    blocks: u32,
    limit: u32,
    clients: &[u8],
) -> Result<Vec<u8>, Fault>
    ensures text { IfOk result (λ bytes. IsFrontsText format program.now blocks clients.now bytes.items) }
    ensures fault { IfErr result (IsFaultOfFronts program.now blocks limit clients.now) }
{
    let found = match fronts_after(alloc, program, clients, blocks, limit) {
        Ok(found) => found,
        Err(fault) => return Err(Fault::Outcomes(fault)),
    };
    if found.as_slice().is_empty() {
        return Err(Fault::Outcomes(OutcomesFault::Order));
    }
    match text_of_fronts(alloc, program, format, found.as_slice()) {
        Ok(text) => Ok(text),
        Err(_) => Err(Fault::Memory),
    }
}

// The same after the blocks of the clients that a list names.
fn text_of_order(
    alloc: Global,
    program: &Program,
    format: Format,
    blocks: u32,
    limit: u32,
    order: &[Part],
) -> Result<Vec<u8>, Fault>
    ensures text { IfOk result (λ bytes. IsOkAnd (named program.now order.now) (λ clients. IsFrontsText format program.now blocks clients bytes.items)) }
    ensures fault { IfErr result (IsFaultOfOrder program.now blocks limit order.now) }
{
    match clients_of(alloc, program, order) {
        Ok(clients) => text_after(alloc, program, format, blocks, limit, clients.as_slice()),
        Err(ListFault::Part { .. }) => Err(Fault::CommandLine),
        Err(ListFault::Memory) => Err(Fault::Memory),
    }
}

/// Adds a text behind another one. An error says that an allocation failed.
pub(crate) fn add(text: &mut Vec<u8>, own: Vec<u8>) -> Result<(), AllocError>
    ensures added { OnOk result (text.new.items ≡ text.old.items ++ own.items) }
{
    if text.as_slice().is_empty() {
        *text = own;
        return Ok(());
    }
    text.extend_from_slice(own.as_slice())?;
    Ok(())
}

/// The configurations after the blocks of the clients that a list names and so many blocks more, found over so many
/// configurations at most; for each of some lists in turn. Where no order goes on by so many blocks, the list is
/// refused.
pub(crate) fn due_of_fronts(
    alloc: Global,
    program: &Program,
    format: Format,
    blocks: u32,
    limit: u32,
    orders: &[Vec<Part>],
) -> Due
    ensures not_input { ¬ IsRefusedBy fault.Input result }
    ensures due { IsOutOfMemory result ⊎ IsDueOfProgram (fronts format blocks limit (map (λ order. order.items) orders.now)) [] program.now result }
{
    let mut text = Vec::new(alloc);
    for order in orders {
        match text_of_order(alloc, program, format, blocks, limit, order.as_slice()) {
            Ok(own) => {
                let Ok(()) = add(&mut text, own) else {
                    return Due::Refused(Fault::Memory);
                };
            }
            Err(fault) => return Due::Refused(fault),
        }
    }
    Due::Text(text)
}
