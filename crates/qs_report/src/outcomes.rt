// All outcomes of a program.

ghost use Rattle.std.specs.Prelude.{◌≡◌, ◌<◌, ◌++◌, codes, flat_map, length, slice_index_or, IfOk, OnOk};
ghost use Rattle.std.specs.List.{AllByRecursion};
ghost use Rattle.qs_outcomes.specs.Outcomes.{HasPlaces};
ghost use Rattle.qs_report.specs.OutcomesText.{client_line, clients_text, listed_text, next_client_text, no_standing, numbered, object_line, outcome_line, outcome_text, outcome_text_at};
ghost use Rattle.qs_meaning.specs.audit.Serial.{zeros};
ghost use Rattle.qs_program.specs.audit.Program.{client_at};
ghost use Rattle.qs_text.specs.TellApart.{AreClientsOfWords, AreObjectsOfWords, AreWords, IsOfWords};
ghost use Rattle.qs_text.specs.audit.Texts.{texts_up_to};
ghost use Rattle.qs_text.specs.audit.Words.{no_state};

use crate::states::put_state_line;
use itoa::Buffer;
use qs_objects::Ticket;
use qs_outcomes::{AllOutcomes, Standing};
use qs_program::Program;
use qs_text::{client_name, object_name, put, put_all, put_count_line, put_variables};
use std::alloc::{AllocError, Global};

// The client whose block comes next.
fn put_next_client(out: &mut Vec<u8>, ticket: Ticket) -> Result<(), AllocError>
    ensures ok { OnOk result (out.new.items ≡ out.old.items ++ next_client_text ticket) }
{
    let mut buffer = Buffer::new();
    put_all(out, &[b"c", buffer.format(ticket.client).as_bytes()])
}

// The clients after the first, each after a comma.
fn put_later_clients(out: &mut Vec<u8>, order: &[Ticket]) -> Result<(), AllocError>
    ensures ok { OnOk result (out.new.items
        ≡ out.old.items ++ flat_map (λ ticket. codes "," ++ next_client_text ticket) order.now) }
{
    for ticket in order {
        put(out, b",")?;
        put_next_client(out, *ticket)?;
    }
    Ok(())
}

// An order by its clients.
pub(crate) fn put_clients_in(out: &mut Vec<u8>, order: &[Ticket]) -> Result<(), AllocError>
    ensures ok { OnOk result (out.new.items ≡ out.old.items ++ clients_text order.now) }
{
    match order {
        [] => put(out, b"-"),
        [first, later @ ..] => {
            put_next_client(out, *first)?;
            put_later_clients(out, later)
        }
    }
}

// What is listed, its number, and an order that leads there.
pub(crate) fn put_numbered(
    out: &mut Vec<u8>,
    word: &[u8],
    number: usize,
    order: &[Ticket],
) -> Result<(), AllocError>
    ensures ok { OnOk result (out.new.items ≡ out.old.items ++ numbered word.now number order.now) }
{
    let mut buffer = Buffer::new();
    put_all(out, &[word, buffer.format(number).as_bytes(), b" "])?;
    put_clients_in(out, order)
}

// The line that begins an outcome.
fn put_outcome_line(out: &mut Vec<u8>, number: usize, order: &[Ticket]) -> Result<(), AllocError>
    ensures ok { OnOk result (out.new.items ≡ out.old.items ++ outcome_line number order.now) }
{
    put_numbered(out, b"outcome ", number, order)?;
    put(out, b"\n")
}

// A client with its variables at the end.
fn put_client(
    out: &mut Vec<u8>,
    program: &Program,
    standing: &Standing,
    client: u8,
) -> Result<(), AllocError>
    requires client { client < length program.now.clients }
    requires place { client < length standing.now.locals }
    ensures ok { OnOk result (out.new.items ≡ out.old.items ++ client_line program.now standing.now client) }
    ensures words { OnOk result (AreWords (length (client_at program.now client).variables) (slice_index_or standing.now.locals client zeros)) }
{
    put(out, client_name(program, client))?;
    put_variables(out, program.variables(client), &standing.locals(client))?;
    put(out, b"\n")
}

// An object at the end.
fn put_object(
    out: &mut Vec<u8>,
    program: &Program,
    standing: &Standing,
    object: u8,
) -> Result<(), AllocError>
    requires place { object < length standing.now.states }
    ensures ok { OnOk result (out.new.items ≡ out.old.items ++ object_line program.now standing.now object) }
    ensures words { OnOk result (IsOfWords (slice_index_or standing.now.states object no_state)) }
{
    let name = object_name(program, usize::from(object));
    put_state_line(out, name, standing.object(object))
}

// All clients at the end.
pub(crate) fn put_clients(
    out: &mut Vec<u8>,
    program: &Program,
    standing: &Standing,
) -> Result<(), AllocError>
    requires places { HasPlaces program.now standing.now }
    ensures ok { OnOk result (out.new.items ≡ out.old.items ++ texts_up_to (length program.now.clients) (client_line program.now standing.now)) }
    ensures words { OnOk result (AreClientsOfWords program.now (length program.now.clients) standing.now) }
{
    program.keeps_sound();
    for client in 0..program.clients() as u8 {
        put_client(out, program, standing, client)?;
    }
    Ok(())
}

// All objects at the end.
pub(crate) fn put_objects(
    out: &mut Vec<u8>,
    program: &Program,
    standing: &Standing,
) -> Result<(), AllocError>
    requires places { HasPlaces program.now standing.now }
    ensures ok { OnOk result (out.new.items ≡ out.old.items ++ texts_up_to (length program.now.objects) (object_line program.now standing.now)) }
    ensures words { OnOk result (AreObjectsOfWords (length program.now.objects) standing.now) }
{
    program.keeps_sound();
    for object in 0..program.objects() as u8 {
        put_object(out, program, standing, object)?;
    }
    Ok(())
}

// An outcome with its number.
fn put_outcome(
    out: &mut Vec<u8>,
    program: &Program,
    number: usize,
    standing: &Standing,
) -> Result<(), AllocError>
    requires places { HasPlaces program.now standing.now }
    ensures ok { OnOk result (out.new.items ≡ out.old.items ++ outcome_text program.now number standing.now) }
{
    put_outcome_line(out, number, standing.order())?;
    put_objects(out, program, standing)?;
    put_clients(out, program, standing)
}

/// The outcome at a place of a list.
pub fn outcome_at(found: &[Standing], place: usize) -> &Standing
    requires { place < length found.now }
    ensures standing { result.now ≡ slice_index_or found.now place no_standing }
{
    &found[place]
}

// All outcomes, one after another.
fn put_found(out: &mut Vec<u8>, program: &Program, found: &[Standing]) -> Result<(), AllocError>
    requires places { AllByRecursion (HasPlaces program.now) found.now }
    ensures ok { OnOk result (out.new.items ≡ out.old.items ++ texts_up_to (length found.now) (outcome_text_at program.now found.now)) }
{
    for place in 0..found.len() {
        put_outcome(out, program, place + 1, outcome_at(found, place))?;
    }
    Ok(())
}

/// The text of all outcomes of a program: how many there are; each with its number, an order that comes to it, the
/// objects' lines and the clients' lines; and how many configurations there are. An error says that an allocation
/// failed, and nothing is left.
pub fn outcomes_text(
    alloc: Global,
    program: &Program,
    all: &AllOutcomes,
) -> Result<Vec<u8>, AllocError>
    requires places { AllByRecursion (HasPlaces program.now) all.now.found }
    ensures text { IfOk result (λ bytes. bytes.items ≡ listed_text program.now all.now) }
{
    let mut out = Vec::new(alloc);
    let found = all.found();
    put_count_line(&mut out, b"outcomes", found.len() as u64)?;
    put_found(&mut out, program, found)?;
    put_count_line(&mut out, b"configurations", all.configurations() as u64)?;
    Ok(out)
}
