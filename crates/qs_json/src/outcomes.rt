// All outcomes of a program.

ghost use Rattle.std.specs.Prelude.{◌≡◌, ◌<◌, [], IfOk, OnOk, codes, length, pos, slice_index_or};
ghost use Rattle.std.specs.Fmt.{signed_decimal};
ghost use Rattle.std.specs.List.{AllByRecursion, join_by};
ghost use Rattle.qs_outcomes.specs.Outcomes.{HasPlaces};
ghost use Rattle.qs_program.specs.audit.Program.{client_at};
ghost use Rattle.qs_text.specs.TellApart.{AreClientsOfWords, AreObjectsOfWords, AreWords, IsOfWords, IsWord};
ghost use Rattle.qs_text.specs.audit.Texts.{texts_up_to};
ghost use Rattle.qs_text.specs.Texts.{Puts};
ghost use Rattle.qs_text.specs.audit.Words.{no_state};
ghost use Rattle.qs_json.specs.audit.Pieces.{array, element, field, first_field, quoted};
ghost use Rattle.qs_json.specs.OutcomesJson.{client_json, head_json, listed_json, next_client_json, object_json, outcome_json, outcome_json_at, standing_fields};
ghost use Rattle.qs_json.specs.audit.Variables.{client_with, variable_json, variables_json};

use crate::pieces::{put_client_name, put_comma, put_integer, put_string};
use crate::states::put_state;
use itoa::Buffer;
use qs_objects::Ticket;
use qs_outcomes::{AllOutcomes, Standing};
use qs_program::{Locals, Names, Program};
use qs_report::outcome_at;
use qs_text::{object_name, put_all, put_count, put_word, variable_name};
use std::alloc::{AllocError, Global};

// The client whose block comes next.
fn put_next_client(out: &mut Vec<u8>, ticket: Ticket) -> Result<(), AllocError>
    ensures ok { OnOk result (Puts (next_client_json ticket) out.old.items out.new.items) }
{
    let mut buffer = Buffer::new();
    put_all(
        out,
        &[b"\"c", buffer.format(ticket.client).as_bytes(), b"\""],
    )
}

// The clients of an order, with a comma between each two.
pub(crate) fn put_joined(out: &mut Vec<u8>, order: &[Ticket]) -> Result<(), AllocError>
    ensures ok { OnOk result (Puts (join_by next_client_json (codes ",") order.now) out.old.items out.new.items) }
{
    for place in 0..order.len() {
        put_comma(out, place)?;
        put_next_client(out, order[place])?;
    }
    Ok(())
}

// An order, as a field.
pub(crate) fn put_order(out: &mut Vec<u8>, order: &[Ticket]) -> Result<(), AllocError>
    ensures ok { OnOk result (Puts (field (codes "order") (array next_client_json order.now)) out.old.items out.new.items) }
{
    put_word(out, b",\"order\":[")?;
    put_joined(out, order)?;
    put_word(out, b"]")
}

// The number of an outcome, and an order that comes to it.
pub(crate) fn put_outcome_head(
    out: &mut Vec<u8>,
    number: usize,
    order: &[Ticket],
) -> Result<(), AllocError>
    ensures ok { OnOk result (Puts (head_json number order.now) out.old.items out.new.items) }
{
    put_count(out, b"{\"outcome\":", number as u64)?;
    put_order(out, order)
}

// The name of a variable, as a first field.
fn put_variable_name(out: &mut Vec<u8>, variables: &Names, number: usize) -> Result<(), AllocError>
    ensures ok { OnOk result (Puts (first_field (codes "variable") (quoted (slice_index_or variables.now number []))) out.old.items out.new.items) }
{
    put_string(out, b"{\"variable\":", variable_name(variables, number))
}

// The value of a variable, as a field.
fn put_value(out: &mut Vec<u8>, locals: &Locals, number: usize) -> Result<(), AllocError>
    ensures ok { OnOk result (Puts (field (codes "value") (signed_decimal (slice_index_or locals.now number (pos 0)))) out.old.items out.new.items) }
    ensures word { OnOk result (IsWord (slice_index_or locals.now number (pos 0))) }
{
    let value = locals.get(number).copied().unwrap_or(0);
    put_integer(out, b",\"value\":", value)
}

// A variable with its value.
fn put_variable(
    out: &mut Vec<u8>,
    variables: &Names,
    locals: &Locals,
    number: usize,
) -> Result<(), AllocError>
    ensures ok { OnOk result (Puts (variable_json variables.now locals.now number) out.old.items out.new.items) }
    ensures word { OnOk result (IsWord (slice_index_or locals.now number (pos 0))) }
{
    put_variable_name(out, variables, number)?;
    put_value(out, locals, number)?;
    put_word(out, b"}")
}

// All variables of a client, with a comma between each two.
fn put_values(out: &mut Vec<u8>, variables: &Names, locals: &Locals) -> Result<(), AllocError>
    ensures ok { OnOk result (Puts (texts_up_to (length variables.now) (element (variable_json variables.now locals.now))) out.old.items out.new.items) }
    ensures words { OnOk result (AreWords (length variables.now) locals.now) }
{
    for number in 0..variables.len() {
        put_comma(out, number)?;
        put_variable(out, variables, locals, number)?;
    }
    Ok(())
}

// All variables of a client, as a field.
fn put_variables(out: &mut Vec<u8>, variables: &Names, locals: &Locals) -> Result<(), AllocError>
    ensures ok { OnOk result (Puts (variables_json variables.now locals.now) out.old.items out.new.items) }
    ensures words { OnOk result (AreWords (length variables.now) locals.now) }
{
    put_word(out, b",\"variables\":[")?;
    put_values(out, variables, locals)?;
    put_word(out, b"]")
}

// A client with its variables.
pub(crate) fn put_client(
    out: &mut Vec<u8>,
    program: &Program,
    client: u8,
    locals: &Locals,
) -> Result<(), AllocError>
    requires client { client < length program.now.clients }
    ensures ok { OnOk result (Puts (client_with program.now (λ _. locals.now) client) out.old.items out.new.items) }
    ensures words { OnOk result (AreWords (length (client_at program.now client).variables) locals.now) }
{
    put_client_name(out, program, client)?;
    put_variables(out, program.variables(client), locals)?;
    put_word(out, b"}")
}

// An object at the end.
fn put_object(
    out: &mut Vec<u8>,
    program: &Program,
    standing: &Standing,
    object: u8,
) -> Result<(), AllocError>
    requires place { object < length standing.now.states }
    ensures ok { OnOk result (Puts (object_json program.now standing.now object) out.old.items out.new.items) }
    ensures words { OnOk result (IsOfWords (slice_index_or standing.now.states object no_state)) }
{
    let name = object_name(program, usize::from(object));
    put_state(out, name, standing.object(object))
}

// All clients at the end, with a comma between each two.
pub(crate) fn put_clients(
    out: &mut Vec<u8>,
    program: &Program,
    standing: &Standing,
) -> Result<(), AllocError>
    requires places { HasPlaces program.now standing.now }
    ensures ok { OnOk result (Puts (texts_up_to (length program.now.clients) (element (client_json program.now standing.now))) out.old.items out.new.items) }
    ensures words { OnOk result (AreClientsOfWords program.now (length program.now.clients) standing.now) }
{
    program.keeps_sound();
    for client in 0..program.clients() as u8 {
        put_comma(out, usize::from(client))?;
        put_client(out, program, client, &standing.locals(client))?;
    }
    Ok(())
}

// All objects at the end, with a comma between each two.
pub(crate) fn put_objects(
    out: &mut Vec<u8>,
    program: &Program,
    standing: &Standing,
) -> Result<(), AllocError>
    requires places { HasPlaces program.now standing.now }
    ensures ok { OnOk result (Puts (texts_up_to (length program.now.objects) (element (object_json program.now standing.now))) out.old.items out.new.items) }
    ensures words { OnOk result (AreObjectsOfWords (length program.now.objects) standing.now) }
{
    program.keeps_sound();
    for object in 0..program.objects() as u8 {
        put_comma(out, usize::from(object))?;
        put_object(out, program, standing, object)?;
    }
    Ok(())
}

// Where a program stands, as fields: the objects and the clients.
pub(crate) fn put_standing(
    out: &mut Vec<u8>,
    program: &Program,
    standing: &Standing,
) -> Result<(), AllocError>
    requires places { HasPlaces program.now standing.now }
    ensures ok { OnOk result (Puts (standing_fields program.now standing.now) out.old.items out.new.items) }
{
    put_word(out, b",\"states\":[")?;
    put_objects(out, program, standing)?;
    put_word(out, b"]")?;
    put_word(out, b",\"clients\":[")?;
    put_clients(out, program, standing)?;
    put_word(out, b"]")
}

// An outcome with its number.
fn put_outcome(
    out: &mut Vec<u8>,
    program: &Program,
    number: usize,
    standing: &Standing,
) -> Result<(), AllocError>
    requires places { HasPlaces program.now standing.now }
    ensures ok { OnOk result (Puts (outcome_json program.now number standing.now) out.old.items out.new.items) }
{
    put_outcome_head(out, number, standing.order())?;
    put_standing(out, program, standing)?;
    put_word(out, b"}\n")
}

// All outcomes, one after another.
fn put_found(out: &mut Vec<u8>, program: &Program, found: &[Standing]) -> Result<(), AllocError>
    requires places { AllByRecursion (HasPlaces program.now) found.now }
    ensures ok { OnOk result (Puts (texts_up_to (length found.now) (outcome_json_at program.now found.now)) out.old.items out.new.items) }
{
    for place in 0..found.len() {
        put_outcome(out, program, place + 1, outcome_at(found, place))?;
    }
    Ok(())
}

/// All outcomes of a program, an object on a line for each: its number, an order that comes to it, the objects and the
/// clients with their variables; and a last line with how many outcomes and how many configurations there are. An error
/// says that an allocation failed, and nothing is left.
pub fn outcomes_json(
    alloc: Global,
    program: &Program,
    all: &AllOutcomes,
) -> Result<Vec<u8>, AllocError>
    requires places { AllByRecursion (HasPlaces program.now) all.now.found }
    ensures text { IfOk result (λ bytes. bytes.items ≡ listed_json program.now all.now) }
{
    let mut out = Vec::new(alloc);
    let found = all.found();
    put_found(&mut out, program, found)?;
    put_count(&mut out, b"{\"outcomes\":", found.len() as u64)?;
    put_count(
        &mut out,
        b",\"configurations\":",
        all.configurations() as u64,
    )?;
    put_word(&mut out, b"}\n")?;
    Ok(out)
}
