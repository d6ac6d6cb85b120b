//! What a place says of its objects and clients, in few words.

ghost use Rattle.std.specs.Prelude.{◌≡◌, ◌<◌, ◌≤◌, ◌++◌, codes, length, IfOk, OnOk};
ghost use Rattle.std.specs.Fmt.{signed_decimal};
ghost use Rattle.std.specs.List.{AllByRecursion, list_any};
ghost use Rattle.qs_objects.specs.audit.Objects.{kind_of, values_of};
ghost use Rattle.qs_outcomes.specs.Outcomes.{HasPlaces};
ghost use Rattle.qs_text.specs.audit.Texts.{spaced_value, texts_up_to};
ghost use Rattle.qs_dot.specs.ShortText.{closing_text, differs, refused_text, short_client, short_clients, short_content, short_objects, short_state, told_values};

use crate::end_text::put_client;
use qs_objects::{Kind, Object};
use qs_program::Program;
use qs_standings::Standing;
use qs_text::{object_name, put, put_all, put_number};
use std::alloc::{AllocError, Global};

// So many values of an object are told at most.
const MOST_TOLD: usize = 8;

// One value of an object, with a space before it unless it is the first.
fn put_value(out: &mut Vec<u8>, object: &Object, place: usize) -> Result<(), AllocError>
    requires { place < length (values_of object.now.content) }
    ensures ok { OnOk result (out.new.items ≡ out.old.items ++ spaced_value (values_of object.now.content) place) }
{
    if place > 0 {
        put(out, b" ")?;
    }
    put_number(out, object.value(place).unwrap_or(0))
}

// The first so many values of an object.
fn put_first_values(out: &mut Vec<u8>, object: &Object, told: usize) -> Result<(), AllocError>
    requires { told ≤ length (values_of object.now.content) }
    ensures ok { OnOk result (out.new.items
        ≡ out.old.items ++ texts_up_to told (spaced_value (values_of object.now.content))) }
{
    for place in 0..told {
        put_value(out, object, place)?;
    }
    Ok(())
}

// How a list of so many values ends.
fn closing(values: usize) -> &'static [u8]
    ensures closing { result.now ≡ closing_text values }
{
    if MOST_TOLD < values { b" ..]" } else { b"]" }
}

// The values of an object that are told.
fn put_values(out: &mut Vec<u8>, object: &Object) -> Result<(), AllocError>
    ensures ok { OnOk result (out.new.items ≡ out.old.items ++ told_values (values_of object.now.content)) }
{
    let values = object.len();
    put(out, b"[")?;
    put_first_values(out, object, values.min(MOST_TOLD))?;
    put(out, closing(values))
}

// What an object holds.
fn put_content(out: &mut Vec<u8>, object: &Object) -> Result<(), AllocError>
    ensures ok { OnOk result (out.new.items
        ≡ out.old.items ++ short_content (kind_of object.now.content) (values_of object.now.content)) }
{
    match object.kind() {
        Kind::Account { balance } => put_number(out, balance),
        Kind::Buffer { .. } | Kind::Grid { .. } => put_values(out, object),
    }
}

// How many commands an object refused, where it refused some.
fn put_refused(out: &mut Vec<u8>, refused: i64) -> Result<(), AllocError>
    ensures ok { OnOk result (out.new.items ≡ out.old.items ++ refused_text refused) }
{
    if refused == 0 {
        return Ok(());
    }
    put(out, b" refused ")?;
    put_number(out, refused)
}

// An object on a line of its own.
fn put_object(out: &mut Vec<u8>, name: &[u8], object: &Object) -> Result<(), AllocError>
    ensures ok { OnOk result (out.new.items ≡ out.old.items ++ short_state name.now object.now) }
{
    put_all(out, &[b"\\n", name, b" "])?;
    put_content(out, object)?;
    put_refused(out, object.refused())
}

// All objects.
fn put_objects(out: &mut Vec<u8>, program: &Program, standing: &Standing) -> Result<(), AllocError>
    requires places { HasPlaces program.now standing.now }
    ensures ok { OnOk result (out.new.items ≡ out.old.items ++ short_objects program.now standing.now) }
{
    program.keeps_sound();
    for object in 0..program.objects() {
        let name = object_name(program, object);
        put_object(out, name, standing.object(object as u8))?;
    }
    Ok(())
}

// A client with its variables, where it has some.
fn put_short_client(
    out: &mut Vec<u8>,
    program: &Program,
    standing: &Standing,
    client: u8,
) -> Result<(), AllocError>
    requires client { client < length program.now.clients }
    requires place { client < length standing.now.locals }
    ensures ok { OnOk result (out.new.items ≡ out.old.items ++ short_client program.now standing.now client) }
{
    if program.variables(client).len() == 0 {
        Ok(())
    } else {
        put_client(out, program, standing, client)
    }
}

// All clients.
fn put_clients(out: &mut Vec<u8>, program: &Program, standing: &Standing) -> Result<(), AllocError>
    requires places { HasPlaces program.now standing.now }
    ensures ok { OnOk result (out.new.items ≡ out.old.items ++ short_clients program.now standing.now) }
{
    program.keeps_sound();
    for client in 0..program.clients() as u8 {
        put_short_client(out, program, standing, client)?;
    }
    Ok(())
}

/// What a place says of its objects.
pub(crate) fn objects_text(
    alloc: Global,
    program: &Program,
    standing: &Standing,
) -> Result<Vec<u8>, AllocError>
    requires places { HasPlaces program.now standing.now }
    ensures text { IfOk result (λ text. text.items ≡ short_objects program.now standing.now) }
{
    let mut out = Vec::new(alloc);
    put_objects(&mut out, program, standing)?;
    Ok(out)
}

/// What a place says of its clients' variables.
pub(crate) fn clients_text(
    alloc: Global,
    program: &Program,
    standing: &Standing,
) -> Result<Vec<u8>, AllocError>
    requires places { HasPlaces program.now standing.now }
    ensures text { IfOk result (λ text. text.items ≡ short_clients program.now standing.now) }
{
    let mut out = Vec::new(alloc);
    put_clients(&mut out, program, standing)?;
    Ok(out)
}

// Whether a place says this of its objects, and something else of its clients.
fn differs(
    alloc: Global,
    program: &Program,
    standing: &Standing,
    objects: &[u8],
    clients: &[u8],
) -> Result<bool, AllocError>
    requires places { HasPlaces program.now standing.now }
    ensures differs { IfOk result (λ other. other ≡ differs program.now objects.now clients.now standing.now) }
{
    let own = objects_text(alloc, program, standing)?;
    if own.as_slice() != objects {
        return Ok(false);
    }
    let variables = clients_text(alloc, program, standing)?;
    Ok(variables.as_slice() != clients)
}

/// Whether one of some places says this of its objects, and something else of its clients.
pub(crate) fn any_differs(
    alloc: Global,
    program: &Program,
    places: &[Standing],
    objects: &[u8],
    clients: &[u8],
) -> Result<bool, AllocError>
    requires places { AllByRecursion (HasPlaces program.now) places.now }
    ensures any { IfOk result (λ any. any ≡ list_any (differs program.now objects.now clients.now) places.now) }
{
    for standing in places {
        if differs(alloc, program, standing, objects, clients)? {
            return Ok(true);
        }
    }
    Ok(false)
}
