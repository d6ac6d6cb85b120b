//! What an outcome holds, in the label of a drawing, and its number among all outcomes.

ghost use Rattle.std.specs.Prelude.{◌≡◌, ◌<◌, ◌++◌, length, IfOk, OnOk};
ghost use Rattle.std.specs.List.{AllByRecursion};
ghost use Rattle.qs_outcomes.specs.Outcomes.{HasPlaces};
ghost use Rattle.qs_text.specs.audit.Texts.{texts_up_to};
ghost use Rattle.qs_dot.specs.EndText.{client_text, end_text, holds_text, number_in, object_text, objects_text};

use qs_objects::Object;
use qs_program::Program;
use qs_standings::Standing;
use qs_text::{client_name, object_name, put, put_all, put_state, put_variables};
use std::alloc::{AllocError, Global};

// An object on a line of its own.
fn put_holds(out: &mut Vec<u8>, name: &[u8], object: &Object) -> Result<(), AllocError>
    ensures ok { OnOk result (out.new.items ≡ out.old.items ++ holds_text name.now object.now) }
{
    put(out, b"\\n")?;
    put_state(out, name, object)
}

/// All objects of a place.
pub(crate) fn put_objects(
    out: &mut Vec<u8>,
    program: &Program,
    standing: &Standing,
) -> Result<(), AllocError>
    requires places { HasPlaces program.now standing.now }
    ensures ok { OnOk result (out.new.items ≡ out.old.items ++ objects_text program.now standing.now) }
{
    program.keeps_sound();
    for object in 0..program.objects() {
        let name = object_name(program, object);
        put_holds(out, name, standing.object(object as u8))?;
    }
    Ok(())
}

// A client with its variables, on a line of its own.
pub(crate) fn put_client(
    out: &mut Vec<u8>,
    program: &Program,
    standing: &Standing,
    client: u8,
) -> Result<(), AllocError>
    requires client { client < length program.now.clients }
    requires place { client < length standing.now.locals }
    ensures ok { OnOk result (out.new.items ≡ out.old.items ++ client_text program.now standing.now client) }
{
    put_all(out, &[b"\\n", client_name(program, client)])?;
    put_variables(out, program.variables(client), &standing.locals(client))
}

// All clients.
fn put_clients(out: &mut Vec<u8>, program: &Program, standing: &Standing) -> Result<(), AllocError>
    requires places { HasPlaces program.now standing.now }
    ensures ok { OnOk result (out.new.items
        ≡ out.old.items ++ texts_up_to (length program.now.clients) (client_text program.now standing.now)) }
{
    program.keeps_sound();
    for client in 0..program.clients() as u8 {
        put_client(out, program, standing, client)?;
    }
    Ok(())
}

/// All that an outcome holds: the objects, and the clients' variables.
pub(crate) fn end_text(
    alloc: Global,
    program: &Program,
    standing: &Standing,
) -> Result<Vec<u8>, AllocError>
    requires places { HasPlaces program.now standing.now }
    ensures text { IfOk result (λ text. text.items ≡ end_text program.now standing.now) }
{
    let mut out = Vec::new(alloc);
    put_objects(&mut out, program, standing)?;
    put_clients(&mut out, program, standing)?;
    Ok(out)
}

/// The number, from 1, of the first outcome of a list that holds what a text says.
pub(crate) fn number_in(
    alloc: Global,
    program: &Program,
    text: &[u8],
    found: &[Standing],
) -> Result<usize, AllocError>
    requires places { AllByRecursion (HasPlaces program.now) found.now }
    ensures number { IfOk result (λ number. number ≡ number_in program.now text.now found.now) }
{
    let mut number = 1;
    for standing in found {
        let other = end_text(alloc, program, standing)?;
        if other.as_slice() == text {
            return Ok(number);
        }
        number += 1;
    }
    Ok(number)
}
