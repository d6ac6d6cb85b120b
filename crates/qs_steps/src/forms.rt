//! What lines of text and objects of JSON have in common, and the pieces of the objects.

ghost use Rattle.std.specs.Prelude.{◌≡◌, ◌++◌, OnOk};
ghost use Rattle.qs_program.specs.audit.Program.{client_at, object_at};
ghost use Rattle.qs_json.specs.audit.Pieces.{comma_at, quoted};
ghost use Rattle.qs_steps.specs.Forms.{at_field, between as between_two, block_fields, does_json, name_in, of_field, only_json, request_in, run_json, ticket_field, ticket_json};

use crate::wanted::Form;
use itoa::Buffer;
use qs_json::put_event;
use qs_objects::{Request, Ticket};
use qs_program::Program;
use qs_text::fates::Fate;
use qs_text::{client_name, object_name, put, put_all, put_whole_request};
use std::alloc::AllocError;

/// What stands between two of several.
pub(crate) fn between(form: Form) -> &'static [u8]
    ensures word { result.now ≡ between_two form }
{
    match form {
        Form::Text => b" ",
        Form::Json => b",",
    }
}

/// Puts what stands in JSON alone.
pub(crate) fn put_json(out: &mut Vec<u8>, form: Form, word: &[u8]) -> Result<(), AllocError>
    ensures ok { OnOk result (out.new.items ≡ out.old.items ++ only_json form word.now) }
{
    match form {
        Form::Text => Ok(()),
        Form::Json => put(out, word),
    }
}

/// Puts the comma before an element of an array, but before the first.
pub(crate) fn put_comma(out: &mut Vec<u8>, form: Form, place: usize) -> Result<(), AllocError>
    ensures ok { OnOk result (out.new.items ≡ out.old.items ++ only_json form (comma_at place)) }
{
    match form {
        Form::Text => Ok(()),
        Form::Json => { if place > 0 { put(out, b",") } else { Ok(()) } }
    }
}

/// Puts a word and a string.
pub(crate) fn put_string(out: &mut Vec<u8>, word: &[u8], string: &[u8]) -> Result<(), AllocError>
    ensures ok { OnOk result (out.new.items ≡ out.old.items ++ (word.now ++ quoted string.now)) }
{
    put_all(out, &[word, b"\"", string, b"\""])
}

/// Puts a name, in JSON as a string.
pub(crate) fn put_name(out: &mut Vec<u8>, form: Form, name: &[u8]) -> Result<(), AllocError>
    ensures ok { OnOk result (out.new.items ≡ out.old.items ++ name_in form name.now) }
{
    match form {
        Form::Text => put(out, name),
        Form::Json => put_all(out, &[b"\"", name, b"\""]),
    }
}

/// Puts a word and an object's name as a string.
pub(crate) fn put_object_name(
    out: &mut Vec<u8>,
    program: &Program,
    word: &[u8],
    object: u8,
) -> Result<(), AllocError>
    ensures ok { OnOk result (out.new.items ≡ out.old.items ++ (word.now ++ quoted (object_at program.now object).name)) }
{
    put_string(out, word, object_name(program, usize::from(object)))
}

/// Puts a word and a client's name as a string.
pub(crate) fn put_client_name(
    out: &mut Vec<u8>,
    program: &Program,
    word: &[u8],
    client: u8,
) -> Result<(), AllocError>
    ensures ok { OnOk result (out.new.items ≡ out.old.items ++ (word.now ++ quoted (client_at program.now client).name)) }
{
    put_string(out, word, client_name(program, client))
}

/// Puts whose a ticket is, as the first fields of an object.
pub(crate) fn put_block_fields(
    out: &mut Vec<u8>,
    program: &Program,
    ticket: Ticket,
) -> Result<(), AllocError>
    ensures ok { OnOk result (out.new.items ≡ out.old.items ++ block_fields program.now ticket) }
{
    let mut buffer = Buffer::new();
    put_client_name(out, program, b"{\"client\":", ticket.client)?;
    put(out, b",\"block\":")?;
    put(out, buffer.format(ticket.index).as_bytes())
}

/// Puts a ticket as an object.
pub(crate) fn put_ticket_json(
    out: &mut Vec<u8>,
    program: &Program,
    ticket: Ticket,
) -> Result<(), AllocError>
    ensures ok { OnOk result (out.new.items ≡ out.old.items ++ ticket_json program.now ticket) }
{
    put_block_fields(out, program, ticket)?;
    put(out, b"}")
}

/// Puts what was done.
pub(crate) fn put_does(out: &mut Vec<u8>, verb: &[u8]) -> Result<(), AllocError>
    ensures ok { OnOk result (out.new.items ≡ out.old.items ++ does_json verb.now) }
{
    put_string(out, b",\"does\":", verb)
}

/// Puts what was done, and the ticket.
pub(crate) fn put_does_ticket(
    out: &mut Vec<u8>,
    program: &Program,
    verb: &[u8],
    ticket: Ticket,
) -> Result<(), AllocError>
    ensures ok { OnOk result (out.new.items ≡ out.old.items ++ (does_json verb.now ++ ticket_field program.now ticket)) }
{
    put_does(out, verb)?;
    put(out, b",\"ticket\":")?;
    put_ticket_json(out, program, ticket)
}

/// Puts the object of the handler with which a client has to do.
pub(crate) fn put_at(out: &mut Vec<u8>, program: &Program, object: u8) -> Result<(), AllocError>
    ensures ok { OnOk result (out.new.items ≡ out.old.items ++ at_field program.now object) }
{
    put_object_name(out, program, b",\"at\":", object)
}

/// Puts the client with which a handler has to do.
pub(crate) fn put_of(out: &mut Vec<u8>, program: &Program, client: u8) -> Result<(), AllocError>
    ensures ok { OnOk result (out.new.items ≡ out.old.items ++ of_field program.now client) }
{
    put_client_name(out, program, b",\"of\":", client)
}

/// Puts a request as an object, with its reply and with what became of it.
pub(crate) fn put_run(
    out: &mut Vec<u8>,
    program: &Program,
    request: &Request,
    reply: Option<i64>,
    fate: Option<Fate>,
) -> Result<(), AllocError>
    ensures ok { OnOk result (out.new.items ≡ out.old.items ++ run_json program.now request.now reply fate) }
{
    put_event(out, program, request, reply, fate)
}

/// Puts a request that its object has not run yet.
pub(crate) fn put_request_in(
    out: &mut Vec<u8>,
    program: &Program,
    form: Form,
    request: &Request,
) -> Result<(), AllocError>
    ensures ok { OnOk result (out.new.items ≡ out.old.items ++ request_in form program.now request.now) }
{
    match form {
        Form::Text => put_whole_request(out, program, request),
        Form::Json => put_run(out, program, request, None, None),
    }
}
