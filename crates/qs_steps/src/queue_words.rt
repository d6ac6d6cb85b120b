//! What is told of queues, whichever machine they are of.

ghost use Rattle.std.specs.Prelude.{◌≡◌, ◌++◌, OnOk, codes, decimal, false, if◌then◌else◌};
ghost use Rattle.qs_program.specs.audit.Program.{object_at};
ghost use Rattle.qs_json.specs.audit.Pieces.{first_field, quoted};
ghost use Rattle.qs_steps.specs.Forms.{at_field};
ghost use Rattle.qs_steps.specs.Queues.{client_end, client_head, is_done, is_silent, queue_head, wait_fields, waits_at, waits_nothing};

use crate::forms::{put_at, put_client_name, put_object_name, put_string};
use crate::lines::{put_client, put_object};
use crate::wanted::Form;
use itoa::Buffer;
use qs_program::Program;
use qs_text::{object_name, put, put_all};
use std::alloc::AllocError;

// A handler's object, and how many reservations are before the handler, as a line.
fn put_text_head(
    out: &mut Vec<u8>,
    program: &Program,
    handler: u8,
    count: usize,
) -> Result<(), AllocError>
    ensures ok { OnOk result (out.new.items ≡ out.old.items ++ (codes "queue " ++ (object_at program.now handler).name ++ codes " " ++ decimal count ++ codes "\n")) }
{
    let mut buffer = Buffer::new();
    let name = object_name(program, usize::from(handler));
    put_all(
        out,
        &[
            b"queue ",
            name,
            b" ",
            buffer.format(count).as_bytes(),
            b"\n",
        ],
    )
}

// The same as the beginning of an object.
fn put_json_head(out: &mut Vec<u8>, program: &Program, handler: u8) -> Result<(), AllocError>
    ensures ok { OnOk result (out.new.items ≡ out.old.items ++ (first_field (codes "object") (quoted (object_at program.now handler).name) ++ codes ",\"reservations\":[")) }
{
    put_object_name(out, program, b"{\"object\":", handler)?;
    put(out, b",\"reservations\":[")
}

/// Puts a handler's object, before so many reservations.
pub(crate) fn put_queue_head(
    out: &mut Vec<u8>,
    program: &Program,
    form: Form,
    handler: u8,
    count: usize,
) -> Result<(), AllocError>
    ensures ok { OnOk result (out.new.items ≡ out.old.items ++ queue_head form program.now handler count) }
{
    match form {
        Form::Text => put_text_head(out, program, handler, count),
        Form::Json => put_json_head(out, program, handler),
    }
}

/// That a client waits for nothing.
pub(crate) fn nothing(form: Form) -> &'static [u8]
    ensures words { result.now ≡ waits_nothing form }
{
    match form {
        Form::Text => b"waits for nothing",
        Form::Json => b",\"done\":false,\"waits\":\"nothing\"",
    }
}

/// That a client is done.
pub(crate) fn done(form: Form) -> &'static [u8]
    ensures words { result.now ≡ is_done form }
{
    match form {
        Form::Text => b"is done",
        Form::Json => b",\"done\":true,\"waits\":\"nothing\"",
    }
}

// What a client waits for at a handler, as fields.
fn put_wait_json(
    out: &mut Vec<u8>,
    program: &Program,
    word: &[u8],
    object: u8,
) -> Result<(), AllocError>
    ensures ok { OnOk result (out.new.items ≡ out.old.items ++ (wait_fields false word.now ++ at_field program.now object)) }
{
    put(out, b",\"done\":false")?;
    put_string(out, b",\"waits\":", word)?;
    put_at(out, program, object)
}

/// Puts that a client waits for nothing, where that is there, or else what it waits for at a handler, in these words or
/// by this word.
pub(crate) fn put_unless(
    out: &mut Vec<u8>,
    program: &Program,
    form: Form,
    is_there: bool,
    words: &[u8],
    word: &[u8],
    object: u8,
) -> Result<(), AllocError>
    ensures ok { OnOk result (out.new.items ≡ out.old.items ++ (if is_there then waits_nothing form else waits_at form words.now word.now program.now object)) }
{
    if is_there {
        return put(out, nothing(form));
    }
    match form {
        Form::Text => put_object(out, program, words, object),
        Form::Json => put_wait_json(out, program, word, object),
    }
}

/// Puts a client, before what it waits for.
pub(crate) fn put_client_head(
    out: &mut Vec<u8>,
    program: &Program,
    form: Form,
    client: u8,
) -> Result<(), AllocError>
    ensures ok { OnOk result (out.new.items ≡ out.old.items ++ client_head form program.now client) }
{
    match form {
        Form::Text => {
            put_client(out, program, b"client ", client)?;
            put(out, b" ")
        }
        Form::Json => put_client_name(out, program, b"{\"client\":", client),
    }
}

/// What stands behind what a client waits for.
pub(crate) fn end_of_client(form: Form) -> &'static [u8]
    ensures word { result.now ≡ client_end form }
{
    match form {
        Form::Text => b"\n",
        Form::Json => b"}",
    }
}

/// Whether nothing is told of queues: in text of a finished run.
pub(crate) fn says_nothing(form: Form, is_finished: bool) -> bool
    ensures silent { result ≡ is_silent form is_finished }
{
    match form {
        Form::Text => is_finished,
        Form::Json => false,
    }
}
