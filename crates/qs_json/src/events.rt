// The trace of a ticket.

ghost use Rattle.std.specs.Prelude.{◌≡◌, ◌<◌, ◌++◌, None, OnOk, codes, length, slice_index_or};
ghost use Rattle.std.specs.Fmt.{signed_decimal};
ghost use Rattle.std.specs.List.{join_by};
ghost use Rattle.qs_objects.specs.audit.Operations.{word};
ghost use Rattle.qs_text.specs.audit.Texts.{texts_up_to};
ghost use Rattle.qs_text.specs.Texts.{Puts};
ghost use Rattle.qs_json.specs.audit.Pieces.{array, element, field, quoted};
ghost use Rattle.qs_json.specs.audit.RunJson.{event_json, fate_json, reply_json, request_json, trace_json};

use crate::pieces::{put_comma, put_integer, put_object_name, put_string};
use qs_objects::{Event, Op, Request};
use qs_program::Program;
use qs_text::fates::Fate;
use qs_text::put_word;
use std::alloc::AllocError;

// The operation of a request, as a field.
fn put_operation(out: &mut Vec<u8>, op: Op) -> Result<(), AllocError>
    ensures ok { OnOk result (Puts (field (codes "operation") (quoted (word op))) out.old.items out.new.items) }
{
    put_string(out, b",\"operation\":", op.word())
}

// The arguments of a request, with a comma between each two.
fn put_joined(out: &mut Vec<u8>, args: &[i64]) -> Result<(), AllocError>
    ensures ok { OnOk result (Puts (join_by signed_decimal (codes ",") args.now) out.old.items out.new.items) }
{
    for place in 0..args.len() {
        put_comma(out, place)?;
        put_integer(out, b"", args[place])?;
    }
    Ok(())
}

// The arguments of a request, as a field.
fn put_arguments(out: &mut Vec<u8>, args: &[i64]) -> Result<(), AllocError>
    ensures ok { OnOk result (Puts (codes ",\"arguments\":" ++ array signed_decimal args.now) out.old.items out.new.items) }
{
    put_word(out, b",\"arguments\":[")?;
    put_joined(out, args)?;
    put_word(out, b"]")
}

// A query's reply; a command has none.
fn put_reply(out: &mut Vec<u8>, reply: Option<i64>) -> Result<(), AllocError>
    ensures ok { OnOk result (Puts (reply_json reply) out.old.items out.new.items) }
{
    match reply {
        None => put_word(out, b"null"),
        Some(value) => put_integer(out, b"", value),
    }
}

// What became of a request, as two fields.
fn fate_words(fate: Option<Fate>) -> &'static [u8]
    ensures words { result.now ≡ fate_json fate }
{
    match fate {
        None => b",\"refused\":null,\"none\":false",
        Some(Fate::Done) => b",\"refused\":false,\"none\":false",
        Some(Fate::Refused) => b",\"refused\":true,\"none\":false",
        Some(Fate::NoValue) => b",\"refused\":false,\"none\":true",
    }
}

/// Puts a request at the end, as an object with its reply and with what became of it.
pub fn put_event(
    out: &mut Vec<u8>,
    program: &Program,
    request: &Request,
    reply: Option<i64>,
    fate: Option<Fate>,
) -> Result<(), AllocError>
    ensures ok { OnOk result (Puts (event_json program.now (record { request = request.now; reply = reply }) fate) out.old.items out.new.items) }
{
    put_object_name(out, program, request.object)?;
    put_operation(out, request.op)?;
    put_arguments(out, request.args.as_slice())?;
    put_word(out, b",\"reply\":")?;
    put_reply(out, reply)?;
    put_word(out, fate_words(fate))?;
    put_word(out, b"}")
}

// What became of the request at a place of a trace.
fn fate_at(fates: &[Option<Fate>], place: usize) -> Option<Fate>
    ensures fate { result ≡ slice_index_or fates.now place None }
{
    fates.get(place).copied().unwrap_or(None)
}

// The requests of a trace, with a comma between each two.
fn put_events(
    out: &mut Vec<u8>,
    program: &Program,
    trace: &[Event],
    fates: &[Option<Fate>],
) -> Result<(), AllocError>
    ensures ok { OnOk result (Puts (texts_up_to (length trace.now) (element (request_json program.now trace.now fates.now))) out.old.items out.new.items) }
{
    for place in 0..trace.len() {
        put_comma(out, place)?;
        let event = &trace[place];
        put_event(
            out,
            program,
            &event.request,
            event.reply,
            fate_at(fates, place),
        )?;
    }
    Ok(())
}

/// Puts a trace at the end, as a field, with what became of its requests.
pub(crate) fn put_trace(
    out: &mut Vec<u8>,
    program: &Program,
    trace: &[Event],
    fates: &[Option<Fate>],
) -> Result<(), AllocError>
    ensures ok { OnOk result (Puts (codes ",\"trace\":" ++ trace_json program.now trace.now fates.now) out.old.items out.new.items) }
{
    put_word(out, b",\"trace\":[")?;
    put_events(out, program, trace, fates)?;
    put_word(out, b"]")
}
