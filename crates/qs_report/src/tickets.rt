// The order of a run: its tickets with their traces.

ghost use Rattle.std.specs.Prelude.{◌≡◌, ◌<◌, ◌++◌, length, flat_map, OnOk, codes, false};
ghost use Rattle.qs_sync_counts.specs.audit.SyncRows.{sync_count};
ghost use Rattle.qs_text.specs.audit.Words.{reply_text};
ghost use Rattle.qs_report.specs.audit.Report.{event_line, ticket_line, ticket_text, sync_line, sync_lines, shown_ticket, order_text};

use crate::lines::put_lines;
use itoa::Buffer;
use qs_objects::{Event, Ticket};
use qs_played::Played;
use qs_program::Program;
use qs_text::{
    client_name, ended_word, object_name, put, put_all, put_count_line, put_number, put_request,
};
use std::alloc::AllocError;

// A request's closing parenthesis, a query's reply, and the line's end.
fn put_reply(out: &mut Vec<u8>, reply: Option<i64>) -> Result<(), AllocError>
    ensures ok { OnOk result (out.new.items ≡ out.old.items ++ codes ")" ++ reply_text reply ++ codes "\n") }
{
    match reply {
        None => put(out, b")\n"),
        Some(value) => {
            put(out, b") = ")?;
            put_number(out, value)?;
            put(out, b"\n")
        }
    }
}

fn put_event(out: &mut Vec<u8>, program: &Program, event: &Event) -> Result<(), AllocError>
    ensures ok { OnOk result (out.new.items ≡ out.old.items ++ event_line program.now event.now) }
{
    put_request(out, program, &event.request)?;
    put_reply(out, event.reply)
}

pub(crate) fn put_ticket_line(
    out: &mut Vec<u8>,
    program: &Program,
    ticket: Ticket,
    ended: bool,
) -> Result<(), AllocError>
    ensures ok { OnOk result (out.new.items ≡ out.old.items ++ ticket_line program.now ticket ended) }
{
    let mut buffer = Buffer::new();
    let index = buffer.format(ticket.index).as_bytes();
    let word = ended_word(ended);
    put(out, b"ticket ")?;
    put(out, client_name(program, ticket.client))?;
    put_all(out, &[b" ", index, b" ", word, b"\n"])
}

// The lines of a trace. Those that `put_lines` leaves are few.
fn put_trace(out: &mut Vec<u8>, program: &Program, trace: &[Event]) -> Result<(), AllocError>
    ensures ok { OnOk result (out.new.items ≡ out.old.items ++ flat_map (event_line program.now) trace.now) }
{
    let mut done = 0;
    while done < trace.len() {
        done += put_lines(out, program, &trace[done..]);
        if done < trace.len() {
            put_event(out, program, &trace[done])?;
            done += 1;
        }
    }
    Ok(())
}

// The ticket at a place of the order.
fn put_ticket(
    out: &mut Vec<u8>,
    program: &Program,
    played: &Played,
    place: usize,
) -> Result<(), AllocError>
    requires { place < length played.now.order }
    ensures ok { OnOk result (out.new.items ≡ out.old.items ++ ticket_text false program.now played.now place) }
{
    let ticket = played.order()[place];
    let ended = played.ended().get(place).copied().unwrap_or(false);
    put_ticket_line(out, program, ticket, ended)?;
    put_trace(out, program, played.trace(place))
}

// How many synchronisations a block has sent for an object.
fn put_sync(out: &mut Vec<u8>, program: &Program, object: u8, count: u32) -> Result<(), AllocError>
    ensures ok { OnOk result (out.new.items ≡ out.old.items ++ sync_line program.now (sync_count object count)) }
{
    put(out, b"sync ")?;
    put_count_line(
        out,
        object_name(program, usize::from(object)),
        u64::from(count),
    )
}

// The synchronisations of the ticket at a place, for each object of its block's list.
pub(crate) fn put_syncs(
    out: &mut Vec<u8>,
    program: &Program,
    played: &Played,
    place: usize,
) -> Result<(), AllocError>
    requires { place < length played.now.order }
    ensures ok { OnOk result (out.new.items ≡ out.old.items ++ sync_lines program.now played.now place) }
{
    let objects = played.sync_objects(place);
    let counts = played.sync_counts(place);
    for (object, count) in objects.iter().zip(counts) {
        put_sync(out, program, *object, *count)?;
    }
    Ok(())
}

// A ticket, with its synchronisations last where they are asked for.
fn put_shown(
    out: &mut Vec<u8>,
    program: &Program,
    played: &Played,
    place: usize,
    counts: bool,
) -> Result<(), AllocError>
    requires { place < length played.now.order }
    ensures ok { OnOk result (out.new.items ≡ out.old.items ++ shown_ticket false counts program.now played.now place) }
{
    put_ticket(out, program, played, place)?;
    if counts {
        put_syncs(out, program, played, place)
    } else {
        Ok(())
    }
}

// The number of tickets, and each ticket with its trace, and with its synchronisations where they are asked for.
pub(crate) fn put_order(
    out: &mut Vec<u8>,
    program: &Program,
    played: &Played,
    counts: bool,
) -> Result<(), AllocError>
    ensures ok { OnOk result (out.new.items ≡ out.old.items ++ order_text false counts program.now played.now) }
{
    let count = played.order().len();
    put_count_line(out, b"order", count as u64)?;
    for place in 0..count {
        put_shown(out, program, played, place, counts)?;
    }
    Ok(())
}
