// The order of a run, where each line says whether its request was refused or found nothing.

ghost use Rattle.std.specs.Prelude.{◌≡◌, ◌<◌, ◌++◌, length, OnOk, true};
ghost use Rattle.qs_text.specs.fates.Fates.{all_fates};
ghost use Rattle.qs_report.specs.audit.Report.{fate_text, order_text, shown_ticket, ticket_text, marked_line, marked_lines, trace_text};

use crate::tickets::{put_syncs, put_ticket_line};
use qs_objects::Event;
use qs_played::Played;
use qs_program::Program;
use qs_text::fates::{Fate, JournalFates, trace_fates};
use qs_text::{put, put_count_line, put_reply, put_whole_request};
use std::alloc::AllocError;

// What a line says of what became of its request.
fn fate_words(fate: Option<Fate>) -> &'static [u8]
    ensures words { result.now ≡ fate_text fate }
{
    match fate {
        Some(Fate::Refused) => b" refused",
        Some(Fate::NoValue) => b" none",
        Some(Fate::Done) | None => b"",
    }
}

fn put_marked_event(
    out: &mut Vec<u8>,
    program: &Program,
    event: &Event,
    fate: Option<Fate>,
) -> Result<(), AllocError>
    ensures ok { OnOk result (out.new.items ≡ out.old.items ++ marked_line program.now event.now fate) }
{
    put_whole_request(out, program, &event.request)?;
    put_reply(out, event.reply)?;
    put(out, fate_words(fate))?;
    put(out, b"\n")
}

fn put_marked_events(
    out: &mut Vec<u8>,
    program: &Program,
    trace: &[Event],
    fates: &[Option<Fate>],
) -> Result<(), AllocError>
    requires fates { length fates.now ≡ length trace.now }
    ensures ok { OnOk result (out.new.items ≡ out.old.items ++ marked_lines program.now trace.now fates.now) }
{
    for (place, event) in trace.iter().enumerate() {
        put_marked_event(out, program, event, fates[place])?;
    }
    Ok(())
}

// The lines of the trace at a place of the order.
fn put_marked_trace(
    out: &mut Vec<u8>,
    program: &Program,
    played: &Played,
    fates: &JournalFates,
    place: usize,
) -> Result<(), AllocError>
    requires place { place < length played.now.order }
    requires fates { fates.now ≡ all_fates program.now played.now }
    ensures ok { OnOk result (out.new.items ≡ out.old.items ++ trace_text true program.now played.now place) }
{
    let marks = trace_fates(*out.allocator(), program, played, fates, place)?;
    put_marked_events(out, program, played.trace(place), &marks)
}

// The ticket at a place of the order.
fn put_marked_ticket(
    out: &mut Vec<u8>,
    program: &Program,
    played: &Played,
    fates: &JournalFates,
    place: usize,
) -> Result<(), AllocError>
    requires place { place < length played.now.order }
    requires fates { fates.now ≡ all_fates program.now played.now }
    ensures ok { OnOk result (out.new.items ≡ out.old.items ++ ticket_text true program.now played.now place) }
{
    let ticket = played.order()[place];
    let ended = played.ended().get(place).copied().unwrap_or(false);
    put_ticket_line(out, program, ticket, ended)?;
    put_marked_trace(out, program, played, fates, place)
}

// A ticket, with its synchronisations last where they are asked for.
fn put_marked(
    out: &mut Vec<u8>,
    program: &Program,
    played: &Played,
    fates: &JournalFates,
    place: usize,
    counts: bool,
) -> Result<(), AllocError>
    requires place { place < length played.now.order }
    requires fates { fates.now ≡ all_fates program.now played.now }
    ensures ok { OnOk result (out.new.items ≡ out.old.items ++ shown_ticket true counts program.now played.now place) }
{
    put_marked_ticket(out, program, played, fates, place)?;
    if counts {
        put_syncs(out, program, played, place)
    } else {
        Ok(())
    }
}

/// The number of tickets, and each ticket with its trace, and with its synchronisations where they are asked for.
pub(crate) fn put_marked_order(
    out: &mut Vec<u8>,
    program: &Program,
    played: &Played,
    fates: &JournalFates,
    counts: bool,
) -> Result<(), AllocError>
    requires fates { fates.now ≡ all_fates program.now played.now }
    ensures ok { OnOk result (out.new.items ≡ out.old.items ++ order_text true counts program.now played.now) }
{
    let count = played.order().len();
    put_count_line(out, b"order", count as u64)?;
    for place in 0..count {
        put_marked(out, program, played, fates, place, counts)?;
    }
    Ok(())
}
