// A run.

ghost use Rattle.std.specs.Prelude.{◌≡◌, ◌<◌, [], IfOk, OnOk, codes, false, length, slice_index_or};
ghost use Rattle.std.specs.List.{join_by};
ghost use Rattle.qs_sync_counts.specs.audit.SyncRows.{sync_count};
ghost use Rattle.qs_text.specs.audit.fates.Fates.{trace_fates as fates_in};
ghost use Rattle.qs_text.specs.fates.Fates.{all_fates};
ghost use Rattle.qs_text.specs.audit.Words.{first_ticket};
ghost use Rattle.qs_text.specs.audit.Texts.{texts_up_to};
ghost use Rattle.qs_text.specs.Texts.{Puts};
ghost use Rattle.qs_json.specs.audit.Pieces.{array, element, field};
ghost use Rattle.qs_json.specs.audit.Replay.{variables_in as variables_of};
ghost use Rattle.qs_json.specs.audit.RunJson as definitions;
ghost use Rattle.qs_json.specs.audit.RunJson.{block_json, object_json, sync_json, syncs_json, ticket_json, trace_json};
ghost use Rattle.qs_json.specs.audit.Variables.{client_with};

use crate::events::put_trace;
use crate::outcomes::put_client;
use crate::pieces::{put_client_name, put_comma, put_object_name, put_truth};
use crate::replay::variables_in;
use crate::states::put_state;
use qs_objects::Ticket;
use qs_played::Played;
use qs_program::Program;
use qs_text::fates::{JournalFates, journal_fates, trace_fates};
use qs_text::{object_name, put_count, put_word};
use std::alloc::{AllocError, Global};

// How many synchronisations a block has sent for an object.
fn put_sync(out: &mut Vec<u8>, program: &Program, object: u8, count: u32) -> Result<(), AllocError>
    ensures ok { OnOk result (Puts (sync_json program.now (sync_count object count)) out.old.items out.new.items) }
{
    put_object_name(out, program, object)?;
    put_count(out, b",\"count\":", u64::from(count))?;
    put_word(out, b"}")
}

// The count at a place of a list.
fn count_at(counts: &[u32], place: usize) -> u32
    ensures count { result ≡ slice_index_or counts.now place 0 }
{
    counts.get(place).copied().unwrap_or(0)
}

// The synchronisations of the ticket at a place, with a comma between each two.
fn put_joined(
    out: &mut Vec<u8>,
    program: &Program,
    played: &Played,
    place: usize,
) -> Result<(), AllocError>
    requires { place < length played.now.order }
    ensures ok { OnOk result (Puts (join_by (sync_json program.now) (codes ",") (slice_index_or played.now.sync_counts place [])) out.old.items out.new.items) }
{
    let objects = played.sync_objects(place);
    let counts = played.sync_counts(place);
    for number in 0..objects.len() {
        put_comma(out, number)?;
        put_sync(out, program, objects[number], count_at(counts, number))?;
    }
    Ok(())
}

// Those of the ticket at a place, as a field.
fn put_counted(
    out: &mut Vec<u8>,
    program: &Program,
    played: &Played,
    place: usize,
) -> Result<(), AllocError>
    requires { place < length played.now.order }
    ensures ok { OnOk result (Puts
        (field (codes "sync_counts") (array (sync_json program.now) (slice_index_or played.now.sync_counts place []))) out.old.items out.new.items) }
{
    put_word(out, b",\"sync_counts\":[")?;
    put_joined(out, program, played, place)?;
    put_word(out, b"]")
}

// Those of the ticket at a place, where they are asked for.
fn put_syncs(
    out: &mut Vec<u8>,
    program: &Program,
    played: &Played,
    place: usize,
    counts: bool,
) -> Result<(), AllocError>
    requires { place < length played.now.order }
    ensures ok { OnOk result (Puts (syncs_json counts program.now played.now place) out.old.items out.new.items) }
{
    if counts {
        put_counted(out, program, played, place)
    } else {
        Ok(())
    }
}

// The first fields of a ticket.
fn put_block(
    out: &mut Vec<u8>,
    program: &Program,
    ticket: Ticket,
    ended: bool,
) -> Result<(), AllocError>
    ensures ok { OnOk result (Puts (block_json program.now ticket ended) out.old.items out.new.items) }
{
    put_client_name(out, program, ticket.client)?;
    put_count(out, b",\"block\":", u64::from(ticket.index))?;
    put_truth(out, b",\"done\":", ended)
}

// The ticket at a place of the order.
fn ticket_at(played: &Played, place: usize) -> Ticket
    requires { place < length played.now.order }
    ensures ticket { result ≡ slice_index_or played.now.order place first_ticket }
{
    played.order()[place]
}

// Whether the block of the ticket at a place has ended.
fn ended_at(played: &Played, place: usize) -> bool
    ensures ended { result ≡ slice_index_or played.now.ended place false }
{
    played.ended().get(place).copied().unwrap_or(false)
}

// The trace of the ticket at a place, as a field.
fn put_events_of(
    out: &mut Vec<u8>,
    program: &Program,
    played: &Played,
    fates: &JournalFates,
    place: usize,
) -> Result<(), AllocError>
    requires place { place < length played.now.order }
    requires fates { fates.now ≡ all_fates program.now played.now }
    ensures ok { OnOk result (Puts (field (codes "trace")
        (trace_json program.now (slice_index_or played.now.traces place []) (fates_in program.now played.now place))) out.old.items out.new.items) }
{
    let own_fates = trace_fates(*out.allocator(), program, played, fates, place)?;
    put_trace(out, program, played.trace(place), own_fates.as_slice())
}

// The ticket at a place of the order, with its trace.
fn put_ticket(
    out: &mut Vec<u8>,
    program: &Program,
    played: &Played,
    fates: &JournalFates,
    place: usize,
    counts: bool,
) -> Result<(), AllocError>
    requires place { place < length played.now.order }
    requires fates { fates.now ≡ all_fates program.now played.now }
    ensures ok { OnOk result (Puts (ticket_json counts program.now played.now place) out.old.items out.new.items) }
{
    put_block(
        out,
        program,
        ticket_at(played, place),
        ended_at(played, place),
    )?;
    put_events_of(out, program, played, fates, place)?;
    put_syncs(out, program, played, place, counts)?;
    put_word(out, b"}")
}

// All tickets in their order, with a comma between each two.
fn put_tickets(
    out: &mut Vec<u8>,
    program: &Program,
    played: &Played,
    fates: &JournalFates,
    counts: bool,
) -> Result<(), AllocError>
    requires fates { fates.now ≡ all_fates program.now played.now }
    ensures ok { OnOk result (Puts (texts_up_to (length played.now.order) (element (ticket_json counts program.now played.now))) out.old.items out.new.items) }
{
    for place in 0..played.order().len() {
        put_comma(out, place)?;
        put_ticket(out, program, played, fates, place, counts)?;
    }
    Ok(())
}

// The object of a number.
fn put_object(
    out: &mut Vec<u8>,
    program: &Program,
    played: &Played,
    place: usize,
) -> Result<(), AllocError>
    requires { place < length played.now.states }
    ensures ok { OnOk result (Puts (object_json program.now played.now place) out.old.items out.new.items) }
{
    put_state(out, object_name(program, place), &played.states()[place])
}

// All objects, with a comma between each two.
fn put_objects(out: &mut Vec<u8>, program: &Program, played: &Played) -> Result<(), AllocError>
    ensures ok { OnOk result (Puts (texts_up_to (length played.now.states) (element (object_json program.now played.now))) out.old.items out.new.items) }
{
    for place in 0..played.states().len() {
        put_comma(out, place)?;
        put_object(out, program, played, place)?;
    }
    Ok(())
}

// All clients with their variables, with a comma between each two.
fn put_clients(out: &mut Vec<u8>, program: &Program, played: &Played) -> Result<(), AllocError>
    ensures ok { OnOk result (Puts (texts_up_to (length program.now.clients) (element (client_with program.now (variables_of program.now played.now)))) out.old.items out.new.items) }
{
    program.keeps_sound();
    for client in 0..program.clients() as u8 {
        put_comma(out, usize::from(client))?;
        let locals = variables_in(program, played, client);
        put_client(out, program, client, &locals)?;
    }
    Ok(())
}

/// A run as one object on one line: the tickets in their order, each with its trace, in which each request says whether
/// it was refused or found nothing, and with `counts` with its synchronisations for each object of its block's list;
/// the objects' states; the clients' variables, after the requests that the traces show and before the next one; the
/// number of syncs; and whether the run is finished. A number past the program's objects or clients has no name. An
/// error says that an allocation failed, and nothing is left.
pub fn run_json(
    alloc: Global,
    program: &Program,
    played: &Played,
    counts: bool,
) -> Result<Vec<u8>, AllocError>
    ensures text { IfOk result (λ bytes. bytes.items ≡ definitions.run_json counts program.now played.now) }
{
    let fates = journal_fates(alloc, program, played)?;
    let mut out = Vec::new(alloc);
    put_word(&mut out, b"{\"order\":[")?;
    put_tickets(&mut out, program, played, &fates, counts)?;
    put_word(&mut out, b"]")?;
    put_word(&mut out, b",\"states\":[")?;
    put_objects(&mut out, program, played)?;
    put_word(&mut out, b"]")?;
    put_word(&mut out, b",\"clients\":[")?;
    put_clients(&mut out, program, played)?;
    put_word(&mut out, b"]")?;
    put_count(&mut out, b",\"syncs\":", played.syncs())?;
    put_truth(&mut out, b",\"finished\":", played.is_finished())?;
    put_word(&mut out, b"}\n")?;
    Ok(out)
}
