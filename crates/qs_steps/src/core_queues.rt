//! What lies where in the optimised machine.

ghost use Rattle.std.specs.Prelude.{◌≡◌, ◌<◌, ◌++◌, IfOk, OnOk, drop, length, slice_index_or};
ghost use Rattle.qs_chunk.specs.declared.parcel.Parcel.{Parcel as ParcelShape};
ghost use Rattle.qs_core_laws.specs.CoreSchedule.{before_it};
ghost use Rattle.qs_core.specs.parts.CarriedRequests.{first_requests};
ghost use Rattle.qs_core.specs.state.CoreState.{codes_of, core_of};
ghost use Rattle.qs_core.specs.CoreEffects.{IsLaneOf, act_at};
ghost use Rattle.qs_steps.specs.CoreQueues.{chunk_in, client_of, gap_in, handler_in, lane_in, parcel_in, parcels_in, queues_in, wait_in, waiting_in, word_in};
ghost use Rattle.qs_steps.specs.Forms.{listed, numbered, requests_in};
ghost use Rattle.qs_steps.specs.Queues.{queue_in, queues_by};
ghost use Rattle.qs_steps.specs.declared.wanted.Form.TheVariants.{Text, Json};

use crate::core_lines::{put_requests, put_requests_json};
use crate::forms::{put_client_name, put_comma, put_json, put_string, put_ticket_json};
use crate::lines::{put_client, put_ticket};
use crate::queue_words::{
    done, end_of_client, nothing, put_client_head, put_queue_head, put_unless, says_nothing,
};
use crate::wanted::Form;
use qs_chunk::Parcel;
use qs_client::Act;
use qs_core::Core;
use qs_core::parts::Lane;
use qs_objects::{Request, Ticket};
use qs_program::Program;
use qs_text::put;
use std::alloc::{AllocError, Global};

// The lane from a client to a handler.
fn lane_of<'a>(core: &'a Core, client: u8, handler: u8) -> &'a Lane
    requires client { client < length core.now.program.clients }
    requires handler { handler < length core.now.program.objects }
    ensures lane { IsLaneOf (core_of core.now) client handler result.now }
{
    core.client(client).lane(usize::from(handler))
}

// The requests of a chunk.
fn put_chunk(
    out: &mut Vec<u8>,
    program: &Program,
    form: Form,
    requests: &[Request],
) -> Result<(), AllocError>
    ensures ok { OnOk result (out.new.items ≡ out.old.items ++ chunk_in form (requests_in form program.now requests.now)) }
{
    match form {
        Form::Text => {
            put(out, b"[")?;
            put_requests(out, program, Form::Text, requests)?;
            put(out, b"]")
        }
        Form::Json => {
            put(out, b"{\"parcel\":\"chunk\"")?;
            put_requests_json(out, program, requests)?;
            put(out, b"}")
        }
    }
}

// A parcel that is no chunk.
fn put_parcel_word(out: &mut Vec<u8>, form: Form, word: &[u8]) -> Result<(), AllocError>
    ensures ok { OnOk result (out.new.items ≡ out.old.items ++ word_in form word.now) }
{
    match form {
        Form::Text => put(out, word),
        Form::Json => {
            put_string(out, b"{\"parcel\":", word)?;
            put(out, b"}")
        }
    }
}

// The chunk at a place in the lane from a client to a handler.
fn put_chunk_at(
    out: &mut Vec<u8>,
    program: &Program,
    form: Form,
    core: &mut Core,
    client: u8,
    handler: u8,
    place: usize,
) -> Result<(), AllocError>
    requires client { client < length core.old.program.clients }
    requires handler { handler < length core.old.program.objects }
    ensures ok { OnOk result (out.new.items ≡ out.old.items ++ chunk_in form (requests_in form program.now (first_requests (drop place ((core_of core.old).down client handler))))) }
    ensures same { core.new ≡ core.old }
{
    let requests = core.lane_requests(*out.allocator(), client, handler, place)?;
    put_chunk(out, program, form, &requests)
}

// The parcel at a place in the lane from a client to a handler.
fn put_parcel(
    out: &mut Vec<u8>,
    program: &Program,
    form: Form,
    core: &mut Core,
    client: u8,
    handler: u8,
    place: usize,
) -> Result<(), AllocError>
    requires client { client < length core.old.program.clients }
    requires handler { handler < length core.old.program.objects }
    requires place { place < length ((core_of core.old).down client handler) }
    ensures ok { OnOk result ((d : ParcelShape) → out.new.items ≡ out.old.items ++ parcel_in form program.now (slice_index_or ((core_of core.old).down client handler) place d)) }
    ensures same { core.new ≡ core.old }
{
    match lane_of(core, client, handler).parcel(place) {
        Parcel::Work(_) => put_chunk_at(out, program, form, core, client, handler, place),
        Parcel::Sync => put_parcel_word(out, form, b"sync"),
        Parcel::Home(_) => put_parcel_word(out, form, b"home"),
        Parcel::End => put_parcel_word(out, form, b"end"),
    }
}

// What stands before the parcel at a place: in text a space, and in JSON a comma, but before the first.
fn put_gap(out: &mut Vec<u8>, form: Form, place: usize) -> Result<(), AllocError>
    ensures ok { OnOk result (out.new.items ≡ out.old.items ++ gap_in form place) }
{
    match form {
        Form::Text => put(out, b" "),
        Form::Json => put_comma(out, Form::Json, place),
    }
}

// All parcels of a lane.
fn put_parcels(
    out: &mut Vec<u8>,
    program: &Program,
    form: Form,
    core: &mut Core,
    client: u8,
    handler: u8,
) -> Result<(), AllocError>
    requires client { client < length core.old.program.clients }
    requires handler { handler < length core.old.program.objects }
    ensures ok { OnOk result (out.new.items ≡ out.old.items ++ parcels_in form program.now ((core_of core.old).down client handler)) }
    ensures same { core.new ≡ core.old }
{
    for place in 0..lane_of(core, client, handler).parcels() {
        put_gap(out, form, place)?;
        put_parcel(out, program, form, core, client, handler, place)?;
    }
    Ok(())
}

// The line of a lane, unless nothing lies there.
fn put_lane_text(
    out: &mut Vec<u8>,
    program: &Program,
    core: &mut Core,
    client: u8,
    handler: u8,
) -> Result<(), AllocError>
    requires client { client < length core.old.program.clients }
    requires handler { handler < length core.old.program.objects }
    ensures ok { OnOk result (out.new.items ≡ out.old.items ++ lane_in Text program.now client ((core_of core.old).down client handler)) }
    ensures same { core.new ≡ core.old }
{
    if lane_of(core, client, handler).is_empty() {
        return Ok(());
    }
    put_client(out, program, b"lane ", client)?;
    put_parcels(out, program, Form::Text, core, client, handler)?;
    put(out, b"\n")
}

// A lane as an object.
fn put_lane_json(
    out: &mut Vec<u8>,
    program: &Program,
    core: &mut Core,
    client: u8,
    handler: u8,
) -> Result<(), AllocError>
    requires client { client < length core.old.program.clients }
    requires handler { handler < length core.old.program.objects }
    ensures ok { OnOk result (out.new.items ≡ out.old.items ++ lane_in Json program.now client ((core_of core.old).down client handler)) }
    ensures same { core.new ≡ core.old }
{
    put_client_name(out, program, b"{\"client\":", client)?;
    put(out, b",\"parcels\":[")?;
    put_parcels(out, program, Form::Json, core, client, handler)?;
    put(out, b"]}")
}

// A lane in a form.
fn put_lane(
    out: &mut Vec<u8>,
    program: &Program,
    form: Form,
    core: &mut Core,
    client: u8,
    handler: u8,
) -> Result<(), AllocError>
    requires client { client < length core.old.program.clients }
    requires handler { handler < length core.old.program.objects }
    ensures ok { OnOk result (out.new.items ≡ out.old.items ++ lane_in form program.now client ((core_of core.old).down client handler)) }
    ensures same { core.new ≡ core.old }
{
    match form {
        Form::Text => put_lane_text(out, program, core, client, handler),
        Form::Json => put_lane_json(out, program, core, client, handler),
    }
}

// The lanes of all clients to a handler.
fn put_lanes(
    out: &mut Vec<u8>,
    program: &Program,
    form: Form,
    core: &mut Core,
    handler: u8,
) -> Result<(), AllocError>
    requires own { core.old.program ≡ program.now }
    requires handler { handler < length program.now.objects }
    ensures ok { OnOk result (out.new.items ≡ out.old.items ++ numbered form (λ c. lane_in form program.now c ((core_of core.old).down c handler)) (length program.now.clients)) }
    ensures same { core.new ≡ core.old }
{
    program.keeps_sound();
    for client in 0..program.clients() as u8 {
        put_comma(out, form, usize::from(client))?;
        put_lane(out, program, form, core, client, handler)?;
    }
    Ok(())
}

// A ticket before a handler.
fn put_waiting(
    out: &mut Vec<u8>,
    program: &Program,
    form: Form,
    ticket: Ticket,
) -> Result<(), AllocError>
    ensures ok { OnOk result (out.new.items ≡ out.old.items ++ waiting_in form program.now ticket) }
{
    match form {
        Form::Text => {
            put_ticket(out, program, ticket)?;
            put(out, b"\n")
        }
        Form::Json => put_ticket_json(out, program, ticket),
    }
}

// All these tickets.
fn put_tickets(
    out: &mut Vec<u8>,
    program: &Program,
    form: Form,
    tickets: &[Ticket],
) -> Result<(), AllocError>
    ensures ok { OnOk result (out.new.items ≡ out.old.items ++ listed form (waiting_in form program.now) tickets.now) }
{
    for place in 0..tickets.len() {
        put_comma(out, form, place)?;
        put_waiting(out, program, form, tickets[place])?;
    }
    Ok(())
}

// Further tickets, at the end.
fn push_all(all: &mut Vec<Ticket>, tickets: &[Ticket]) -> Result<(), AllocError>
    ensures ok { OnOk result (all.new.items ≡ all.old.items ++ tickets.now) }
{
    for ticket in tickets {
        all.push(*ticket)?;
    }
    Ok(())
}

// The tickets before a handler: the one that it serves, if there is one, and those in its queue.
fn tickets_before(alloc: Global, core: &Core, handler: u8) -> Result<Vec<Ticket>, AllocError>
    requires handler { handler < length core.now.program.objects }
    ensures value { IfOk result (λ tickets. tickets.items ≡ before_it (core_of core.now) handler) }
{
    let queue = core.handler(handler);
    let ticket = queue.serving();
    let (first, second) = queue.tickets();
    let mut tickets = Vec::new(alloc);
    push_all(&mut tickets, ticket.as_slice())?;
    push_all(&mut tickets, first)?;
    push_all(&mut tickets, second)?;
    Ok(tickets)
}

// A handler, and the tickets before it.
fn put_queue(
    out: &mut Vec<u8>,
    program: &Program,
    form: Form,
    core: &Core,
    handler: u8,
) -> Result<(), AllocError>
    requires handler { handler < length core.now.program.objects }
    ensures ok { OnOk result (out.new.items ≡ out.old.items ++ queue_in form (waiting_in form program.now) program.now handler (before_it (core_of core.now) handler)) }
{
    let tickets = tickets_before(*out.allocator(), core, handler)?;
    let waiting = tickets.as_slice();
    put_queue_head(out, program, form, handler, waiting.len())?;
    put_tickets(out, program, form, waiting)?;
    put_json(out, form, b"]")
}

// A handler with the tickets before it, and the lanes to it.
fn put_handler(
    out: &mut Vec<u8>,
    program: &Program,
    form: Form,
    core: &mut Core,
    handler: u8,
) -> Result<(), AllocError>
    requires own { core.old.program ≡ program.now }
    requires handler { handler < length program.now.objects }
    ensures ok { OnOk result (out.new.items ≡ out.old.items ++ handler_in form program.now (core_of core.old) handler) }
    ensures same { core.new ≡ core.old }
{
    put_queue(out, program, form, core, handler)?;
    put_json(out, form, b",\"lanes\":[")?;
    put_lanes(out, program, form, core, handler)?;
    put_json(out, form, b"]}")
}

// All handlers, in text order.
fn put_handlers(
    out: &mut Vec<u8>,
    program: &Program,
    form: Form,
    core: &mut Core,
) -> Result<(), AllocError>
    requires own { core.old.program ≡ program.now }
    ensures ok { OnOk result (out.new.items ≡ out.old.items ++ numbered form (handler_in form program.now (core_of core.old)) (length program.now.objects)) }
    ensures same { core.new ≡ core.old }
{
    program.keeps_sound();
    for handler in 0..program.objects() as u8 {
        put_comma(out, form, usize::from(handler))?;
        put_handler(out, program, form, core, handler)?;
    }
    Ok(())
}

// What a client waits for.
fn put_wait(
    out: &mut Vec<u8>,
    program: &Program,
    form: Form,
    core: &Core,
    client: u8,
) -> Result<(), AllocError>
    requires client { client < length core.now.program.clients }
    ensures ok { OnOk result (out.new.items ≡ out.old.items ++ wait_in form program.now (core_of core.now) client (act_at (codes_of core.now) core.now.size (core_of core.now) client)) }
{
    match core.client(client).act() {
        Act::Reserve => put(out, nothing(form)),
        Act::Send(handler, _) => {
            let is_there = lane_of(core, client, *handler).has_room();
            let words = b"waits for room to ";
            put_unless(out, program, form, is_there, words, b"room", *handler)
        }
        Act::Await(handler) => {
            let is_there = lane_of(core, client, *handler).has_object();
            let words = b"waits for ";
            put_unless(out, program, form, is_there, words, b"object", *handler)
        }
        Act::NeedChunk(handler) => {
            let is_there = lane_of(core, client, *handler).has_chunk();
            let words = b"waits for an empty chunk of ";
            put_unless(out, program, form, is_there, words, b"chunk", *handler)
        }
        Act::Finished => put(out, done(form)),
    }
}

// A client, and what it waits for.
fn put_client_of(
    out: &mut Vec<u8>,
    program: &Program,
    form: Form,
    core: &Core,
    client: u8,
) -> Result<(), AllocError>
    requires client { client < length core.now.program.clients }
    ensures ok { OnOk result (out.new.items ≡ out.old.items ++ client_of form program.now (codes_of core.now) core.now.size (core_of core.now) client) }
{
    put_client_head(out, program, form, client)?;
    put_wait(out, program, form, core, client)?;
    put(out, end_of_client(form))
}

// All clients, in text order.
fn put_clients(
    out: &mut Vec<u8>,
    program: &Program,
    form: Form,
    core: &Core,
) -> Result<(), AllocError>
    requires own { core.now.program ≡ program.now }
    ensures ok { OnOk result (out.new.items ≡ out.old.items ++ numbered form (client_of form program.now (codes_of core.now) core.now.size (core_of core.now)) (length program.now.clients)) }
{
    program.keeps_sound();
    for client in 0..program.clients() as u8 {
        put_comma(out, form, usize::from(client))?;
        put_client_of(out, program, form, core, client)?;
    }
    Ok(())
}

// All handlers and then all clients; the machine stays the same.
fn put_all_queues(
    out: &mut Vec<u8>,
    program: &Program,
    form: Form,
    core: &mut Core,
) -> Result<(), AllocError>
    requires own { core.old.program ≡ program.now }
    ensures ok { OnOk result (out.new.items ≡ out.old.items
        ++ queues_by form program.now (handler_in form program.now (core_of core.old)) (client_of form program.now (codes_of core.old) core.old.size (core_of core.old))) }
    ensures same { core.new ≡ core.old }
{
    put_json(out, form, b"{\"queues\":[")?;
    put_handlers(out, program, form, core)?;
    put_json(out, form, b"],\"clients\":[")?;
    put_clients(out, program, form, core)?;
    put_json(out, form, b"]}\n")
}

/// Puts what lies where, in text unless the run is finished; the machine stays the same.
pub(crate) fn put_core_queues(
    out: &mut Vec<u8>,
    program: &Program,
    form: Form,
    core: &mut Core,
) -> Result<(), AllocError>
    requires own { core.old.program ≡ program.now }
    ensures ok { OnOk result (out.new.items ≡ out.old.items ++ queues_in form program.now (codes_of core.old) core.old.size (core_of core.old)) }
    ensures same { core.new ≡ core.old }
{
    if says_nothing(form, core.is_finished()) {
        return Ok(());
    }
    put_all_queues(out, program, form, core)
}
