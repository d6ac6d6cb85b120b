//! What a run of the optimised machine has shown, read off its clients and handlers.

ghost use Rattle.std.specs.Prelude.{◌≡◌, ◌≤◌, ◌<◌, ◌&&◌, IfOk, length, map, sum_by, [], IsSome, Some, option_copied};
ghost use Rattle.std.specs.List.{range_with_len};
ghost use Rattle.qs_objects.specs.declared.held.Ticket.{Ticket as TicketShape};
ghost use Rattle.qs_program.specs.audit.Limits.{most_clients, most_handlers};
ghost use Rattle.qs_core.specs.parts.CoreClients.{whole_of};
ghost use Rattle.qs_client.specs.audit.ClientModel.{has_ended};
ghost use Rattle.qs_core.specs.parts.CoreHandlers.{is_waiting};
ghost use Rattle.qs_core.specs.shown.CoreShown.{AreBegunBy, AreShowable, AreMinds, AreSomewhere, HaveLane, HaveLanes, IsBegunBy, TurnTo, TurnsTo, are_clear, are_through, are_waiting, endings_by, core_held_at, held_with, most_syncs, object_with, rows_by, shown_by};
ghost use Rattle.qs_core.specs.state.CoreState.{client_part_at};
ghost use Rattle.qs_core.specs.parts.CoreHandlers.{IsCoreHandler, core_handler_at};

use crate::parts::{CoreClient, CoreHandler};
use qs_objects::{Held, Journal, Object, Ticket};
use qs_played::{ClientRows, Endings, Played, Sequence};
use std::alloc::{AllocError, Global};

/// A client by its number.
pub fn client_at(clients: &[CoreClient], number: usize) -> &CoreClient
    requires number { number < length clients.now }
    ensures mind { whole_of result.now ≡ (client_part_at clients.now number).mind }
    ensures lanes { result.now.lanes ≡ (client_part_at clients.now number).lanes }
{
    &clients[number]
}

// The client of a ticket.
fn client_of_ticket<'a>(clients: &'a [CoreClient], ticket: &Ticket) -> &'a CoreClient
    requires begun { IsBegunBy clients.now ticket.now }
    ensures mind { whole_of result.now ≡ (client_part_at clients.now ticket.now.client).mind }
{
    client_at(clients, usize::from(ticket.client))
}

// For each ticket whether its block has ended.
fn endings(
    alloc: Global,
    clients: &[CoreClient],
    order: &[Ticket],
) -> Result<Sequence<bool>, AllocError>
    requires begun { AreBegunBy clients.now order.now }
    ensures value { IfOk result (λ row. row ≡ map (λ (t : TicketShape). has_ended (client_part_at clients.now t.client).mind.client t.index) order.now) }
{
    let mut row = Vec::new(alloc);
    for ticket in order {
        row.push(client_of_ticket(clients, ticket).has_ended(ticket.index))?;
    }
    Ok(Sequence::from_vec(row))
}

// How many Syncs a client has sent: at most so many in each of its blocks.
fn syncs_of(client: &CoreClient) -> u64
    ensures value { result ≡ (whole_of client.now).syncs }
    ensures few { result ≤ most_syncs }
{
    client.has_next_act();
    client.syncs()
}

// How many Syncs the clients have sent.
fn syncs(clients: &[CoreClient]) -> u64
    requires few { length clients.now ≤ most_clients }
    ensures value { result ≡ sum_by (λ c. (client_part_at clients.now c).mind.syncs) (range_with_len 0 (length clients.now)) }
{
    let mut syncs = 0;
    for number in 0..clients.len() {
        syncs += syncs_of(client_at(clients, number));
    }
    syncs
}

// Whether each client stands between two blocks with none to come.
#[tactic(auto, using(crate::proofs::shown::CoreShowing::all_more))]
fn are_done(clients: &[CoreClient]) -> bool
    ensures value { result ≡ are_through clients.now }
{
    let mut done = true;
    for number in 0..clients.len() {
        done = done && client_at(clients, number).is_done();
    }
    done
}

// Whether nothing lies in any client's lane to this handler.
#[tactic(auto, using(crate::proofs::shown::CoreShowing::all_more))]
fn is_clear_to(clients: &[CoreClient], handler: usize) -> bool
    requires lanes { HaveLane clients.now handler }
    ensures value { result ≡ are_clear clients.now handler }
{
    let mut clear = true;
    for number in 0..clients.len() {
        clear = clear && client_at(clients, number).lane(handler).is_empty();
    }
    clear
}

// Whether a handler waits, and nothing lies in the lanes to it.
fn is_idle(clients: &[CoreClient], handlers: &[CoreHandler], number: usize) -> bool
    requires number { number < length handlers.now }
    requires lanes { HaveLane clients.now number }
    ensures value { result ≡ (is_waiting (core_handler_at handlers.now number) && are_clear clients.now number) }
{
    handlers[number].is_waiting() && is_clear_to(clients, number)
}

// Whether no handler serves anybody or has tickets, and nothing lies in the lanes to them.
#[tactic(auto, using(crate::proofs::shown::CoreShowing::all_more))]
fn are_idle(clients: &[CoreClient], handlers: &[CoreHandler]) -> bool
    requires lanes { HaveLanes clients.now handlers.now }
    ensures value { result ≡ are_waiting clients.now handlers.now }
{
    let mut idle = true;
    for number in 0..handlers.len() {
        idle = idle && is_idle(clients, handlers, number);
    }
    idle
}

/// Whether the run is finished.
pub fn are_finished(clients: &[CoreClient], handlers: &[CoreHandler]) -> bool
    requires lanes { HaveLanes clients.now handlers.now }
    ensures value { result ≡ (are_through clients.now && are_waiting clients.now handlers.now) }
{
    are_done(clients) && are_idle(clients, handlers)
}

/// A handler by its number.
pub fn handler_at(handlers: &[CoreHandler], number: u8) -> &CoreHandler
    requires number { number < length handlers.now }
    ensures formed { result.now ≡ core_handler_at handlers.now number }
    ensures kept { IsCoreHandler result.now }
{
    let handler = &handlers[usize::from(number)];
    handler.has_next_act();
    handler
}

// The object of a handler of this number, wherever it is.
fn object<'a>(clients: &'a [CoreClient], handler: &'a CoreHandler, number: u8) -> Option<&'a Held>
    requires few { number < most_handlers }
    requires lanes { HaveLane clients.now number }
    requires turns { TurnsTo clients.now handler.now }
    ensures value { option_copied result ≡ object_with clients.now handler.now number }
{
    handler.has_next_act();
    match handler.held() {
        Some(held) => Some(held),
        None => match handler.client() {
            Some(client) => client_at(clients, usize::from(client)).away(number),
            None => None,
        },
    }
}

// The object of a handler of this number: by move, where the handler waits for a ticket, and else once more.
fn brought(
    alloc: Global,
    clients: &[CoreClient],
    handler: CoreHandler,
    number: u8,
) -> Result<Held, AllocError>
    requires few { number < most_handlers }
    requires lanes { HaveLane clients.now number }
    requires turns { TurnsTo clients.now handler }
    requires somewhere { IsSome (object_with clients.now handler number) }
    ensures value { IfOk result (λ held. held ≡ held_with clients.now handler number) }
{
    if handler.takes_ticket() {
        return Ok(handler.into_held());
    }
    match object(clients, &handler, number) {
        Some(held) => held.copied(alloc),
        None => unreachable!(),
    }
}

// For each handler its object's journal and its object.
fn parts(
    alloc: Global,
    clients: &[CoreClient],
    handlers: Vec<CoreHandler>,
) -> Result<(Sequence<Journal>, Sequence<Object>), AllocError>
    requires few { length handlers.items ≤ most_handlers }
    requires lanes { HaveLanes clients.now handlers.items }
    requires turns { TurnTo clients.now handlers.items }
    requires somewhere { AreSomewhere clients.now handlers.items }
    ensures journals { IfOk result (λ rows. rows.0 ≡ map (λ h. (core_held_at clients.now handlers.items h).journal) (range_with_len 0 (length handlers.items))) }
    ensures states { IfOk result (λ rows. rows.1 ≡ map (λ h. (core_held_at clients.now handlers.items h).object) (range_with_len 0 (length handlers.items))) }
{
    let mut journals = Vec::new(alloc);
    let mut states = Vec::new(alloc);
    for handler in handlers {
        let number = journals.len() as u8;
        let (object, journal) = brought(alloc, clients, handler, number)?.into_parts();
        journals.push(journal)?;
        states.push(object)?;
    }
    Ok((Sequence::from_vec(journals), Sequence::from_vec(states)))
}

// What the run has shown beside the clients' rows.
fn shown_endings(
    alloc: Global,
    order: &[Ticket],
    clients: &[CoreClient],
    handlers: Vec<CoreHandler>,
) -> Result<Endings, AllocError>
    requires showable { AreShowable order.now clients.now handlers.items }
    ensures shown { IfOk result (λ endings. endings ≡ endings_by order.now clients.now handlers.items) }
{
    let ended = endings(alloc, clients, order)?;
    let syncs = syncs(clients);
    let finished = are_finished(clients, &handlers);
    let (journals, states) = parts(alloc, clients, handlers)?;
    Ok(Endings {
        ended,
        journals,
        states,
        syncs,
        finished,
    })
}

// The clients' rows, by move.
fn rows(alloc: Global, clients: Vec<CoreClient>) -> Result<Vec<ClientRows>, AllocError>
    ensures rows { IfOk result (λ rows. rows.items ≡ rows_by clients.items) }
    ensures minds { IfOk result (λ rows. AreMinds clients.items) }
{
    let mut rows = Vec::new(alloc);
    for client in clients {
        client.has_next_act();
        rows.push(client.into_rows())?;
    }
    Ok(rows)
}

/// What the run has shown, by the order of reservations, the clients and the handlers.
pub fn shown(
    alloc: Global,
    order: Vec<Ticket>,
    clients: Vec<CoreClient>,
    handlers: Vec<CoreHandler>,
) -> Result<Played, AllocError>
    requires showable { AreShowable order.items clients.items handlers.items }
    ensures shown { IfOk result (λ played. played ≡ shown_by order.items clients.items handlers.items) }
{
    let endings = shown_endings(alloc, &order, &clients, handlers)?;
    let rows = rows(alloc, clients)?;
    Ok(Played::new(Sequence::from_vec(order), rows, endings))
}
