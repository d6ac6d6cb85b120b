//! What a run has shown, read off when it is over.

ghost use Rattle.std.specs.Prelude.{◌≡◌, ◌≤◌, IfOk, length, map, sum_by};
ghost use Rattle.qs_objects.specs.declared.held.Ticket.{Ticket as TicketShape};
ghost use Rattle.qs_program.specs.audit.Program.{ProgramShape};
ghost use Rattle.qs_program.specs.audit.Limits.{most_clients};
ghost use Rattle.qs_plain.specs.client.Clients.{ClientState as State, client_of_state, client_state_at};
ghost use Rattle.qs_plain_laws.specs.audit.PlainSchedule.{all_done, all_idle, has_ended, syncs_of};
ghost use Rattle.qs_plain.specs.handler.Served.{HandlerState as Serving, handler_of_state};
ghost use Rattle.qs_plain.specs.BegunBlocks.{AreBegun, AreOwn, AreRows};

use crate::client::ClientState;
use crate::handler::HandlerState;
use qs_objects::{Journal, Object, Ticket};
use qs_played::{ClientRows, Sequence};
use std::alloc::{AllocError, Global};

/// For each ticket whether its block has ended.
pub(crate) fn endings(
    alloc: Global,
    clients: &[ClientState],
    order: &[Ticket],
) -> Result<Sequence<bool>, AllocError>
    requires { AreBegun clients.now order.now }
    ensures value { IfOk result (λ row. row ≡ map (λ (t : TicketShape). has_ended (client_of_state (client_state_at clients.now t.client)) t.index) order.now) }
{
    let mut row = Vec::new(alloc);
    for ticket in order {
        row.push(clients[usize::from(ticket.client)].has_ended(ticket.index))?;
    }
    Ok(Sequence::from_vec(row))
}

/// What each client's blocks have shown, taken from it.
pub(crate) fn rows(alloc: Global, clients: Vec<ClientState>) -> Result<Vec<ClientRows>, AllocError>
    ensures value { IfOk result (λ rows. AreRows rows.items clients.entry.items) }
{
    let mut rows = Vec::new(alloc);
    for client in clients {
        rows.push(client.into_rows())?;
    }
    Ok(rows)
}

/// How many queries the clients have asked.
pub(crate) fn syncs(clients: &[ClientState]) -> u64
    requires { length clients.now ≤ most_clients }
    ensures value { result ≡ sum_by (λ (d : State). syncs_of (client_of_state d)) clients.now }
{
    let mut syncs = 0;
    for client in clients {
        syncs += client.syncs();
    }
    syncs
}

/// Whether each client stands between two blocks with none to come.
pub(crate) fn are_done(clients: &[ClientState]) -> bool
    ensures value { (p : ProgramShape) → AreOwn p clients.now → result ≡ all_done p 0 (map client_of_state clients.now) }
{
    let mut done = true;
    for client in clients {
        done = done && client.is_done();
    }
    done
}

/// Whether no handler serves anybody.
pub(crate) fn are_idle(handlers: &[HandlerState]) -> bool
    ensures value { result ≡ all_idle (map handler_of_state handlers.now) }
{
    let mut idle = true;
    for handler in handlers {
        idle = idle && handler.is_idle();
    }
    idle
}

/// For each handler its object's journal and its object.
pub(crate) fn parts(
    alloc: Global,
    handlers: Vec<HandlerState>,
) -> Result<(Sequence<Journal>, Sequence<Object>), AllocError>
    ensures journals { IfOk result (λ rows. rows.0 ≡ map (λ (h : Serving). h.held.journal) handlers.items) }
    ensures states { IfOk result (λ rows. rows.1 ≡ map (λ (h : Serving). h.held.object) handlers.items) }
{
    let mut journals = Vec::new(alloc);
    let mut states = Vec::new(alloc);
    for handler in handlers {
        let (object, journal) = handler.into_held().into_parts();
        journals.push(journal)?;
        states.push(object)?;
    }
    Ok((Sequence::from_vec(journals), Sequence::from_vec(states)))
}
