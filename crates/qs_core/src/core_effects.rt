//! What an actor of the optimised machine does next, read off its clients and handlers.

ghost use Rattle.std.specs.Prelude.{◌≡◌, ◌<◌, IfOk, length, vec_len};
ghost use Rattle.qs_client.specs.audit.ClientModel.{act_due};
ghost use Rattle.qs_core.specs.parts.CarriedRequests.{sent_requests};
ghost use Rattle.qs_core.specs.parts.CoreClients.{whole_of};
ghost use Rattle.qs_core.specs.parts.CoreHandlers.{core_handler_at, handler_with_act};
ghost use Rattle.qs_core.specs.parts.LaneStates.{lane_at};
ghost use Rattle.qs_core.specs.state.CoreState.{client_part_at};
ghost use Rattle.qs_core.specs.CoreEffects.{effect_of_client, effect_of_handler, effect_of_lane, effect_of_parcel, effect_of_sent, effect_of_tickets, requests_of_handler};
ghost use Rattle.qs_core.specs.shown.CoreShown.{HaveLane, TurnsTo};

use crate::core_effect::CoreEffect;
use crate::parts::{CoreClient, CoreHandler, Lane};
use crate::shown::{client_at, handler_at};
use qs_chunk::Parcel;
use qs_client::Act;
use qs_handler::Act as HandlerAct;
use qs_objects::{Request, Ticket};
use std::alloc::{AllocError, Global};

// How many blocks a client has begun: at most 64.
fn begun(client: &CoreClient) -> u8
    ensures value { result ≡ (whole_of client.now).client.begun }
{
    client.has_next_act();
    client.begun() as u8
}

// What a client does by sending a parcel to a handler.
fn effect_of_sent(ticket: Ticket, handler: u8, parcel: &Parcel) -> CoreEffect
    ensures value { result ≡ effect_of_sent ticket handler parcel.now }
{
    match parcel {
        Parcel::Work(_) => CoreEffect::Sends,
        Parcel::Sync => CoreEffect::WaitsFor(handler),
        Parcel::Home(_) => CoreEffect::Returns(handler),
        Parcel::End => CoreEffect::EndsAt(ticket, handler),
    }
}

// What a client of this number does next.
fn effect_of(client: &CoreClient, number: u8) -> Option<CoreEffect>
    ensures value { result ≡ effect_of_client number (whole_of client.now).client.begun (act_due (whole_of client.now)) }
{
    client.has_next_act();
    let begun = begun(client);
    match client.act() {
        Act::Reserve => Some(CoreEffect::Reserves(Ticket {
            client: number,
            index: begun,
        })),
        Act::Send(handler, parcel) => {
            let ticket = Ticket {
                client: number,
                index: begun.saturating_sub(1),
            };
            Some(effect_of_sent(ticket, *handler, parcel))
        }
        Act::Await(handler) => Some(CoreEffect::Gets(*handler)),
        Act::NeedChunk(handler) => Some(CoreEffect::TakesChunk(*handler)),
        Act::Finished => None,
    }
}

/// What a client does next.
pub(crate) fn client_effect(clients: &[CoreClient], number: u8) -> Option<CoreEffect>
    requires { number < length clients.now }
    ensures value { result ≡ effect_of_client number (client_part_at clients.now number).mind.client.begun (act_due (client_part_at clients.now number).mind) }
{
    effect_of(client_at(clients, usize::from(number)), number)
}

// What a handler does that serves the next ticket of its queue.
fn effect_of_tickets(handler: &CoreHandler) -> Option<CoreEffect>
    ensures value { result ≡ effect_of_tickets handler.now.tickets }
{
    match handler.first_ticket() {
        None => None,
        Some(ticket) => Some(CoreEffect::Serves(ticket)),
    }
}

// What a handler does with a parcel of the block that it serves.
fn effect_of_parcel(ticket: Ticket, parcel: &Parcel) -> CoreEffect
    ensures value { result ≡ effect_of_parcel ticket parcel.now }
{
    match parcel {
        Parcel::Work(_) => CoreEffect::Runs(ticket),
        Parcel::Sync => CoreEffect::SeesWaiting(ticket.client),
        Parcel::Home(_) => CoreEffect::ComesBack(ticket.client),
        Parcel::End => CoreEffect::Leaves(ticket),
    }
}

// What it does at the lane of its client.
fn effect_of_lane(ticket: Ticket, lane: &Lane) -> Option<CoreEffect>
    ensures value { result ≡ effect_of_lane ticket lane.now.down }
{
    match lane.first() {
        None => None,
        Some(parcel) => Some(effect_of_parcel(ticket, parcel)),
    }
}

/// What a handler does next.
pub(crate) fn handler_effect(
    clients: &[CoreClient],
    handlers: &[CoreHandler],
    number: u8,
) -> Option<CoreEffect>
    requires number { number < length handlers.now }
    requires lanes { HaveLane clients.now number }
    requires turns { TurnsTo clients.now (core_handler_at handlers.now number) }
    ensures value { result ≡ effect_of_handler (core_handler_at handlers.now number).tickets (λ c. (lane_at (client_part_at clients.now c).lanes number).down)
        (handler_with_act (core_handler_at handlers.now number)) }
{
    let handler = handler_at(handlers, number);
    match handler.act() {
        HandlerAct::TakeTicket => effect_of_tickets(handler),
        HandlerAct::TakeParcel(client) => match handler.serving() {
            None => None,
            Some(ticket) => {
                let client = client_at(clients, usize::from(*client));
                effect_of_lane(ticket, client.lane(usize::from(number)))
            }
        },
        HandlerAct::Give(client, _) => Some(CoreEffect::GivesItself(*client)),
        HandlerAct::Spare(client, _) => Some(CoreEffect::GivesChunk(*client)),
        HandlerAct::Closed => None,
    }
}

/// The requests of the chunk that a client sends next, if it sends one. An error says that their memory was refused.
pub(crate) fn client_requests(
    alloc: Global,
    clients: &mut Vec<CoreClient>,
    number: u8,
) -> Result<Vec<Request>, AllocError>
    requires { number < length clients.old.items }
    ensures value { IfOk result (λ requests. requests.items ≡ sent_requests (act_due (client_part_at clients.old.items number).mind)) }
    ensures same { clients.new.items ≡ clients.old.items }
    ensures len { vec_len clients.new ≡ vec_len clients.old }
{
    let client = &mut clients[usize::from(number)];
    client.has_next_act();
    client.sent_requests(alloc)
}

/// The requests of the chunk that a handler runs next, if it runs one. An error says that their memory was refused.
pub(crate) fn handler_requests(
    alloc: Global,
    clients: &mut Vec<CoreClient>,
    handlers: &[CoreHandler],
    number: u8,
) -> Result<Vec<Request>, AllocError>
    requires number { number < length handlers.now }
    requires lanes { HaveLane clients.old.items number }
    requires turns { TurnsTo clients.old.items (core_handler_at handlers.now number) }
    ensures value { IfOk result (λ requests. requests.items ≡ requests_of_handler (λ c. (lane_at (client_part_at clients.old.items c).lanes number).down)
        (handler_with_act (core_handler_at handlers.now number))) }
    ensures same { clients.new.items ≡ clients.old.items }
    ensures len { vec_len clients.new ≡ vec_len clients.old }
{
    let handler = handler_at(handlers, number);
    match handler.act() {
        HandlerAct::TakeParcel(client) => {
            let client = &mut clients[usize::from(*client)];
            client.lane_requests(alloc, number)
        }
        HandlerAct::TakeTicket => Ok(Vec::new(alloc)),
        HandlerAct::Give(_, _) => Ok(Vec::new(alloc)),
        HandlerAct::Spare(_, _) => Ok(Vec::new(alloc)),
        HandlerAct::Closed => Ok(Vec::new(alloc)),
    }
}
