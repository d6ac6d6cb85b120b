//! A handler's whole run.

ghost use Rattle.std.specs.Prelude.{◌≡◌, ◌<◌, ℕ, [], ◌∷◌, List, IsSome, true};
ghost use Rattle.qs_program.specs.audit.Limits.{most_clients};
ghost use Rattle.qs_handler.specs.audit.Handler.{closed};
ghost use Rattle.qs_handler.specs.audit.HandlerRuns.{Task};
ghost use Rattle.qs_run.specs.handler.HandlerThreads.{IsAllServed, IsFresh, IsServing, in_lane_at};
ghost use Rattle.qs_run.specs.handler.Passes.{ArePassed};
ghost use Rattle.qs_meaning.specs.audit.Following.{reserves};

use crate::handler::gate::Passage;
use crate::handler::handler_lanes::{HandlerLanes, give, spare, take_parcel};
use qs_desk::{DeskName, Tickets};
use qs_handler::{Act, Mind};
use qs_objects::{Held, Next, Ticket};
use std::sync::Wait;

// The gate is passed as a ticket is begun, and not at the closing mark.
fn announce<L, G: Passage<L>>(gate: &G, log: &mut L, next: Next, object: u8)
    ensures passed { ArePassed (G.moves gate.now) object log.old (next ∷ []) log.new }
{
    if let Next::Ticket(ticket) = next {
        gate.go(log, ticket, object);
    }
}

/// Serves tickets at their clients' lanes until no further one comes: what the handler was asked to do, one thing after
/// another, from its object as it was. The gate is passed once as each ticket is begun, with the object's number. Waits
/// for tickets and for parcels.
pub fn serve<D: DeskName, L, G: Passage<L>, R: Wait>(
    rt: &R,
    gate: &G,
    log: &mut L,
    held: Held,
    tickets: Tickets<D>,
    lanes: HandlerLanes,
) -> (Held, Tickets<D>, HandlerLanes)
    requires taken { tickets.taken ≡ [] }
    requires fresh { (c : ℕ) → IsFresh (in_lane_at lanes c) }
    requires reached { (t : Ticket) → reserves D.program t tickets.handler ≡ true → (t.client < most_clients) × IsSome (in_lane_at lanes t.client) }
    ensures served { (tasks : List Task)
        × IsServing D.program tickets.handler held lanes tasks (closed result.0) result.1 result.2 }
    ensures given { (c : ℕ) → IsAllServed (in_lane_at result.2 c) }
    ensures passed { ArePassed (G.moves gate.now) tickets.handler log.old result.1.taken log.new }
{
    let object = tickets.handler();
    let mut tickets = tickets;
    let mut lanes = lanes;
    let mut held = held;
    held.touch();
    let mut mind = Mind::new(held);
    for _ in rt.forever() {
        match mind.next() {
            Act::TakeTicket => {
                let next = tickets.take_or_sleep(rt);
                announce(gate, log, next, object);
                mind.ticket(next);
            }
            Act::TakeParcel(client) => mind.parcel(take_parcel(rt, &mut lanes, client)),
            Act::Give(client, held) => give(rt, &mut lanes, client, held),
            Act::Spare(client, chunk) => spare(rt, &mut lanes, client, chunk),
            Act::Closed => return (mind.into_held(), tickets, lanes),
        }
    }
    unreachable!()
}
