//! What a step of the optimised machine does.

use qs_objects::Ticket;

/// What a step does. A client reserves its next block, takes an empty chunk of a handler, sends the requests of a
/// chunk, waits for a handler's object, gets it, returns it, or ends its block there. A handler serves a ticket, runs
/// the requests of a chunk, gives a client an empty chunk, sees that a client waits, gives itself to a client, comes
/// back from one, or leaves a ticket.
#[derive(Clone, Copy, Debug, PartialEq, Eq)]
pub enum CoreEffect {
    Reserves(Ticket),
    TakesChunk(u8),
    Sends,
    WaitsFor(u8),
    Gets(u8),
    Returns(u8),
    EndsAt(Ticket, u8),
    Serves(Ticket),
    Runs(Ticket),
    GivesChunk(u8),
    SeesWaiting(u8),
    GivesItself(u8),
    ComesBack(u8),
    Leaves(Ticket),
}
