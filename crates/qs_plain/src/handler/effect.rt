//! What a step under the plain rules does.

ghost use Rattle.std.specs.Prelude.{◌≡◌};
ghost use Rattle.qs_plain.specs.handler.Effects.{answered};

use qs_objects::{Request, Ticket};

/// What a step does: a client reserves its next block, logs a command, asks a query or ends its block; a handler runs a
/// command, answers a query or leaves a ticket.
#[derive(Drop)]
pub enum Effect {
    Reserves(Ticket),
    Logs(Request),
    Asks(Request),
    Ends(Ticket),
    Runs(Ticket, Request),
    Answers(Ticket, Request, Option<i64>),
    Leaves(Ticket),
}

impl Effect {
    /// What was done, with this reply where a query is answered.
    pub fn answered(self, reply: Option<i64>) -> Effect
        ensures value { result ≡ answered reply self }
    {
        match self {
            Effect::Answers(ticket, request, _) => Effect::Answers(ticket, request, reply),
            other => other,
        }
    }
}
