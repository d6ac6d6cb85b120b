//! A reservation of a run.

ghost use Rattle.std.specs.Prelude.{◌≡◌, ◌<◌, length};
ghost use Rattle.qs_program.specs.audit.Program.{client_at, text_of};
ghost use Rattle.qs_played.specs.audit.Isolation.{ticket_at};
ghost use Rattle.qs_played.specs.twin.Twins.{IsReserved};

use crate::Played;
use qs_objects::Ticket;
use qs_program::{Block, Names, Program};

/// A reservation: the program, what its run has shown, and the place in the order.
#[derive(Clone, Copy)]
pub(crate) struct Reservation<'a> {
    pub program: &'a Program,
    pub played: &'a Played,
    pub place: usize,
}

/// Its ticket.
pub(crate) fn ticket(run: &Reservation<'_>) -> Ticket
    requires place { run.now.place < length run.now.played.now.order }
    ensures value { result ≡ ticket_at run.now.played.now run.now.place }
{
    run.played.order()[run.place]
}

/// The text of its block.
pub(crate) fn text<'a>(run: &Reservation<'a>) -> &'a Block
    requires run { IsReserved run.now.program.now run.now.played.now run.now.place }
    ensures value { result.now ≡ text_of run.now.program.now (ticket_at run.now.played.now run.now.place) }
{
    let ticket = ticket(run);
    run.program.block(ticket.client, ticket.index)
}

/// The names of its client's variables.
pub(crate) fn variables<'a>(run: &Reservation<'a>) -> &'a Names
    requires run { IsReserved run.now.program.now run.now.played.now run.now.place }
    ensures value { result.now ≡ (client_at run.now.program.now (ticket_at run.now.played.now run.now.place).client).variables }
{
    run.program.variables(ticket(run).client)
}
