//! Where a program stands after the blocks that a list of clients names, or that an order has.

ghost use Rattle.std.specs.Prelude.{◌≡◌, IfOk, map};
ghost use Rattle.qs_meaning.specs.audit.Serial.{IsLegal};
ghost use Rattle.qs_objects.specs.declared.held.Ticket.{Ticket};
ghost use Rattle.qs_serial.specs.audit.NamedOrders.{order_of};
ghost use Rattle.qs_standings.specs.Standings.{IsFirst};

use crate::standing::Standing;
use qs_objects::Ticket;
use qs_program::Program;
use std::alloc::{AllocError, Global};

/// Where the program stands after these clients' blocks, each client's in turn. An error says that memory was refused.
pub fn placed(alloc: Global, program: &Program, clients: &[u8]) -> Result<Standing, AllocError>
    requires legal { IsLegal program.now (order_of clients.now) }
    ensures first { IfOk result (IsFirst program.now (order_of clients.now)) }
{
    program.keeps_sound();
    let mut standing = Standing::first(alloc, program)?;
    for client in clients {
        standing = standing.next(alloc, program, standing.order(), *client)?;
    }
    Ok(standing)
}

// The clients of an order's tickets.
fn clients_of(alloc: Global, order: &[Ticket]) -> Result<Vec<u8>, AllocError>
    ensures clients { IfOk result (λ clients. clients.items ≡ map (λ (t : Ticket). t.client) order.now) }
{
    order.iter().map(|ticket| ticket.client).collect(alloc)
}

/// Where the program stands after a legal order of whole blocks. An error says that memory was refused.
pub fn standing_after(
    alloc: Global,
    program: &Program,
    order: &[Ticket],
) -> Result<Standing, AllocError>
    requires legal { IsLegal program.now order.now }
    ensures first { IfOk result (IsFirst program.now order.now) }
{
    let clients = clients_of(alloc, order)?;
    placed(alloc, program, clients.as_slice())
}
