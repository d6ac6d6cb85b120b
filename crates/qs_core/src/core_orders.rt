//! Orders of blocks on the optimised machine.

ghost use Rattle.std.specs.Prelude.{IfOk, IsErrOf};
ghost use Rattle.qs_meaning.specs.audit.Serial.{IsLegal};
ghost use Rattle.qs_serial.specs.audit.NamedOrders.{order_of};
ghost use Rattle.qs_core_laws.specs.orders.CoreOrders.{IsPlayedInOrderOn};

use crate::optimised::Core;
use qs_chunk::ChunkSize;
use qs_played::Played;
use qs_program::Program;
use qs_serial::{OrderFault, names_order};
use qs_syncset::Mode;
use std::alloc::{AllocError, Global};

/// What a program shows in the optimised machine after the blocks that a list of clients names, each client's in turn:
/// one block after another, each from its reservation to its end, by turns of one step of the client and two of each
/// handler. What is shown are exactly these blocks in this order, all ended, and the run is finished where they are
/// all. `Order` comes exactly where no legal order is named, before any allocation; `Memory` where one fails. It is
/// isolated and counted like every run.
pub fn play_in_order(
    alloc: Global,
    program: &Program,
    mode: Mode,
    size: ChunkSize,
    clients: &[u8],
) -> Result<Played, OrderFault>
    ensures legal { IfOk result (λ played. IsLegal program.now (order_of clients.now)) }
    ensures played { IfOk result (IsPlayedInOrderOn program.now mode size (order_of clients.now)) }
    ensures order { IsErrOf result OrderFault.Order → ¬ IsLegal program.now (order_of clients.now) }
    ensures memory { IsErrOf result OrderFault.Memory → IsLegal program.now (order_of clients.now) }
{
    if !names_order(program, clients) {
        return Err(OrderFault::Order);
    }
    match play_clients(alloc, program, mode, size, clients) {
        Ok(played) => Ok(played),
        Err(_) => Err(OrderFault::Memory),
    }
}

fn play_clients(
    alloc: Global,
    program: &Program,
    mode: Mode,
    size: ChunkSize,
    clients: &[u8],
) -> Result<Played, AllocError>
    requires legal { IsLegal program.now (order_of clients.now) }
    ensures played { IfOk result (IsPlayedInOrderOn program.now mode size (order_of clients.now)) }
{
    program.keeps_sound();
    let mut core = Core::new(alloc, program, mode, size)?;
    for client in clients {
        core.play_block(*client);
    }
    core.into_played(alloc)
}
