//! What an order of whole blocks shows in the optimised machine, and what is told of it.

ghost use Rattle.std.specs.Prelude.{◌≡◌, ◌<◌, IfOk, IsErrOf, OnOk};
ghost use Rattle.qs_meaning.specs.audit.Serial.{IsLegal};
ghost use Rattle.qs_program.specs.audit.Program.{blocks_of};
ghost use Rattle.qs_serial.specs.audit.NamedOrders.{order_of};
ghost use Rattle.qs_core_laws.specs.orders.CoreOrders.{IsPlayedInOrderOn};
ghost use Rattle.qs_core_laws.specs.orders.CoreQuiet.{turn_of as the_turn};
ghost use Rattle.qs_core.specs.CoreOrders.{IsOneBlockOn, IsQuietNow, blocks_begun};
ghost use Rattle.qs_steps.specs.Orders.{HasGoneOn, IsOrderToldIn, WasReached};
ghost use Rattle.qs_steps.specs.Telling.{core_view};

use crate::orders::Lines;
use crate::telling::queues_of;
use crate::wanted::{Told, Wanted};
use qs_chunk::ChunkSize;
use qs_core::Core;
use qs_played::Actor;
use qs_program::Program;
use qs_serial::{OrderFault, names_order};
use qs_syncset::Mode;
use std::alloc::{AllocError, Global};

// A turn of a client: one step of it, and then two of each handler, in text order.
fn turn_of(alloc: Global, program: &Program, client: u8) -> Result<Vec<Actor>, AllocError>
    ensures turn { IfOk result (λ turn. turn.items ≡ the_turn program.now client) }
{
    program.keeps_sound();
    let mut turn = Vec::new(alloc);
    turn.push(Actor::Client(client))?;
    for handler in 0..program.objects() as u8 {
        turn.push(Actor::Handler(handler))?;
        turn.push(Actor::Handler(handler))?;
    }
    Ok(turn)
}

// The next block of a client, from its reservation to its end, where nobody is in a block: turns of the client, until
// the block has ended.
fn put_block(
    alloc: Global,
    lines: &mut Lines,
    program: &Program,
    core: &mut Core,
    client: u8,
) -> Result<(), AllocError>
    requires own { core.old.program ≡ program.now }
    requires reached { WasReached program.now core.old }
    requires quiet { IsQuietNow core.old }
    requires left { blocks_begun core.old client < blocks_of core.old.program client }
    ensures on { OnOk result (IsOneBlockOn core.old client core.new) }
    ensures told { OnOk result (HasGoneOn core_view program.now lines.old core.old lines.new core.new) }
{
    program.keeps_sound();
    let turn = turn_of(alloc, program, client)?;
    let index = core.begun(client) as u8;
    lines.put(alloc, program, core, turn.as_slice())?;
    for _turn in 0..u64::MAX {
        if core.has_ended(client, index) {
            return Ok(());
        }
        lines.put(alloc, program, core, turn.as_slice())?;
    }
    Ok(())
}

// The texts, and what the run has shown.
fn tell_order(
    alloc: Global,
    program: &Program,
    mode: Mode,
    size: ChunkSize,
    clients: &[u8],
    wanted: Wanted,
) -> Result<Told, AllocError>
    requires legal { IsLegal program.now (order_of clients.now) }
    ensures told { IfOk result (λ told. IsOrderToldIn program.now mode size (order_of clients.now) wanted told.steps.items told.queues.items told.played) }
    ensures played { IfOk result (λ told. IsPlayedInOrderOn program.now mode size (order_of clients.now) told.played) }
{
    program.keeps_sound();
    let mut core = Core::new(alloc, program, mode, size)?;
    let mut lines = Lines::new(alloc, wanted.form);
    for client in clients {
        put_block(alloc, &mut lines, program, &mut core, *client)?;
    }
    let queues = queues_of(alloc, program, &mut core, wanted)?;
    let played = core.into_played(alloc)?;
    Ok(lines.into_told(wanted, queues, played))
}

/// What a program shows in the optimised machine after the blocks that a list of clients names, one after another, as
/// `play_in_order` has it; and what is asked for, the lines of the steps and what lies where after them. The texts are
/// exactly the definitions', by the codes of the program's clients in this mode. `Order` comes exactly where no legal
/// order is named, before any allocation; `Memory` where one fails.
pub fn play_order_told(
    alloc: Global,
    program: &Program,
    mode: Mode,
    size: ChunkSize,
    clients: &[u8],
    wanted: Wanted,
) -> Result<Told, OrderFault>
    ensures legal { IfOk result (λ told. IsLegal program.now (order_of clients.now)) }
    ensures told { IfOk result (λ told. IsOrderToldIn program.now mode size (order_of clients.now) wanted told.steps.items told.queues.items told.played) }
    ensures played { IfOk result (λ told. IsPlayedInOrderOn program.now mode size (order_of clients.now) told.played) }
    ensures order { IsErrOf result OrderFault.Order → ¬ IsLegal program.now (order_of clients.now) }
    ensures memory { IsErrOf result OrderFault.Memory → IsLegal program.now (order_of clients.now) }
{
    if !names_order(program, clients) {
        return Err(OrderFault::Order);
    }
    match tell_order(alloc, program, mode, size, clients, wanted) {
        Ok(told) => Ok(told),
        Err(_) => Err(OrderFault::Memory),
    }
}
