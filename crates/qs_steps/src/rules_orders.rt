//! What an order of whole blocks shows under the plain rules, and what is told of it.

ghost use Rattle.std.specs.Prelude.{◌≡◌, ◌<◌, ◌∷◌, IfOk, IsErrOf, OnOk, map};
ghost use Rattle.qs_meaning.specs.audit.Serial.{IsLegal};
ghost use Rattle.qs_program.specs.audit.Program.{blocks_of};
ghost use Rattle.qs_played.specs.declared.schedule.actor.Actor.TheVariants as actors;
ghost use Rattle.qs_serial.specs.audit.NamedOrders.{order_of};
ghost use Rattle.qs_plain_laws.specs.orders.PlainOrders.{IsPlayedInOrder};
ghost use Rattle.qs_plain.specs.Blocks.{IsOneBlockOn, IsQuietNow, blocks_begun};
ghost use Rattle.qs_steps.specs.Orders.{HasGoneOn, IsOrderTold};
ghost use Rattle.qs_steps.specs.Telling.{rules_view};

use crate::orders::Lines;
use crate::telling::queues_of;
use crate::wanted::{Told, Wanted};
use qs_plain::Rules;
use qs_played::Actor;
use qs_program::Program;
use qs_serial::{OrderFault, names_order};
use std::alloc::{AllocError, Global};

// A turn of a client: one step of it, and then one of each handler of a list.
fn turn_of(alloc: Global, client: u8, handlers: &[u8]) -> Result<Vec<Actor>, AllocError>
    ensures turn { IfOk result (λ turn. turn.items ≡ actors.Client client ∷ map actors.Handler handlers.now) }
{
    let mut turn = Vec::new(alloc);
    turn.push(Actor::Client(client))?;
    for handler in handlers {
        turn.push(Actor::Handler(*handler))?;
    }
    Ok(turn)
}

// The next block of a client, from its reservation to its end, where nobody is in a block: the client and the handlers
// of the block's list step in turn.
fn put_block(
    alloc: Global,
    lines: &mut Lines,
    program: &Program,
    rules: &mut Rules,
    client: u8,
) -> Result<(), AllocError>
    requires own { rules.old.program ≡ program.now }
    requires quiet { IsQuietNow rules.old }
    requires left { blocks_begun rules.old client < blocks_of rules.old.program client }
    ensures on { OnOk result (IsOneBlockOn rules.old client rules.new) }
    ensures told { OnOk result (HasGoneOn rules_view program.now lines.old rules.old lines.new rules.new) }
{
    program.keeps_sound();
    let index = rules.begun(client) as u8;
    let turn = turn_of(alloc, client, program.block(client, index).reserved())?;
    lines.put(alloc, program, rules, &[Actor::Client(client)])?;
    'turns: while !rules.is_out(client) {
        lines.put(alloc, program, rules, turn.as_slice())?;
    }
    Ok(())
}

// The texts, and what the run has shown.
fn tell_order(
    alloc: Global,
    program: &Program,
    clients: &[u8],
    wanted: Wanted,
) -> Result<Told, AllocError>
    requires legal { IsLegal program.now (order_of clients.now) }
    ensures told { IfOk result (λ told. IsOrderTold program.now (order_of clients.now) wanted told.steps.items told.queues.items told.played) }
    ensures played { IfOk result (λ told. IsPlayedInOrder program.now (order_of clients.now) told.played) }
{
    program.keeps_sound();
    let mut rules = Rules::new(alloc, program)?;
    let mut lines = Lines::new(alloc, wanted.form);
    for client in clients {
        put_block(alloc, &mut lines, program, &mut rules, *client)?;
    }
    let queues = queues_of(alloc, program, &mut rules, wanted)?;
    let played = rules.into_played(alloc)?;
    Ok(lines.into_told(wanted, queues, played))
}

/// What a program shows under the plain rules after the blocks that a list of clients names, one after another, as
/// `play_plain_in_order` has it; and what is asked for, the lines of the steps and what lies where after them. The texts
/// are exactly the definitions'. `Order` comes exactly where no legal order is named, before any allocation; `Memory`
/// where one fails.
pub fn rules_order_told(
    alloc: Global,
    program: &Program,
    clients: &[u8],
    wanted: Wanted,
) -> Result<Told, OrderFault>
    ensures legal { IfOk result (λ told. IsLegal program.now (order_of clients.now)) }
    ensures told { IfOk result (λ told. IsOrderTold program.now (order_of clients.now) wanted told.steps.items told.queues.items told.played) }
    ensures played { IfOk result (λ told. IsPlayedInOrder program.now (order_of clients.now) told.played) }
    ensures order { IsErrOf result OrderFault.Order → ¬ IsLegal program.now (order_of clients.now) }
    ensures memory { IsErrOf result OrderFault.Memory → IsLegal program.now (order_of clients.now) }
{
    if !names_order(program, clients) {
        return Err(OrderFault::Order);
    }
    match tell_order(alloc, program, clients, wanted) {
        Ok(told) => Ok(told),
        Err(_) => Err(OrderFault::Memory),
    }
}
