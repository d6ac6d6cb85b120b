//! The optimised machine.

ghost use Rattle.std.specs.Prelude.{◌≡◌, ◌<◌, None, Some, false, length, slice_index_or, vec_len, IfOk};
ghost use Rattle.std.specs.Bool.{OnTrue};
ghost use Rattle.qs_core_laws.specs.audit.Core.{core_step};
ghost use Rattle.qs_core_laws.specs.audit.CoreSchedule.{core_played};
ghost use Rattle.qs_client.specs.audit.ClientModel.{has_ended};
ghost use Rattle.qs_core.specs.state.CoreState.{AreFreshClients, AreFreshHandlers, CoreKeeps, CoreSteps, StepsAreReached, IsCoreState, IsFreshClient, IsFreshCore, core_of, codes_of, client_part_at};
ghost use Rattle.qs_core.specs.parts.CoreClients.{CoreClientState};
ghost use Rattle.qs_core.specs.parts.CoreHandlers.{CanEnterAll, CoreHandlerState, with_ticket_at_all, with_ticket_at, core_handler_at, turns_to};
ghost use Rattle.qs_client.specs.declared.rules.act.Act.TheVariants as wants;
ghost use Rattle.qs_core.specs.CoreEffects.{act_at, core_effect, core_requests};
ghost use Rattle.qs_core.specs.parts.CoreClients.{turns_to as lane_wanted};
ghost use Rattle.qs_handler.specs.audit.Handler.{act_of};
ghost use Rattle.qs_played.specs.declared.schedule.actor.Actor.TheVariants as actors;

mod reading;

use crate::core_effect::CoreEffect;
use crate::core_effects::{client_effect, client_requests, handler_effect, handler_requests};
use crate::parts::{CoreClient, CoreHandler};
use crate::shown::shown;
use qs_chunk::ChunkSize;
use qs_objects::{Request, Ticket};
use qs_played::{Actor, Played, declared_held};
use qs_program::Program;
use qs_syncset::{Mode, compile};
use std::alloc::{AllocError, Global};
use std::marker::Model;

/// A program on its way in the optimised machine: clients with their lanes, and handlers with their queues of tickets.
/// Its steps take no memory.
#[derive(Drop)]
pub(crate) struct CoreMachine<'p> {
    program: &'p Program,
    size: ChunkSize,
    order: Vec<Ticket>,
    clients: Vec<CoreClient>,
    handlers: Vec<CoreHandler>,
}

impl<'p> Model for CoreMachine<'p> {
    ghost use Rattle.std.specs.Prelude.{◌≤◌, vec_capacity};
    ghost use Rattle.qs_core.specs.state.CoreState.{CoreState, IsCoreState, all_blocks, core_code};

    ghost Value = { CoreState };

    ghost coded = { core_code };

    ghost view = { λ m. record { program = m.program.now; size = m.size; order = m.order.items; clients = m.clients.items; handlers = m.handlers.items } };

    ghost invariant = { λ m.
        IsCoreState (record { program = m.program.now; size = m.size; order = m.order.items; clients = m.clients.items; handlers = m.handlers.items })
        × (all_blocks m.program.now ≤ vec_capacity m.order) };
}

// A ticket comes to each handler of a list.
fn enter_all(handlers: &mut Vec<CoreHandler>, objects: &[u8], ticket: Ticket)
    requires { CanEnterAll ticket handlers.old.items objects.now }
    ensures entered { handlers.new.items ≡ with_ticket_at_all ticket handlers.old.items objects.now }
{
    for object in objects {
        enter_at(handlers, *object, ticket);
    }
}

fn enter_at(handlers: &mut Vec<CoreHandler>, object: u8, ticket: Ticket)
    requires object { object < length handlers.old.items }
    requires room { length (core_handler_at handlers.old.items object).tickets < (core_handler_at handlers.old.items object).room }
    ensures entered { handlers.new.items ≡ with_ticket_at ticket handlers.old.items object }
    ensures len { vec_len handlers.new ≡ vec_len handlers.old }
{
    let handler = &mut handlers[usize::from(object)];
    handler.enter(ticket);
}

// The clients of a program before their first blocks.
fn fresh_clients(
    alloc: Global,
    program: &Program,
    mode: Mode,
    size: ChunkSize,
) -> Result<Vec<CoreClient>, AllocError>
    ensures fresh { IfOk result (λ clients. AreFreshClients program.now mode size clients.items) }
{
    program.keeps_sound();
    let mut clients = Vec::new(alloc);
    for number in 0..program.clients() as u8 {
        clients.push(fresh_client(alloc, program, mode, size, number)?)?;
    }
    Ok(clients)
}

fn fresh_client(
    alloc: Global,
    program: &Program,
    mode: Mode,
    size: ChunkSize,
    number: u8,
) -> Result<CoreClient, AllocError>
    requires { number < length program.now.clients }
    ensures fresh { IfOk result (λ client. IsFreshClient program.now mode size number client) }
{
    let code = compile(alloc, program, mode, number)?;
    CoreClient::new(alloc, code, size, program.objects())
}

// The handlers of a program, each with its object as declared and room for so many tickets.
fn fresh_handlers(
    alloc: Global,
    program: &Program,
    room: usize,
) -> Result<Vec<CoreHandler>, AllocError>
    ensures fresh { IfOk result (λ handlers. AreFreshHandlers program.now room handlers.items) }
{
    program.keeps_sound();
    let mut handlers = Vec::new(alloc);
    for object in 0..program.objects() as u8 {
        let held = declared_held(alloc, program, object)?;
        handlers.push(CoreHandler::new(alloc, held, room)?)?;
    }
    Ok(handlers)
}

impl<'p> CoreMachine<'p> {
    /// A program before its first step. It takes all the memory that the run will need, by the loads; an allocation
    /// that fails leaves nothing.
    pub(crate) fn new(
        alloc: Global,
        program: &'p Program,
        mode: Mode,
        size: ChunkSize,
    ) -> Result<CoreMachine<'p>, AllocError>
        ensures fresh { IfOk result (IsFreshCore program.now mode size) }
    {
        program.keeps_sound();
        let blocks = program.blocks();
        let clients = fresh_clients(alloc, program, mode, size)?;
        let handlers = fresh_handlers(alloc, program, blocks)?;
        let order = Vec::with_capacity(alloc, blocks)?;
        Ok(CoreMachine {
            program,
            size,
            order,
            clients,
            handlers,
        })
    }

    /// What holds of every machine. It does nothing.
    pub(crate) fn keeps_machine(&self)
        ensures state { IsCoreState self.now }
    {
        let _ = &self.order;
    }

    /// The program.
    pub(crate) fn program(&self) -> &Program
        ensures value { result.now ≡ self.now.program }
    {
        self.program
    }

    /// How many blocks a client has begun.
    pub(crate) fn begun(&self, number: u8) -> usize
        requires { number < length self.now.clients }
        ensures value { result ≡ (client_part_at self.now.clients number).mind.client.begun }
    {
        self.clients[usize::from(number)].begun()
    }

    /// Whether the block of a client with this number has ended.
    pub(crate) fn has_ended(&self, number: u8, index: u8) -> bool
        requires { number < length self.now.clients }
        ensures value { result ≡ has_ended (client_part_at self.now.clients number).mind.client index }
    {
        self.clients[usize::from(number)].has_ended(index)
    }

    /// The handler to whose lane a client turns; none for one that reserves or has finished.
    #[inline(always)]
    pub(crate) fn lane_of(&self, number: u8) -> Option<u8>
        requires { number < length self.now.clients }
        ensures value { result ≡ lane_wanted (act_at (codes_of self.now) self.now.size (core_of self.now) number) }
    {
        let client = &self.clients[usize::from(number)];
        client.has_next_act();
        client.handler()
    }

    /// The client to whose lane a handler turns; none for one that waits for a ticket.
    #[inline(always)]
    pub(crate) fn client_of(&self, number: u8) -> Option<u8>
        requires { number < length self.now.handlers }
        ensures value { result ≡ turns_to (act_of ((core_of self.now).handler number)) }
    {
        let handler = &self.handlers[usize::from(number)];
        handler.has_next_act();
        handler.client()
    }

    /// One step of a client: true where it has one, and else false, with nothing changed.
    #[inline(always)]
    pub(crate) fn step_client(&mut self, number: u8) -> bool
        requires number { number < length self.old.clients }
        requires keeps { CoreKeeps self.old }
        requires on { StepsAreReached self.old }
        ensures steps { OnTrue result (CoreSteps self.old (actors.Client number) self.new) }
        ensures none { result ≡ false → core_step (codes_of self.old) self.old.size (core_of self.old) (actors.Client number) ≡ None }
        ensures unchanged { result ≡ false → self.new ≡ self.old }
    {
        if self.clients[usize::from(number)].wants_block() {
            self.reserve(number);
            return true;
        }
        self.go_on(number)
    }

    // A client reserves the objects of its next block.
    #[inline(never)]
    fn reserve(&mut self, number: u8)
        requires number { number < length self.old.clients }
        requires asked { (d : CoreClientState) → (slice_index_or self.old.clients number d).act ≡ wants.Reserve }
        requires keeps { CoreKeeps self.old }
        requires on { StepsAreReached self.old }
        ensures steps { CoreSteps self.old (actors.Client number) self.new }
    {
        self.program.keeps_sound();
        let client = &self.clients[usize::from(number)];
        client.has_next_act();
        let ticket = Ticket {
            client: number,
            index: client.begun() as u8,
        };
        self.order.push_reserved(ticket);
        let block = self.program.block(number, ticket.index);
        enter_all(&mut self.handlers, block.reserved(), ticket);
        let client = &mut self.clients[usize::from(number)];
        client.book(ticket);
    }

    // A client goes on at a lane.
    fn go_on(&mut self, number: u8) -> bool
        requires number { number < length self.old.clients }
        requires other { (d : CoreClientState) → (slice_index_or self.old.clients number d).act ≡ wants.Reserve → ⊥ }
        requires keeps { CoreKeeps self.old }
        ensures steps { OnTrue result (CoreSteps self.old (actors.Client number) self.new) }
        ensures none { result ≡ false → core_step (codes_of self.old) self.old.size (core_of self.old) (actors.Client number) ≡ None }
        ensures unchanged { result ≡ false → self.new ≡ self.old }
    {
        let client = &mut self.clients[usize::from(number)];
        client.has_next_act();
        client.go_on()
    }

    /// One step of a handler: true where it has one, and else false, with nothing changed.
    #[inline(always)]
    pub(crate) fn step_handler(&mut self, number: u8) -> bool
        requires number { number < length self.old.handlers }
        requires keeps { CoreKeeps self.old }
        ensures steps { OnTrue result (CoreSteps self.old (actors.Handler number) self.new) }
        ensures none { result ≡ false → core_step (codes_of self.old) self.old.size (core_of self.old) (actors.Handler number) ≡ None }
        ensures unchanged { result ≡ false → self.new ≡ self.old }
    {
        match self.handlers[usize::from(number)].client() {
            None => self.take_ticket(number),
            Some(client) => self.serve_lane(number, client),
        }
    }

    // A handler takes the next ticket of its queue.
    fn take_ticket(&mut self, number: u8) -> bool
        requires number { number < length self.old.handlers }
        requires asked { (d : CoreHandlerState) → turns_to (slice_index_or self.old.handlers number d).act ≡ None }
        requires keeps { CoreKeeps self.old }
        ensures steps { OnTrue result (CoreSteps self.old (actors.Handler number) self.new) }
        ensures none { result ≡ false → core_step (codes_of self.old) self.old.size (core_of self.old) (actors.Handler number) ≡ None }
        ensures unchanged { result ≡ false → self.new ≡ self.old }
    {
        let handler = &mut self.handlers[usize::from(number)];
        handler.has_next_act();
        handler.take_ticket()
    }

    // A handler does what it does next at the lane of its client.
    fn serve_lane(&mut self, number: u8, client: u8) -> bool
        requires number { number < length self.old.handlers }
        requires asked { (d : CoreHandlerState) → turns_to (slice_index_or self.old.handlers number d).act ≡ Some client }
        requires keeps { CoreKeeps self.old }
        ensures steps { OnTrue result (CoreSteps self.old (actors.Handler number) self.new) }
        ensures none { result ≡ false → core_step (codes_of self.old) self.old.size (core_of self.old) (actors.Handler number) ≡ None }
        ensures unchanged { result ≡ false → self.new ≡ self.old }
    {
        let handler = &mut self.handlers[usize::from(number)];
        handler.has_next_act();
        let client = &mut self.clients[usize::from(client)];
        client.serve_lane(number, handler)
    }

    /// What an actor does next, if it steps; none for an actor that is not there.
    pub(crate) fn next_effect(&self, actor: Actor) -> Option<CoreEffect>
        requires keeps { CoreKeeps self.now }
        ensures value { result ≡ core_effect (codes_of self.now) self.now.size (core_of self.now) actor }
    {
        self.keeps_machine();
        match actor {
            Actor::Client(client) => {
                if usize::from(client) < self.clients.len() {
                    client_effect(&self.clients, client)
                } else {
                    None
                }
            }
            Actor::Handler(handler) => {
                if usize::from(handler) < self.handlers.len() {
                    handler_effect(&self.clients, &self.handlers, handler)
                } else {
                    None
                }
            }
        }
    }

    /// The requests of the chunk that an actor sends or runs next, if it does; nothing changes. An error says that
    /// their memory was refused.
    pub(crate) fn requests(
        &mut self,
        alloc: Global,
        actor: Actor,
    ) -> Result<Vec<Request>, AllocError>
        requires keeps { CoreKeeps self.old }
        ensures value { IfOk result (λ requests. requests.items ≡ core_requests (codes_of self.old) self.old.size (core_of self.old) actor) }
        ensures same { self.new ≡ self.old }
    {
        self.keeps_machine();
        match actor {
            Actor::Client(client) => {
                if usize::from(client) < self.clients.len() {
                    client_requests(alloc, &mut self.clients, client)
                } else {
                    Ok(Vec::new(alloc))
                }
            }
            Actor::Handler(handler) => {
                if usize::from(handler) < self.handlers.len() {
                    handler_requests(alloc, &mut self.clients, &self.handlers, handler)
                } else {
                    Ok(Vec::new(alloc))
                }
            }
        }
    }

    /// What the run has shown.
    pub(crate) fn into_played(self, alloc: Global) -> Result<Played, AllocError>
        requires keeps { CoreKeeps self }
        ensures shown { IfOk result (λ played. played ≡ core_played self.entry.program (core_of self.entry)) }
    {
        self.program.keeps_sound();
        shown(alloc, self.order, self.clients, self.handlers)
    }
}
