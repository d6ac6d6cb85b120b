//! The handlers, side by side.

ghost use Rattle.std.specs.Prelude.{◌≡◌, ◌<◌, ℕ, IfOk, length, map, vec_len};
ghost use Rattle.qs_plain.specs.handler.Beginning.{AreIdle, idle};
ghost use Rattle.qs_plain_laws.specs.audit.Plain.{fresh_handler};
ghost use Rattle.qs_plain.specs.handler.Handlers.{CanEnterAll, CanLog, CanLogAll, entered_all, logged_all, logged_at};
ghost use Rattle.qs_plain.specs.client.Queues.{QueueState};
ghost use Rattle.qs_plain_laws.specs.declared.item.QueueItem.TheVariants as items;

use crate::client::PrivateQueue;
use crate::handler::handler::HandlerState;
use qs_objects::{Request, Ticket};
use qs_plain_laws::QueueItem;
use qs_played::declared_held;
use qs_program::Program;
use std::alloc::{AllocError, Global};
use std::collections::VecDeque;

/// Logs a command at one handler.
#[inline(always)]
pub fn log_command(handlers: &mut Vec<HandlerState>, object: u8, ticket: Ticket, request: Request)
    requires { CanLog ticket handlers.old.items object }
    ensures logged { handlers.new.items ≡ logged_at ticket (items.Command request) handlers.old.items object }
{
    let handler = &mut handlers[usize::from(object)];
    handler.log_command(ticket, request);
}

/// Logs a query at one handler.
#[inline(always)]
pub fn log_query(handlers: &mut Vec<HandlerState>, object: u8, ticket: Ticket, request: Request)
    requires { CanLog ticket handlers.old.items object }
    ensures logged { handlers.new.items ≡ logged_at ticket (items.Query request) handlers.old.items object }
{
    let handler = &mut handlers[usize::from(object)];
    handler.log_query(ticket, request);
}

fn log_at(handlers: &mut Vec<HandlerState>, object: u8, ticket: Ticket, item: &QueueItem)
    requires { CanLog ticket handlers.old.items object }
    ensures logged { handlers.new.items ≡ logged_at ticket item.now handlers.old.items object }
    ensures len { vec_len handlers.new ≡ vec_len handlers.old }
{
    let handler = &mut handlers[usize::from(object)];
    handler.log(ticket, item);
}

/// Logs an item at each handler of a list.
pub fn log_all(handlers: &mut Vec<HandlerState>, objects: &[u8], ticket: Ticket, item: &QueueItem)
    requires { CanLogAll ticket handlers.old.items objects.now }
    ensures logged { handlers.new.items ≡ logged_all ticket item.now handlers.old.items objects.now }
{
    for object in objects {
        log_at(handlers, *object, ticket, item);
    }
}

/// Puts each private queue at the end of its handler's queue of queues.
pub fn enter_all(handlers: &mut Vec<HandlerState>, mut queues: VecDeque<(u8, PrivateQueue)>)
    requires { CanEnterAll handlers.old.items (map (λ (q : ℕ × QueueState). q.0) queues.items) }
    ensures entered { handlers.new.items ≡ entered_all handlers.old.items queues.items }
{
    'each: while let Some((object, queue)) = queues.pop_front() {
        let handler = &mut handlers[usize::from(object)];
        handler.enter(queue);
    }
}

/// The handlers of a program, each with its object as declared and room for so many reservations.
pub fn fresh_handlers(
    alloc: Global,
    program: &Program,
    room: usize,
) -> Result<Vec<HandlerState>, AllocError>
    ensures idle { IfOk result (λ handlers. AreIdle program.now room handlers.items) }
{
    program.keeps_sound();
    let mut handlers = Vec::new(alloc);
    for object in 0..program.objects() as u8 {
        handlers.push(fresh_handler(alloc, program, object, room)?)?;
    }
    Ok(handlers)
}

fn fresh_handler(
    alloc: Global,
    program: &Program,
    object: u8,
    room: usize,
) -> Result<HandlerState, AllocError>
    requires { object < length program.now.objects }
    ensures idle { IfOk result (λ handler. handler ≡ idle program.now room object) }
{
    let held = declared_held(alloc, program, object)?;
    HandlerState::new(alloc, held, room)
}
