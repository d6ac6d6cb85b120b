//! Handlers under the plain rules.

ghost use Rattle.std.specs.Prelude.{◌≡◌, ◌-◌, ◌<◌, [], ◌∷◌, ◌++◌, IfOk, map, nat_eq, length};
ghost use Rattle.std.specs.Bool.{OnTrue};
ghost use Rattle.qs_plain.specs.handler.Served.{HandlerState as State, ServesFirst, IsLoggable};
ghost use Rattle.qs_plain.specs.handler.Effects.{effect_of_queues, reply_in, unanswered};
ghost use Rattle.qs_plain.specs.declared.handler.handler.Served.TheVariants as services;
ghost use Rattle.qs_plain.specs.client.Queues.{IsPlace, QueueState, after_put};
ghost use Rattle.qs_plain_laws.specs.declared.item.QueueItem.TheVariants as items;

mod reading;

use crate::client::{PrivateQueue, last_place};
use crate::handler::effect::Effect;
use qs_objects::{Held, Request, Ticket};
use qs_plain_laws::QueueItem;
use std::alloc::{AllocError, Global};
use std::marker::Model;

/// What a handler's step did.
#[derive(Drop)]
pub enum Served {
    Nothing,
    Done,
    Replied(Ticket, Request, Option<i64>),
}

/// A handler: its queue of queues, and its object with the journal. It takes memory in `new` alone: there is room for
/// each reservation that may come, so a private queue that it has left stays where it is, before those that wait, and
/// nothing is moved.
#[derive(Drop)]
pub struct HandlerState {
    queues: Vec<PrivateQueue>,
    left: usize,
    room: usize,
    held: Held,
}

impl Model for HandlerState {
    ghost use Rattle.std.specs.Prelude.{◌≤◌, ◌+◌, drop, vec_len, vec_capacity};
    ghost use Rattle.qs_plain.specs.handler.Served.{HandlerState as State};

    ghost Value = { State };

    ghost view = { λ h. record { queues = drop h.left h.queues.items; room = h.room; held = h.held } };

    ghost invariant = { λ h. (h.left ≤ vec_len h.queues) × (vec_len h.queues + h.room ≤ vec_capacity h.queues) };
}

impl HandlerState {
    /// One that serves nobody, with room for so many reservations.
    pub fn new(alloc: Global, held: Held, room: usize) -> Result<HandlerState, AllocError>
        ensures fresh { IfOk result (λ h. h ≡ record { queues = []; room = room; held = held }) }
    {
        let queues = Vec::with_capacity(alloc, room)?;
        Ok(HandlerState {
            queues,
            left: 0,
            room,
            held,
        })
    }

    /// The object with its journal.
    pub fn into_held(self) -> Held
        ensures value { result ≡ self.held }
    {
        self.held
    }

    /// Whether a private queue is there.
    pub fn is_idle(&self) -> bool
        ensures value { result ≡ nat_eq (length self.now.queues) 0 }
    {
        self.left == self.queues.len()
    }

    // Whether the private queue that it serves is the ticket's.
    #[inline(always)]
    fn serves(&self, ticket: Ticket) -> bool
        ensures some { OnTrue result (0 < length self.now.queues) }
        ensures first { OnTrue result (IsPlace ticket self.now.queues 0) }
    {
        !self.is_idle() && self.queues[self.left].is_of(ticket)
    }

    /// Puts a private queue at the end of the queue of queues.
    pub fn enter(&mut self, queue: PrivateQueue)
        requires { 0 < self.old.room }
        ensures entered { self.new ≡ record { queues = self.old.queues ++ queue ∷ []; room = self.old.room - 1; held = self.old.held } }
    {
        self.queues.push_reserved(queue);
        self.room -= 1;
    }

    /// Logs an item in the ticket's private queue.
    pub fn log(&mut self, ticket: Ticket, item: &QueueItem)
        requires { IsLoggable ticket self.old.queues }
        ensures logged { self.new ≡ record { queues = map (after_put ticket item.now) self.old.queues; room = self.old.room; held = self.old.held } }
    {
        if self.serves(ticket) {
            self.queues[self.left].put(ticket, item);
            return;
        }
        let place = last_place(self.queues(), ticket);
        if place < self.queues.len() - self.left {
            self.queues[self.left + place].put(ticket, item);
        }
    }

    /// Logs a command in the ticket's private queue; the request itself goes there, and no copy of it.
    #[inline(always)]
    pub fn log_command(&mut self, ticket: Ticket, request: Request)
        requires { IsLoggable ticket self.old.queues }
        ensures logged { self.new ≡ record { queues = map (after_put ticket (items.Command request)) self.old.queues; room = self.old.room; held = self.old.held } }
    {
        if self.serves(ticket) {
            self.queues[self.left].put_command(ticket, request);
            return;
        }
        let place = last_place(self.queues(), ticket);
        if place < self.queues.len() - self.left {
            self.queues[self.left + place].put_command(ticket, request);
        }
    }

    /// Logs a query in the ticket's private queue, as a command is logged. They are two functions, each called in one
    /// place, so that no request is moved from one call to the next.
    #[inline(always)]
    pub fn log_query(&mut self, ticket: Ticket, request: Request)
        requires { IsLoggable ticket self.old.queues }
        ensures logged { self.new ≡ record { queues = map (after_put ticket (items.Query request)) self.old.queues; room = self.old.room; held = self.old.held } }
    {
        if self.serves(ticket) {
            self.queues[self.left].put_query(ticket, request);
            return;
        }
        let place = last_place(self.queues(), ticket);
        if place < self.queues.len() - self.left {
            self.queues[self.left + place].put_query(ticket, request);
        }
    }

    /// What it does next, if anything; the reply of a query is left open.
    pub fn next_effect(&self) -> Option<Effect>
        ensures value { result ≡ unanswered (effect_of_queues self.now.held (map (λ (q : QueueState). q.queue) self.now.queues)) }
    {
        let queue = match self.queues().first() {
            None => return None,
            Some(queue) => queue,
        };
        match queue.first() {
            None => None,
            Some(QueueItem::Command(request)) => Some(Effect::Runs(
                queue.ticket(),
                request.copied(),
            )),
            Some(QueueItem::Query(request)) => {
                Some(Effect::Answers(queue.ticket(), request.copied(), None))
            }
            Some(QueueItem::EndMark) => Some(Effect::Leaves(queue.ticket())),
        }
    }

    /// How many requests its object has served.
    pub fn served(&self) -> usize
        ensures value { result ≡ length self.now.held.journal }
    {
        self.held.journal().len()
    }

    /// The reply of the request that came to its object's journal after so many.
    pub fn reply_after(&self, before: usize) -> Option<i64>
        ensures value { result ≡ reply_in self.now.held.journal before }
    {
        match self.held.journal().get(before) {
            Some(entry) => entry.reply,
            None => None,
        }
    }

    /// Whether nothing is logged in the private queue that it serves, or none is there.
    #[inline(always)]
    pub fn has_nothing(&self) -> bool
        ensures nothing { OnTrue result (ServesFirst self.now self.now.queues services.Nothing self.now) }
    {
        self.is_idle() || self.queues[self.left].first().is_none()
    }

    /// Takes the first item of the first private queue: a request is run, an end mark takes the private queue away.
    #[inline(always)]
    pub fn serve(&mut self) -> Served
        ensures serves { ServesFirst self.old self.old.queues result self.new }
    {
        if self.is_idle() {
            return Served::Nothing;
        }
        let queue = &mut self.queues[self.left];
        let ticket = queue.ticket();
        match queue.pop() {
            None => Served::Nothing,
            Some(QueueItem::Command(request)) => {
                let _none = self.held.run(ticket, request);
                Served::Done
            }
            Some(QueueItem::Query(request)) => {
                let asked = request.copied();
                let reply = self.held.run(ticket, request);
                Served::Replied(ticket, asked, reply)
            }
            Some(QueueItem::EndMark) => {
                self.left += 1;
                Served::Done
            }
        }
    }
}
