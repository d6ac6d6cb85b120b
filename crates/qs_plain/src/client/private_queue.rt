//! Private queues.

ghost use Rattle.std.specs.Prelude.{◌≡◌, ◌+◌, ◌-◌, ◌<◌, [], ◌∷◌, List, IfOk, MatchOption, if◌then◌else◌, true};
ghost use Rattle.qs_objects.specs.audit.Parts.{same as same_ticket};
ghost use Rattle.qs_plain_laws.specs.audit.Plain.{put_item};
ghost use Rattle.qs_plain.specs.client.Queues.{IsPlace, queue_state};
ghost use Rattle.qs_plain_laws.specs.declared.item.QueueItem.{QueueItem as ItemShape};
ghost use Rattle.qs_plain_laws.specs.declared.item.QueueItem.TheVariants as items;

mod reading;

use qs_objects::{Request, Ticket};
use qs_plain_laws::QueueItem;
use std::alloc::{AllocError, Global};
use std::collections::VecDeque;
use std::marker::Model;

/// The private queue of a reservation, which takes memory in `new` alone.
pub struct PrivateQueue {
    ticket: Ticket,
    items: VecDeque<QueueItem>,
    room: usize,
}

impl Drop for PrivateQueue {
    fn drop(self) {
        let PrivateQueue {
            ticket: _,
            items: _,
            room: _,
        } = self;
    }
}

impl Model for PrivateQueue {
    ghost use Rattle.std.specs.Prelude.{◌≤◌, ◌+◌};
    ghost use Rattle.std.specs.VecDeque.{deque_len, deque_capacity};
    ghost use Rattle.qs_plain.specs.client.Queues.{QueueState, queue_state};

    ghost Value = { QueueState };

    ghost view = { λ q. queue_state q.ticket q.items.items q.room };

    ghost invariant = { λ q. deque_len q.items + q.room ≤ deque_capacity q.items };
}

impl PrivateQueue {
    /// An empty one, in which `room` items can be logged.
    pub fn new(alloc: Global, ticket: Ticket, room: usize) -> Result<PrivateQueue, AllocError>
        ensures fresh { IfOk result (λ q. q ≡ queue_state ticket [] room) }
    {
        let items = VecDeque::with_capacity(alloc, room)?;
        Ok(PrivateQueue {
            ticket,
            items,
            room,
        })
    }

    /// The reservation that it belongs to.
    pub fn ticket(&self) -> Ticket
        ensures value { result ≡ self.now.queue.ticket }
    {
        self.ticket
    }

    /// Whether it is the ticket's.
    #[inline(always)]
    pub fn is_of(&self, ticket: Ticket) -> bool
        ensures value { result ≡ same_ticket ticket self.now.queue.ticket }
    {
        self.ticket.client == ticket.client && self.ticket.index == ticket.index
    }

    /// Logs an item if the queue is the ticket's; its copy goes into the queue.
    pub fn put(&mut self, ticket: Ticket, item: &QueueItem)
        requires { same_ticket ticket self.old.queue.ticket ≡ true → 0 < self.old.room }
        ensures queue { self.new.queue ≡ put_item ticket item.now self.old.queue }
        ensures room { self.new.room ≡ self.old.room - (if same_ticket ticket self.old.queue.ticket then 1 else 0) }
    {
        if self.is_of(ticket) {
            self.items.push_back_reserved(item.copied());
            self.room -= 1;
        }
    }

    /// Logs a command if the queue is the ticket's; the request itself goes into the queue.
    #[inline(always)]
    pub fn put_command(&mut self, ticket: Ticket, request: Request)
        requires { same_ticket ticket self.old.queue.ticket ≡ true → 0 < self.old.room }
        ensures queue { self.new.queue ≡ put_item ticket (items.Command request) self.old.queue }
        ensures room { self.new.room ≡ self.old.room - (if same_ticket ticket self.old.queue.ticket then 1 else 0) }
    {
        if self.is_of(ticket) {
            self.items.push_back_reserved(QueueItem::Command(request));
            self.room -= 1;
        }
    }

    /// Logs a query if the queue is the ticket's; the request itself goes into the queue.
    #[inline(always)]
    pub fn put_query(&mut self, ticket: Ticket, request: Request)
        requires { same_ticket ticket self.old.queue.ticket ≡ true → 0 < self.old.room }
        ensures queue { self.new.queue ≡ put_item ticket (items.Query request) self.old.queue }
        ensures room { self.new.room ≡ self.old.room - (if same_ticket ticket self.old.queue.ticket then 1 else 0) }
    {
        if self.is_of(ticket) {
            self.items.push_back_reserved(QueueItem::Query(request));
            self.room -= 1;
        }
    }

    /// Its first item.
    pub fn first(&self) -> Option<&QueueItem>
        ensures value { MatchOption result (self.now.queue.items ≡ []) (λ item. (rest : List ItemShape) × (self.now.queue.items ≡ item.now ∷ rest)) }
    {
        self.items.front()
    }

    /// Takes its first item.
    pub fn pop(&mut self) -> Option<QueueItem>
        ensures cases { MatchOption result ((self.old.queue.items ≡ []) × (self.new ≡ self.old))
            (λ item. self.old ≡ queue_state self.new.queue.ticket (item ∷ self.new.queue.items) self.new.room) }
    {
        self.items.pop_front()
    }
}

/// Where the ticket's private queue waits among these, the last of which is looked at first; past all of them where
/// none is the ticket's.
#[inline(always)]
pub fn last_place(queues: &[PrivateQueue], ticket: Ticket) -> usize
    ensures place { IsPlace ticket queues.now result }
{
    let mut place = queues.len();
    'back: while place > 0 {
        place -= 1;
        if queues[place].is_of(ticket) {
            return place;
        }
    }
    queues.len()
}
