//! What is booked at a desk.

ghost use Rattle.std.specs.Prelude.{◌≡◌, ℕ, ◌+◌, ◌<◌, ◌≤◌, false, true, List, [], ◌∷◌, ◌++◌, length, vec_capacity, map, replicate};
ghost use Rattle.qs_program.specs.audit.Limits.{most_clients, most_handlers};
ghost use Rattle.qs_program.specs.audit.Program.{blocks_of};
ghost use Rattle.qs_meaning.specs.audit.Serial.{IsLegal};
ghost use Rattle.qs_program.specs.Sound.{IsSound};
ghost use Rattle.qs_desk.specs.Limits.{all_bookings};
ghost use Rattle.qs_desk.specs.TicketQueues.{queue_at, with_ticket, closed_queue, queue_name, IsNewQueue, MayGrow, MayClose};
ghost use Rattle.qs_desk.specs.Plans.{lists_of_program};
ghost use Rattle.qs_desk.specs.audit.Tickets.{of_client, pushed_to};
ghost use Rattle.qs_desk.specs.Tickets.{ticket};
ghost use Rattle.qs_desk.specs.Wakings.{AreReserved};
ghost use Rattle.qs_objects.specs.declared.held.Next.{Next};

use crate::name::DeskName;
use crate::plan::ReservedLists;
use crate::queue::{TicketSender, TicketTaker, Tickets};
use crate::share::{Books, Share};
use qs_objects::{Next, Ticket};
use qs_program::MOST_HANDLERS;
use std::marker::Model;
use std::sync::Wait;

/// The order of all reservations, and the desk's ends of the handlers' queues of tickets.
pub(crate) struct Bookings<D: DeskName> {
    plan: ReservedLists,
    history: Vec<Ticket>,
    senders: Vec<TicketSender>,
    books: Books<D>,
    closed: bool,
}

/// For each handler whether it is reserved, or to be woken.
pub(crate) type Reserved = [bool; MOST_HANDLERS];

impl<D: DeskName> Drop for Bookings<D> {
    fn drop(self) {
        let Bookings {
            plan: _,
            history: _,
            senders: _,
            books: _,
            closed: _,
        } = self;
    }
}

impl<D: DeskName> Model for Bookings<D> {
    ghost use Rattle.std.specs.Prelude.{◌≡◌, ◌≤◌, vec_capacity};
    ghost use Rattle.qs_desk.specs.Desks.{IsDesk};
    ghost use Rattle.qs_desk.specs.Limits.{all_bookings};
    ghost use Rattle.qs_desk.specs.Plans.{lists_of_program};
    ghost use Rattle.qs_desk.specs.Views.{DeskView};

    ghost Value = { DeskView };

    ghost view = { λ d. record { history = d.history.items; closed = d.closed } };

    ghost invariant = { λ d.
        IsDesk D.program D.queues d.history.items d.closed d.senders.items d.books
        × (d.plan ≡ lists_of_program D.program)
        × (all_bookings ≤ vec_capacity d.history) };
}

impl<D: DeskName> Bookings<D> {
    pub(crate) fn new(
        plan: ReservedLists,
        history: Vec<Ticket>,
        senders: Vec<TicketSender>,
        books: Books<D>,
    ) -> Bookings<D>
        requires program { IsSound D.program × (plan ≡ lists_of_program D.program) }
        requires history { (history.items ≡ []) × (all_bookings ≤ vec_capacity history) }
        requires names { (map queue_name senders.items ≡ D.queues) × (length senders.items ≡ length D.program.objects) }
        requires senders { (h : ℕ) → h < length senders.items → IsNewQueue D.program h (queue_at senders.items h) }
        requires books { books ≡ replicate most_clients 0 }
        ensures desk { result ≡ record { history = []; closed = false } }
    {
        Bookings {
            plan,
            history,
            senders,
            books,
            closed: false,
        }
    }

    /// Books a client's next block: the history grows by its ticket, and so does the queue of each handler that the
    /// block reserves, all in one. It says which handlers were reserved, and wakes nobody.
    pub(crate) fn book_and_tell<R: Wait>(
        &mut self,
        rt: &R,
        share: &mut Share<D>,
    ) -> (Ticket, Reserved)
        requires unclosed { self.old.closed ≡ false }
        requires left { share.old.count < blocks_of D.program share.old.client }
        ensures ticket { result.0 ≡ ticket share.old.client share.old.count }
        ensures history { self.new ≡ record self.old { history = self.old.history ++ result.0 ∷ [] } }
        ensures share { share.new ≡ record share.old { count = share.old.count + 1 } }
        ensures told { AreReserved D.program result.0 result.1 }
    {
        let ticket = share.next();
        self.books.count(share);
        self.history.push_reserved(ticket);
        let reserved = push_ticket::<D, R>(rt, &self.plan, &mut self.senders, ticket);
        (ticket, reserved)
    }

    /// Puts the closing mark at the end of each handler's queue. It wakes nobody.
    pub(crate) fn close<R: Wait>(&mut self, rt: &R)
        requires unclosed { self.old.closed ≡ false }
        ensures closed { self.new ≡ record self.old { closed = true } }
    {
        self.closed = true;
        push_closed(rt, &mut self.senders);
    }

    /// The tickets of all reservations, in their order, which is legal.
    pub(crate) fn into_order(self) -> Vec<Ticket>
        ensures order { result.items ≡ self.history }
        ensures legal { IsLegal D.program self.history }
    {
        let Bookings {
            plan: _,
            history: order,
            senders: _,
            books: _,
            closed: _,
        } = self;
        order
    }

    /// The history has as many tickets of a client as its share says.
    pub(crate) fn booked(&mut self, share: &mut Share<D>)
        ensures same { (self.new ≡ self.old) × (share.new ≡ share.old) }
        ensures count { length (of_client share.old.client self.old.history) ≡ share.old.count }
    {
        self.books.check(share);
    }

    /// What a handler took is a front of what was pushed to it.
    pub(crate) fn follows(&mut self, tickets: Tickets<D>)
        ensures same { self.new ≡ self.old }
        ensures front { (rest : List Next) × (pushed_to D.program tickets.handler self.old.history self.old.closed ≡ tickets.taken ++ rest) }
    {
        let (handler, end) = tickets.into_end();
        compare_queue(self.senders.as_mut_slice(), handler, end);
    }
}

// The two ends of a handler's queue meet.
fn compare_queue(senders: &mut [TicketSender], handler: u8, end: TicketTaker)
    requires { (handler < length senders.old) × (end.name ≡ (queue_at senders.old handler).name) }
    ensures same { senders.new ≡ senders.old }
    ensures front { (rest : List Next) × ((queue_at senders.old handler).sent ≡ end.received ++ rest) }
{
    senders[usize::from(handler)].agree(end);
}

// Pushes a ticket to each handler that its block reserves, and tells which these are.
fn push_ticket<D: DeskName, R: Wait>(
    rt: &R,
    plan: &ReservedLists,
    senders: &mut Vec<TicketSender>,
    ticket: Ticket,
) -> Reserved
    requires plan { plan.now ≡ lists_of_program D.program }
    requires room { (h : ℕ) → h < length senders.old.items → MayGrow D.program ticket h (queue_at senders.old.items h) }
    requires all { length senders.old.items ≡ length D.program.objects }
    requires few { length senders.old.items ≤ most_handlers }
    ensures len { length senders.new.items ≡ length senders.old.items }
    ensures grown { (h : ℕ) → h < length senders.old.items → queue_at senders.new.items h ≡ with_ticket D.program ticket h (queue_at senders.old.items h) }
    ensures told { AreReserved D.program ticket result }
{
    let mut reserved = [false; MOST_HANDLERS];
    for handler in 0..senders.len() {
        if plan.reserves(ticket, handler) {
            senders[handler].push(rt, Next::Ticket(ticket));
            reserved[handler] = true;
        }
    }
    reserved
}

// Pushes the closing mark to each handler.
fn push_closed<R: Wait>(rt: &R, senders: &mut Vec<TicketSender>)
    requires room { (h : ℕ) → h < length senders.old.items → MayClose (queue_at senders.old.items h) }
    ensures len { length senders.new.items ≡ length senders.old.items }
    ensures closed { (h : ℕ) → h < length senders.old.items → queue_at senders.new.items h ≡ closed_queue (queue_at senders.old.items h) }
{
    for handler in 0..senders.len() {
        senders[handler].push(rt, Next::Closed);
    }
}
