//! The desk.

ghost use Rattle.std.specs.Prelude.{◌≡◌, ℕ, ◌+◌, ◌<◌, ◌≤◌, false, true, List, [], ◌∷◌, ◌++◌, length, vec_capacity, map, replicate};
ghost use Rattle.qs_program.specs.audit.Limits.{most_clients};
ghost use Rattle.qs_program.specs.audit.Program.{blocks_of};
ghost use Rattle.qs_meaning.specs.audit.Serial.{IsLegal};
ghost use Rattle.qs_program.specs.Sound.{IsSound};
ghost use Rattle.qs_desk.specs.Limits.{all_bookings};
ghost use Rattle.qs_desk.specs.TicketQueues.{queue_at, queue_name, IsNewQueue};
ghost use Rattle.qs_desk.specs.Plans.{lists_of_program};
ghost use Rattle.qs_desk.specs.audit.Tickets.{of_client, pushed_to};
ghost use Rattle.qs_desk.specs.Tickets.{ticket};
ghost use Rattle.qs_objects.specs.declared.held.Next.{Next};

use crate::bookings::Bookings;
use crate::name::DeskName;
use crate::plan::ReservedLists;
use crate::queue::{TicketSender, TicketWaker, Tickets};
use crate::share::{Books, Share};
use qs_objects::Ticket;
use std::marker::Model;
use std::sync::Wait;

/// The desk: the order of all reservations, and the desk's ends of the handlers' queues of tickets. What wakes the
/// handlers lies here until the desk is put under a lock.
pub struct Desk<D: DeskName> {
    bookings: Bookings<D>,
    wakers: Vec<TicketWaker>,
}

impl<D: DeskName> Drop for Desk<D> {
    fn drop(self) {
        let Desk {
            bookings: _,
            wakers: _,
        } = self;
    }
}

impl<D: DeskName> Model for Desk<D> {
    ghost use Rattle.std.specs.Prelude.{◌≡◌};
    ghost use Rattle.qs_desk.specs.Views.{DeskView};

    ghost Value = { DeskView };

    ghost view = { λ d. d.bookings };

    ghost invariant = { λ d. d.wakers.items ≡ D.queues };
}

impl<D: DeskName> Desk<D> {
    pub(crate) fn new(
        plan: ReservedLists,
        history: Vec<Ticket>,
        senders: Vec<TicketSender>,
        books: Books<D>,
        wakers: Vec<TicketWaker>,
    ) -> Desk<D>
        requires program { IsSound D.program × (plan ≡ lists_of_program D.program) }
        requires history { (history.items ≡ []) × (all_bookings ≤ vec_capacity history) }
        requires names { (map queue_name senders.items ≡ D.queues) × (length senders.items ≡ length D.program.objects) }
        requires senders { (h : ℕ) → h < length senders.items → IsNewQueue D.program h (queue_at senders.items h) }
        requires books { books ≡ replicate most_clients 0 }
        requires wakers { wakers.items ≡ D.queues }
        ensures desk { result ≡ record { history = []; closed = false } }
    {
        Desk {
            bookings: Bookings::new(plan, history, senders, books),
            wakers,
        }
    }

    /// What was booked, with what wakes the handlers, by their numbers.
    pub(crate) fn with(bookings: Bookings<D>, wakers: Vec<TicketWaker>) -> Desk<D>
        requires own { wakers.items ≡ D.queues }
        ensures same { result ≡ bookings }
    {
        Desk { bookings, wakers }
    }

    /// What was booked, and what wakes each handler, by their numbers.
    pub(crate) fn into_parts(self) -> (Bookings<D>, Vec<TicketWaker>)
        ensures same { result.0 ≡ self }
        ensures own { result.1.items ≡ D.queues }
    {
        let Desk { bookings, wakers } = self;
        (bookings, wakers)
    }

    /// Books the next block of the share's client: the history grows by its ticket, and so does the queue of each
    /// handler that the block reserves, all in one. It wakes nobody.
    pub fn book<R: Wait>(&mut self, rt: &R, share: &mut Share<D>) -> Ticket
        requires unclosed { self.old.closed ≡ false }
        requires left { share.old.count < blocks_of D.program share.old.client }
        ensures ticket { result ≡ ticket share.old.client share.old.count }
        ensures history { self.new ≡ record self.old { history = self.old.history ++ result ∷ [] } }
        ensures share { share.new ≡ record share.old { count = share.old.count + 1 } }
    {
        self.bookings.book_and_tell(rt, share).0
    }

    /// Puts the closing mark at the end of each handler's queue. It wakes nobody.
    pub fn close<R: Wait>(&mut self, rt: &R)
        requires unclosed { self.old.closed ≡ false }
        ensures closed { self.new ≡ record self.old { closed = true } }
    {
        self.bookings.close(rt);
    }

    /// The tickets of all reservations, in their order, which is legal.
    pub fn into_order(self) -> Vec<Ticket>
        ensures order { result.items ≡ self.history }
        ensures legal { IsLegal D.program self.history }
    {
        let Desk {
            bookings,
            wakers: _,
        } = self;
        bookings.into_order()
    }

    /// The history has as many tickets of a client as its share says.
    pub(crate) fn booked(&mut self, share: &mut Share<D>)
        ensures same { (self.new ≡ self.old) × (share.new ≡ share.old) }
        ensures count { length (of_client share.old.client self.old.history) ≡ share.old.count }
    {
        self.bookings.booked(share);
    }

    /// What a handler took is a front of what was pushed to it.
    pub(crate) fn follows(&mut self, tickets: Tickets<D>)
        ensures same { self.new ≡ self.old }
        ensures front { (rest : List Next) × (pushed_to D.program tickets.handler self.old.history self.old.closed ≡ tickets.taken ++ rest) }
    {
        self.bookings.follows(tickets);
    }
}
