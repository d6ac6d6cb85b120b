//! The desk under its lock.

ghost use Rattle.std.specs.Prelude.{◌≡◌, ◌+◌, ◌<◌, Bool, List, false, true, replicate};
ghost use Rattle.qs_program.specs.audit.Program.{blocks_of};
ghost use Rattle.qs_program.specs.audit.Limits.{most_handlers};
ghost use Rattle.qs_desk.specs.Tickets.{ticket};
ghost use Rattle.qs_desk.specs.Wakings.{AreReserved, AreWoken};

use crate::bookings::{Bookings, Reserved};
use crate::desk::Desk;
use crate::name::DeskName;
use crate::queue::TicketWaker;
use crate::share::Share;
use crate::wake::{Wakes, wake_told};
use qs_objects::Ticket;
use qs_program::MOST_HANDLERS;
use std::marker::Model;
use std::sync::{Mutex, Wait};

// The bookings of a desk that is not closed.
#[derive(Drop)]
struct Open<D: DeskName> {
    bookings: Bookings<D>,
    ghost is_open: { bookings.closed ≡ false },
}

impl<D: DeskName> Open<D> {
    fn book<R: Wait>(&mut self, rt: &R, share: &mut Share<D>) -> (Ticket, Reserved)
        requires left { share.old.count < blocks_of D.program share.old.client }
        ensures ticket { result.0 ≡ ticket share.old.client share.old.count }
        ensures share { share.new ≡ record share.old { count = share.old.count + 1 } }
        ensures told { AreReserved D.program result.0 result.1 }
    {
        self.bookings.book_and_tell(rt, share)
    }
}

/// The desk under its lock, where clients reserve from their own threads. It is not closed before `close`. Contracts see
/// the names of the queues whose handlers it can wake, by their numbers.
pub struct Front<D: DeskName> {
    lock: Mutex<Open<D>>,
    wakers: Vec<TicketWaker>,
}

impl<D: DeskName> Drop for Front<D> {
    fn drop(self) {
        let Front { lock: _, wakers: _ } = self;
    }
}

impl<D: DeskName> Model for Front<D> {
    ghost use Rattle.std.specs.Prelude.{◌≡◌, List};
    ghost use Rattle.atomic_table.specs.Seated.{TableId};

    ghost Value = { List TableId };

    ghost view = { λ f. f.wakers.items };

    ghost invariant = { λ f. f.wakers.items ≡ D.queues };
}

impl<D: DeskName> Front<D> {
    /// A desk that is not closed, under a lock, with what wakes the handler of each of its queues.
    pub fn new(desk: Desk<D>) -> Front<D>
        requires unclosed { desk.closed ≡ false }
        ensures own { result ≡ D.queues }
    {
        let (bookings, wakers) = desk.into_parts();
        Front {
            lock: Mutex::new(Open { bookings }),
            wakers,
        }
    }

    /// Books the next block of the share's client, under the lock: one order holds all reservations. Waits for the
    /// lock; it wakes nobody.
    pub fn reserve<R: Wait>(&self, rt: &R, share: &mut Share<D>) -> Ticket
        requires left { share.old.count < blocks_of D.program share.old.client }
        ensures ticket { result ≡ ticket share.old.client share.old.count }
        ensures share { share.new ≡ record share.old { count = share.old.count + 1 } }
    {
        self.book(rt, share).0
    }

    /// Reserves for a client's next block, like `reserve`. Once the lock is given back it wakes each handler that was
    /// reserved and sleeps until it gets a ticket.
    pub fn reserve_and_wake_handlers<R: Wait>(&self, rt: &R, share: &mut Share<D>) -> Ticket
        requires left { share.old.count < blocks_of D.program share.old.client }
        ensures ticket { result ≡ ticket share.old.client share.old.count }
        ensures share { share.new ≡ record share.old { count = share.old.count + 1 } }
    {
        self.book_and_wake(rt, share, self.wakers.as_slice(), &mut ())
    }

    // Reserves for a client's next block. Once the lock is given back it wakes the handlers that the block reserves, by
    // these.
    fn book_and_wake<L, W: Wakes<L>, R: Wait>(
        &self,
        rt: &R,
        share: &mut Share<D>,
        wakers: &[W],
        log: &mut L,
    ) -> Ticket
        requires left { share.old.count < blocks_of D.program share.old.client }
        ensures ticket { result ≡ ticket share.old.client share.old.count }
        ensures share { share.new ≡ record share.old { count = share.old.count + 1 } }
        ensures woken { (told : List Bool) × AreReserved D.program result told × AreWoken W.moves wakers.now told log.old log.new }
    {
        let (ticket, reserved) = self.book(rt, share);
        wake_told(wakers, &reserved, log);
        ticket
    }

    // One section of the lock, which is given back with the return; and which handlers were reserved.
    fn book<R: Wait>(&self, rt: &R, share: &mut Share<D>) -> (Ticket, Reserved)
        requires left { share.old.count < blocks_of D.program share.old.client }
        ensures ticket { result.0 ≡ ticket share.old.client share.old.count }
        ensures share { share.new ≡ record share.old { count = share.old.count + 1 } }
        ensures told { AreReserved D.program result.0 result.1 }
    {
        self.lock.lock(rt).book(rt, share)
    }

    /// Puts the closing mark at the end of each handler's queue, wakes each handler that sleeps until it gets a ticket,
    /// and gives the desk back.
    pub fn close<R: Wait>(self, rt: &R) -> Desk<D>
        ensures closed { result.closed ≡ true }
    {
        let Front { lock, wakers } = self;
        let Open { mut bookings } = lock.into_inner();
        close_and_wake(rt, &mut bookings, wakers.as_slice(), &mut ());
        Desk::with(bookings, wakers)
    }
}

// Puts the closing mark at the end of each handler's queue, and wakes all handlers, by these.
fn close_and_wake<D: DeskName, L, W: Wakes<L>, R: Wait>(
    rt: &R,
    bookings: &mut Bookings<D>,
    wakers: &[W],
    log: &mut L,
)
    requires unclosed { bookings.old.closed ≡ false }
    ensures closed { bookings.new ≡ record bookings.old { closed = true } }
    ensures woken { AreWoken W.moves wakers.now (replicate most_handlers true) log.old log.new }
{
    bookings.close(rt);
    wake_told(wakers, &[true; MOST_HANDLERS], log);
}
