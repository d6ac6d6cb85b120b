//! A handler's queue of tickets.

ghost use Rattle.std.specs.Prelude.{◌≡◌, ◌<◌, [], ◌∷◌, ◌++◌, IfOk};
ghost use Rattle.qs_desk.specs.Tickets.{IsFor};
ghost use Rattle.qs_desk.specs.TicketQueues.{owner, new_queue, new_end, IsEndOf};

use crate::name::DeskName;
use qs_objects::Next;
use qs_program::{MOST_TICKETS, Program};
use qs_queue::{Key, Protocol, Sender, Taker, Waker, make_ends};
use std::alloc::{AllocError, Global};
use std::marker::{Brand, Model, PhantomData};
use std::sync::Wait;

/// Whose tickets may be in a queue: those of the blocks of this program that reserve this handler. No value of it is
/// made.
pub struct QueueOwner {
    pub program: Program,
    pub handler: u8,
}

/// Tickets whose blocks reserve the handler, and at last the closing mark.
pub struct Reserving;

impl Protocol<Next, QueueOwner> for Reserving {
    ghost use Rattle.qs_desk.specs.Tickets.{AreFor, for_front};
    ghost use Rattle.qs_desk.specs.TicketQueues.{no_owner};

    ghost good = { λ w xs. AreFor w.program w.handler xs };

    ghost none = { λ w. tt };

    ghost front = { λ w xs ys is. for_front w.program w.handler xs ys is };

    ghost unset = { no_owner };
}

/// The desk's end.
pub type TicketSender = Sender<Next, QueueOwner, Reserving>;

/// The handler's end.
pub type TicketTaker = Taker<Next, QueueOwner, Reserving>;

/// What wakes a handler that sleeps until it gets a ticket.
pub type TicketWaker = Waker<Next, QueueOwner, Reserving>;

/// A program and a handler that are known only as the queue is made.
trait Chosen {
    ghost use Rattle.std.specs.Prelude.{ℕ};
    ghost use Rattle.qs_program.specs.audit.Program.{ProgramShape};

    ghost program: { ProgramShape };

    ghost handler: { ℕ };
}

impl Chosen for Brand {
    ghost use Rattle.std.specs.Prelude.{[]};

    ghost program = { record { objects = []; clients = [] } };

    ghost handler = { 0 };
}

// A queue has room for the tickets of all blocks, and the closing mark.
const QUEUE_ROOM: usize = MOST_TICKETS + 1;

struct ChosenKey<N> {
    of: PhantomData<N>,
}

impl<N: Chosen> Key<QueueOwner> for ChosenKey<N> {
    ghost use Rattle.qs_desk.specs.TicketQueues.{owner};

    ghost key = { owner N.program N.handler };
}

fn make_chosen<N: Chosen>(
    alloc: Global,
    program: &Program,
    handler: u8,
) -> Result<(TicketSender, TicketTaker), AllocError>
    requires { (N.program ≡ program.now) × (N.handler ≡ handler) }
    ensures sender { IfOk result (λ ends. ends.0 ≡ new_queue program.now ends.1.name handler) }
    ensures end { IfOk result (λ ends. ends.1 ≡ new_end program.now ends.1.name handler) }
{
    let _program = program;
    let _handler = handler;
    make_ends::<Next, QueueOwner, Reserving, ChosenKey<N>>(alloc, QUEUE_ROOM)
}

/// Both ends of a handler's queue, with room for the tickets of all blocks that there can be, and the closing mark.
pub(crate) fn make_queue(
    alloc: Global,
    program: &Program,
    handler: u8,
) -> Result<(TicketSender, TicketTaker), AllocError>
    ensures sender { IfOk result (λ ends. ends.0 ≡ new_queue program.now ends.1.name handler) }
    ensures end { IfOk result (λ ends. ends.1 ≡ new_end program.now ends.1.name handler) }
{
    make_chosen::<Brand>(alloc, program, handler)
}

/// A handler's end of its queue of tickets at a desk.
pub struct Tickets<D: DeskName> {
    handler: u8,
    end: TicketTaker,
    of: PhantomData<D>,
}

impl<D: DeskName> Drop for Tickets<D> {
    fn drop(self) {
        let Tickets {
            handler: _,
            end: _,
            of: _,
        } = self;
    }
}

impl<D: DeskName> Model for Tickets<D> {
    ghost use Rattle.qs_desk.specs.TicketQueues.{IsEndOf};
    ghost use Rattle.qs_desk.specs.Views.{TicketsView};

    ghost Value = { TicketsView };

    ghost view = { λ t. record { handler = t.handler; taken = t.end.received } };

    ghost invariant = { λ t. IsEndOf D.program D.queues t.handler t.end };
}

impl<D: DeskName> Tickets<D> {
    pub(crate) fn new(handler: u8, end: TicketTaker) -> Tickets<D>
        requires { IsEndOf D.program D.queues handler end }
        ensures { result ≡ record { handler = handler; taken = end.received } }
    {
        Tickets {
            handler,
            end,
            of: PhantomData,
        }
    }

    /// Whose tickets they are.
    pub fn handler(&self) -> u8
        ensures handler { result ≡ self.now.handler }
    {
        self.handler
    }

    /// Takes the next ticket, whose block reserves this handler, or the closing mark. Tries until there is one; it does
    /// not sleep.
    pub fn take<R: Wait>(&mut self, rt: &R) -> Next
        ensures taken { self.new ≡ record self.old { taken = self.old.taken ++ result ∷ [] } }
        ensures reserved { IsFor D.program self.old.handler result }
    {
        self.end.take(rt)
    }

    /// Takes the next ticket, like `take`, but sleeps until there is one and somebody who reserved the handler, or
    /// closed the desk, wakes it.
    pub fn take_or_sleep<R: Wait>(&mut self, rt: &R) -> Next
        ensures taken { self.new ≡ record self.old { taken = self.old.taken ++ result ∷ [] } }
        ensures reserved { IsFor D.program self.old.handler result }
    {
        self.end.take_or_sleep(rt)
    }

    /// Its queue's end, and its handler.
    pub(crate) fn into_end(self) -> (u8, TicketTaker)
        ensures handler { result.0 ≡ self.handler }
        ensures taken { result.1.received ≡ self.taken }
        ensures end { IsEndOf D.program D.queues self.handler result.1 }
    {
        let Tickets {
            handler,
            end,
            of: _,
        } = self;
        (handler, end)
    }
}
