//! Who hears of each ticket as its handler begins it.

use qs_objects::Ticket;

/// Called by a handler on its own thread as it begins a ticket, with the number of its object.
pub trait Gate: Sync {
    ghost use Rattle.std.specs.Prelude.{ℕ, ⊤};
    ghost use Rattle.qs_objects.specs.declared.held.Ticket.{Ticket};

    /// What a pass tells of its ticket and of the object's number; it may be left out, and then it is nothing.
    ghost passed: { Self → Ticket → ℕ → Type 0 } = { λ gate ticket object. ⊤ };

    fn pass(&self, ticket: Ticket, object: u8)
        ensures passed { passed self.now ticket object };
}

/// A gate that does nothing.
pub struct FreeGate;

impl Gate for FreeGate {
    fn pass(&self, ticket: Ticket, object: u8) {
        let _ = ticket;
        let _ = object;
    }
}

/// A gate beside a log of which nothing is known but that each pass moves it on. What a handler does is proved for
/// every such log, so that it passes the gate once for each ticket, and in their order.
pub trait Passage<L>: Sync {
    ghost use Rattle.std.specs.Prelude.{ℕ};
    ghost use Rattle.qs_objects.specs.declared.held.Ticket.{Ticket};

    /// How a pass moves the log on.
    ghost moves: { Self → L → Ticket → ℕ → L → Type 0 };

    fn go(&self, log: &mut L, ticket: Ticket, object: u8)
        ensures moved { moves self.now log.old ticket object log.new };
}

impl<G: Gate> Passage<()> for G {
    ghost moves = { λ gate log ticket object after. G.passed gate ticket object };

    fn go(&self, log: &mut (), ticket: Ticket, object: u8) {
        let _ = log;
        self.pass(ticket, object);
    }
}
