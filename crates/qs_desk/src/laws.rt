//! What a desk, its shares and its handlers' tickets know together.

ghost use Rattle.std.specs.Prelude.{◌≡◌, List, [], ◌∷◌, ◌++◌, length};
ghost use Rattle.qs_objects.specs.declared.held.Next.{Next};
ghost use Rattle.qs_objects.specs.declared.held.Next.TheVariants.{Closed};
ghost use Rattle.qs_desk.specs.audit.Tickets.{of_client, pushed_to};

use crate::desk::Desk;
use crate::name::DeskName;
use crate::queue::Tickets;
use crate::share::Share;

/// The history has as many tickets of a client as its share says. It does nothing.
pub fn booked<D: DeskName>(desk: &mut Desk<D>, share: &mut Share<D>)
    ensures same { (desk.new ≡ desk.old) × (share.new ≡ share.old) }
    ensures count { length (of_client share.old.client desk.old.history) ≡ share.old.count }
{
    desk.booked(share);
}

/// What a handler took is a front of what was pushed to it, and all of it where the closing mark was taken: the tickets
/// of the history whose blocks reserve the handler, in that order, and then the mark. The handler takes no more
/// afterwards.
pub fn follows<D: DeskName>(desk: &mut Desk<D>, tickets: Tickets<D>)
    ensures same { desk.new ≡ desk.old }
    ensures front { (rest : List Next) × (pushed_to D.program tickets.handler desk.old.history desk.old.closed ≡ tickets.taken ++ rest) }
    ensures all { (before : List Next) → tickets.taken ≡ before ++ Closed ∷ []
        → pushed_to D.program tickets.handler desk.old.history desk.old.closed ≡ tickets.taken }
{
    desk.follows(tickets);
}
