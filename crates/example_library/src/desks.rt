//! A desk by hand.

ghost use Rattle.std.specs.Prelude.{◌≡◌};

use qs_desk::{DeskName, DeskParts, RawDesk};
use qs_objects::Next;
use qs_program::Program;
use std::alloc::Global;
use std::marker::Brand;
use std::sync::Wait;

// The first client books its next block, and the first handler takes what it finds.
fn book_and_take<D: DeskName, R: Wait>(rt: &R, raw: RawDesk) -> Option<bool>
    requires { (D.program ≡ raw.program) × (D.queues ≡ raw.queues) × (D.ledgers ≡ raw.ledgers) }
{
    let DeskParts {
        mut desk,
        mut shares,
        mut tickets,
    } = raw.open::<D>();
    let mut share = shares[0].take()?;
    let mut queue = tickets[0].take()?;
    if !share.left() {
        return None;
    }
    let ticket = desk.book(rt, &mut share);
    Some(queue.take(rt) == Next::Ticket(ticket))
}

/// Whether the first handler finds the ticket of the first client's first block, which reserves it. A desk makes the
/// tickets of all reservations one legal order (`Desk::into_order`), and each handler takes its own in this order (law
/// `follows` of `qs_desk`).
pub(crate) fn first_ticket_comes<R: Wait>(
    rt: &R,
    alloc: Global,
    program: &Program,
) -> Option<bool> {
    let raw = RawDesk::new(alloc, program).ok()?;
    book_and_take::<Brand, R>(rt, raw)
}
