//! Clients at objects of their own, whose blocks run at the same time, and two who then meet at a third object.

use crate::gates::{Holding, Until};
use crate::scripts::checked;
use qs_chunk::ChunkSize;
use qs_run::{Outcome, execute};
use qs_syncset::Mode;
use std::alloc::Global;
use std::sync::Wait;
use std::thread::Threads;

/// Each handler has a block of its own.
pub const TWO: &str = "object a account 0 object b account 0
    client ann { separate a { a.deposit(1); x = a.balance(); } }
    client bob { separate b { b.deposit(2); y = b.balance(); } }";

/// Which client is first at c is decided by who is held at a or at b.
pub const DECIDED: &str = "object a account 0 object b account 0 object c account 0
    client ann { separate a { x = a.balance(); } separate c { c.deposit(1); x = c.balance(); } }
    client bob { separate b { y = b.balance(); } separate c { c.deposit(2); y = c.balance(); } }";

/// Eight handlers with a block each.
pub const EIGHT: &str = "object a account 0 object b account 0 object c account 0 object d account 0
    object e account 0 object f account 0 object g account 0 object h account 0
    client ann { separate a { a.deposit(1); x = a.balance(); } }
    client bob { separate b { b.deposit(2); x = b.balance(); } }
    client cyd { separate c { c.deposit(3); x = c.balance(); } }
    client dan { separate d { d.deposit(4); x = d.balance(); } }
    client eve { separate e { e.deposit(5); x = e.balance(); } }
    client fay { separate f { f.deposit(6); x = f.balance(); } }
    client gus { separate g { g.deposit(7); x = g.balance(); } }
    client hal { separate h { h.deposit(8); x = h.balance(); } }";

// The last reply of each client's last block, where it is a digit, and blanks for clients that are not there.
fn replies(outcome: &Outcome) -> [u8; 8] {
    let mut replies = [b' '; 8];
    for (place, ticket) in outcome.order().iter().enumerate() {
        let Some(event) = outcome.trace(place).last() else {
            continue;
        };
        if let Some(reply @ 0..=9) = event.reply {
            if let Some(shown) = replies.get_mut(usize::from(ticket.client)) {
                *shown = b'0' + reply as u8;
            }
        }
    }
    replies
}

/// The replies of a run in a mode, with chunks of a size; none where it fails, or a handler was held too long.
pub fn run<R: Threads + Wait + Sync>(
    rt: &R,
    alloc: Global,
    text: &str,
    mode: Mode,
    size: u8,
    until: [Until; 8],
) -> Option<[u8; 8]> {
    let program = checked(alloc, text)?;
    let size = ChunkSize::new(size)?;
    let gate = Holding::new(until);
    let outcome = execute(rt, alloc, &program, mode, size, &gate);
    let replies = replies(&outcome.ok()?);
    if gate.is_late() {
        return None;
    }
    Some(replies)
}
