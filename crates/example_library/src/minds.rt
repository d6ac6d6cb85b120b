//! What a client and a handler decide, by hand.

use crate::lanes::account;
use qs_chunk::{ChunkSize, Parcel};
use qs_client::Act;
use qs_handler::Act as HandlerAct;
use qs_objects::{Next, Ticket};
use qs_program::Program;
use qs_syncset::{Mode, compile};
use std::alloc::Global;

/// Whether a handler has closed with its object once it has served a ticket whose block sent nothing, and no other
/// came. Told what came of each act that it asks for, a mind says the next; whoever asks it, a loop on a thread or the
/// optimised machine, it decides the same.
pub(crate) fn after_an_empty_block(alloc: Global) -> Option<bool> {
    let mut mind = qs_handler::Mind::new(account(alloc, 7)?);
    mind.ticket(Next::Ticket(Ticket {
        client: 0,
        index: 0,
    }));
    mind.parcel(Parcel::End);
    mind.ticket(Next::Closed);
    let last = mind.next();
    let is_closed = matches!(&last, HandlerAct::Closed);
    drop(last);
    Some(is_closed && mind.held().is_some())
}

// More acts than the client of the tour has.
const ACTS: u32 = 100;

/// The last reply in the first trace of the program's first client, who is given an account of 7 once, and whose
/// parcels go nowhere. A client's mind says its next act, and is told only what came: a ticket, an object or a chunk.
pub(crate) fn last_reply(alloc: Global, program: &Program) -> Option<i64> {
    if program.clients() == 0 {
        return None;
    }
    let code = compile(alloc, program, Mode::Both, 0).ok()?;
    let mut mind = qs_client::Mind::new(alloc, code, ChunkSize::new(4)?).ok()?;
    let mut held = Some(account(alloc, 7)?);
    for _ in 0..ACTS {
        match mind.next() {
            Act::Reserve => {
                let Ok(index) = u8::try_from(mind.begun()) else {
                    return None;
                };
                mind.booked(Ticket { client: 0, index });
            }
            Act::Send(_, parcel) => drop(parcel),
            Act::Await(_) => mind.got(held.take()?),
            Act::NeedChunk(_) => return None,
            Act::Finished => {
                let traces = mind.traces();
                if traces.len() == 0 {
                    return None;
                }
                return traces.of(0).last()?.reply;
            }
        }
    }
    None
}
