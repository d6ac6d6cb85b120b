//! An object and its journal, by hand.

use crate::lanes::account;
use qs_objects::{Args, Op, Request, Ticket};
use std::alloc::Global;

/// How many requests the journal of an account of 7 has after a deposit of 5, and what the account holds then. `run`
/// answers what the object answers and notes the request with its ticket at the journal's end (clause *ran*).
pub(crate) fn after_a_deposit(alloc: Global) -> Option<(usize, i64)> {
    let mut held = account(alloc, 7)?;
    let request = Request {
        object: 0,
        op: Op::Deposit,
        args: Args::of(alloc, [5, 0, 0], 1),
    };
    let ticket = Ticket {
        client: 0,
        index: 0,
    };
    let _ = held.run(ticket, request);
    let (object, journal) = held.into_parts();
    let entries = journal.len();
    let balance = object.value(0);
    drop(object);
    drop(journal);
    Some((entries, balance?))
}
