//! Eight clients who meet at the same eight accounts, each in 32 blocks.

use crate::gates::{Holding, Until};
use crate::scripts::checked;
use qs_chunk::ChunkSize;
use qs_objects::Object;
use qs_program::Program;
use qs_run::{FreeGate, Outcome, execute};
use qs_syncset::Mode;
use std::alloc::{AllocError, Global};
use std::fmt;
use std::sync::Wait;
use std::thread::Threads;

const ACCOUNTS: &str =
    "object a0 account 0 object a1 account 0 object a2 account 0 object a3 account 0
    object a4 account 0 object a5 account 0 object a6 account 0 object a7 account 0";

const BLOCK: &str = "separate a0 a1 a2 a3 a4 a5 a6 a7 {
        a0.deposit(1); a1.deposit(1); a2.deposit(1); a3.deposit(1);
        a4.deposit(1); a5.deposit(1); a6.deposit(1); a7.deposit(1);
        x = a0.balance();
    }\n";

fn script(alloc: Global) -> Result<String, AllocError> {
    let mut text = String::new(alloc);
    text.push_str(ACCOUNTS)?;
    for client in b'0'..b'8' {
        text.push_str("\nclient c")?;
        text.push(char::from(client))?;
        text.push_str(" {\n")?;
        for _ in 0..32u8 {
            text.push_str(BLOCK)?;
        }
        text.push_str("}")?;
    }
    Ok(text)
}

/// The gates under which they run.
#[derive(Clone, Copy)]
pub enum Held {
    /// No handler is held.
    Free,
    /// Each handler turns at each ticket.
    Slow,
    /// The first handler's first ticket is held until the last handler has begun one.
    First,
}

/// What a run of them shows: the load and the weight of the program, how many tickets, how many clients have 32 of
/// them, how many replies are the place of their ticket, counted from 1, how many accounts have 256 and refused
/// nothing, the synchronisations, and how often the gate was passed, where it counts.
#[derive(Drop)]
pub struct Shown {
    load: u64,
    weight: u64,
    tickets: usize,
    clients: usize,
    replies: usize,
    accounts: usize,
    syncs: u64,
    passes: Option<u32>,
}

impl fmt::Display for Shown {
    fn fmt<W: fmt::Write>(&self, f: &mut fmt::Formatter<W>) -> fmt::Result {
        write!(
            f,
            "load {} weight {} tickets {} clients {} replies {} accounts {} syncs {}",
            self.load,
            self.weight,
            self.tickets,
            self.clients,
            self.replies,
            self.accounts,
            self.syncs
        )?;
        match self.passes {
            Some(passes) => write!(f, " passes {passes}"),
            None => Ok(()),
        }
    }
}

// How many clients have 32 tickets.
fn clients_of(outcome: &Outcome) -> usize {
    let mut clients = 0;
    for client in 0..8u8 {
        if outcome
            .order()
            .iter()
            .filter(|ticket| ticket.client == client)
            .count()
            == 32
        {
            clients += 1;
        }
    }
    clients
}

// How many replies are the place of their ticket, counted from 1.
fn replies_of(outcome: &Outcome) -> usize {
    let mut replies = 0;
    for place in 0..outcome.order().len() {
        let reply = outcome.trace(place).last().and_then(|event| event.reply);
        if reply.and_then(|reply| usize::try_from(reply).ok()) == place.checked_add(1) {
            replies += 1;
        }
    }
    replies
}

fn is_full(account: &Object) -> bool {
    account.value(0) == Some(256) && account.refused() == 0
}

fn what_is_shown(program: &Program, outcome: &Outcome, passes: Option<u32>) -> Shown {
    Shown {
        load: program.load(),
        weight: program.weight(),
        tickets: outcome.order().len(),
        clients: clients_of(outcome),
        replies: replies_of(outcome),
        accounts: outcome
            .states()
            .iter()
            .filter(|state| is_full(state))
            .count(),
        syncs: outcome.syncs(),
        passes,
    }
}

/// A run of them in a mode, with chunks of a size, under a gate; none where it fails, or a handler was held too long.
pub fn run<R: Threads + Wait + Sync>(
    rt: &R,
    alloc: Global,
    mode: Mode,
    size: u8,
    held: Held,
) -> Option<Shown> {
    let text = script(alloc).ok()?;
    let program = checked(alloc, text.as_str())?;
    let size = ChunkSize::new(size)?;
    let until = match held {
        Held::Free => {
            let outcome = execute(rt, alloc, &program, mode, size, &FreeGate).ok()?;
            return Some(what_is_shown(&program, &outcome, None));
        }
        Held::Slow => [Until::Turns(10_000); 8],
        Held::First => {
            let mut until = [Until::Now; 8];
            until[0] = Until::Begun(7);
            until
        }
    };
    let gate = Holding::new(until);
    let outcome = execute(rt, alloc, &program, mode, size, &gate).ok()?;
    if gate.is_late() {
        return None;
    }
    Some(what_is_shown(&program, &outcome, Some(gate.passes())))
}
