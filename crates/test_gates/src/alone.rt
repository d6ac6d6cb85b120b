//! One client at one account: more chunks than a lane has, more blocks than fit into a lane, and many commands.

use crate::gates::{Holding, Until};
use crate::scripts::checked;
use qs_chunk::ChunkSize;
use qs_objects::{Journal, Object};
use qs_run::{Outcome, execute};
use qs_syncset::Mode;
use std::alloc::Global;
use std::fmt;
use std::sync::Wait;
use std::thread::Threads;

/// More full chunks of one request than a lane has, and more blocks than a lane has room for.
pub const TWENTY_CHUNKS: &str = "object a account 100
    client ann { separate a { repeat 20 { a.deposit(1); } } }";

pub const TWENTY_BLOCKS: &str = "object a account 100
    client ann {
        separate a { } separate a { } separate a { } separate a { } separate a { }
        separate a { } separate a { } separate a { } separate a { } separate a { }
        separate a { } separate a { } separate a { } separate a { } separate a { }
        separate a { } separate a { } separate a { } separate a { } separate a { }
    }";

/// A hundred thousand commands in one block.
pub const MANY_COMMANDS: &str = "object a account 0
    client c { separate a { repeat 1000 { repeat 100 { a.deposit(0); } } } }";

/// What a run shows: how many tickets there are and how often the gate was passed, how many entries the traces and the
/// account's journal have, its balance, what it refused, and the synchronisations.
#[derive(Drop)]
pub struct Shown {
    tickets: usize,
    passes: u32,
    traced: usize,
    entries: usize,
    balance: i64,
    refused: i64,
    syncs: u64,
}

impl fmt::Display for Shown {
    fn fmt<W: fmt::Write>(&self, f: &mut fmt::Formatter<W>) -> fmt::Result {
        write!(
            f,
            "tickets {} passes {} traced {} entries {} balance {} refused {} syncs {}",
            self.tickets,
            self.passes,
            self.traced,
            self.entries,
            self.balance,
            self.refused,
            self.syncs
        )
    }
}

// How many entries the traces of all tickets have.
fn traced(outcome: &Outcome) -> usize {
    let mut traced = 0usize;
    for place in 0..outcome.order().len() {
        traced = traced.saturating_add(outcome.trace(place).len());
    }
    traced
}

/// A run of a script in a mode, with chunks of a size; its handler turns at each ticket, so that its client comes to a
/// full lane.
pub fn run<R: Threads + Wait + Sync>(
    rt: &R,
    alloc: Global,
    text: &str,
    mode: Mode,
    size: u8,
) -> Option<Shown> {
    let program = checked(alloc, text)?;
    let size = ChunkSize::new(size)?;
    let gate = Holding::new([Until::Turns(100_000); 8]);
    let outcome = execute(rt, alloc, &program, mode, size, &gate).ok()?;
    let account = outcome.states().first()?;
    Some(Shown {
        tickets: outcome.order().len(),
        passes: gate.passes(),
        traced: traced(&outcome),
        entries: outcome.journals().first()?.len(),
        balance: account.value(0)?,
        refused: account.refused(),
        syncs: outcome.syncs(),
    })
}
