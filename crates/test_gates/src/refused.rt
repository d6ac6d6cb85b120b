//! Runs whose starter refuses one start: nobody has done anything then.

use crate::gates::{Holding, Until};
use crate::scripts::checked;
use qs_chunk::ChunkSize;
use qs_run::{RunFault, Starter, execute_with};
use qs_syncset::Mode;
use std::alloc::Global;
use std::fmt;
use std::sync::Wait;
use std::thread::Threads;

// One account and one client, so a run has two workers.
const TWO_WORKERS: &str = "object a account 100
    client ann { separate a { a.deposit(5); x = a.balance(); } }";

/// A starter that refuses one worker, and counts how often it was asked.
#[derive(Drop)]
struct Refusing {
    worker: u32,
    asked: u32,
}

impl Starter for Refusing {
    ghost use Rattle.std.specs.Prelude.{⊤};

    ghost answers = { λ before n answer after. ⊤ };

    fn may_start(&mut self, n: u32) -> bool {
        self.asked = self.asked.saturating_add(1);
        n != self.worker
    }
}

/// What came of a run: its fault, if it was refused, how often its starter was asked, and how often the gate was
/// passed.
#[derive(Drop)]
pub struct Started {
    fault: Option<RunFault>,
    asked: u32,
    passes: u32,
}

impl fmt::Display for Started {
    fn fmt<W: fmt::Write>(&self, f: &mut fmt::Formatter<W>) -> fmt::Result {
        let end = match &self.fault {
            None => "ran",
            Some(RunFault::Threads) => "threads",
            Some(RunFault::Memory) => "memory",
        };
        write!(f, "{end} asked {} passes {}", self.asked, self.passes)
    }
}

/// A run in a mode, with chunks of a size, in which one worker may not be started.
pub fn run<R: Threads + Wait + Sync>(
    rt: &R,
    alloc: Global,
    worker: u32,
    mode: Mode,
    size: u8,
) -> Option<Started> {
    let program = checked(alloc, TWO_WORKERS)?;
    let size = ChunkSize::new(size)?;
    let gate = Holding::new([Until::Now; 8]);
    let mut starter = Refusing { worker, asked: 0 };
    let fault = execute_with(rt, alloc, &program, mode, size, &gate, &mut starter).err();
    Some(Started {
        fault,
        asked: starter.asked,
        passes: gate.passes(),
    })
}
