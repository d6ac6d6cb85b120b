//! Runs on threads.

use qs_chunk::ChunkSize;
use qs_objects::Ticket;
use qs_program::Program;
use qs_run::{FreeGate, Gate, RunFault, Starter, execute, execute_with};
use qs_syncset::Mode;
use std::alloc::Global;
use std::sync::Wait;
use std::sync::atomic::AtomicU32;
use std::sync::atomic::Ordering::SeqCst;
use std::thread::Threads;

/// A gate that counts the tickets that were begun, and how many had been when the second object's handler came.
#[derive(Drop)]
struct Noting {
    begun: AtomicU32,
    before_second: AtomicU32,
}

impl Gate for Noting {
    fn pass(&self, _ticket: Ticket, object: u8) {
        let before = self.begun.fetch_add(1, SeqCst);
        if object == 1 {
            self.before_second.store(before, SeqCst);
        }
    }
}

/// A starter that refuses the second worker.
#[derive(Drop)]
struct OneAlone;

impl Starter for OneAlone {
    ghost use Rattle.std.specs.Prelude.{⊤};

    ghost answers = { λ before n answer after. ⊤ };

    fn may_start(&mut self, n: u32) -> bool {
        n == 0
    }
}

/// Whether the second object's handler began its ticket after another one had begun. Each handler passes the gate on
/// its own thread as it begins a ticket. Whatever the threads did, `execute` answers an outcome of the program (clause
/// *outcome*): what its blocks do one after another, in the order of their reservations.
pub(crate) fn second_handler_waits<R: Threads + Wait + Sync>(
    rt: &R,
    alloc: Global,
    program: &Program,
) -> Option<bool> {
    let gate = Noting {
        begun: AtomicU32::new(0),
        before_second: AtomicU32::new(0),
    };
    let size = ChunkSize::new(8)?;
    execute(rt, alloc, program, Mode::Both, size, &gate).ok()?;
    Some(gate.before_second.load(SeqCst) > 0)
}

/// Whether a run is refused whose second worker may not be started: nobody has done anything then (clause *refused* of
/// `execute_with`).
pub(crate) fn is_refused<R: Threads + Wait + Sync>(
    rt: &R,
    alloc: Global,
    program: &Program,
) -> bool {
    let Some(size) = ChunkSize::new(8) else {
        return false;
    };
    let mut starter = OneAlone;
    let run = execute_with(
        rt,
        alloc,
        program,
        Mode::Both,
        size,
        &FreeGate,
        &mut starter,
    );
    matches!(run, Err(RunFault::Threads))
}
