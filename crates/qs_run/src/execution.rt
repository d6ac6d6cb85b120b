//! The public call, `execute`: a program's run on threads.

ghost use Rattle.std.specs.Prelude.{◌≡◌, false, IfErr, IfOk};
ghost use Rattle.qs_program.specs.Sound.{IsSound};
ghost use Rattle.qs_run.specs.Prepared.{AreRunParts};
ghost use Rattle.qs_run.specs.Starts.{IsRefusal, LetAllStart, worker_count};
ghost use Rattle.qs_run.specs.Workers.{AreReady};
ghost use Rattle.qs_run_laws.specs.Outcomes.{IsOutcome};

use crate::collect::{OutcomeRoom, collect_outcome};
use crate::handler::Gate;
use crate::prepare::{RunParts, make_parts, make_workers};
use crate::start::{NewGroup, run_workers};
use crate::starter::{FreeStart, LentStarter, Starter};
use crate::worker::{ClientWorker, HandlerWorker, Ready};
use qs_chunk::ChunkSize;
use qs_desk::{Desk, DeskName, DeskParts, Front, RawDesk};
use qs_played::{Outcome, RunFault};
use qs_program::Program;
use qs_syncset::Mode;
use std::alloc::Global;
use std::marker::Brand;
use std::sync::Wait;
use std::thread::Threads;

// A run that is prepared, for a mode and chunks of a size: its desk, which has no name yet, and its parts.
#[derive(Drop)]
struct PreparedRun {
    mode: Mode,
    size: ChunkSize,
    raw: RawDesk,
    parts: RunParts,
}

// A run whose workers are ready, for a mode and chunks of a size, with its desk, which is not closed.
#[derive(Drop)]
struct ReadyRun<D: DeskName> {
    mode: Mode,
    size: ChunkSize,
    desk: Desk<D>,
    handlers: Vec<Ready<HandlerWorker<D>>>,
    clients: Vec<Ready<ClientWorker<D>>>,
    ghost unclosed: { desk.closed ≡ false },
}

// Runs the workers at the desk, and collects the outcome.
fn run_ready_workers<
    D: DeskName + Send + Sync,
    G: Gate,
    S: Starter + Drop,
    R: Threads + Wait + Sync,
>(rt: &R, alloc: Global, gate: &G, starter: S, run: ReadyRun<D>) -> (S, Result<Outcome, RunFault>)
    requires sound { IsSound D.program }
    requires ready { AreReady D.program run.mode run.size run.handlers.items run.clients.items }
    ensures outcome { IfOk result.1 (IsOutcome D.program run.mode run.size) }
    ensures started { IfOk result.1 (λ _. LetAllStart S.answers 0 (worker_count D.program) starter result.0) }
    ensures refused { IfErr result.1 (λ fault. IsRefusal S.answers (worker_count D.program) fault starter result.0) }
{
    let ReadyRun {
        mode,
        size,
        desk,
        handlers,
        clients,
    } = run;
    let Ok(room) = OutcomeRoom::new(alloc) else {
        return (starter, Err(RunFault::Memory));
    };
    let Ok(handlers) = NewGroup::new(alloc, handlers) else {
        return (starter, Err(RunFault::Memory));
    };
    let Ok(clients) = NewGroup::new(alloc, clients) else {
        return (starter, Err(RunFault::Memory));
    };
    let (starter, results) = run_workers(rt, gate, starter, handlers, clients, Front::new(desk));
    match results {
        Ok(results) => (starter, Ok(collect_outcome(results, room, mode, size))),
        Err(_held) => (starter, Err(RunFault::Threads)),
    }
}

// Opens the desk under its name, makes the workers, and runs them.
fn run_parts<D: DeskName + Send + Sync, G: Gate, S: Starter + Drop, R: Threads + Wait + Sync>(
    rt: &R,
    alloc: Global,
    gate: &G,
    starter: S,
    run: PreparedRun,
) -> (S, Result<Outcome, RunFault>)
    requires name { (D.program ≡ run.raw.program) × (D.queues ≡ run.raw.queues) × (D.ledgers ≡ run.raw.ledgers) }
    requires sound { IsSound run.raw.program }
    requires parts { AreRunParts run.raw.program run.mode run.size run.parts }
    ensures outcome { IfOk result.1 (IsOutcome run.raw.program run.mode run.size) }
    ensures started { IfOk result.1 (λ _. LetAllStart S.answers 0 (worker_count run.raw.program) starter result.0) }
    ensures refused { IfErr result.1 (λ fault. IsRefusal S.answers (worker_count run.raw.program) fault starter
        result.0) }
{
    let PreparedRun {
        mode,
        size,
        raw,
        parts,
    } = run;
    let DeskParts {
        desk,
        shares,
        tickets,
    } = raw.open::<D>();
    let Ok((handlers, clients)) = make_workers(alloc, parts, shares, tickets, mode, size) else {
        drop(desk);
        return (starter, Err(RunFault::Memory));
    };
    let run = ReadyRun {
        mode,
        size,
        desk,
        handlers,
        clients,
    };
    run_ready_workers(rt, alloc, gate, starter, run)
}

// A run whose starter is given back.
fn run_program<G: Gate, S: Starter + Drop, R: Threads + Wait + Sync>(
    rt: &R,
    alloc: Global,
    program: &Program,
    mode: Mode,
    size: ChunkSize,
    gate: &G,
    starter: S,
) -> (S, Result<Outcome, RunFault>)
    ensures outcome { IfOk result.1 (IsOutcome program.now mode size) }
    ensures started { IfOk result.1 (λ _. LetAllStart S.answers 0 (worker_count program.now) starter result.0) }
    ensures refused { IfErr result.1 (λ fault. IsRefusal S.answers (worker_count program.now) fault starter result.0) }
{
    program.keeps_sound();
    let Ok(raw) = RawDesk::new(alloc, program) else {
        return (starter, Err(RunFault::Memory));
    };
    match make_parts(rt, alloc, program, mode, size) {
        Ok(parts) => {
            let run = PreparedRun {
                mode,
                size,
                raw,
                parts,
            };
            run_parts::<Brand, G, S, R>(rt, alloc, gate, starter, run)
        }
        Err(_) => {
            drop(raw);
            (starter, Err(RunFault::Memory))
        }
    }
}

// A run whose starter is lent to it.
fn run_lent<'a, G: Gate, S: Starter, R: Threads + Wait + Sync>(
    rt: &R,
    alloc: Global,
    program: &Program,
    mode: Mode,
    size: ChunkSize,
    gate: &G,
    starter: &'a mut S,
) -> (&'a mut S, Result<Outcome, RunFault>)
    ensures same { result.0.ghost_name ≡ starter.entry.ghost_name }
    ensures outcome { IfOk result.1 (IsOutcome program.now mode size) }
    ensures started { IfOk result.1 (λ _. LetAllStart S.answers 0 (worker_count program.now) starter.entry.now result.0.now) }
    ensures refused { IfErr result.1 (λ fault. IsRefusal S.answers (worker_count program.now) fault starter.entry.now result.0.now) }
{
    let lent = LentStarter { starter };
    let (LentStarter { starter }, result) = run_program(rt, alloc, program, mode, size, gate, lent);
    (starter, result)
}

// It does nothing, but by its use of the reference the starter is known to be what the run left.
fn take_back<S>(starter: &mut S)
    ensures same { starter.new ≡ starter.old }
{}

/// Runs a program in a mode and with chunks of a size, each client and each handler on a thread of its own, if the
/// starter lets all of them start.
///
/// The starter is asked once before each start, by the worker's number: the handlers are 0, 1, 2, .. in text order, and
/// then come the clients. `Threads` says that the starter answered false, or that the system could not start a thread;
/// it is not asked again, the threads that were started are asked to end, and all workers are as they were. `Memory`
/// says that an allocation failed; the starter was not asked then, as all memory is taken before the first start. So no
/// fault comes after a first step. The gate is passed on a handler's own thread as the handler begins each ticket.
/// Waits for all threads, so it returns only if each of them ends.
///
/// Whatever the threads did at once, the outcome shows what the blocks do alone, one after another along the order of
/// reservations. It is the outcome of threads that were compiled in this mode and whose chunks have this size.
pub fn execute_with<G: Gate, S: Starter, R: Threads + Wait + Sync>(
    rt: &R,
    alloc: Global,
    program: &Program,
    mode: Mode,
    size: ChunkSize,
    gate: &G,
    starter: &mut S,
) -> Result<Outcome, RunFault>
    ensures outcome { IfOk result (IsOutcome program.now mode size) }
    ensures started { IfOk result (λ _. LetAllStart S.answers 0 (worker_count program.now) starter.old starter.new) }
    ensures refused { IfErr result (λ fault. IsRefusal S.answers (worker_count program.now) fault starter.old starter.new) }
{
    let (starter, result) = run_lent(rt, alloc, program, mode, size, gate, starter);
    take_back(starter);
    result
}

/// Runs a program in a mode and with chunks of a size, each client and each handler on a thread of its own:
/// `execute_with`, with a starter that lets every worker start. So `Threads` says that the system could not start a
/// thread.
pub fn execute<G: Gate, R: Threads + Wait + Sync>(
    rt: &R,
    alloc: Global,
    program: &Program,
    mode: Mode,
    size: ChunkSize,
    gate: &G,
) -> Result<Outcome, RunFault>
    ensures outcome { IfOk result (IsOutcome program.now mode size) }
{
    run_program(rt, alloc, program, mode, size, gate, FreeStart).1
}
