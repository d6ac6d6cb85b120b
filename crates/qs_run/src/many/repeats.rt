//! The public calls, `run_times` and `run_times_with`: many runs of a program on threads, counted by their ends.

ghost use Rattle.std.specs.Prelude.{IfErr, IfOk};
ghost use Rattle.qs_run.specs.Starts.{worker_count};
ghost use Rattle.qs_run.specs.many.Refusals.{IsRefusedTally, LetRunsStart};
ghost use Rattle.qs_run.specs.many.Repeats.{IsTallyBy};

use crate::{FreeGate, FreeStart, Starter, execute_with};
use indexmap::IndexSet;
use qs_chunk::ChunkSize;
use qs_played::RunFault;
use qs_program::Program;
use qs_syncset::Mode;
use qs_tally::{Tally, begin, count_run};
use std::alloc::Global;
use std::sync::Wait;
use std::thread::Threads;

/// How a program is run many times.
#[derive(Clone, Copy)]
pub struct Repeats {
    /// The mode of each run.
    pub mode: Mode,
    /// The size of the chunks.
    pub size: ChunkSize,
    /// How many runs there are.
    pub times: u32,
}

/// `run_times`, where a starter is asked before each start of a thread, as `execute_with` of `qs_run` asks it in each
/// run. `Threads` says that a run was refused for a start, and `Memory` that an allocation failed, and that no run was
/// refused for a start.
pub fn run_times_with<S: Starter, R: Threads + Wait + Sync>(
    rt: &R,
    alloc: Global,
    program: &Program,
    repeats: Repeats,
    limit: u32,
    starter: &mut S,
) -> Result<Tally, RunFault>
    ensures tally { IfOk result (IsTallyBy program.now repeats.mode repeats.size repeats.times limit) }
    ensures started { IfOk result (λ _. LetRunsStart S.answers repeats.times (worker_count program.now) starter.old starter.new) }
    ensures refused { IfErr result (λ fault. IsRefusedTally S.answers repeats.times (worker_count program.now) fault starter.old starter.new) }
{
    let Repeats { mode, size, times } = repeats;
    let mut rows = IndexSet::new(alloc);
    let mut ends = Vec::new(alloc);
    let listed = begin(alloc, program, limit, &mut rows, &mut ends)?;
    for _run in 0..times {
        let outcome = execute_with(rt, alloc, program, mode, size, &FreeGate, starter)?;
        count_run(alloc, program, outcome.order(), &mut rows, &mut ends)?;
    }
    Ok(Tally::new(ends, listed))
}

/// Runs a program so many times, one run after another, in a mode and with chunks of a size, each client and each
/// handler on a thread of its own: in how many runs each end came. Where all outcomes are found over no more
/// configurations than the limit, they are the ends, in the order in which `outcomes` has them; else the ends are those
/// that came, in the order in which they first did. `Memory` says that an allocation failed, and `Threads` that a run
/// was refused since a thread could not be started; both end all.
pub fn run_times<R: Threads + Wait + Sync>(
    rt: &R,
    alloc: Global,
    program: &Program,
    mode: Mode,
    size: ChunkSize,
    times: u32,
    limit: u32,
) -> Result<Tally, RunFault>
    ensures tally { IfOk result (IsTallyBy program.now mode size times limit) }
{
    let repeats = Repeats { mode, size, times };
    run_times_with(rt, alloc, program, repeats, limit, &mut FreeStart)
}
