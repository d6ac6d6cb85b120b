//! Schedules of the optimised machine.

ghost use Rattle.std.specs.Prelude.{IfOk};
ghost use Rattle.qs_core_laws.specs.CoreSchedule.{IsPlayedIn, IsShown};
ghost use Rattle.qs_core.specs.state.CoreState.{IsShownIsolated};
ghost use Rattle.qs_played.specs.SyncSums.{AreSyncsCounted};

use crate::optimised::Core;
use qs_chunk::ChunkSize;
use qs_played::{Actor, MOST_ROUNDS, PlayFault, Played, are_named};
use qs_program::Program;
use qs_syncset::Mode;
use std::alloc::{AllocError, Global};

/// What a program shows in the optimised machine after a schedule: first the picks, one step each, then so many rounds,
/// each of them one step of every client and then of every handler in text order; an actor without a step changes
/// nothing. It ends early, at the first round that steps nobody: the rounds left would change nothing, so it shows the
/// same as after all of them. The mode says how synchronisations with objects that are held are left out, and chunks
/// have this size. `Rounds` comes for more than 1,000,000 rounds, `Actor` for a pick that names no actor of the
/// program, both before any allocation; `Memory` where one fails. What is shown is isolated, as under the plain rules,
/// and its Syncs are counted, reservation by reservation and object by object.
pub fn play(
    alloc: Global,
    program: &Program,
    mode: Mode,
    size: ChunkSize,
    picks: &[Actor],
    rounds: u32,
) -> Result<Played, PlayFault>
    ensures played { IsPlayedIn program.now mode size picks.now rounds result }
    ensures isolated { IfOk result (IsShownIsolated program.now mode size picks.now rounds) }
    ensures counted { IfOk result (AreSyncsCounted program.now mode) }
{
    if rounds > MOST_ROUNDS {
        return Err(PlayFault::Rounds);
    }
    if !are_named(program, picks) {
        return Err(PlayFault::Actor);
    }
    match play_core(alloc, program, mode, size, picks, rounds) {
        Ok(played) => Ok(played),
        Err(_) => Err(PlayFault::Memory),
    }
}

fn play_core(
    alloc: Global,
    program: &Program,
    mode: Mode,
    size: ChunkSize,
    picks: &[Actor],
    rounds: u32,
) -> Result<Played, AllocError>
    ensures shown { IfOk result (IsShown program.now mode size picks.now rounds) }
    ensures isolated { IfOk result (IsShownIsolated program.now mode size picks.now rounds) }
    ensures counted { IfOk result (AreSyncsCounted program.now mode) }
{
    let mut core = Core::new(alloc, program, mode, size)?;
    for pick in picks {
        let _stepped = core.step(*pick);
    }
    core.play_rounds(rounds);
    core.into_played(alloc)
}
