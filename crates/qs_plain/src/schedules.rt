//! Schedules under the plain rules.

ghost use Rattle.std.specs.Prelude.{◌≡◌, IfOk};
ghost use Rattle.qs_meaning.specs.audit.Serial.{IsLegal};
ghost use Rattle.qs_played.specs.Isolation.{IsIsolated};
ghost use Rattle.qs_plain_laws.specs.PlainIsolation.{commands_in_queue};
ghost use Rattle.qs_plain_laws.specs.PlainSyncSums.{AreQueriesCounted};
ghost use Rattle.qs_plain_laws.specs.audit.PlainSchedule.{played_of};
ghost use Rattle.qs_plain_laws.specs.PlainSchedule.{IsPlayed, scheduled};

use crate::machine::Machine;
use qs_played::{Actor, MOST_ROUNDS, PlayFault, Played, are_named};
use qs_program::Program;
use std::alloc::{AllocError, Global};

/// What a program shows under the plain rules after a schedule: first the picks, one step each, then so many rounds,
/// each of them one step of every client and then of every handler in text order; an actor without a step changes
/// nothing. It ends early, at the first round that steps nobody: the rounds left would change nothing, so it shows the
/// same as after all of them. `Rounds` comes for more than 1,000,000 rounds, `Actor` for a pick that names no actor of
/// the program, both before any allocation; `Memory` where one fails. What is shown is isolated: each reservation has
/// done what its block does alone, at its place in the order of reservations. Its synchronisations are counted,
/// reservation by reservation and object by object.
pub fn play_plain(
    alloc: Global,
    program: &Program,
    picks: &[Actor],
    rounds: u32,
) -> Result<Played, PlayFault>
    ensures played { IsPlayed program.now picks.now rounds result }
    ensures legal { IfOk result (λ played. IsLegal program.now played.order) }
    ensures isolated { IfOk result (λ played. IsIsolated program.now played (commands_in_queue (scheduled program.now picks.now rounds))) }
    ensures counted { IfOk result (AreQueriesCounted program.now (scheduled program.now picks.now rounds)) }
{
    if rounds > MOST_ROUNDS {
        return Err(PlayFault::Rounds);
    }
    if !are_named(program, picks) {
        return Err(PlayFault::Actor);
    }
    match play(alloc, program, picks, rounds) {
        Ok(played) => Ok(played),
        Err(_) => Err(PlayFault::Memory),
    }
}

fn play(
    alloc: Global,
    program: &Program,
    picks: &[Actor],
    rounds: u32,
) -> Result<Played, AllocError>
    ensures played { IfOk result (λ played. played ≡ played_of program.now (scheduled program.now picks.now rounds)) }
    ensures legal { IfOk result (λ played. IsLegal program.now played.order) }
    ensures isolated { IfOk result (λ played. IsIsolated program.now played (commands_in_queue (scheduled program.now picks.now rounds))) }
    ensures counted { IfOk result (AreQueriesCounted program.now (scheduled program.now picks.now rounds)) }
{
    program.keeps_sound();
    let mut rules = Machine::new(alloc, program)?;
    for pick in picks {
        let _stepped = rules.step(*pick);
    }
    rules.play_rounds(rounds);
    rules.into_played(alloc)
}
