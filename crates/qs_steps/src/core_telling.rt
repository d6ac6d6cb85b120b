//! What a schedule of the optimised machine shows, and what is told of it.

ghost use Rattle.std.specs.Prelude.{◌≡◌, IfOk};
ghost use Rattle.qs_played.specs.SyncSums.{AreSyncsCounted};
ghost use Rattle.qs_core_laws.specs.CoreSchedule.{IsPlayedIn};
ghost use Rattle.qs_core.specs.state.CoreState.{IsShownIsolated, core_of};
ghost use Rattle.qs_steps.specs.CoreSteps.{core_object};
ghost use Rattle.qs_steps.specs.Telling.{IsToldIn, played_in};

use crate::core_lines::put_core_line;
use crate::core_queues::put_core_queues;
use crate::telling::{Machine, Turn, play_steps, queues_of};
use crate::wanted::{Form, Told, Wanted};
use qs_chunk::ChunkSize;
use qs_core::Core;
use qs_objects::Object;
use qs_played::{Actor, MOST_ROUNDS, PlayFault, are_named};
use qs_program::Program;
use qs_syncset::Mode;
use std::alloc::{AllocError, Global};

// The object of an actor that is a handler, once more, where the handler has it.
fn object_of(
    alloc: Global,
    program: &Program,
    core: &Core<'_>,
    actor: Actor,
) -> Result<Option<Object>, AllocError>
    requires own { core.now.program ≡ program.now }
    ensures value { IfOk result (λ object. object ≡ core_object program.now (core_of core.now) actor) }
{
    let Actor::Handler(handler) = actor else {
        return Ok(None);
    };
    if usize::from(handler) >= program.objects() {
        return Ok(None);
    }
    match core.handler(handler).held() {
        Some(held) => Ok(Some(held.object().copied(alloc)?)),
        None => Ok(None),
    }
}

impl Machine for Core<'_> {
    ghost use Rattle.qs_steps.specs.Telling.{core_view};

    ghost view = { core_view };

    // What the actor does, with which requests and on which object, is read before its step.
    fn put_step(
        &mut self,
        alloc: Global,
        out: &mut Vec<u8>,
        program: &Program,
        turn: Turn,
    ) -> Result<bool, AllocError> {
        let effect = self.next_effect(turn.actor);
        let mut object = object_of(alloc, program, self, turn.actor)?;
        let requests = self.requests(alloc, turn.actor)?;
        let stepped = self.step(turn.actor);
        let put = put_core_line(out, program, turn, stepped, &mut object, effect, &requests);
        drop(requests);
        drop(object);
        put?;
        Ok(stepped)
    }

    fn ask(&mut self, actor: Actor) -> bool {
        self.step(actor)
    }

    fn ask_rounds(&mut self, rounds: u32) {
        self.play_rounds(rounds);
    }

    fn put_queues(
        &mut self,
        out: &mut Vec<u8>,
        program: &Program,
        form: Form,
    ) -> Result<(), AllocError> {
        put_core_queues(out, program, form, self)
    }
}

// The texts, and what the run has shown.
fn tell(
    alloc: Global,
    program: &Program,
    mode: Mode,
    size: ChunkSize,
    picks: &[Actor],
    rounds: u32,
    wanted: Wanted,
) -> Result<Told, AllocError>
    ensures told { IfOk result (λ told. IsToldIn program.now mode size picks.now rounds wanted told.steps.items told.queues.items told.played) }
    ensures isolated { IfOk result (λ told. IsShownIsolated program.now mode size picks.now rounds told.played) }
    ensures counted { IfOk result (λ told. AreSyncsCounted program.now mode told.played) }
{
    let mut core = Core::new(alloc, program, mode, size)?;
    let steps = play_steps(alloc, program, &mut core, picks, rounds, wanted)?;
    let queues = queues_of(alloc, program, &mut core, wanted)?;
    let played = core.into_played(alloc)?;
    Ok(Told {
        steps,
        queues,
        played,
    })
}

/// What a schedule of the optimised machine shows: first the picks, one step each, then so many rounds; and what is
/// asked for, the lines of its steps and what lies where after it. The texts are exactly the definitions', by the codes
/// of the program's clients in this mode; what is shown, and when each fault comes, is as `play` has it. The texts grow
/// as they are written, and `Memory` comes where one of their allocations or of the run's fails.
pub fn play_told(
    alloc: Global,
    program: &Program,
    mode: Mode,
    size: ChunkSize,
    picks: &[Actor],
    rounds: u32,
    wanted: Wanted,
) -> Result<Told, PlayFault>
    ensures played { IsPlayedIn program.now mode size picks.now rounds (played_in result) }
    ensures told { IfOk result (λ told. IsToldIn program.now mode size picks.now rounds wanted told.steps.items told.queues.items told.played) }
    ensures isolated { IfOk result (λ told. IsShownIsolated program.now mode size picks.now rounds told.played) }
    ensures counted { IfOk result (λ told. AreSyncsCounted program.now mode told.played) }
{
    if rounds > MOST_ROUNDS {
        return Err(PlayFault::Rounds);
    }
    if !are_named(program, picks) {
        return Err(PlayFault::Actor);
    }
    match tell(alloc, program, mode, size, picks, rounds, wanted) {
        Ok(told) => Ok(told),
        Err(_) => Err(PlayFault::Memory),
    }
}
