//! What a schedule shows under the plain rules, and what is told of it.

ghost use Rattle.std.specs.Prelude.{◌≡◌, [], if◌then◌else◌, IfOk};
ghost use Rattle.qs_meaning.specs.audit.Serial.{IsLegal};
ghost use Rattle.qs_played.specs.Isolation.{IsIsolated};
ghost use Rattle.qs_plain_laws.specs.PlainIsolation.{commands_in_queue};
ghost use Rattle.qs_plain_laws.specs.audit.PlainSchedule.{played_of};
ghost use Rattle.qs_plain_laws.specs.PlainSchedule.{IsPlayed, scheduled};
ghost use Rattle.qs_plain_laws.specs.PlainSyncSums.{AreQueriesCounted};
ghost use Rattle.qs_steps.specs.PlainQueues.{plain_queues};
ghost use Rattle.qs_plain.specs.Rules.{plain_of};
ghost use Rattle.qs_steps.specs.PlainSteps.{plain_object, plain_steps};
ghost use Rattle.qs_steps.specs.Telling.{played_in};

use crate::plain_lines::put_line;
use crate::plain_queues::put_plain_queues;
use crate::telling::{Machine, Turn, play_steps, queues_of};
use crate::wanted::{Form, Told, Wanted};
use qs_objects::Object;
use qs_plain::Rules;
use qs_played::{Actor, MOST_ROUNDS, PlayFault, are_named};
use qs_program::Program;
use std::alloc::{AllocError, Global};

// The object of an actor that is a handler, once more.
fn object_of(alloc: Global, rules: &Rules<'_>, actor: Actor) -> Result<Option<Object>, AllocError>
    ensures value { IfOk result (λ object. object ≡ plain_object (plain_of rules.now) actor) }
{
    match actor {
        Actor::Client(_) => Ok(None),
        Actor::Handler(handler) => match rules.held(handler) {
            Some(held) => Ok(Some(held.object().copied(alloc)?)),
            None => Ok(None),
        },
    }
}

impl Machine for Rules<'_> {
    ghost use Rattle.qs_steps.specs.Telling.{rules_view};

    ghost view = { rules_view };

    // The object is read before the step, and what the actor does after it.
    fn put_step(
        &mut self,
        alloc: Global,
        out: &mut Vec<u8>,
        program: &Program,
        turn: Turn,
    ) -> Result<bool, AllocError> {
        let mut object = object_of(alloc, self, turn.actor)?;
        let effect = self.step_with_effect(turn.actor);
        let put = put_line(out, program, turn, &mut object, &effect);
        let stepped = effect.is_some();
        drop(effect);
        drop(object);
        put?;
        Ok(stepped)
    }

    fn ask(&mut self, actor: Actor) -> bool {
        self.step(actor)
    }

    fn ask_rounds(&mut self, rounds: u32) {
        self.play_rounds(rounds);
    }

    fn put_queues(
        &mut self,
        out: &mut Vec<u8>,
        program: &Program,
        form: Form,
    ) -> Result<(), AllocError> {
        put_plain_queues(out, program, form, self)
    }
}

// The texts, and what the run has shown.
fn tell(
    alloc: Global,
    program: &Program,
    picks: &[Actor],
    rounds: u32,
    wanted: Wanted,
) -> Result<Told, AllocError>
    ensures steps { IfOk result (λ told. told.steps.items ≡ (if wanted.steps then plain_steps wanted.form program.now picks.now rounds else [])) }
    ensures queues { IfOk result (λ told. told.queues.items ≡ (if wanted.queues then plain_queues wanted.form program.now picks.now rounds else [])) }
    ensures played { IfOk result (λ told. told.played ≡ played_of program.now (scheduled program.now picks.now rounds)) }
    ensures legal { IfOk result (λ told. IsLegal program.now told.played.order) }
    ensures isolated { IfOk result (λ told. IsIsolated program.now told.played (commands_in_queue (scheduled program.now picks.now rounds))) }
    ensures counted { IfOk result (λ told. AreQueriesCounted program.now (scheduled program.now picks.now rounds) told.played) }
{
    let mut rules = Rules::new(alloc, program)?;
    let steps = play_steps(alloc, program, &mut rules, picks, rounds, wanted)?;
    let queues = queues_of(alloc, program, &mut rules, wanted)?;
    let played = rules.into_played(alloc)?;
    Ok(Told {
        steps,
        queues,
        played,
    })
}

/// What a schedule shows under the plain rules: first the picks, one step each, then so many rounds; and what is asked
/// for, the lines of its steps and what lies where after it. The texts are exactly the definitions'; what is shown, and
/// when each fault comes, is as `play_plain` has it. The texts grow as they are written, and `Memory` comes where one
/// of their allocations or of the run's fails.
pub fn rules_told(
    alloc: Global,
    program: &Program,
    picks: &[Actor],
    rounds: u32,
    wanted: Wanted,
) -> Result<Told, PlayFault>
    ensures played { IsPlayed program.now picks.now rounds (played_in result) }
    ensures steps { IfOk result (λ told. told.steps.items ≡ (if wanted.steps then plain_steps wanted.form program.now picks.now rounds else [])) }
    ensures queues { IfOk result (λ told. told.queues.items ≡ (if wanted.queues then plain_queues wanted.form program.now picks.now rounds else [])) }
    ensures legal { IfOk result (λ told. IsLegal program.now told.played.order) }
    ensures isolated { IfOk result (λ told. IsIsolated program.now told.played (commands_in_queue (scheduled program.now picks.now rounds))) }
    ensures counted { IfOk result (λ told. AreQueriesCounted program.now (scheduled program.now picks.now rounds) told.played) }
{
    if rounds > MOST_ROUNDS {
        return Err(PlayFault::Rounds);
    }
    if !are_named(program, picks) {
        return Err(PlayFault::Actor);
    }
    match tell(alloc, program, picks, rounds, wanted) {
        Ok(told) => Ok(told),
        Err(_) => Err(PlayFault::Memory),
    }
}
