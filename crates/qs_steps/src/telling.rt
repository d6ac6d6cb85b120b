//! The steps of a schedule, told as they are made, and what lies where after it, of any machine.

ghost use Rattle.std.specs.Prelude.{◌≡◌, ◌≤◌, ◌<◌, ◌+◌, ◌^◌, ◌++◌, [], false, if◌then◌else◌, length, true, IfOk, OnOk};
ghost use Rattle.qs_played.specs.audit.Schedule.{actors_of, rounds_of, schedule};
ghost use Rattle.qs_steps.specs.Telling.{AreTold, IsAsked, IsScheduleTold, LeadTo, NoneStep, View, asked_line, own_program, steps_from};

use crate::wanted::{Form, Wanted};
use qs_played::Actor;
use qs_program::Program;
use std::alloc::{AllocError, Global};

/// The turn of an actor that is asked to step: by a pick or in a round, and its number among all turns; and how it is
/// told.
#[derive(Clone, Copy)]
pub(crate) struct Turn {
    pub form: Form,
    pub is_pick: bool,
    pub number: u64,
    pub actor: Actor,
}

/// A machine that plays a schedule and is told.
pub(crate) trait Machine {
    ghost view: { View Self };

    /// One actor is asked to step, and its turn has its line: whether it stepped.
    fn put_step(
        &mut self,
        alloc: Global,
        out: &mut Vec<u8>,
        program: &Program,
        turn: Turn,
    ) -> Result<bool, AllocError>
        requires own { own_program view self.old ≡ program.now }
        ensures line { IfOk result (λ stepped. out.new.items ≡ out.old.items
            ++ asked_line view turn.form program.now turn.is_pick turn.number turn.actor stepped self.old) }
        ensures asked { IfOk result (λ stepped. IsAsked view turn.actor stepped self.old self.new) };

    /// One actor is asked to step, and has no line: whether it stepped.
    fn ask(&mut self, actor: Actor) -> bool
        ensures asked { IsAsked view actor result self.old self.new };

    /// So many rounds, and no line.
    fn ask_rounds(&mut self, rounds: u32)
        ensures lead { LeadTo view (rounds_of rounds (actors_of (own_program view self.old))) self.old self.new };

    /// What lies where; the machine stays the same.
    fn put_queues(
        &mut self,
        out: &mut Vec<u8>,
        program: &Program,
        form: Form,
    ) -> Result<(), AllocError>
        requires own { own_program view self.old ≡ program.now }
        ensures text { OnOk result (out.new.items ≡ out.old.items ++ view.queues form (view.kept self.old) (view.state self.old)) }
        ensures same { self.new ≡ self.old };
}

/// How actors are told that are asked to step, and how many were asked before.
#[derive(Clone, Copy)]
pub(crate) struct Asked {
    pub form: Form,
    pub is_pick: bool,
    pub before: u64,
}

/// Some actors, one step each.
pub(crate) fn put_actors<M: Machine>(
    alloc: Global,
    out: &mut Vec<u8>,
    program: &Program,
    asked: Asked,
    machine: &mut M,
    actors: &[Actor],
) -> Result<(), AllocError>
    requires own { own_program M.view machine.old ≡ program.now }
    requires room { asked.before + length actors.now < 2 ^ 64 }
    ensures told { OnOk result (AreTold M.view asked.form program.now asked.is_pick (1 + asked.before) actors.now out.old.items machine.old out.new.items machine.new) }
{
    let mut number = asked.before;
    for actor in actors {
        number += 1;
        let turn = Turn {
            form: asked.form,
            is_pick: asked.is_pick,
            number,
            actor: *actor,
        };
        let _stepped = machine.put_step(alloc, out, program, turn)?;
    }
    Ok(())
}

// One step of each client and then of each handler, in text order, after so many actors were asked: whether one of them
// stepped.
fn put_round<M: Machine>(
    alloc: Global,
    out: &mut Vec<u8>,
    program: &Program,
    form: Form,
    machine: &mut M,
    asked: u64,
) -> Result<bool, AllocError>
    requires own { own_program M.view machine.old ≡ program.now }
    requires room { asked ≤ 2 ^ 63 }
    ensures told { OnOk result (AreTold M.view form program.now false (asked + 1) (actors_of program.now) out.old.items machine.old out.new.items machine.new) }
    ensures still { IfOk result (λ stepped. stepped ≡ false → NoneStep M.view (actors_of program.now) machine.old machine.new) }
{
    program.keeps_sound();
    let clients = program.clients() as u64;
    let mut stepped = false;
    for client in 0..program.clients() as u8 {
        let turn = Turn {
            form,
            is_pick: false,
            number: asked + 1 + u64::from(client),
            actor: Actor::Client(client),
        };
        stepped |= machine.put_step(alloc, out, program, turn)?;
    }
    for handler in 0..program.objects() as u8 {
        let turn = Turn {
            form,
            is_pick: false,
            number: asked + 1 + clients + u64::from(handler),
            actor: Actor::Handler(handler),
        };
        stepped |= machine.put_step(alloc, out, program, turn)?;
    }
    Ok(stepped)
}

// So many rounds, after so many picks. They end at the first one that steps nobody, as the further ones would tell
// nothing either.
fn put_rounds<M: Machine>(
    alloc: Global,
    out: &mut Vec<u8>,
    program: &Program,
    form: Form,
    machine: &mut M,
    picks: u64,
    rounds: u32,
) -> Result<(), AllocError>
    requires own { own_program M.view machine.old ≡ program.now }
    requires room { picks ≤ 2 ^ 62 }
    ensures told { OnOk result (AreTold M.view form program.now false (picks + 1) (rounds_of rounds (actors_of program.now)) out.old.items machine.old out.new.items machine.new) }
{
    program.keeps_sound();
    let actors = (program.clients() + program.objects()) as u64;
    for round in 0..rounds {
        let asked = picks + u64::from(round) * actors;
        if !put_round(alloc, out, program, form, machine, asked)? {
            return Ok(());
        }
    }
    Ok(())
}

// The whole schedule.
fn put_schedule<M: Machine>(
    alloc: Global,
    out: &mut Vec<u8>,
    program: &Program,
    form: Form,
    machine: &mut M,
    picks: &[Actor],
    rounds: u32,
) -> Result<(), AllocError>
    requires own { own_program M.view machine.old ≡ program.now }
    ensures told { OnOk result (IsScheduleTold M.view form program.now picks.now rounds out.old.items machine.old out.new.items machine.new) }
{
    let asked = Asked {
        form,
        is_pick: true,
        before: 0,
    };
    put_actors(alloc, out, program, asked, machine, picks)?;
    put_rounds(
        alloc,
        out,
        program,
        form,
        machine,
        picks.len() as u64,
        rounds,
    )
}

// The whole schedule, and no text.
fn play<M: Machine>(machine: &mut M, picks: &[Actor], rounds: u32)
    ensures lead { LeadTo M.view (schedule (own_program M.view machine.old) picks.now rounds) machine.old machine.new }
{
    for pick in picks {
        let _stepped = machine.ask(*pick);
    }
    machine.ask_rounds(rounds);
}

/// Plays the whole schedule: the lines of its steps, where they are asked for, and else no text.
pub(crate) fn play_steps<M: Machine>(
    alloc: Global,
    program: &Program,
    machine: &mut M,
    picks: &[Actor],
    rounds: u32,
    wanted: Wanted,
) -> Result<Vec<u8>, AllocError>
    requires own { own_program M.view machine.old ≡ program.now }
    ensures text { IfOk result (λ out. out.items ≡ (if wanted.steps then steps_from M.view wanted.form program.now picks.now rounds machine.old else [])) }
    ensures lead { OnOk result (LeadTo M.view (schedule program.now picks.now rounds) machine.old machine.new) }
{
    let tells = wanted.steps;
    if tells {
        let mut out = Vec::new(alloc);
        put_schedule(
            alloc,
            &mut out,
            program,
            wanted.form,
            machine,
            picks,
            rounds,
        )?;
        Ok(out)
    } else {
        play(machine, picks, rounds);
        Ok(Vec::new(alloc))
    }
}

/// What lies where, where it is asked for, and else no text; the machine stays the same.
pub(crate) fn queues_of<M: Machine>(
    alloc: Global,
    program: &Program,
    machine: &mut M,
    wanted: Wanted,
) -> Result<Vec<u8>, AllocError>
    requires own { own_program M.view machine.old ≡ program.now }
    ensures text { IfOk result (λ out. out.items ≡ (if wanted.queues then M.view.queues wanted.form (M.view.kept machine.old) (M.view.state machine.old) else [])) }
    ensures same { machine.new ≡ machine.old }
{
    if wanted.queues {
        let mut out = Vec::new(alloc);
        machine.put_queues(&mut out, program, wanted.form)?;
        Ok(out)
    } else {
        Ok(Vec::new(alloc))
    }
}
