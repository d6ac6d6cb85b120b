//! The plain rules.

ghost use Rattle.std.specs.Prelude.{◌≡◌, None, Some, false, IfNone, IfOk, IfSome};
ghost use Rattle.std.specs.Bool.{OnTrue};
ghost use Rattle.qs_plain_laws.specs.audit.Plain.{begin, step as the_step};
ghost use Rattle.qs_plain.specs.Rules.{AreIsolated, Steps, plain_of, AreRulesCounted};
ghost use Rattle.qs_plain.specs.handler.Effects.{plain_effect};
ghost use Rattle.qs_meaning.specs.audit.Serial.{IsLegal};
ghost use Rattle.qs_plain_laws.specs.audit.PlainSchedule.{played_of};

mod playing;
mod reading;

use crate::handler::Effect;
use crate::machine::Machine;
use qs_played::{Actor, Played};
use qs_program::Program;
use std::alloc::{AllocError, Global};
use std::marker::Model;

/// A program on its way under the plain rules, from its beginning on: each handler has a queue of queues, and each
/// reservation a private queue of single requests. It takes memory in `new` alone.
pub struct Rules<'p> {
    machine: Machine<'p>,
}

impl Drop for Rules<'_> {
    fn drop(self) {
        let Rules { machine: _ } = self;
    }
}

impl<'p> Model for Rules<'p> {
    ghost use Rattle.qs_plain.specs.Rules.{RulesState, rules_code, IsSteppedTo};

    ghost Value = { RulesState };

    ghost coded = { rules_code };

    ghost view = { λ r. r.machine };

    ghost invariant = { λ r. IsSteppedTo r.machine };
}

impl<'p> Rules<'p> {
    /// A program before its first step. It takes all the memory that the run will need, by the loads; an allocation
    /// that fails leaves nothing.
    pub fn new(alloc: Global, program: &'p Program) -> Result<Rules<'p>, AllocError>
        ensures fresh { IfOk result (λ r. (r.program ≡ program.now) × (plain_of r ≡ begin program.now)) }
    {
        let machine = Machine::new(alloc, program)?;
        Ok(Rules { machine })
    }

    /// One step of an actor: true where it has one, and else false, with nothing changed; also where there is no such
    /// actor. What has run stays isolated, and each synchronisation is counted.
    pub fn step(&mut self, actor: Actor) -> bool
        ensures steps { OnTrue result (Steps self.old actor self.new) }
        ensures none { result ≡ false → the_step self.old.program (plain_of self.old) actor ≡ None }
        ensures unchanged { result ≡ false → self.new ≡ self.old }
        ensures isolated { AreIsolated self.new }
        ensures counted { AreRulesCounted self.new }
    {
        let stepped = self.machine.step(actor);
        self.machine.program().keeps_sound();
        stepped
    }

    /// Makes one step of an actor and says what it does: None where the actor has none or is not there, with nothing
    /// changed.
    pub fn step_with_effect(&mut self, actor: Actor) -> Option<Effect>
        ensures steps { IfSome result (λ _. Steps self.old actor self.new) }
        ensures effect { IfSome result (λ effect. plain_effect (plain_of self.old) actor ≡ Some effect) }
        ensures none { IfNone result (the_step self.old.program (plain_of self.old) actor ≡ None) }
        ensures unchanged { IfNone result (self.new ≡ self.old) }
    {
        self.machine.step_with_effect(actor)
    }

    /// At every moment each reservation has done what its block does alone, as far as it has come; it does nothing.
    pub fn keeps_isolated(&self)
        ensures isolated { AreIsolated self.now }
    {
        self.machine.program().keeps_sound();
    }

    /// At every moment each reservation has asked for each of its queries once, and these make up all synchronisations;
    /// it does nothing.
    pub fn keeps_counted(&self)
        ensures counted { AreRulesCounted self.now }
    {
        self.machine.program().keeps_sound();
    }

    /// What the run has shown. It is isolated, and its synchronisations are counted. An error says that an allocation
    /// failed.
    pub fn into_played(self, alloc: Global) -> Result<Played, AllocError>
        ensures shown { IfOk result (λ played. played ≡ played_of self.entry.program (plain_of self.entry)) }
        ensures legal { IfOk result (λ played. IsLegal self.entry.program played.order) }
        ensures isolated { AreIsolated self.entry }
        ensures counted { AreRulesCounted self.entry }
    {
        let Rules { machine } = self;
        machine.program().keeps_sound();
        machine.into_played(alloc)
    }
}
