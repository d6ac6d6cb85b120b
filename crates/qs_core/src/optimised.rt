//! The optimised machine, from its beginning on.

ghost use Rattle.std.specs.Prelude.{◌≡◌, ◌<◌, None, true, false, length, IfOk};
ghost use Rattle.qs_core_laws.specs.audit.CoreSchedule.{core_played};
ghost use Rattle.qs_played.specs.audit.Schedule.{HasStep, actors_of, rounds_of};
ghost use Rattle.qs_played.specs.declared.schedule.actor.Actor.TheVariants as actors;
ghost use Rattle.std.specs.Bool.{OnTrue};
ghost use Rattle.qs_core_laws.specs.audit.Core.{core_step};
ghost use Rattle.qs_core.specs.CoreEffects.{core_effect, core_requests};
ghost use Rattle.qs_program.specs.audit.Program.{blocks_of};
ghost use Rattle.qs_core_laws.specs.orders.CoreQuiet.{turn_of};
ghost use Rattle.qs_core.specs.CoreOrders.{CoreGoes, IsOneBlockOn, IsQuietNow, blocks_begun};
ghost use Rattle.qs_core.specs.state.CoreState.{CoreIsCounted, CoreIsIsolated, CoreSteps, IsFreshCore, codes_of, core_of};

mod reading;

use crate::core_effect::CoreEffect;
use crate::core_machine::CoreMachine;
use crate::stuck::Stuck;
use qs_chunk::ChunkSize;
use qs_objects::Request;
use qs_played::{Actor, Played};
use qs_program::Program;
use qs_syncset::Mode;
use std::alloc::{AllocError, Global};
use std::marker::Model;

/// A program on its way in the optimised machine, from its beginning on: each client sends chunks of commands to the
/// handlers, and runs its queries itself on the objects that come to it. Its steps take no memory.
pub struct Core<'p> {
    machine: CoreMachine<'p>,
    stuck: Stuck,
}

impl Drop for Core<'_> {
    fn drop(self) {
        let Core {
            machine: _,
            stuck: _,
        } = self;
    }
}

impl<'p> Model for Core<'p> {
    ghost use Rattle.qs_core.specs.state.CoreState.{CoreState, IsReachedCore, core_code};

    ghost Value = { CoreState };

    ghost coded = { core_code };

    ghost view = { λ c. c.machine };

    ghost use Rattle.qs_core.specs.state.CoreStuck.{AreStuck};

    ghost invariant = { λ c. IsReachedCore c.machine × AreStuck c.stuck c.machine };
}

impl<'p> Core<'p> {
    /// A program before its first step, in this mode and with chunks of this size. It takes all the memory that the run
    /// will need, by the loads; an allocation that fails leaves nothing.
    pub fn new(
        alloc: Global,
        program: &'p Program,
        mode: Mode,
        size: ChunkSize,
    ) -> Result<Core<'p>, AllocError>
        ensures fresh { IfOk result (IsFreshCore program.now mode size) }
    {
        let machine = CoreMachine::new(alloc, program, mode, size)?;
        let stuck = Stuck::nobody();
        Ok(Core { machine, stuck })
    }

    /// One step of an actor: true where it has one, and else false, with nothing changed; also where there is no such
    /// actor. What has run stays isolated, and each Sync that was sent is counted.
    #[inline(always)]
    pub fn step(&mut self, actor: Actor) -> bool
        ensures steps { OnTrue result (CoreSteps self.old actor self.new) }
        ensures none { result ≡ false → core_step (codes_of self.old) self.old.size (core_of self.old) actor ≡ None }
        ensures unchanged { result ≡ false → self.new ≡ self.old }
        ensures isolated { CoreIsIsolated self.new }
        ensures counted { CoreIsCounted self.new }
    {
        self.machine.program().keeps_sound();
        self.machine.keeps_machine();
        let stepped = match actor {
            Actor::Client(client) => {
                usize::from(client) < self.machine.clients().len() && self.step_client(client)
            }
            Actor::Handler(handler) => {
                usize::from(handler) < self.machine.handlers().len() && self.step_handler(handler)
            }
        };
        self.keeps_isolated();
        self.keeps_counted();
        stepped
    }

    // One step of a client. One that is known to have none is not asked.
    #[inline(always)]
    fn step_client(&mut self, client: u8) -> bool
        requires { client < length self.old.program.clients }
        ensures steps { OnTrue result (CoreSteps self.old (actors.Client client) self.new) }
        ensures none { result ≡ false → core_step (codes_of self.old) self.old.size (core_of self.old) (actors.Client client) ≡ None }
        ensures unchanged { result ≡ false → self.new ≡ self.old }
    {
        self.machine.program().keeps_sound();
        self.machine.keeps_machine();
        if self.stuck.has_client(client) {
            return false;
        }
        let lane = self.machine.lane_of(client);
        if !self.machine.step_client(client) {
            self.stuck.put_client(client, true);
            return false;
        }
        match lane {
            Some(handler) => self.stuck.put_handler(handler, false),
            None => self.stuck.wake_handlers(),
        }
        true
    }

    // One step of a handler. One that is known to have none is not asked.
    #[inline(always)]
    fn step_handler(&mut self, handler: u8) -> bool
        requires { handler < length self.old.program.objects }
        ensures steps { OnTrue result (CoreSteps self.old (actors.Handler handler) self.new) }
        ensures none { result ≡ false → core_step (codes_of self.old) self.old.size (core_of self.old) (actors.Handler handler) ≡ None }
        ensures unchanged { result ≡ false → self.new ≡ self.old }
    {
        self.machine.program().keeps_sound();
        self.machine.keeps_machine();
        if self.stuck.has_handler(handler) {
            return false;
        }
        let lane = self.machine.client_of(handler);
        if !self.machine.step_handler(handler) {
            self.stuck.put_handler(handler, true);
            return false;
        }
        match lane {
            Some(woken) => self.stuck.put_client(woken, false),
            None => {}
        }
        true
    }

    /// What an actor does next, if it steps; none for an actor that is not there.
    pub fn next_effect(&self, actor: Actor) -> Option<CoreEffect>
        ensures value { result ≡ core_effect (codes_of self.now) self.now.size (core_of self.now) actor }
    {
        self.machine.program().keeps_sound();
        self.machine.keeps_machine();
        self.machine.next_effect(actor)
    }

    /// The requests of the chunk that an actor sends or runs next, if it does; nothing changes. An error says that
    /// their memory was refused.
    pub fn requests(&mut self, alloc: Global, actor: Actor) -> Result<Vec<Request>, AllocError>
        ensures value { IfOk result (λ requests. requests.items ≡ core_requests (codes_of self.old) self.old.size (core_of self.old) actor) }
        ensures same { self.new ≡ self.old }
    {
        self.machine.program().keeps_sound();
        self.machine.keeps_machine();
        self.machine.requests(alloc, actor)
    }

    /// At every moment each reservation has done what its block does alone, as far as it has come; it does nothing.
    pub fn keeps_isolated(&self)
        ensures isolated { CoreIsIsolated self.now }
    {
        self.machine.program().keeps_sound();
        self.machine.keeps_machine();
    }

    /// At every moment the Syncs that each reservation has sent for each object are counted by its trace, as the mode
    /// says; it does nothing.
    pub fn keeps_counted(&self)
        ensures counted { CoreIsCounted self.now }
    {
        self.machine.program().keeps_sound();
    }

    /// One step of each client and then of each handler, in text order: true where one of them has stepped, and else
    /// false, with nothing changed.
    fn round(&mut self) -> bool
        ensures goes { CoreGoes self.old (actors_of self.old.program) self.new }
        ensures stepped { result ≡ true → HasStep (core_step (codes_of self.old) self.old.size) (actors_of self.old.program) (core_of self.old) }
        ensures unchanged { result ≡ false → self.new ≡ self.old }
    {
        let program = self.machine.program();
        program.keeps_sound();
        let clients = program.clients() as u8;
        let handlers = program.objects() as u8;
        let mut stepped = false;
        for client in 0..clients {
            if self.step_client(client) {
                stepped = true;
            }
        }
        for handler in 0..handlers {
            if self.step_handler(handler) {
                stepped = true;
            }
        }
        stepped
    }

    /// So many rounds. It ends at the first one that steps nobody, as the further ones would change nothing either.
    pub fn play_rounds(&mut self, rounds: u32)
        ensures goes { CoreGoes self.old (rounds_of rounds (actors_of self.old.program)) self.new }
    {
        for _round in 0..rounds {
            if !self.round() {
                return;
            }
        }
    }

    // A turn of a client: one step of it, and then two of each handler, in text order.
    fn turn(&mut self, client: u8)
        ensures goes { CoreGoes self.old (turn_of self.old.program client) self.new }
    {
        let program = self.machine.program();
        program.keeps_sound();
        let handlers = program.objects() as u8;
        let _stepped = self.step(Actor::Client(client));
        for handler in 0..handlers {
            let _served = self.step(Actor::Handler(handler));
            let _given = self.step(Actor::Handler(handler));
        }
    }

    /// The next block of a client, from its reservation to its end, where nobody is in a block: turns of the client,
    /// until the block has ended.
    pub(crate) fn play_block(&mut self, client: u8)
        requires quiet { IsQuietNow self.old }
        requires left { blocks_begun self.old client < blocks_of self.old.program client }
        ensures on { IsOneBlockOn self.old client self.new }
    {
        self.machine.program().keeps_sound();
        self.machine.keeps_machine();
        let index = self.machine.begun(client) as u8;
        self.turn(client);
        for _turn in 0..u64::MAX {
            self.machine.keeps_machine();
            if self.machine.has_ended(client, index) {
                return;
            }
            self.turn(client);
        }
    }

    /// What the run has shown. It is isolated, and its Syncs are counted. An error says that an allocation failed.
    pub fn into_played(self, alloc: Global) -> Result<Played, AllocError>
        ensures shown { IfOk result (λ played. played ≡ core_played self.entry.program (core_of self.entry)) }
        ensures isolated { CoreIsIsolated self.entry }
        ensures counted { CoreIsCounted self.entry }
    {
        let Core { machine, stuck: _ } = self;
        machine.program().keeps_sound();
        machine.keeps_machine();
        machine.into_played(alloc)
    }
}
