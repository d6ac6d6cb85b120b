//! The machine of the plain rules.

ghost use Rattle.std.specs.Prelude.{◌≡◌, ◌<◌, ◌∷◌, None, Some, false, true, length, map, IfNone, IfOk, IfSome};
ghost use Rattle.std.specs.Bool.{OnTrue};
ghost use Rattle.qs_plain_laws.specs.audit.Plain.{begin, step as the_step};
ghost use Rattle.qs_played.specs.declared.schedule.actor.Actor.TheVariants as actors;
ghost use Rattle.qs_plain.specs.declared.client.stage.Stage.TheVariants as stages;
ghost use Rattle.qs_plain.specs.handler.Effects.{plain_effect, reply_in};
ghost use Rattle.qs_plain.specs.declared.did.Did.TheVariants as dids;
ghost use Rattle.qs_plain.specs.StepEffects.{HasDone, IsShortStep, effect_of_did, has_stepped, last_ticket};
ghost use Rattle.qs_plain.specs.handler.Handlers.{handler_state_at};

mod reading;

use crate::client::{Asked, ClientState, Stage, answer, fresh_clients};
use crate::did::Did;
use crate::handler::{
    Effect, HandlerState, Served, enter_all, fresh_handlers, log_all, log_command, log_query,
};
use crate::showing;
use qs_objects::Ticket;
use qs_plain_laws::QueueItem;
use qs_played::{Actor, Endings, Played, Sequence};
use qs_program::Program;
use std::alloc::{AllocError, Global};
use std::marker::Model;

/// A program on its way: each handler has a queue of queues, and each reservation a private queue of single requests.
/// It takes memory in `new` alone.
#[derive(Drop)]
pub(crate) struct Machine<'p> {
    program: &'p Program,
    alloc: Global,
    order: Vec<Ticket>,
    clients: Vec<ClientState<'p>>,
    handlers: Vec<HandlerState>,
}

impl<'p> Model for Machine<'p> {
    ghost use Rattle.std.specs.Prelude.{◌≤◌, ◌+◌, vec_len, vec_capacity};
    ghost use Rattle.qs_plain.specs.Rules.{RulesState, rules_code, IsRules, to_come};

    ghost Value = { RulesState };

    ghost coded = { rules_code };

    ghost view = { λ r. record { program = r.program.now; order = r.order.items; clients = r.clients.items; handlers = r.handlers.items } };

    ghost invariant = { λ r.
        IsRules (record { program = r.program.now; order = r.order.items; clients = r.clients.items; handlers = r.handlers.items })
        × (vec_len r.order + to_come r.clients.items ≤ vec_capacity r.order) };
}

impl<'p> Machine<'p> {
    ghost use Rattle.qs_plain.specs.client.Clients.{client_state_at};
    ghost use Rattle.qs_plain.specs.Rules.{Steps, plain_of};
    ghost use Rattle.qs_played.specs.audit.Schedule.{HasStep, actors_of, rounds_of};
    ghost use Rattle.qs_plain_laws.specs.audit.PlainSchedule.{is_out, played_of, plays};
    ghost use Rattle.qs_plain.specs.BegunBlocks.{AreBegun};
    ghost use Rattle.qs_plain.specs.Blocks.{IsOneBlockOn, IsQuietNow, blocks_begun};
    ghost use Rattle.qs_plain_laws.specs.audit.Plain.{client_at as the_client};
    ghost use Rattle.qs_program.specs.audit.Program.{blocks_of};

    /// A program before its first step. It takes all the memory that the run will need, by the loads; an allocation
    /// that fails leaves nothing.
    pub(crate) fn new(alloc: Global, program: &'p Program) -> Result<Machine<'p>, AllocError>
        ensures fresh { IfOk result (λ r. (r.program ≡ program.now) × (plain_of r ≡ begin program.now)) }
    {
        program.keeps_sound();
        let blocks = program.blocks();
        let clients = fresh_clients(alloc, program)?;
        let handlers = fresh_handlers(alloc, program, blocks)?;
        let order = Vec::with_capacity(alloc, blocks)?;
        Ok(Machine {
            program,
            alloc,
            order,
            clients,
            handlers,
        })
    }

    /// The program.
    pub(crate) fn program(&self) -> &Program
        ensures value { result.now ≡ self.now.program }
    {
        self.program
    }

    /// One step of an actor: true where it has one, and else false, with nothing changed; also where there is no such
    /// actor.
    pub(crate) fn step(&mut self, actor: Actor) -> bool
        ensures steps { OnTrue result (Steps self.old actor self.new) }
        ensures none { result ≡ false → the_step self.old.program (plain_of self.old) actor ≡ None }
        ensures unchanged { result ≡ false → self.new ≡ self.old }
    {
        match actor {
            Actor::Client(client) => {
                usize::from(client) < self.clients.len() && self.step_client(client).has_stepped()
            }
            Actor::Handler(handler) => {
                usize::from(handler) < self.handlers.len() && self.step_handler(handler)
            }
        }
    }

    /// Makes one step of an actor and says what it does: None where the actor has none.
    pub(crate) fn step_with_effect(&mut self, actor: Actor) -> Option<Effect>
        ensures steps { IfSome result (λ _. Steps self.old actor self.new) }
        ensures effect { IfSome result (λ effect. plain_effect (plain_of self.old) actor ≡ Some effect) }
        ensures none { IfNone result (the_step self.old.program (plain_of self.old) actor ≡ None) }
        ensures unchanged { IfNone result (self.new ≡ self.old) }
    {
        match actor {
            Actor::Client(client) => {
                if usize::from(client) < self.clients.len() {
                    self.step_client_with_effect(client)
                } else {
                    None
                }
            }
            Actor::Handler(handler) => {
                if usize::from(handler) < self.handlers.len() {
                    self.step_handler_with_effect(handler)
                } else {
                    None
                }
            }
        }
    }

    #[inline(always)]
    fn step_client(&mut self, number: u8) -> Did<'p>
        requires { number < length self.old.clients }
        ensures steps { OnTrue (has_stepped result) (Steps self.old (actors.Client number) self.new) }
        ensures done { OnTrue (has_stepped result) (HasDone result (plain_of self.old) number self.new) }
        ensures none { has_stepped result ≡ false → the_step self.old.program (plain_of self.old) (actors.Client number) ≡ None }
        ensures unchanged { has_stepped result ≡ false → self.new ≡ self.old }
    {
        let client = &self.clients[usize::from(number)];
        match client.stage() {
            Stage::Out => {
                if !client.has_more() {
                    return Did::Nothing;
                }
                self.separate(number);
                Did::Reserved
            }
            Stage::Within => self.go_on(number),
            Stage::Waiting(_) => Did::Nothing,
        }
    }

    fn step_client_with_effect(&mut self, number: u8) -> Option<Effect>
        requires { number < length self.old.clients }
        ensures steps { IfSome result (λ _. Steps self.old (actors.Client number) self.new) }
        ensures effect { IfSome result (λ effect. plain_effect (plain_of self.old) (actors.Client number) ≡ Some effect) }
        ensures none { IfNone result (the_step self.old.program (plain_of self.old) (actors.Client number) ≡ None) }
        ensures unchanged { IfNone result (self.new ≡ self.old) }
    {
        let did = self.step_client(number);
        if !did.has_stepped() {
            return None;
        }
        Some(self.effect_after(number, did))
    }

    // What a client has just done.
    fn effect_after(&self, number: u8, did: Did) -> Effect
        requires stepped { has_stepped did ≡ true }
        requires number { number < length self.now.clients }
        requires short { IsShortStep did }
        ensures value { effect_of_did did.entry (client_state_at self.now.clients number).locals (last_ticket number (client_state_at self.now.clients number)) ≡ Some result }
    {
        let client = &self.clients[usize::from(number)];
        let ticket = Ticket {
            client: number,
            index: client.begun().saturating_sub(1) as u8,
        };
        match did {
            Did::Nothing => unreachable!(),
            Did::Reserved => Effect::Reserves(ticket),
            Did::Logged(call) => Effect::Logs(client.request(self.alloc, call)),
            Did::Asked(call) => Effect::Asks(client.request(self.alloc, call)),
            Did::Ended => Effect::Ends(ticket),
        }
    }

    /// A client reserves the objects of its next block.
    #[inline(never)]
    fn separate(&mut self, number: u8)
        requires number { number < length self.old.clients }
        requires out { (client_state_at self.old.clients number).stage ≡ stages.Out }
        requires more { 0 < length (client_state_at self.old.clients number).prepared }
        ensures steps { Steps self.old (actors.Client number) self.new }
        ensures done { HasDone dids.Reserved (plain_of self.old) number self.new }
    {
        self.program.keeps_sound();
        let client = &mut self.clients[usize::from(number)];
        let ticket = Ticket {
            client: number,
            index: client.begun() as u8,
        };
        let queues = client.begin();
        self.order.push_reserved(ticket);
        enter_all(&mut self.handlers, queues);
    }

    /// A client in a block goes on up to its next request, which is logged, or to the block's end.
    #[inline(never)]
    fn go_on(&mut self, number: u8) -> Did<'p>
        requires number { number < length self.old.clients }
        requires within { (client_state_at self.old.clients number).stage ≡ stages.Within }
        ensures steps { Steps self.old (actors.Client number) self.new }
        ensures stepped { has_stepped result ≡ true }
        ensures done { HasDone result (plain_of self.old) number self.new }
    {
        self.program.keeps_sound();
        let client = &mut self.clients[usize::from(number)];
        let ticket = Ticket {
            client: number,
            index: (client.begun() - 1) as u8,
        };
        match client.ask(self.alloc) {
            Asked::Command(call) => {
                let request = client.request(self.alloc, call);
                log_command(&mut self.handlers, call.object, ticket, request);
                Did::Logged(call)
            }
            Asked::Query(call) => {
                let request = client.request(self.alloc, call);
                log_query(&mut self.handlers, call.object, ticket, request);
                Did::Asked(call)
            }
            Asked::End => {
                let block = self.program.block(ticket.client, ticket.index);
                log_all(
                    &mut self.handlers,
                    block.reserved(),
                    ticket,
                    &QueueItem::EndMark,
                );
                Did::Ended
            }
        }
    }

    /// A handler's step. A first look keeps one that has nothing to do cheap.
    #[inline(always)]
    fn step_handler(&mut self, number: u8) -> bool
        requires { number < length self.old.handlers }
        ensures steps { OnTrue result (Steps self.old (actors.Handler number) self.new) }
        ensures none { result ≡ false → the_step self.old.program (plain_of self.old) (actors.Handler number) ≡ None }
        ensures unchanged { result ≡ false → self.new ≡ self.old }
    {
        if self.handlers[usize::from(number)].has_nothing() {
            return false;
        }
        self.serve(number)
    }

    /// A handler takes the first item of the first private queue.
    #[inline(never)]
    fn serve(&mut self, number: u8) -> bool
        requires { number < length self.old.handlers }
        ensures steps { OnTrue result (Steps self.old (actors.Handler number) self.new) }
        ensures none { result ≡ false → the_step self.old.program (plain_of self.old) (actors.Handler number) ≡ None }
        ensures unchanged { result ≡ false → self.new ≡ self.old }
    {
        let handler = &mut self.handlers[usize::from(number)];
        match handler.serve() {
            Served::Nothing => false,
            Served::Done => true,
            Served::Replied(ticket, request, reply) => {
                answer(&mut self.clients, ticket, request, reply);
                true
            }
        }
    }

    fn step_handler_with_effect(&mut self, number: u8) -> Option<Effect>
        requires { number < length self.old.handlers }
        ensures steps { IfSome result (λ _. Steps self.old (actors.Handler number) self.new) }
        ensures effect { IfSome result (λ effect. plain_effect (plain_of self.old) (actors.Handler number) ≡ Some effect) }
        ensures none { IfNone result (the_step self.old.program (plain_of self.old) (actors.Handler number) ≡ None) }
        ensures unchanged { IfNone result (self.new ≡ self.old) }
    {
        let handler = &self.handlers[usize::from(number)];
        let before = handler.served();
        let effect = handler.next_effect()?;
        if !self.step_handler(number) {
            return None;
        }
        let reply = self.reply_after(number, before);
        Some(effect.answered(reply))
    }

    // The reply of the request that a handler's object served after so many.
    fn reply_after(&self, number: u8, before: usize) -> Option<i64>
        ensures value { result ≡ reply_in (handler_state_at self.now.handlers number).held.journal before }
    {
        match self.handlers.get(usize::from(number)) {
            Some(handler) => handler.reply_after(before),
            None => None,
        }
    }

    /// One step of each client and then of each handler, in text order: true where one of them has stepped, and else
    /// false, with nothing changed.
    fn round(&mut self) -> bool
        ensures round { plain_of self.new ≡ plays self.old.program (actors_of self.old.program) (plain_of self.old) }
        ensures program { self.new.program ≡ self.old.program }
        ensures stepped { result ≡ true → HasStep (the_step self.old.program) (actors_of self.old.program) (plain_of self.old) }
        ensures unchanged { result ≡ false → self.new ≡ self.old }
    {
        self.program.keeps_sound();
        let mut stepped = false;
        for client in 0..self.program.clients() as u8 {
            stepped |= self.step(Actor::Client(client));
        }
        for handler in 0..self.program.objects() as u8 {
            stepped |= self.step(Actor::Handler(handler));
        }
        stepped
    }

    /// So many rounds. It ends at the first one that steps nobody, as the further ones would change nothing either.
    pub(crate) fn play_rounds(&mut self, rounds: u32)
        ensures rounds { plain_of self.new ≡ plays self.old.program (rounds_of rounds (actors_of self.old.program)) (plain_of self.old) }
        ensures program { self.new.program ≡ self.old.program }
    {
        for _round in 0..rounds {
            if !self.round() {
                return;
            }
        }
    }

    /// Whether a client stands between two blocks.
    pub(crate) fn is_out(&self, number: u8) -> bool
        ensures value { result ≡ is_out (the_client (plain_of self.now) number).stage }
    {
        match self.clients.get(usize::from(number)) {
            Some(client) => matches!(client.stage(), Stage::Out),
            None => true,
        }
    }

    /// How many blocks a client has begun.
    pub(crate) fn begun(&self, number: u8) -> usize
        ensures value { result ≡ blocks_begun self.now number }
    {
        match self.clients.get(usize::from(number)) {
            Some(client) => client.begun(),
            None => 0,
        }
    }

    // One step of a client, and then one of each handler of a list.
    fn turn(&mut self, client: u8, handlers: &[u8])
        ensures turn { plain_of self.new ≡ plays self.old.program (actors.Client client ∷ map actors.Handler handlers.now) (plain_of self.old) }
        ensures program { self.new.program ≡ self.old.program }
    {
        let _stepped = self.step(Actor::Client(client));
        for handler in handlers {
            let _served = self.step(Actor::Handler(*handler));
        }
    }

    /// The next block of a client, from its reservation to its end, where nobody is in a block: the client and the
    /// handlers of the block's list step in turn.
    pub(crate) fn play_block(&mut self, client: u8)
        requires quiet { IsQuietNow self.old }
        requires left { blocks_begun self.old client < blocks_of self.old.program client }
        ensures on { IsOneBlockOn self.old client self.new }
    {
        self.program.keeps_sound();
        let program = self.program;
        let index = self.begun(client) as u8;
        let reserved = program.block(client, index).reserved();
        let _stepped = self.step(Actor::Client(client));
        'turns: while !self.is_out(client) {
            self.turn(client, reserved);
        }
    }

    /// What the run has shown.
    pub(crate) fn into_played(self, alloc: Global) -> Result<Played, AllocError>
        requires { AreBegun self.clients self.order }
        ensures shown { IfOk result (λ played. played ≡ played_of self.entry.program (plain_of self.entry)) }
    {
        self.program.keeps_sound();
        let ended = showing::endings(alloc, &self.clients, &self.order)?;
        let syncs = showing::syncs(&self.clients);
        let finished = showing::are_done(&self.clients) && showing::are_idle(&self.handlers);
        let (journals, states) = showing::parts(alloc, self.handlers)?;
        let clients = showing::rows(alloc, self.clients)?;
        let endings = Endings {
            ended,
            journals,
            states,
            syncs,
            finished,
        };
        Ok(Played::new(Sequence::from_vec(self.order), clients, endings))
    }
}
