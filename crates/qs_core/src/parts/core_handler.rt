//! A handler of the optimised machine.

ghost use Rattle.std.specs.Prelude.{true, ◌≡◌, ◌<◌, [], ◌∷◌, List, ℕ, None, false, length, IfOk, MatchOption, option_copied};
ghost use Rattle.qs_objects.specs.declared.held.Ticket.{Ticket as TicketShape};
ghost use Rattle.qs_objects.specs.audit.Journals.{HeldState};
ghost use Rattle.qs_objects.specs.declared.Request.{Request as RequestShape};
ghost use Rattle.qs_chunk.specs.audit.Batch.{Batch};
ghost use Rattle.std.specs.Bool.{OnTrue};
ghost use Rattle.qs_handler.specs.audit.Handler.{free};
ghost use Rattle.qs_handler.specs.Handler.{held_of, serving};
ghost use Rattle.qs_handler.specs.declared.mind.Act.TheVariants as acts;
ghost use Rattle.qs_core.specs.parts.CoreHandlers.{is_waiting, takes_ticket, IsCoreHandler, LaneSteps, MayCome, TakesTicket, with_ticket, handler_with_act, handler_with, lane_step_of_handler, turns_to};

mod reading;

use crate::parts::lane::Lane;
use core::mem::replace_with;
use qs_chunk::Chunk;
use qs_handler::{Act, Mind};
use qs_objects::{Held, Next, Request, Ticket};
use std::alloc::{AllocError, Global};
use std::collections::VecDeque;
use std::marker::Model;

/// A handler's mind with the act that it handed out last, and the handler's queue of tickets. It takes memory in `new`
/// alone.
pub struct CoreHandler {
    mind: Mind,
    act: Act,
    tickets: VecDeque<Ticket>,
    room: usize,
}

impl Drop for CoreHandler {
    fn drop(self) {
        let CoreHandler {
            mind: _,
            act: _,
            tickets: _,
            room: _,
        } = self;
    }
}

impl Model for CoreHandler {
    ghost use Rattle.std.specs.Prelude.{◌≤◌};
    ghost use Rattle.std.specs.VecDeque.{deque_capacity};
    ghost use Rattle.qs_core.specs.parts.CoreHandlers.{CoreHandlerState, IsCoreHandler};

    ghost Value = { CoreHandlerState };

    ghost view = { λ s. record { mind = s.mind; act = s.act; tickets = s.tickets.items; room = s.room } };

    ghost invariant = { λ s. IsCoreHandler (record { mind = s.mind; act = s.act; tickets = s.tickets.items; room = s.room })
        × (s.room ≤ deque_capacity s.tickets) };
}

// The object goes out of an act that gives it. A parcel is taken next.
fn take_held(act: Act, _nothing: ()) -> (Act, Held)
    requires gives { (c : ℕ) × (x : HeldState) × (act ≡ acts.Give c x) }
    ensures taken { (c : ℕ) × (act ≡ acts.Give c result.1) × (result.0 ≡ acts.TakeParcel c) }
{
    match act {
        Act::Give(client, held) => (Act::TakeParcel(client), held),
        _ => unreachable!(),
    }
}

// The chunk goes out of an act that gives it back. A parcel is taken next.
fn take_spare(act: Act, _nothing: ()) -> (Act, Chunk<Request>)
    requires spares { (c : ℕ) × (chunk : Batch RequestShape) × (act ≡ acts.Spare c chunk) }
    ensures taken { (c : ℕ) × (act ≡ acts.Spare c result.1) × (result.0 ≡ acts.TakeParcel c) }
{
    match act {
        Act::Spare(client, chunk) => (Act::TakeParcel(client), chunk),
        _ => unreachable!(),
    }
}

impl CoreHandler {
    /// One that is free, with its object and room for so many tickets.
    pub fn new(alloc: Global, held: Held, room: usize) -> Result<CoreHandler, AllocError>
        ensures fresh { IfOk result (λ s. s ≡ handler_with (free held) [] room) }
    {
        let tickets = VecDeque::with_capacity(alloc, room)?;
        let mut mind = Mind::new(held);
        let act = mind.next();
        Ok(CoreHandler {
            mind,
            act,
            tickets,
            room,
        })
    }

    /// A ticket comes to the end of its queue.
    pub fn enter(&mut self, ticket: Ticket)
        requires room { length self.old.tickets < self.old.room }
        ensures entered { self.new ≡ with_ticket ticket self.old }
    {
        self.tickets.push_back_reserved(ticket);
    }

    /// What holds of every handler: its act is the next one of its mind. It does nothing.
    pub fn has_next_act(&self)
        ensures formed { IsCoreHandler self.now }
    {
        let _ = &self.mind;
    }

    /// The act that its mind handed out last.
    pub fn act(&self) -> &Act
        ensures value { result.now ≡ self.now.act }
    {
        &self.act
    }

    /// The block that it serves, if there is one.
    #[tactic(auto, using(crate::proofs::parts::HandlerFronts::serving_behind))]
    pub fn serving(&self) -> Option<Ticket>
        ensures value { MatchOption result (serving (handler_with_act self.now) ≡ []) (λ ticket. serving (handler_with_act self.now) ≡ ticket ∷ []) }
    {
        self.mind.serving()
    }

    /// The first ticket of its queue.
    pub fn first_ticket(&self) -> Option<Ticket>
        ensures value { MatchOption result (self.now.tickets ≡ []) (λ ticket. (rest : List TicketShape) × (self.now.tickets ≡ ticket ∷ rest)) }
    {
        self.tickets.front().copied()
    }

    /// The client whose lane it turns to.
    pub fn client(&self) -> Option<u8>
        ensures value { result ≡ turns_to self.now.act }
    {
        match &self.act {
            Act::TakeTicket => None,
            Act::TakeParcel(client) => Some(*client),
            Act::Give(client, _) => Some(*client),
            Act::Spare(client, _) => Some(*client),
            Act::Closed => None,
        }
    }

    /// Takes the first ticket of its queue; false where there is none. A first look keeps a wait cheap.
    pub fn take_ticket(&mut self) -> bool
        requires asked { self.old.act ≡ acts.TakeTicket }
        ensures takes { OnTrue result (TakesTicket self.old self.new) }
        ensures none { result ≡ false → self.old.tickets ≡ [] }
        ensures unchanged { result ≡ false → self.new ≡ self.old }
    {
        if self.tickets.is_empty() {
            return false;
        }
        self.take_first_ticket()
    }

    // Takes the first ticket, where there is one.
    #[inline(never)]
    fn take_first_ticket(&mut self) -> bool
        requires asked { self.old.act ≡ acts.TakeTicket }
        ensures takes { OnTrue result (TakesTicket self.old self.new) }
        ensures none { result ≡ false → self.old.tickets ≡ [] }
        ensures unchanged { result ≡ false → self.new ≡ self.old }
    {
        match self.tickets.pop_front() {
            None => false,
            Some(ticket) => {
                self.mind.ticket(Next::Ticket(ticket));
                self.mind.next_into(&mut self.act);
                true
            }
        }
    }

    /// What it does next at its client's lane; false where it can't.
    pub fn serve_lane(&mut self, lane: &mut Lane) -> bool
        requires comes { MayCome self.old lane.old }
        ensures steps { OnTrue result (LaneSteps self.old lane.old self.new lane.new) }
        ensures none { result ≡ false → lane_step_of_handler (handler_with_act self.old) self.old.act lane.old ≡ None }
        ensures unchanged { result ≡ false → self.new ≡ self.old }
        ensures lane { result ≡ false → lane.new ≡ lane.old }
    {
        match &self.act {
            Act::TakeParcel(_) => self.take_parcel(lane),
            Act::Give(_, _) => self.give(lane),
            Act::Spare(_, _) => self.spare(lane),
            Act::TakeTicket => false,
            Act::Closed => false,
        }
    }

    // Takes the first parcel. A first look keeps a wait cheap.
    fn take_parcel(&mut self, lane: &mut Lane) -> bool
        requires asked { (c : ℕ) × (self.old.act ≡ acts.TakeParcel c) }
        requires comes { MayCome self.old lane.old }
        ensures steps { OnTrue result (LaneSteps self.old lane.old self.new lane.new) }
        ensures none { result ≡ false → lane_step_of_handler (handler_with_act self.old) self.old.act lane.old ≡ None }
        ensures unchanged { result ≡ false → self.new ≡ self.old }
        ensures lane { result ≡ false → lane.new ≡ lane.old }
    {
        if lane.is_empty() {
            return false;
        }
        self.take_first(lane)
    }

    // Takes the first parcel, where there is one.
    #[inline(never)]
    fn take_first(&mut self, lane: &mut Lane) -> bool
        requires asked { (c : ℕ) × (self.old.act ≡ acts.TakeParcel c) }
        requires comes { MayCome self.old lane.old }
        ensures steps { OnTrue result (LaneSteps self.old lane.old self.new lane.new) }
        ensures none { result ≡ false → lane_step_of_handler (handler_with_act self.old) self.old.act lane.old ≡ None }
        ensures unchanged { result ≡ false → self.new ≡ self.old }
        ensures lane { result ≡ false → lane.new ≡ lane.old }
    {
        let Some(parcel) = lane.pop() else {
            return false;
        };
        self.mind.parcel_into(parcel, &mut self.act);
        true
    }

    // Gives the object, where none is on its way up. A parcel is taken next.
    #[inline(never)]
    fn give(&mut self, lane: &mut Lane) -> bool
        requires asked { (c : ℕ) × (x : HeldState) × (self.old.act ≡ acts.Give c x) }
        ensures steps { OnTrue result (LaneSteps self.old lane.old self.new lane.new) }
        ensures none { result ≡ false → lane_step_of_handler (handler_with_act self.old) self.old.act lane.old ≡ None }
        ensures unchanged { result ≡ false → self.new ≡ self.old }
        ensures lane { result ≡ false → lane.new ≡ lane.old }
    {
        if lane.object().is_some() {
            return false;
        }
        let held = replace_with(&mut self.act, (), take_held);
        lane.put_object(held);
        true
    }

    // Gives an empty chunk back, where there is room for it. A parcel is taken next.
    #[inline(never)]
    fn spare(&mut self, lane: &mut Lane) -> bool
        requires asked { (c : ℕ) × (chunk : Batch RequestShape) × (self.old.act ≡ acts.Spare c chunk) }
        ensures steps { OnTrue result (LaneSteps self.old lane.old self.new lane.new) }
        ensures none { result ≡ false → lane_step_of_handler (handler_with_act self.old) self.old.act lane.old ≡ None }
        ensures unchanged { result ≡ false → self.new ≡ self.old }
        ensures lane { result ≡ false → lane.new ≡ lane.old }
    {
        if !lane.has_chunk_room() {
            return false;
        }
        let chunk = replace_with(&mut self.act, (), take_spare);
        lane.put_chunk(chunk);
        true
    }

    /// Whether it waits for a ticket.
    pub fn takes_ticket(&self) -> bool
        ensures value { result ≡ takes_ticket self.now.act }
    {
        match &self.act {
            Act::TakeTicket => true,
            Act::TakeParcel(_) => false,
            Act::Give(_, _) => false,
            Act::Spare(_, _) => false,
            Act::Closed => false,
        }
    }

    /// Whether it serves nobody, and has no ticket.
    pub fn is_waiting(&self) -> bool
        ensures value { result ≡ is_waiting self.now }
    {
        self.takes_ticket() && self.tickets.is_empty()
    }

    /// The object with its journal, where the handler has it, or is about to give it.
    pub fn held(&self) -> Option<&Held>
        ensures value { option_copied result ≡ held_of (handler_with_act self.now) }
    {
        match &self.act {
            Act::Give(_, held) => Some(held),
            Act::TakeTicket => self.mind.held(),
            Act::TakeParcel(_) => self.mind.held(),
            Act::Spare(_, _) => self.mind.held(),
            Act::Closed => self.mind.held(),
        }
    }

    /// The object with its journal, by move, of one that waits for a ticket.
    pub fn into_held(self) -> Held
        requires free { takes_ticket self.act ≡ true }
        ensures held { Some result ≡ held_of (handler_with_act self) }
    {
        let CoreHandler {
            mut mind,
            act: _,
            tickets: _,
            room: _,
        } = self;
        mind.ticket(Next::Closed);
        mind.into_held()
    }
}
