//! A client of the optimised machine.

ghost use Rattle.std.specs.Prelude.{◌≡◌, ◌<◌, [], false, ◌&&◌, length, nat_eq, replicate, IfOk, option_copied};
ghost use Rattle.std.specs.Bool.{OnTrue};
ghost use Rattle.qs_program.specs.audit.Limits.{most_handlers};
ghost use Rattle.qs_client.specs.audit.ClientModel.{mind_after_begin, fresh_mind, is_between};
ghost use Rattle.qs_client.specs.MindState.{IsMind, mind_of};
ghost use Rattle.qs_chunk.specs.declared.parcel.Parcel.{Parcel as ParcelShape};
ghost use Rattle.qs_client.specs.declared.rules.act.Act.TheVariants as acts;
ghost use Rattle.qs_core.specs.parts.CoreHandlers.{MayCome, handler_with_act, lane_step_of_handler as handler_lane_step};
ghost use Rattle.qs_core.specs.parts.CoreClients.{Meets, AreStocked, HasLane, IsCoreClient, LaneStays, LaneSteps, is_reserve, rows_of, turns_to, whole_of};
ghost use Rattle.qs_chunk.specs.audit.LaneParts.{away_at, home_of};
ghost use Rattle.qs_client.specs.audit.ClientModel.{has_ended};
ghost use Rattle.qs_core.specs.parts.LaneStates.{fresh_lane, lane_at};
ghost use Rattle.qs_core.specs.parts.CarriedRequests.{first_requests, sent_requests};

mod reading;

use crate::parts::core_handler::CoreHandler;
use crate::parts::lane::Lane;
use crate::parts::requests::carried;
use qs_chunk::{ChunkSize, Parcel};
use qs_client::{Act, Mind};
use qs_objects::{Held, Request, Ticket};
use qs_played::ClientRows;
use qs_syncset::Code;
use std::alloc::{AllocError, Global};
use std::marker::Model;
use std::mem;

/// A client's mind with the act that it handed out last, and the client's lanes, one to each handler. Its steps take no
/// memory.
pub struct CoreClient {
    mind: Mind,
    act: Act,
    lanes: Vec<Lane>,
}

impl Drop for CoreClient {
    fn drop(self) {
        let CoreClient {
            mind: _,
            act: _,
            lanes: _,
        } = self;
    }
}

impl Model for CoreClient {
    ghost use Rattle.qs_core.specs.parts.CoreClients.{CoreClientState, IsCoreClient};

    ghost Value = { CoreClientState };

    ghost view = { λ s. record { mind = s.mind; act = s.act; lanes = s.lanes.items } };

    ghost invariant = { λ s. IsCoreClient (record { mind = s.mind; act = s.act; lanes = s.lanes.items }) };
}

impl CoreClient {
    /// A client that runs this code in chunks of this size, before its first block, with lanes to so many handlers.
    pub fn new(
        alloc: Global,
        code: Code,
        size: ChunkSize,
        handlers: usize,
    ) -> Result<CoreClient, AllocError>
        ensures fresh { IfOk result (λ s. whole_of s ≡ fresh_mind code size) }
        ensures lanes { IfOk result (λ s. s.lanes ≡ replicate handlers (fresh_lane size)) }
    {
        let mut mind = Mind::new(alloc, code, size)?;
        let mut lanes = Vec::with_capacity(alloc, handlers)?;
        for _handler in 0..handlers {
            lanes.push_reserved(Lane::new(alloc, size)?);
        }
        let act = mind.next();
        Ok(CoreClient { mind, act, lanes })
    }

    /// What holds of every client: its act is the next one of its mind. It does nothing.
    pub fn has_next_act(&self)
        ensures formed { IsCoreClient self.now }
        ensures mind { IsMind (mind_of self.now.mind) }
    {
        self.mind.keeps_mind();
    }

    /// The act that its mind handed out last.
    pub fn act(&self) -> &Act
        ensures value { result.now ≡ self.now.act }
    {
        &self.act
    }

    /// The requests of the chunk that it sends next, if it sends one; nothing changes. An error says that their memory
    /// was refused.
    pub fn sent_requests(&mut self, alloc: Global) -> Result<Vec<Request>, AllocError>
        ensures value { IfOk result (λ requests. requests.items ≡ sent_requests self.old.act) }
        ensures same { self.new ≡ self.old }
    {
        match &mut self.act {
            Act::Send(_, parcel) => carried(alloc, parcel),
            Act::Reserve => Ok(Vec::new(alloc)),
            Act::Await(_) => Ok(Vec::new(alloc)),
            Act::NeedChunk(_) => Ok(Vec::new(alloc)),
            Act::Finished => Ok(Vec::new(alloc)),
        }
    }

    /// The requests of the first parcel in the lane to a handler; nothing changes. An error says that their memory was
    /// refused.
    pub fn lane_requests(&mut self, alloc: Global, handler: u8) -> Result<Vec<Request>, AllocError>
        requires { handler < length self.old.lanes }
        ensures value { IfOk result (λ requests. requests.items ≡ first_requests (lane_at self.old.lanes handler).down) }
        ensures same { self.new ≡ self.old }
    {
        let lane = &mut self.lanes[usize::from(handler)];
        lane.first_requests(alloc)
    }

    /// Whether it wants to reserve its next block.
    pub fn wants_block(&self) -> bool
        ensures value { result ≡ is_reserve self.now.act }
    {
        match &self.act {
            Act::Reserve => true,
            Act::Send(_, _) => false,
            Act::Await(_) => false,
            Act::NeedChunk(_) => false,
            Act::Finished => false,
        }
    }

    /// Its next block was reserved.
    pub fn book(&mut self, ticket: Ticket)
        requires asked { self.old.act ≡ acts.Reserve }
        requires next { ticket.index ≡ (whole_of self.old).client.begun }
        ensures booked { whole_of self.new ≡ mind_after_begin (whole_of self.old) ticket }
        ensures formed { IsCoreClient self.new }
        ensures lanes { self.new.lanes ≡ self.old.lanes }
    {
        self.mind.booked(ticket);
        self.mind.next_into(&mut self.act);
    }

    /// The handler to whose lane it turns.
    pub fn handler(&self) -> Option<u8>
        ensures value { result ≡ turns_to self.now.act }
    {
        match &self.act {
            Act::Reserve => None,
            Act::Send(handler, _) => Some(*handler),
            Act::Await(handler) => Some(*handler),
            Act::NeedChunk(handler) => Some(*handler),
            Act::Finished => None,
        }
    }

    /// What it does next at a lane; false where it can't.
    pub fn go_on(&mut self) -> bool
        requires lane { HasLane self.old }
        requires stocked { AreStocked self.old }
        ensures steps { OnTrue result (LaneSteps self.old self.new) }
        ensures stays { result ≡ false → LaneStays self.old }
        ensures unchanged { result ≡ false → self.new ≡ self.old }
    {
        let Some(handler) = self.handler() else {
            return false;
        };
        match &self.act {
            Act::Send(_, _) => self.send(handler),
            Act::Await(_) => self.get(handler),
            Act::NeedChunk(_) => self.take_chunk(handler),
            Act::Reserve => false,
            Act::Finished => false,
        }
    }

    // Sends a parcel, where the lane has room.
    #[inline(never)]
    fn send(&mut self, handler: u8) -> bool
        requires asked { (p : ParcelShape) × (self.old.act ≡ acts.Send handler p) }
        requires lane { handler < length self.old.lanes }
        ensures steps { OnTrue result (LaneSteps self.old self.new) }
        ensures stays { result ≡ false → LaneStays self.old }
        ensures unchanged { result ≡ false → self.new ≡ self.old }
    {
        let lane = &mut self.lanes[usize::from(handler)];
        if !lane.has_room() {
            return false;
        }
        let Act::Send(_, parcel) = mem::replace(&mut self.act, Act::Finished) else {
            unreachable!();
        };
        lane.push(parcel);
        self.mind.next_into(&mut self.act);
        true
    }

    // Takes the object that it waits for. A first look keeps a wait cheap.
    fn get(&mut self, handler: u8) -> bool
        requires asked { self.old.act ≡ acts.Await handler }
        requires lane { handler < length self.old.lanes }
        ensures steps { OnTrue result (LaneSteps self.old self.new) }
        ensures stays { result ≡ false → LaneStays self.old }
        ensures unchanged { result ≡ false → self.new ≡ self.old }
    {
        if self.lanes[usize::from(handler)].object().is_none() {
            return false;
        }
        self.take_object(handler)
    }

    // Takes the object, where it has come.
    #[inline(never)]
    fn take_object(&mut self, handler: u8) -> bool
        requires asked { self.old.act ≡ acts.Await handler }
        requires lane { handler < length self.old.lanes }
        ensures steps { OnTrue result (LaneSteps self.old self.new) }
        ensures stays { result ≡ false → LaneStays self.old }
        ensures unchanged { result ≡ false → self.new ≡ self.old }
    {
        let lane = &mut self.lanes[usize::from(handler)];
        let Some(held) = lane.take_object() else {
            return false;
        };
        self.mind.got(held);
        self.mind.next_into(&mut self.act);
        true
    }

    // Takes an empty chunk.
    #[inline(never)]
    fn take_chunk(&mut self, handler: u8) -> bool
        requires asked { self.old.act ≡ acts.NeedChunk handler }
        requires lane { handler < length self.old.lanes }
        requires stocked { AreStocked self.old }
        ensures steps { OnTrue result (LaneSteps self.old self.new) }
        ensures stays { result ≡ false → LaneStays self.old }
        ensures unchanged { result ≡ false → self.new ≡ self.old }
    {
        let lane = &mut self.lanes[usize::from(handler)];
        let Some(chunk) = lane.take_chunk() else {
            return false;
        };
        self.mind.chunk(chunk);
        self.mind.next_into(&mut self.act);
        true
    }

    /// A handler does what it does next at the client's lane to it; false where it can't.
    pub fn serve_lane(&mut self, number: u8, handler: &mut CoreHandler) -> bool
        requires lane { number < length self.old.lanes }
        requires comes { MayCome handler.old (lane_at self.old.lanes number) }
        ensures steps { OnTrue result (Meets number self.old handler.old self.new handler.new) }
        ensures none { result ≡ false → handler_lane_step (handler_with_act handler.old) handler.old.act (lane_at self.old.lanes number) ≡ None }
        ensures unchanged { result ≡ false → self.new ≡ self.old }
        ensures handler { result ≡ false → handler.new ≡ handler.old }
    {
        let lane = &mut self.lanes[usize::from(number)];
        handler.serve_lane(lane)
    }

    /// How many of its blocks were begun.
    pub fn begun(&self) -> usize
        ensures value { result ≡ (whole_of self.now).client.begun }
    {
        self.mind.begun()
    }

    /// Whether it stands between two blocks, with none to come.
    pub fn is_done(&self) -> bool
        ensures value { result ≡ (is_between (whole_of self.now).client.stage && nat_eq (whole_of self.now).client.begun (length (whole_of self.now).code.blocks)) }
    {
        self.mind.is_between() && self.mind.begun() == self.mind.blocks()
    }

    /// Whether the block of this number has ended.
    pub fn has_ended(&self, index: u8) -> bool
        ensures value { result ≡ has_ended (whole_of self.now).client index }
    {
        let next = usize::from(index) + 1;
        next < self.mind.begun() || (next == self.mind.begun() && self.mind.is_between())
    }

    /// What its blocks have shown, by move.
    pub fn into_rows(self) -> ClientRows
        ensures value { result ≡ rows_of (whole_of self) }
    {
        let CoreClient {
            mind,
            act: _,
            lanes: _,
        } = self;
        let (traces, entries, counts) = mind.into_rows();
        ClientRows::new(traces, entries, counts)
    }

    /// How many Syncs it sent.
    pub fn syncs(&self) -> u64
        ensures value { result ≡ (whole_of self.now).syncs }
    {
        self.mind.syncs()
    }

    /// The handler's object, where the client has it, or sends it home.
    pub fn held(&self, handler: u8) -> Option<&Held>
        requires { handler < most_handlers }
        ensures value { option_copied result ≡ (whole_of self.now).client.held handler }
    {
        match &self.act {
            Act::Send(at, Parcel::Home(held)) => {
                if *at == handler {
                    Some(held)
                } else {
                    self.mind.held(handler)
                }
            }
            _ => self.mind.held(handler),
        }
    }

    /// The lane to a handler.
    pub fn lane(&self, handler: usize) -> &Lane
        requires { handler < length self.now.lanes }
        ensures value { result.now ≡ lane_at self.now.lanes handler }
    {
        &self.lanes[handler]
    }

    /// The handler's object, where the handler gave it away: on its way to the client, on its way home, or with the
    /// client.
    pub fn away(&self, handler: u8) -> Option<&Held>
        requires few { handler < most_handlers }
        requires lane { handler < length self.now.lanes }
        ensures value { option_copied result ≡ away_at (lane_at self.now.lanes handler).up (lane_at self.now.lanes handler).down ((whole_of self.now).client.held handler) }
    {
        let lane = self.lane(usize::from(handler));
        match lane.object() {
            Some(held) => Some(held),
            None => match lane.first() {
                Some(parcel) => sent_home(parcel),
                None => self.held(handler),
            },
        }
    }
}

// The object that goes home in a parcel.
fn sent_home(parcel: &Parcel) -> Option<&Held>
    ensures value { option_copied result ≡ home_of parcel.now }
{
    match parcel {
        Parcel::Home(held) => Some(held),
        Parcel::Work(_) => None,
        Parcel::Sync => None,
        Parcel::End => None,
    }
}
