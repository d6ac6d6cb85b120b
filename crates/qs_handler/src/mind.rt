//! A handler's mind.

ghost use Rattle.std.specs.Prelude.{◌≡◌, ◌∷◌, ℕ, [], IsTrue, MatchOption, false, true, Some, option_copied};
ghost use Rattle.qs_objects.specs.audit.Journals.{HeldState};
ghost use Rattle.qs_chunk.specs.declared.parcel.Parcel.TheVariants as Parcel;
ghost use Rattle.qs_chunk.specs.audit.Batch.{batch};
ghost use Rattle.qs_chunk.specs.Lanes.{may_stand};
ghost use Rattle.qs_chunk.specs.audit.Runs.{ran_all};
ghost use Rattle.qs_handler.specs.audit.Handler.{Handler as HandlerShape, free, serves, spares, gives, away, closed, act_of, gave, accept_next, accept_parcel};
ghost use Rattle.qs_handler.specs.Handler.{is_away, held_of, serving};

use qs_chunk::{Chunk, Parcel};
use qs_objects::{Held, Next, Request, Ticket};
use std::marker::Model;

/// What a handler does next: takes a ticket of its queue of queues, takes a parcel of that client's lane, gives the
/// client the object or an empty chunk, or ends.
#[derive(Drop)]
pub enum Act {
    TakeTicket,
    TakeParcel(u8),
    Give(u8, Held),
    Spare(u8, Chunk<Request>),
    Closed,
}

// Where a handler stands, beside its object and the chunk that it gives back.
#[derive(Clone, Copy)]
enum HandlerStage {
    Free,
    Serves(Ticket),
    Spares(Ticket),
    Gives(Ticket),
    Away(Ticket),
    Closed,
}

/// A handler's decisions. No call takes memory or refuses. The object and a chunk lie where they are from one act to
/// the next, and move only as they change hands.
pub struct Mind {
    stage: HandlerStage,
    held: Option<Held>,
    spare: Option<Chunk<Request>>,
}

impl Drop for Mind {
    fn drop(self) {
        let Mind {
            stage: _,
            held: _,
            spare: _,
        } = self;
    }
}

impl Model for Mind {
    ghost use Rattle.qs_handler.specs.audit.Handler.{Handler};

    ghost Value = { Handler };

    ghost use Rattle.qs_handler.specs.Stages.{staged_handler, IsTidy};

    ghost view = { λ m. staged_handler m.stage m.held m.spare };

    ghost invariant = { λ m. IsTidy m.stage m.held m.spare };
}

// Runs all requests of a chunk, the first first; the chunk is empty then.
fn run_all(ticket: Ticket, held: &mut Held, chunk: &mut Chunk<Request>)
    ensures held { held.new ≡ ran_all held.old ticket chunk.old.items }
    ensures chunk { chunk.new ≡ batch [] chunk.old.capacity }
{
    while let Some(request) = chunk.take_front() {
        held.run(ticket, request);
    }
}

// An act takes the place of another one. Of one that takes a parcel, nothing is to be dropped.
#[inline(always)]
fn put(act: &mut Act, next: Act)
    ensures put { act.new ≡ next }
{
    if let Act::TakeParcel(_) = act {
        *act = next;
    } else {
        *act = next;
    }
}

// A parcel is to be taken next. Where one was to be taken before, only the client changes.
#[inline(always)]
fn put_parcel(act: &mut Act, client: u8)
    ensures put { act.new ≡ Act.TakeParcel client }
{
    match act {
        Act::TakeParcel(place) => *place = client,
        _ => *act = Act::TakeParcel(client),
    }
}

impl Mind {
    /// The mind of a handler that is free, with its object.
    pub fn new(held: Held) -> Mind
        ensures free { result ≡ free held }
    {
        Mind {
            stage: HandlerStage::Free,
            held: Some(held),
            spare: None,
        }
    }

    /// What the handler does next, to be called once the last act was done. An object or a chunk that it gives goes out
    /// of the mind.
    pub fn next(&mut self) -> Act
        ensures act { result ≡ act_of self.old }
        ensures rest { self.new ≡ gave self.old }
    {
        let mut act = Act::Closed;
        self.next_into(&mut act);
        act
    }

    /// What the handler does next, as `next` says, put where another act lay.
    #[inline(always)]
    pub fn next_into(&mut self, act: &mut Act)
        ensures act { act.new ≡ act_of self.old }
        ensures rest { self.new ≡ gave self.old }
    {
        match self.stage {
            HandlerStage::Free => put(act, Act::TakeTicket),
            HandlerStage::Serves(ticket) => put_parcel(act, ticket.client),
            HandlerStage::Spares(ticket) => self.spare(ticket, act),
            HandlerStage::Gives(ticket) => self.give(ticket, act),
            HandlerStage::Away(ticket) => put_parcel(act, ticket.client),
            HandlerStage::Closed => put(act, Act::Closed),
        }
    }

    // The empty chunk goes out of the mind.
    #[inline(always)]
    fn spare(&mut self, ticket: Ticket, act: &mut Act)
        requires spares { (x : HeldState) × (n : ℕ) × (self.old ≡ spares ticket x n) }
        ensures act { act.new ≡ act_of self.old }
        ensures rest { self.new ≡ gave self.old }
    {
        self.stage = HandlerStage::Serves(ticket);
        match self.spare.take() {
            Some(chunk) => put(act, Act::Spare(ticket.client, chunk)),
            None => unreachable!(),
        }
    }

    // The object goes out of the mind.
    #[inline(always)]
    fn give(&mut self, ticket: Ticket, act: &mut Act)
        requires gives { (x : HeldState) × (self.old ≡ gives ticket x) }
        ensures act { act.new ≡ act_of self.old }
        ensures rest { self.new ≡ gave self.old }
    {
        self.stage = HandlerStage::Away(ticket);
        match self.held.take() {
            Some(held) => put(act, Act::Give(ticket.client, held)),
            None => unreachable!(),
        }
    }

    /// What the queue of queues had next.
    pub fn ticket(&mut self, next: Next)
        requires asked { act_of self.old ≡ Act.TakeTicket }
        ensures taken { accept_next self.old next ≡ Some self.new }
    {
        self.stage = match next {
            Next::Ticket(ticket) => HandlerStage::Serves(ticket),
            Next::Closed => HandlerStage::Closed,
        };
    }

    /// What the lane had next. All requests of a chunk run in this call.
    #[inline(always)]
    pub fn parcel(&mut self, parcel: Parcel)
        requires asked { (client : ℕ) × (act_of self.old ≡ Act.TakeParcel client) }
        requires stands { IsTrue (may_stand (is_away self.old) parcel) }
        ensures received { accept_parcel self.old parcel ≡ Some self.new }
    {
        match self.stage {
            HandlerStage::Serves(ticket) => self.serve(ticket, parcel),
            HandlerStage::Away(ticket) => self.take_home(ticket, parcel),
            _ => unreachable!(),
        }
    }

    /// What the lane had next, and what the handler does next then, put where another act lay: `parcel`, and then
    /// `next_into`.
    #[inline(always)]
    pub fn parcel_into(&mut self, parcel: Parcel, act: &mut Act)
        requires asked { (client : ℕ) × (act_of self.old ≡ Act.TakeParcel client) }
        requires stands { IsTrue (may_stand (is_away self.old) parcel) }
        ensures received { (h : HandlerShape) × (accept_parcel self.old parcel ≡ Some h) × (act.new ≡ act_of h) × (self.new ≡ gave h) }
    {
        match self.stage {
            HandlerStage::Serves(ticket) => self.serve_into(ticket, parcel, act),
            HandlerStage::Away(ticket) => self.go_on_at_home(ticket, parcel, act),
            _ => unreachable!(),
        }
    }

    // A handler that serves a block, and has its object, takes a parcel, and does the next act.
    #[inline(always)]
    fn serve_into(&mut self, ticket: Ticket, parcel: Parcel, act: &mut Act)
        requires serves { (x : HeldState) × (self.old ≡ serves ticket x) }
        requires stands { IsTrue (may_stand false parcel) }
        ensures received { (h : HandlerShape) × (accept_parcel self.old parcel ≡ Some h) × (act.new ≡ act_of h) × (self.new ≡ gave h) }
    {
        match parcel {
            Parcel::Work(chunk) => self.run_into(ticket, chunk, act),
            Parcel::Sync => {
                self.stage = HandlerStage::Gives(ticket);
                self.give(ticket, act);
            }
            Parcel::End => {
                self.stage = HandlerStage::Free;
                put(act, Act::TakeTicket);
            }
            Parcel::Home(_) => unreachable!(),
        }
    }

    // The requests of a chunk run, and the chunk is given back.
    #[inline(always)]
    fn run_into(&mut self, ticket: Ticket, chunk: Chunk<Request>, act: &mut Act)
        requires serves { (x : HeldState) × (self.old ≡ serves ticket x) }
        ensures received { (h : HandlerShape) × (accept_parcel self.old (Parcel.Work chunk) ≡ Some h) × (act.new ≡ act_of h) × (self.new ≡ gave h) }
    {
        let mut chunk = chunk;
        match &mut self.held {
            Some(object) => run_all(ticket, object, &mut chunk),
            None => unreachable!(),
        }
        self.stage = HandlerStage::Serves(ticket);
        put(act, Act::Spare(ticket.client, chunk));
    }

    // The object comes home, and the next parcel is taken.
    #[inline(always)]
    fn go_on_at_home(&mut self, ticket: Ticket, parcel: Parcel, act: &mut Act)
        requires away { self.old ≡ away ticket }
        requires stands { IsTrue (may_stand true parcel) }
        ensures received { (h : HandlerShape) × (accept_parcel self.old parcel ≡ Some h) × (act.new ≡ act_of h) × (self.new ≡ gave h) }
    {
        self.take_home(ticket, parcel);
        put_parcel(act, ticket.client);
    }

    // A handler that serves a block, and has its object, takes a parcel.
    #[inline(always)]
    fn serve(&mut self, ticket: Ticket, parcel: Parcel)
        requires serves { (x : HeldState) × (self.old ≡ serves ticket x) }
        requires stands { IsTrue (may_stand false parcel) }
        ensures received { accept_parcel self.old parcel ≡ Some self.new }
    {
        match parcel {
            Parcel::Work(chunk) => self.run(ticket, chunk),
            Parcel::Sync => self.stage = HandlerStage::Gives(ticket),
            Parcel::End => self.stage = HandlerStage::Free,
            Parcel::Home(_) => unreachable!(),
        }
    }

    // The requests of a chunk run, and the chunk is to be given back.
    #[inline(always)]
    fn run(&mut self, ticket: Ticket, chunk: Chunk<Request>)
        requires serves { (x : HeldState) × (self.old ≡ serves ticket x) }
        ensures received { accept_parcel self.old (Parcel.Work chunk) ≡ Some self.new }
    {
        let mut chunk = chunk;
        match &mut self.held {
            Some(held) => run_all(ticket, held, &mut chunk),
            None => unreachable!(),
        }
        self.stage = HandlerStage::Spares(ticket);
        self.spare = Some(chunk);
    }

    // The object comes home.
    #[inline(always)]
    fn take_home(&mut self, ticket: Ticket, parcel: Parcel)
        requires away { self.old ≡ away ticket }
        requires stands { IsTrue (may_stand true parcel) }
        ensures received { accept_parcel self.old parcel ≡ Some self.new }
    {
        match parcel {
            Parcel::Home(held) => {
                self.stage = HandlerStage::Serves(ticket);
                if self.held.is_some() {
                    self.held = Some(held);
                } else {
                    self.held = Some(held);
                }
            }
            _ => unreachable!(),
        }
    }

    /// The object with its journal, where it is at home.
    pub fn held(&self) -> Option<&Held>
        ensures held { option_copied result ≡ held_of self.now }
    {
        self.held.as_ref()
    }

    /// The block that the handler serves, if there is one.
    pub fn serving(&self) -> Option<Ticket>
        ensures value { MatchOption result (serving self.now ≡ []) (λ ticket. serving self.now ≡ ticket ∷ []) }
    {
        match self.stage {
            HandlerStage::Free => None,
            HandlerStage::Serves(ticket) => Some(ticket),
            HandlerStage::Spares(ticket) => Some(ticket),
            HandlerStage::Gives(ticket) => Some(ticket),
            HandlerStage::Away(ticket) => Some(ticket),
            HandlerStage::Closed => None,
        }
    }

    /// The object with its journal, once the handler has ended.
    pub fn into_held(self) -> Held
        requires ended { act_of self ≡ Act.Closed }
        ensures held { self ≡ closed result }
    {
        let Mind {
            stage: _,
            held,
            spare: _,
        } = self;
        match held {
            Some(held) => held,
            None => unreachable!(),
        }
    }
}
