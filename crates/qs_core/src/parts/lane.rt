//! Lanes.

ghost use Rattle.std.specs.Prelude.{◌≡◌, ◌<◌, ◌∷◌, ◌++◌, [], IfOk, MatchOption, None, Some, length, nat_lt, nat_eq, option_copied, List};
ghost use Rattle.qs_chunk.specs.declared.parcel.Parcel.{Parcel as ParcelShape};
ghost use Rattle.qs_chunk.specs.audit.Limits.{lane_room, spare_room};
ghost use Rattle.qs_core.specs.parts.CarriedRequests.{first_requests};
ghost use Rattle.qs_core.specs.parts.LaneStates.{fresh_lane, with_down, with_spare, with_up};

mod reading;

use crate::parts::requests::carried;
use qs_chunk::{Chunk, ChunkSize, LANE_ROOM, Parcel, SPARE_ROOM};
use qs_objects::{Held, Request};
use std::alloc::{AllocError, Global};
use std::collections::VecDeque;
use std::marker::Model;
use std::mem;

/// The lane from a client to a handler: parcels on their way, the object on its way up, and empty chunks. Only `new`
/// and copies of requests take memory.
pub struct Lane {
    down: VecDeque<Parcel>,
    up: Option<Held>,
    spare: VecDeque<Chunk<Request>>,
}

impl Drop for Lane {
    fn drop(self) {
        let Lane {
            down: _,
            up: _,
            spare: _,
        } = self;
    }
}

impl Model for Lane {
    ghost use Rattle.std.specs.Prelude.{◌≤◌};
    ghost use Rattle.std.specs.VecDeque.{deque_len, deque_capacity};
    ghost use Rattle.qs_chunk.specs.audit.Limits.{lane_room, spare_room};
    ghost use Rattle.qs_core.specs.parts.LaneStates.{LaneState};

    ghost Value = { LaneState };

    ghost view = { λ l. record { down = l.down.items; up = l.up; spare = l.spare.items } };

    ghost invariant = { λ l. (lane_room ≤ deque_capacity l.down) × (deque_len l.spare ≤ spare_room) × (spare_room ≤ deque_capacity l.spare) };
}

impl Lane {
    /// One in which nothing is on its way, with four empty chunks of this size.
    pub fn new(alloc: Global, size: ChunkSize) -> Result<Lane, AllocError>
        ensures fresh { IfOk result (λ lane. lane ≡ fresh_lane size) }
    {
        let down = VecDeque::with_capacity(alloc, LANE_ROOM)?;
        let mut spare = VecDeque::with_capacity(alloc, SPARE_ROOM)?;
        for _chunk in 0..SPARE_ROOM {
            spare.push_back_reserved(Chunk::with_capacity(alloc, size)?);
        }
        Ok(Lane {
            down,
            up: None,
            spare,
        })
    }

    /// Whether one more parcel finds room.
    pub fn has_room(&self) -> bool
        ensures value { result ≡ nat_lt (length self.now.down) lane_room }
    {
        self.down.len() < LANE_ROOM
    }

    /// Whether no parcel lies there.
    pub fn is_empty(&self) -> bool
        ensures value { result ≡ nat_eq (length self.now.down) 0 }
    {
        self.down.is_empty()
    }

    /// The parcel that comes next.
    pub fn first(&self) -> Option<&Parcel>
        ensures value { MatchOption result (self.now.down ≡ []) (λ parcel. (rest : List ParcelShape) × (self.now.down ≡ parcel.now ∷ rest)) }
    {
        self.down.front()
    }

    /// The requests of the parcel that comes next; the lane stays the same. An error says that their memory was
    /// refused.
    pub fn first_requests(&mut self, alloc: Global) -> Result<Vec<Request>, AllocError>
        ensures value { IfOk result (λ requests. requests.items ≡ first_requests self.old.down) }
        ensures same { self.new ≡ self.old }
    {
        if self.down.is_empty() {
            return Ok(Vec::new(alloc));
        }
        let parcel = &mut self.down[0];
        carried(alloc, parcel)
    }

    /// A parcel, at the end.
    pub fn push(&mut self, parcel: Parcel)
        requires room { length self.old.down < lane_room }
        ensures pushed { self.new ≡ with_down self.old (self.old.down ++ parcel ∷ []) }
    {
        self.down.push_back_reserved(parcel);
    }

    /// Takes the first parcel.
    pub fn pop(&mut self) -> Option<Parcel>
        ensures cases { MatchOption result ((self.old.down ≡ []) × (self.new ≡ self.old))
            (λ parcel. self.old ≡ with_down self.new (parcel ∷ self.new.down)) }
    {
        self.down.pop_front()
    }

    /// The object on its way up.
    pub fn object(&self) -> Option<&Held>
        ensures value { option_copied result ≡ self.now.up }
    {
        self.up.as_ref()
    }

    /// The object goes up. None is on its way, so that none is to be dropped.
    pub(crate) fn put_object(&mut self, held: Held)
        requires none { self.old.up ≡ None }
        ensures put { self.new ≡ with_up self.old (Some held) }
    {
        match mem::replace(&mut self.up, Some(held)) {
            None => {}
            Some(_) => unreachable!(),
        }
    }

    /// Takes the object.
    pub fn take_object(&mut self) -> Option<Held>
        ensures value { result ≡ self.old.up }
        ensures rest { self.new ≡ with_up self.old None }
    {
        mem::replace(&mut self.up, None)
    }

    /// Whether one more empty chunk finds room.
    pub fn has_chunk_room(&self) -> bool
        ensures value { result ≡ nat_lt (length self.now.spare) spare_room }
    {
        self.spare.len() < SPARE_ROOM
    }

    /// Gives an empty chunk back.
    pub fn put_chunk(&mut self, chunk: Chunk<Request>)
        requires room { length self.old.spare < spare_room }
        ensures put { self.new ≡ with_spare self.old (self.old.spare ++ chunk ∷ []) }
    {
        self.spare.push_back_reserved(chunk);
    }

    /// Takes an empty chunk.
    #[inline(always)]
    pub fn take_chunk(&mut self) -> Option<Chunk<Request>>
        ensures cases { MatchOption result ((self.old.spare ≡ []) × (self.new ≡ self.old))
            (λ chunk. self.old ≡ with_spare self.new (chunk ∷ self.new.spare)) }
    {
        self.spare.pop_front()
    }
}
