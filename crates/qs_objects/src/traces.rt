//! The traces of a client's blocks.

ghost use Rattle.std.specs.Prelude.{◌≡◌, ◌<◌, IfOk, IsErr, length, map};
ghost use Rattle.qs_objects.specs.audit.Rows.{join_rows};
ghost use Rattle.qs_objects.specs.Sums.{total};
ghost use Rattle.qs_objects.specs.Traces.{AreEmptyAfter, empty_trace, events_of, noted_at, trace_at};

use crate::held::Event;
use crate::rows::Rows;
use std::alloc::{AllocError, Global};
use std::marker::Model;

/// For each block of a client its trace so far, and how many events there may be. The events of all blocks lie in one
/// row, since a client's blocks run one after another. Memory is taken in `new` alone.
pub struct Traces {
    rows: Rows<Event>,
    rooms: Vec<usize>,
}

impl Drop for Traces {
    fn drop(self) {
        let Traces { rows: _, rooms: _ } = self;
    }
}

impl Model for Traces {
    ghost use Rattle.std.specs.Prelude.{List, length};
    ghost use Rattle.qs_objects.specs.Traces.{HaveRoom, TraceState, with_rooms};

    ghost Value = { List TraceState };

    ghost view = { λ t. with_rooms t.rows.rows t.rooms.items };

    ghost invariant = { λ t. HaveRoom t.rows.rows t.rooms.items t.rows.room };
}

impl Traces {
    /// For each room an empty trace with room for so many events; `room` is their sum. An error says that memory was
    /// refused: it comes only where there is a room.
    pub fn new(alloc: Global, rooms: Vec<usize>, room: usize) -> Result<Traces, AllocError>
        requires whole { total rooms.items ≡ room }
        ensures fresh { IfOk result (λ t. t ≡ map empty_trace rooms.items) }
        ensures memory { IsErr result → 0 < length rooms.items }
    {
        let rows = Rows::new(alloc, rooms.len(), room)?;
        Ok(Traces { rows, rooms })
    }

    /// Writes to all memory that was taken, where there is no event yet, so that no `note` has to wait until the system
    /// finds it. The traces are as they were.
    pub fn touch(&mut self)
        ensures same { self.new ≡ self.old }
    {
        self.rows.touch();
    }

    /// How many blocks the client has.
    pub fn len(&self) -> usize
        ensures count { result ≡ length self.now }
    {
        self.rooms.len()
    }

    /// The events of a block so far, in their order.
    pub fn of(&self, block: usize) -> &[Event]
        requires block { block < length self.now }
        ensures events { result.now ≡ (trace_at self.now block).events }
    {
        self.rows.of(block)
    }

    /// The events of all blocks, block after block.
    pub fn joined(&self) -> &[Event]
        ensures events { result.now ≡ join_rows (events_of self.now) }
    {
        self.rows.joined()
    }

    /// Adds an event at the end of a block's trace; later blocks have none yet.
    pub fn note(&mut self, block: usize, event: Event)
        requires block { block < length self.old }
        requires last { AreEmptyAfter self.old block }
        requires room { 0 < (trace_at self.old block).room }
        ensures noted { self.new ≡ noted_at self.old block event }
    {
        self.rows.push(block, event);
    }
}
