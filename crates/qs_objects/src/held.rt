// Tickets, what is written down of requests, and an object with its journal.

ghost use Rattle.std.specs.Prelude.{◌≡◌, ◌<◌, ◌+◌, ◌⊎◌, [], length, IfOk, IsErr, IsTrue};
ghost use Rattle.qs_objects.specs.Objects.{has_memory};
ghost use Rattle.qs_objects.specs.audit.Journals.{run_one, has_room as room_is_left};

use crate::Request;
use crate::memory::{Blank, touch};
use crate::object::Object;
use std::alloc::{AllocError, Global};
use std::marker::Model;

/// A client's separate block, by its number from 0.
#[derive(Clone, Copy, Debug, PartialEq, Eq)]
pub struct Ticket {
    pub client: u8,
    pub index: u8,
}

/// What a handler finds next in its queue of queues: a block that reserved its object, or that no
/// further one comes.
#[derive(Clone, Copy, Debug, PartialEq, Eq)]
pub enum Next {
    Ticket(Ticket),
    Closed,
}

/// One request that an object served for a ticket, and its reply; a command has none.
pub struct Entry {
    pub ticket: Ticket,
    pub request: Request,
    pub reply: Option<i64>,
}

impl Drop for Entry {
    fn drop(self) {
        let Entry {
            ticket: _,
            request: _,
            reply: _,
        } = self;
    }
}

impl Entry {
    /// The same entry once more; takes no memory.
    pub fn copied(&self) -> Entry
        ensures same { result ≡ self.now }
    {
        let Entry {
            ticket,
            request,
            reply,
        } = self;
        Entry {
            ticket: *ticket,
            request: request.copied(),
            reply: *reply,
        }
    }
}

/// One request that a block made, and its reply; a command has none.
pub struct Event {
    pub request: Request,
    pub reply: Option<i64>,
}

impl Drop for Event {
    fn drop(self) {
        let Event {
            request: _,
            reply: _,
        } = self;
    }
}

impl Blank for Entry {
    fn blank(alloc: Global) -> Entry {
        Entry {
            ticket: Ticket {
                client: 0,
                index: 0,
            },
            request: Request::blank(alloc),
            reply: None,
        }
    }
}

impl Blank for Event {
    fn blank(alloc: Global) -> Event {
        Event {
            request: Request::blank(alloc),
            reply: None,
        }
    }
}

impl Event {
    /// The same event once more; takes no memory.
    pub fn copied(&self) -> Event
        ensures same { result ≡ self.now }
    {
        Event {
            request: self.request.copied(),
            reply: self.reply,
        }
    }
}

/// What an object served, in order.
pub struct Journal {
    entries: Vec<Entry>,
}

impl Drop for Journal {
    fn drop(self) {
        let Journal { entries: _ } = self;
    }
}

impl Model for Journal {
    ghost use Rattle.std.specs.Prelude.{List};
    ghost use Rattle.qs_objects.specs.declared.held.Entry.{Entry};

    ghost Value = { List Entry };

    ghost view = { λ j. j.entries.items };
}

impl Journal {
    /// How many entries there are.
    pub fn len(&self) -> usize
        ensures count { result ≡ length self.now }
    {
        self.entries.len()
    }

    /// The entries, the first served first.
    pub fn as_slice(&self) -> &[Entry]
        ensures entries { result.now ≡ self.now }
    {
        self.entries.as_slice()
    }
}

/// An object with its journal, which has room for a set number of entries from the start: no call
/// after the constructor takes memory.
pub struct Held {
    object: Object,
    entries: Vec<Entry>,
    room: usize,
}

impl Drop for Held {
    fn drop(self) {
        let Held {
            object: _,
            entries: _,
            room: _,
        } = self;
    }
}

impl Model for Held {
    ghost use Rattle.std.specs.Prelude.{◌≤◌, vec_capacity};
    ghost use Rattle.qs_objects.specs.audit.Journals.{HeldState};

    ghost Value = { HeldState };

    ghost view = { λ h. record { object = h.object; journal = h.entries.items; room = h.room } };

    ghost invariant = { λ h. h.room ≤ vec_capacity h.entries };
}

impl Held {
    /// The object with an empty journal, and all the memory for `room` entries. An error says that
    /// this memory was refused; the object is gone then.
    pub fn new(alloc: Global, object: Object, room: usize) -> Result<Held, AllocError>
        ensures ok { IfOk result (λ held. held
            ≡ record { object = object; journal = []; room = room }) }
        ensures memory { IsErr result → 0 < room }
    {
        let entries = Vec::with_capacity(alloc, room)?;
        Ok(Held {
            object,
            entries,
            room,
        })
    }

    /// The same once more, with memory of its own. An error says that this memory was refused.
    pub fn copied(&self, alloc: Global) -> Result<Held, AllocError>
        ensures same { IfOk result (λ held. held ≡ self.now) }
        ensures memory { IsErr result → IsTrue (has_memory self.now.object.content) ⊎ (0 < self.now.room + length self.now.journal) }
    {
        let object = self.object.copied(alloc)?;
        let mut entries = Vec::with_capacity(alloc, self.room)?;
        for entry in &self.entries {
            entries.push(entry.copied())?;
        }
        Ok(Held {
            object,
            entries,
            room: self.room,
        })
    }

    /// Writes to all memory that was taken for the journal, where that is empty, so that no `run` has to wait until the
    /// system finds it. The object and the journal are as they were.
    pub fn touch(&mut self)
        ensures same { self.new ≡ self.old }
    {
        if self.entries.is_empty() {
            touch(&mut self.entries, self.room);
        }
    }

    /// Whether the journal has room for one more entry.
    pub fn has_room(&self) -> bool
        ensures room { result ≡ room_is_left self.now }
    {
        self.room > self.entries.len()
    }

    /// Serves a request and notes it at the journal's end; answers what the object answers. With no
    /// room left it changes nothing and answers None.
    #[inline(always)]
    pub fn run(&mut self, ticket: Ticket, request: Request) -> Option<i64>
        ensures ran { (self.new, result) ≡ run_one self.old ticket request }
    {
        if !self.has_room() {
            return None;
        }
        let reply = self.object.apply(&request);
        self.entries.push_reserved(Entry {
            ticket,
            request,
            reply,
        });
        reply
    }

    /// The object as it is now.
    pub fn object(&self) -> &Object
        ensures object { result.now ≡ self.now.object }
    {
        &self.object
    }

    /// The journal so far.
    pub fn journal(&self) -> &[Entry]
        ensures journal { result.now ≡ self.now.journal }
    {
        &self.entries
    }

    /// The object and its journal, by move; takes no memory.
    pub fn into_parts(self) -> (Object, Journal)
        ensures object { result.0 ≡ self.object }
        ensures journal { result.1 ≡ self.journal }
    {
        let Held {
            object,
            entries,
            room: _,
        } = self;
        (object, Journal { entries })
    }
}
