//! The objects that a client holds, and its open chunks.

ghost use Rattle.std.specs.Prelude.{◌≡◌, ◌<◌, ◌&&◌, IsSome, None, Some, is_some, length, not, option_copied};
ghost use Rattle.qs_objects.specs.audit.Journals.{HeldState, run_one};
ghost use Rattle.qs_objects.specs.declared.Request.{Request};
ghost use Rattle.qs_chunk.specs.audit.Batch.{Batch};
ghost use Rattle.qs_program.specs.audit.Limits.{most_handlers};
ghost use Rattle.qs_client.specs.run.Holdings.{holding_at, chunk_at, with_held, with_chunk, with_request, is_full, no_holdings};

use qs_chunk::Chunk;
use qs_objects::{Held, Request, Ticket};
use qs_program::MOST_HANDLERS;
use std::marker::Model;
use std::mem;

/// For each of 8 handlers the object, where the client holds it, and the open chunk, where there is one.
pub struct Holdings {
    held: [Option<Held>; MOST_HANDLERS],
    chunks: [Option<Chunk<Request>>; MOST_HANDLERS],
}

impl Drop for Holdings {
    fn drop(self) {
        let Holdings { held: _, chunks: _ } = self;
    }
}

impl Model for Holdings {
    ghost use Rattle.std.specs.Prelude.{◌≡◌, length};
    ghost use Rattle.qs_program.specs.audit.Limits.{most_handlers};
    ghost use Rattle.qs_client.specs.run.Holdings.{HoldingsState};

    ghost Value = { HoldingsState };

    ghost view = { λ h. record { held = h.held; chunks = h.chunks } };

    ghost invariant = { λ h. (length h.held ≡ most_handlers) × (length h.chunks ≡ most_handlers) };
}

impl Holdings {
    /// No object and no open chunk; takes no memory.
    pub fn new() -> Holdings
        ensures none { result ≡ no_holdings }
    {
        Holdings {
            held: [None, None, None, None, None, None, None, None],
            chunks: [None, None, None, None, None, None, None, None],
        }
    }

    /// What holds of all holdings: there are 8 places of each kind. It does nothing.
    pub fn are_8(&self)
        ensures held { length self.now.held ≡ most_handlers }
        ensures chunks { length self.now.chunks ≡ most_handlers }
    {
        let _ = &self.held;
    }

    /// The object, where the client holds it.
    pub fn held(&self, handler: u8) -> Option<&Held>
        requires handler { handler < most_handlers }
        ensures value { option_copied result ≡ holding_at self.now handler }
    {
        self.held[usize::from(handler)].as_ref()
    }

    /// Whether the client holds the object.
    pub fn holds(&self, handler: u8) -> bool
        requires handler { handler < most_handlers }
        ensures value { result ≡ is_some (holding_at self.now handler) }
    {
        self.held[usize::from(handler)].is_some()
    }

    /// Whether there is an open chunk.
    pub fn has_chunk(&self, handler: u8) -> bool
        requires handler { handler < most_handlers }
        ensures value { result ≡ is_some (chunk_at self.now handler) }
    {
        self.chunks[usize::from(handler)].is_some()
    }

    /// Whether a command may go into an open chunk: the object is not held, and there is one.
    pub fn takes_requests(&self, handler: u8) -> bool
        requires handler { handler < most_handlers }
        ensures value { result ≡ (not (is_some (holding_at self.now handler)) && is_some (chunk_at self.now handler)) }
    {
        !self.holds(handler) && self.has_chunk(handler)
    }

    /// Whether a synchronisation is skipped: the client tests, and the object is held.
    pub fn skips(&self, dynamic: bool, handler: u8) -> bool
        requires handler { handler < most_handlers }
        ensures value { result ≡ (dynamic && is_some (holding_at self.now handler)) }
    {
        dynamic && self.holds(handler)
    }

    /// Runs a request on the object, which the client holds.
    pub fn run(&mut self, handler: u8, ticket: Ticket, request: Request) -> Option<i64>
        requires handler { handler < most_handlers }
        requires held { IsSome (holding_at self.old handler) }
        ensures ran { (x : HeldState) → holding_at self.old handler ≡ Some x
            → (self.new ≡ with_held self.old handler (Some (run_one x ticket request).0)) × (result ≡ (run_one x ticket request).1) }
    {
        match &mut self.held[usize::from(handler)] {
            Some(held) => held.run(ticket, request),
            None => unreachable!(),
        }
    }

    /// Puts a request into the open chunk, which has room; answers whether it is full then.
    pub fn push(&mut self, handler: u8, request: Request) -> bool
        requires handler { handler < most_handlers }
        requires open { (b : Batch Request) × (chunk_at self.old handler ≡ Some b) × (length b.items < b.capacity) }
        ensures pushed { (b : Batch Request) → chunk_at self.old handler ≡ Some b
            → (self.new ≡ with_chunk self.old handler (Some (with_request b request))) × (result ≡ is_full (with_request b request)) }
    {
        match &mut self.chunks[usize::from(handler)] {
            Some(chunk) => chunk.add(request),
            None => unreachable!(),
        }
    }

    /// Takes the object out.
    pub fn take_held(&mut self, handler: u8) -> Option<Held>
        requires handler { handler < most_handlers }
        ensures value { result ≡ holding_at self.old handler }
        ensures rest { self.new ≡ with_held self.old handler None }
    {
        mem::replace(&mut self.held[usize::from(handler)], None)
    }

    /// Keeps the object.
    pub fn put_held(&mut self, handler: u8, held: Held)
        requires handler { handler < most_handlers }
        ensures value { self.new ≡ with_held self.old handler (Some held) }
    {
        self.held[usize::from(handler)] = Some(held);
    }

    /// Takes the open chunk out.
    pub fn take_chunk(&mut self, handler: u8) -> Option<Chunk<Request>>
        requires handler { handler < most_handlers }
        ensures value { result ≡ chunk_at self.old handler }
        ensures rest { self.new ≡ with_chunk self.old handler None }
    {
        mem::replace(&mut self.chunks[usize::from(handler)], None)
    }

    /// Keeps a chunk open.
    pub fn put_chunk(&mut self, handler: u8, chunk: Chunk<Request>)
        requires handler { handler < most_handlers }
        ensures value { self.new ≡ with_chunk self.old handler (Some chunk) }
    {
        self.chunks[usize::from(handler)] = Some(chunk);
    }
}
