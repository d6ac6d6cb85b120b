//! The two ends of a lane.

ghost use Rattle.std.specs.Prelude.{◌≡◌, ◌+◌, ◌<◌, ◌≤◌, ◌⊎◌, List, [], ◌∷◌, ◌++◌, length, replicate, true, false, IfOk, IfErr, IfSome, IfNone};
ghost use Rattle.qs_objects.specs.audit.Journals.{HeldState};
ghost use Rattle.qs_chunk.specs.audit.Batch.{batch};
ghost use Rattle.qs_chunk.specs.audit.LaneRun.{AreServed, IsLaneRun, homes, syncs};
ghost use Rattle.qs_chunk.specs.audit.Lanes.{is_asked};
ghost use Rattle.qs_chunk.specs.Lanes.{IsLane, MayFollow};
ghost use Rattle.qs_chunk.specs.declared.parcel.Parcel.{Parcel};
ghost use Rattle.qs_chunk.specs.audit.Limits.{lane_room, spare_room};

use crate::protocols::{AnyObjects, EmptyChunks, InLane, Keyless, KnownSize, SizeKey};
use qs_chunk::{Chunk, ChunkSize, LANE_ROOM, Parcel, SPARE_ROOM};
use qs_objects::{Held, Request};
use qs_queue::{Events, Sender, Taker, make_ends};
use std::alloc::{AllocError, Global};
use std::marker::{Brand, Model};
use std::sync::{Arc, Wait};

// The queue of empty chunks.
type SpareSender = Sender<Chunk<Request>, ChunkSize, EmptyChunks>;

type SpareTaker = Taker<Chunk<Request>, ChunkSize, EmptyChunks>;

/// The client's end of a lane.
#[derive(Drop)]
pub struct LaneOut {
    down: Sender<Parcel, ChunkSize, InLane>,
    up: Taker<Held, (), AnyObjects>,
    spare: SpareTaker,
    events: Arc<Events, Global>,
}

impl Model for LaneOut {
    ghost use Rattle.std.specs.Prelude.{◌≡◌, length};
    ghost use Rattle.qs_chunk.specs.Lanes.{IsLane};
    ghost use Rattle.qs_chunk.specs.audit.Limits.{lane_room, spare_room};
    ghost use Rattle.qs_lane.specs.Views.{OutView};

    ghost Value = { OutView };

    ghost view = { λ s. record {
      name = record { down = s.down.name; up = s.up.name; spare = s.spare.name };
      size = s.down.key;
      sent = s.down.sent;
      got = s.up.received;
      taken = length s.spare.received;
    } };

    ghost invariant = { λ s. (s.down.room ≡ lane_room) × (s.spare.key ≡ s.down.key) × IsLane s.down.key s.down.sent };
}

/// The handler's end of a lane.
#[derive(Drop)]
pub struct LaneIn {
    down: Taker<Parcel, ChunkSize, InLane>,
    up: Sender<Held, (), AnyObjects>,
    spare: SpareSender,
    events: Arc<Events, Global>,
}

impl Model for LaneIn {
    ghost use Rattle.std.specs.Prelude.{◌≡◌, ◌≤◌, length};
    ghost use Rattle.qs_lane.specs.Spares.{AllEmpty};
    ghost use Rattle.qs_chunk.specs.audit.LaneRun.{syncs};
    ghost use Rattle.qs_chunk.specs.audit.Limits.{spare_room};
    ghost use Rattle.qs_lane.specs.Views.{InView};

    ghost Value = { InView };

    ghost view = { λ s. record {
      name = record { down = s.down.name; up = s.up.name; spare = s.spare.name };
      size = s.down.key;
      received = s.down.received;
      given = s.up.sent;
      spared = length s.spare.sent;
    } };

    ghost invariant = { λ s.
        (s.spare.key ≡ s.down.key) × AllEmpty s.spare.key s.spare.sent × (length s.up.sent ≤ syncs s.down.received)
        × (s.up.room ≡ 1) × (s.spare.room ≡ spare_room) };
}

// Puts four empty chunks into their queue.
fn fill<R: Wait>(
    rt: &R,
    alloc: Global,
    size: ChunkSize,
    spare: &mut SpareSender,
) -> Result<(), AllocError>
    requires fresh { (spare.old.room ≡ spare_room) × (spare.old.key ≡ size) × (spare.old.sent ≡ []) }
    ensures filled { IfOk result (λ _. spare.new ≡ record spare.old { sent = replicate spare_room (batch [] size) }) }
{
    for _chunk in 0..SPARE_ROOM {
        spare.push(rt, Chunk::with_capacity(alloc, size)?);
    }
    Ok(())
}

// The queue of empty chunks, which is full.
fn make_spares<N: KnownSize, R: Wait>(
    rt: &R,
    alloc: Global,
    size: ChunkSize,
) -> Result<(SpareSender, SpareTaker), AllocError>
    requires { N.size ≡ size }
    ensures sender { IfOk result (λ ends. ends.0 ≡ record { name = ends.1.name; room = spare_room; key = size; sent = replicate spare_room (batch [] size) }) }
    ensures taker { IfOk result (λ ends. ends.1 ≡ record { name = ends.1.name; key = size; received = [] }) }
{
    let (mut sender, taker) = make_ends::<Chunk<Request>, ChunkSize, EmptyChunks, SizeKey<N>>(
        alloc, SPARE_ROOM,
    )?;
    if fill(rt, alloc, size, &mut sender).is_err() {
        drop(sender);
        drop(taker);
        return Err(AllocError);
    }
    Ok((sender, taker))
}

fn lane_of<N: KnownSize, R: Wait>(
    rt: &R,
    alloc: Global,
    size: ChunkSize,
    events: &Arc<Events, Global>,
) -> Result<(LaneOut, LaneIn), AllocError>
    requires { N.size ≡ size }
    ensures out { IfOk result (λ ends. ends.0 ≡ record { name = ends.1.name; size = size; sent = []; got = []; taken = 0 }) }
    ensures inside { IfOk result (λ ends. ends.1 ≡ record { name = ends.1.name; size = size; received = []; given = []; spared = spare_room }) }
{
    let clients_events = Arc::try_clone(events)?;
    let handlers_events = Arc::try_clone(events)?;
    let (spare_end, spare) = make_spares::<N, R>(rt, alloc, size)?;
    let Ok((up_end, up)) = make_ends::<Held, (), AnyObjects, Keyless>(alloc, 1) else {
        drop(spare_end);
        drop(spare);
        return Err(AllocError);
    };
    let Ok((down, down_end)) = make_ends::<Parcel, ChunkSize, InLane, SizeKey<N>>(alloc, LANE_ROOM)
    else {
        drop(spare_end);
        drop(spare);
        drop(up_end);
        drop(up);
        return Err(AllocError);
    };
    let inside = LaneIn {
        down: down_end,
        up: up_end,
        spare: spare_end,
        events: handlers_events,
    };
    let out = LaneOut {
        down,
        up,
        spare,
        events: clients_events,
    };
    Ok((out, inside))
}

/// An event count for the lanes of one handler. An error says that memory was refused.
pub fn make_events(alloc: Global) -> Result<Arc<Events, Global>, AllocError> {
    let Ok(events) = Arc::new(alloc, Events::new()) else {
        return Err(AllocError);
    };
    Ok(events)
}

/// The two ends of a lane whose chunks have this size: room for sixteen parcels down and one object up, and four empty
/// chunks. All its memory is taken here; an error says that it was refused. Both ends have one event count, which no
/// other lane has.
pub fn lane<R: Wait>(
    rt: &R,
    alloc: Global,
    size: ChunkSize,
) -> Result<(LaneOut, LaneIn), AllocError>
    ensures out { IfOk result (λ ends. ends.0 ≡ record { name = ends.1.name; size = size; sent = []; got = []; taken = 0 }) }
    ensures inside { IfOk result (λ ends. ends.1 ≡ record { name = ends.1.name; size = size; received = []; given = []; spared = spare_room }) }
{
    let events = make_events(alloc)?;
    lane_at(rt, alloc, size, &events)
}

/// Makes a lane for a handler whose lanes share this event count: it sleeps there, whichever of them it takes from.
pub fn lane_at<R: Wait>(
    rt: &R,
    alloc: Global,
    size: ChunkSize,
    events: &Arc<Events, Global>,
) -> Result<(LaneOut, LaneIn), AllocError>
    ensures out { IfOk result (λ ends. ends.0 ≡ record { name = ends.1.name; size = size; sent = []; got = []; taken = 0 }) }
    ensures inside { IfOk result (λ ends. ends.1 ≡ record { name = ends.1.name; size = size; received = []; given = []; spared = spare_room }) }
{
    lane_of::<Brand, R>(rt, alloc, size, events)
}

impl LaneOut {
    /// Sends a parcel that may follow what was sent; a chunk in it has the lane's size. The parcel comes back, and
    /// nothing changes, only where sixteen parcels lie in the lane; so sixteen at least were sent before. It wakes
    /// nobody.
    pub fn try_send<R: Wait>(&mut self, rt: &R, parcel: Parcel) -> Result<(), Parcel>
        requires follows { MayFollow self.old.size (is_asked false self.old.sent) parcel }
        ensures ok { IfOk result (λ _. self.new ≡ record self.old { sent = self.old.sent ++ parcel ∷ [] }) }
        ensures back { IfErr result (λ back. (back ≡ parcel) × (self.new ≡ self.old)) }
        ensures full { IfErr result (λ _. lane_room ≤ length self.old.sent) }
    {
        self.down.try_send(rt, parcel)
    }

    /// Sends a parcel that may follow what was sent; a chunk in it has the lane's size. Tries until there is room; it
    /// wakes nobody.
    pub fn send<R: Wait>(&mut self, rt: &R, parcel: Parcel)
        requires follows { MayFollow self.old.size (is_asked false self.old.sent) parcel }
        ensures sent { self.new ≡ record self.old { sent = self.old.sent ++ parcel ∷ [] } }
    {
        self.down.send(rt, parcel);
    }

    /// Sends a parcel as `send` does, to a handler that may sleep. It wakes the handler where it has to wait for room,
    /// and after an End where somebody waits for the handler. Else a handler that sleeps may sleep on, until somebody
    /// waits for it or wakes it.
    pub fn send_and_wake_handler<R: Wait>(&mut self, rt: &R, parcel: Parcel)
        requires follows { MayFollow self.old.size (is_asked false self.old.sent) parcel }
        ensures sent { self.new ≡ record self.old { sent = self.old.sent ++ parcel ∷ [] } }
    {
        let ends = matches!(parcel, Parcel::End);
        self.send_as_waiter(rt, parcel);
        if ends {
            self.events.notify_if_awaited();
        }
    }

    // Sends a parcel, and wakes the handler only where it waits for room.
    fn send_as_waiter<R: Wait>(&mut self, rt: &R, parcel: Parcel)
        requires follows { MayFollow self.old.size (is_asked false self.old.sent) parcel }
        ensures sent { self.new ≡ record self.old { sent = self.old.sent ++ parcel ∷ [] } }
    {
        self.down.send_as_waiter(rt, &self.events, parcel);
    }

    /// Wakes the handler, where it sleeps until it gets a parcel of its lanes.
    pub fn wake_handler(&self) {
        self.events.notify();
    }

    /// Takes the next object that was given. Tries until there is one; it wakes nobody.
    pub fn get<R: Wait>(&mut self, rt: &R) -> Held
        ensures got { self.new ≡ record self.old { got = self.old.got ++ result ∷ [] } }
    {
        self.up.take(rt)
    }

    /// Takes the next object that was given. It wakes the handler, and sleeps until there is an object.
    pub fn get_or_sleep<R: Wait>(&mut self, rt: &R) -> Held
        ensures got { self.new ≡ record self.old { got = self.old.got ++ result ∷ [] } }
    {
        self.up.take_or_sleep_as_waiter(rt, &self.events)
    }

    /// Takes an empty chunk of the lane's size. Tries until one lies in the lane; it wakes nobody.
    pub fn empty<R: Wait>(&mut self, rt: &R) -> Chunk<Request>
        ensures taken { self.new ≡ record self.old { taken = self.old.taken + 1 } }
        ensures empty { result ≡ batch [] self.old.size }
    {
        self.spare.take(rt)
    }

    /// Takes an empty chunk of the lane's size. Where none lies in the lane it wakes the handler, and sleeps until
    /// there is one.
    pub fn empty_or_sleep<R: Wait>(&mut self, rt: &R) -> Chunk<Request>
        ensures taken { self.new ≡ record self.old { taken = self.old.taken + 1 } }
        ensures empty { result ≡ batch [] self.old.size }
    {
        if let Some(chunk) = self.try_empty(rt) {
            return chunk;
        }
        self.sleep_and_empty(rt)
    }

    // Takes an empty chunk where one lies in the lane.
    fn try_empty<R: Wait>(&mut self, rt: &R) -> Option<Chunk<Request>>
        ensures none { IfNone result (self.new ≡ self.old) }
        ensures taken { IfSome result (λ _. self.new ≡ record self.old { taken = self.old.taken + 1 }) }
        ensures empty { IfSome result (λ chunk. chunk ≡ batch [] self.old.size) }
    {
        self.spare.try_take(rt)
    }

    // Wakes the handler, and sleeps until there is an empty chunk.
    fn sleep_and_empty<R: Wait>(&mut self, rt: &R) -> Chunk<Request>
        ensures taken { self.new ≡ record self.old { taken = self.old.taken + 1 } }
        ensures empty { result ≡ batch [] self.old.size }
    {
        self.spare.take_or_sleep_as_waiter(rt, &self.events)
    }
}

impl LaneIn {
    /// Takes the next parcel, which may follow what was received. There is none only where the lane was empty, and then
    /// nothing changes.
    pub fn try_take<R: Wait>(&mut self, rt: &R) -> Option<Parcel>
        ensures none { IfNone result (self.new ≡ self.old) }
        ensures some { IfSome result (λ parcel. self.new ≡ record self.old { received = self.old.received ++ parcel ∷ [] }) }
        ensures follows { IfSome result (λ parcel. MayFollow self.old.size (is_asked false self.old.received) parcel) }
    {
        self.down.try_take(rt)
    }

    /// Takes the next parcel, which may follow what was received. Tries until there is one; it wakes nobody.
    pub fn take<R: Wait>(&mut self, rt: &R) -> Parcel
        ensures taken { self.new ≡ record self.old { received = self.old.received ++ result ∷ [] } }
        ensures follows { MayFollow self.old.size (is_asked false self.old.received) result }
    {
        self.down.take(rt)
    }

    /// Takes the next parcel, which may follow what was received. Sleeps until there is one. Before it sleeps, and at
    /// an End, it wakes a client that sleeps until there is an empty chunk.
    pub fn take_or_sleep<R: Wait>(&mut self, rt: &R) -> Parcel
        ensures taken { self.new ≡ record self.old { received = self.old.received ++ result ∷ [] } }
        ensures follows { MayFollow self.old.size (is_asked false self.old.received) result }
    {
        let parcel = match self.try_take(rt) {
            Some(parcel) => parcel,
            None => {
                self.spare.wake();
                self.sleep_and_take(rt)
            }
        };
        if matches!(parcel, Parcel::End) {
            self.spare.wake();
        }
        parcel
    }

    // Sleeps until there is a parcel.
    fn sleep_and_take<R: Wait>(&mut self, rt: &R) -> Parcel
        ensures taken { self.new ≡ record self.old { received = self.old.received ++ result ∷ [] } }
        ensures follows { MayFollow self.old.size (is_asked false self.old.received) result }
    {
        self.down.take_or_sleep_at(rt, &self.events)
    }

    /// Gives the object to the client, which asked for it by the last parcel and has not got it yet. Tries while an
    /// object lies in the lane; it wakes nobody.
    pub fn give<R: Wait>(&mut self, rt: &R, held: Held)
        requires asked { is_asked false self.old.received ≡ true }
        requires unserved { length self.old.given < syncs self.old.received }
        ensures given { self.new ≡ record self.old { given = self.old.given ++ held ∷ [] } }
    {
        self.up.send(rt, held);
    }

    /// Gives the object as `give` does, and wakes the client, where that sleeps until it gets one.
    pub fn give_and_wake_client<R: Wait>(&mut self, rt: &R, held: Held)
        requires asked { is_asked false self.old.received ≡ true }
        requires unserved { length self.old.given < syncs self.old.received }
        ensures given { self.new ≡ record self.old { given = self.old.given ++ held ∷ [] } }
    {
        self.give(rt, held);
        self.up.wake();
    }

    /// Gives an empty chunk of the lane's size back: it is put into the lane, or dropped, where four lie there, and
    /// nothing changes. It wakes nobody: a client that sleeps until there is one is woken by a later `take_or_sleep`.
    pub fn spare<R: Wait>(&mut self, rt: &R, chunk: Chunk<Request>)
        requires empty { chunk ≡ batch [] self.old.size }
        ensures spared { (self.new ≡ record self.old { spared = self.old.spared + 1 }) ⊎ (self.new ≡ self.old) }
    {
        let _ = self.spare.try_send(rt, chunk);
    }
}

/// What the two ends of one lane know together: what was received is a front of what was sent, each parcel of which may
/// follow those before it; what was got is a front of what was given; no more objects are given than were asked for,
/// and where the client sent home only what it got, one was given for each Sync, but that the last parcel may be a Sync
/// that waits; and the client took no more empty chunks than were put there.
pub fn agree(out: LaneOut, inside: LaneIn)
    requires lane { out.name ≡ inside.name }
    ensures run { IsLaneRun out.size out.sent inside.received inside.given out.got }
    ensures stock { out.taken ≤ inside.spared }
    ensures down { (rest : List Parcel) × (out.sent ≡ inside.received ++ rest) }
    ensures form { IsLane out.size out.sent }
    ensures up { (rest : List HeldState) × (inside.given ≡ out.got ++ rest) }
    ensures asked { length inside.given ≤ syncs inside.received }
    ensures served { homes out.sent ≤ length out.got → AreServed inside.received inside.given }
{
    let LaneOut {
        mut down,
        up,
        spare,
        events: _,
    } = out;
    let LaneIn {
        down: down_end,
        up: mut up_end,
        spare: mut spare_end,
        events: _,
    } = inside;
    down.agree(down_end);
    up_end.agree(up);
    spare_end.agree(spare);
}
