//! The lanes between clients and handlers.

ghost use Rattle.std.specs.Prelude.{◌≡◌, ℕ, ◌<◌, None, length, IfOk};
ghost use Rattle.qs_program.specs.audit.Limits.{most_handlers};
ghost use Rattle.qs_run.specs.Prepared.{AreNewEnds, lane_end_at, ever_reserves, in_at, out_at};

use crate::client::ClientLanes;
use crate::handler::HandlerLanes;
use qs_chunk::ChunkSize;
use qs_lane::{Events, LaneIn, LaneOut, lane_at, make_events};
use qs_program::{MOST_HANDLERS, Program};
use std::alloc::{AllocError, Global};
use std::sync::{Arc, Wait};

// Whether some block of a client reserves a handler.
fn ever_reserves(program: &Program, client: u8, handler: u8) -> bool
    requires client { client < length program.now.clients }
    ensures value { result ≡ ever_reserves program.now client handler }
{
    program.keeps_sound();
    for block in 0..program.blocks_of(client) as u8 {
        if program.block(client, block).reserved().contains(&handler) {
            return true;
        }
    }
    false
}

// An event count for each handler that there can be.
fn make_all_events(alloc: Global) -> Result<Vec<Arc<Events, Global>>, AllocError>
    ensures len { IfOk result (λ events. length events.items ≡ most_handlers) }
{
    let mut events = Vec::with_capacity(alloc, MOST_HANDLERS)?;
    for _handler in 0..MOST_HANDLERS {
        events.push_reserved(make_events(alloc)?);
    }
    Ok(events)
}

/// Both ends of all lanes: `outs` has a row for each client, and `ins` one for each handler.
#[derive(Drop)]
pub(crate) struct LaneEnds {
    pub(crate) outs: Vec<ClientLanes>,
    pub(crate) ins: Vec<HandlerLanes>,
}

// Both ends of a new lane, if some block of the client reserves the handler, and none otherwise.
fn new_ends<R: Wait>(
    rt: &R,
    alloc: Global,
    program: &Program,
    size: ChunkSize,
    client: u8,
    handler: u8,
    events: &Arc<Events, Global>,
) -> Result<(Option<LaneOut>, Option<LaneIn>), AllocError>
    requires client { client < length program.now.clients }
    ensures ends { IfOk result (λ ends. AreNewEnds size (ever_reserves program.now client handler) ends.0 ends.1) }
{
    if !ever_reserves(program, client, handler) {
        return Ok((None, None));
    }
    let (out, inside) = lane_at(rt, alloc, size, events)?;
    Ok((Some(out), Some(inside)))
}

// How many ends a row has: one for each handler, or one for each client, at most.
const MOST_ENDS: usize = MOST_HANDLERS;

// So many rows, each without an end.
fn empty_rows<T: Drop>(
    alloc: Global,
    count: usize,
) -> Result<Vec<[Option<T>; MOST_ENDS]>, AllocError>
    ensures len { IfOk result (λ rows. length rows.items ≡ count) }
    ensures none { IfOk result (λ rows. (row place : ℕ) → lane_end_at rows.items row place ≡ None) }
{
    let mut rows = Vec::with_capacity(alloc, count)?;
    for _row in 0..count {
        rows.push_reserved([None, None, None, None, None, None, None, None]);
    }
    Ok(rows)
}

// Puts an end into its place, and changes no other place.
fn put_end<T: Drop>(rows: &mut Vec<[Option<T>; MOST_ENDS]>, row: u8, place: u8, end: Option<T>)
    requires row { row < length rows.old.items }
    requires place { place < most_handlers }
    ensures len { length rows.new.items ≡ length rows.old.items }
    ensures here { lane_end_at rows.new.items row place ≡ end }
    ensures other_rows { (r k : ℕ) → (r ≡ row → ⊥) → lane_end_at rows.new.items r k ≡ lane_end_at rows.old.items r k }
    ensures other_places { (r k : ℕ) → (k ≡ place → ⊥) → lane_end_at rows.new.items r k ≡ lane_end_at rows.old.items r k }
{
    rows[usize::from(row)][usize::from(place)] = end;
}

// Adds the lanes of one client, which has none yet. The lanes of the others stay.
fn add_client_lanes<R: Wait>(
    rt: &R,
    alloc: Global,
    program: &Program,
    size: ChunkSize,
    client: u8,
    events: &[Arc<Events, Global>],
    ends: &mut LaneEnds,
) -> Result<(), AllocError>
    requires client { client < length program.now.clients }
    requires events { length events.now ≡ most_handlers }
    requires outs { length ends.old.outs.items ≡ length program.now.clients }
    requires ins { length ends.old.ins.items ≡ length program.now.objects }
    requires none { (h : ℕ)
        → (out_at ends.old.outs.items client h ≡ None) × (in_at ends.old.ins.items client h ≡ None) }
    ensures outs { length ends.new.outs.items ≡ length ends.old.outs.items }
    ensures ins { length ends.new.ins.items ≡ length ends.old.ins.items }
    ensures lanes { IfOk result (λ _. (h : ℕ)
        → AreNewEnds size (ever_reserves program.now client h) (out_at ends.new.outs.items client h)
        (in_at ends.new.ins.items client h)) }
    ensures others { (c h : ℕ) → (c ≡ client → ⊥)
        → (out_at ends.new.outs.items c h ≡ out_at ends.old.outs.items c h)
        × (in_at ends.new.ins.items c h ≡ in_at ends.old.ins.items c h) }
{
    program.keeps_sound();
    for handler in 0..program.objects() as u8 {
        let events = &events[usize::from(handler)];
        let (out, inside) = new_ends(rt, alloc, program, size, client, handler, events)?;
        put_end(&mut ends.outs, client, handler, out);
        put_end(&mut ends.ins, handler, client, inside);
    }
    Ok(())
}

// Adds the lanes of all clients, none of which has a lane yet.
fn add_lanes<R: Wait>(
    rt: &R,
    alloc: Global,
    program: &Program,
    size: ChunkSize,
    events: &[Arc<Events, Global>],
    ends: &mut LaneEnds,
) -> Result<(), AllocError>
    requires events { length events.now ≡ most_handlers }
    requires outs { length ends.old.outs.items ≡ length program.now.clients }
    requires ins { length ends.old.ins.items ≡ length program.now.objects }
    requires none { (c h : ℕ) → (out_at ends.old.outs.items c h ≡ None) × (in_at ends.old.ins.items c h ≡ None) }
    ensures outs { length ends.new.outs.items ≡ length ends.old.outs.items }
    ensures ins { length ends.new.ins.items ≡ length ends.old.ins.items }
    ensures lanes { IfOk result (λ _. (c h : ℕ)
        → AreNewEnds size (ever_reserves program.now c h) (out_at ends.new.outs.items c h)
        (in_at ends.new.ins.items c h)) }
{
    program.keeps_sound();
    for client in 0..program.clients() as u8 {
        add_client_lanes(rt, alloc, program, size, client, events, ends)?;
    }
    Ok(())
}

/// Makes a lane for each client and each handler that some block of the client reserves; all lanes of a handler share
/// an event count.
pub(crate) fn make_lanes<R: Wait>(
    rt: &R,
    alloc: Global,
    program: &Program,
    size: ChunkSize,
) -> Result<LaneEnds, AllocError>
    ensures outs { IfOk result (λ ends. length ends.outs.items ≡ length program.now.clients) }
    ensures ins { IfOk result (λ ends. length ends.ins.items ≡ length program.now.objects) }
    ensures lanes { IfOk result (λ ends. (c h : ℕ)
        → AreNewEnds size (ever_reserves program.now c h) (out_at ends.outs.items c h) (in_at ends.ins.items c h)) }
{
    let events = make_all_events(alloc)?;
    let outs = empty_rows(alloc, program.clients())?;
    let ins = empty_rows(alloc, program.objects())?;
    let mut ends = LaneEnds { outs, ins };
    add_lanes(rt, alloc, program, size, &events, &mut ends)?;
    Ok(ends)
}
