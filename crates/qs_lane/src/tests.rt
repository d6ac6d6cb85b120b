//! One lane from end to end: an object, parcels until the lane is full, and chunks.

ghost use Rattle.std.specs.Prelude.{◌≡◌, ◌+◌, ◌<◌, ◌≤◌, IsTrue, IfSome, true, false, [], length};
ghost use Rattle.qs_chunk.specs.audit.LaneRun.{syncs};
ghost use Rattle.qs_chunk.specs.audit.Lanes.{is_asked};

use crate::laws::agree;
use crate::{LaneIn, LaneOut, lane};
use qs_chunk::{ChunkSize, Parcel};
use qs_objects::{Args, Held, Kind, Object, Op, Request};
use std::alloc::Global;
use std::sync::Wait;
use std::test::Fail;
use std::thread;
use std::thread::Threads;

fn account(alloc: Global) -> Option<Held> {
    let object = Object::new(alloc, Kind::Account { balance: 7 }).ok()?;
    Held::new(alloc, object, 1).ok()
}

// Whether the next parcel is a Sync.
#[tactic(auto, using(qs_chunk::proofs::LaneFronts::asked_last))]
fn take_sync<R: Wait>(rt: &R, inside: &mut LaneIn) -> bool
    requires served { length inside.old.given ≤ syncs inside.old.received }
    ensures lane { (inside.new.name ≡ inside.old.name) × (inside.new.size ≡ inside.old.size) }
    ensures asked { IsTrue result → is_asked false inside.new.received ≡ true }
    ensures unserved { IsTrue result → length inside.new.given < syncs inside.new.received }
    ensures served { length inside.new.given ≤ syncs inside.new.received }
{
    let parcel = inside.take(rt);
    let is_sync = matches!(&parcel, Parcel::Sync);
    drop(parcel);
    is_sync
}

// The client asks for the object, and the handler gives it.
#[tactic(auto, using(qs_chunk::proofs::LaneFronts::asked_last))]
fn lend<R: Wait>(rt: &R, out: &mut LaneOut, inside: &mut LaneIn, held: Held) -> Option<Held>
    requires { (out.old.sent ≡ []) × (inside.old.received ≡ []) × (inside.old.given ≡ []) }
    ensures out_lane { (out.new.name ≡ out.old.name) × (out.new.size ≡ out.old.size) }
    ensures in_lane { (inside.new.name ≡ inside.old.name) × (inside.new.size ≡ inside.old.size) }
    ensures asked { is_asked false out.new.sent ≡ true }
    ensures served { length inside.new.given ≤ syncs inside.new.received }
{
    out.send(rt, Parcel::Sync);
    if !take_sync(rt, inside) {
        drop(held);
        return None;
    }
    inside.give(rt, held);
    Some(out.get(rt))
}

// The object, as it comes home.
fn take_home<R: Wait>(rt: &R, inside: &mut LaneIn) -> Option<Held>
    requires served { length inside.old.given ≤ syncs inside.old.received }
    ensures lane { (inside.new.name ≡ inside.old.name) × (inside.new.size ≡ inside.old.size) }
    ensures served { length inside.new.given ≤ syncs inside.new.received }
{
    match inside.take(rt) {
        Parcel::Home(held) => Some(held),
        other => {
            drop(other);
            None
        }
    }
}

// The object goes to the client and home; its value there.
#[tactic(auto, using(qs_chunk::proofs::LaneFronts::asked_last))]
fn lend_once<R: Wait>(rt: &R, out: &mut LaneOut, inside: &mut LaneIn, held: Held) -> Option<i64>
    requires { (out.old.sent ≡ []) × (inside.old.received ≡ []) × (inside.old.given ≡ []) }
    ensures out_lane { (out.new.name ≡ out.old.name) × (out.new.size ≡ out.old.size) }
    ensures in_lane { (inside.new.name ≡ inside.old.name) × (inside.new.size ≡ inside.old.size) }
    ensures home { IfSome result (λ value. is_asked false out.new.sent ≡ false) }
{
    let held = lend(rt, out, inside, held)?;
    out.send(rt, Parcel::Home(held));
    let home = take_home(rt, inside)?;
    let value = home.object().value(0);
    drop(home);
    value
}

fn send_end<R: Wait>(rt: &R, out: &mut LaneOut) -> bool
    requires { is_asked false out.old.sent ≡ false }
    ensures lane { (out.new.name ≡ out.old.name) × (out.new.size ≡ out.old.size) }
    ensures quiet { is_asked false out.new.sent ≡ false }
{
    let sent = out.try_send(rt, Parcel::End);
    let went = sent.is_ok();
    drop(sent);
    went
}

fn take_end<R: Wait>(rt: &R, inside: &mut LaneIn) -> bool
    ensures lane { (inside.new.name ≡ inside.old.name) × (inside.new.size ≡ inside.old.size) }
{
    let parcel = inside.try_take(rt);
    let is_end = matches!(&parcel, Some(Parcel::End));
    drop(parcel);
    is_end
}

fn send_ends<R: Wait>(rt: &R, out: &mut LaneOut, tries: u8) -> u8
    requires { is_asked false out.old.sent ≡ false }
    ensures lane { (out.new.name ≡ out.old.name) × (out.new.size ≡ out.old.size) }
    ensures quiet { is_asked false out.new.sent ≡ false }
{
    let mut sent = 0;
    for _ in 0..tries {
        if send_end(rt, out) {
            sent += 1;
        }
    }
    sent
}

fn take_ends<R: Wait>(rt: &R, inside: &mut LaneIn, tries: u8) -> u8
    ensures lane { (inside.new.name ≡ inside.old.name) × (inside.new.size ≡ inside.old.size) }
{
    let mut taken = 0;
    for _ in 0..tries {
        if take_end(rt, inside) {
            taken += 1;
        }
    }
    taken
}

// Sends an empty chunk of the lane with one request; whether there was room for it.
#[tactic(auto, using(qs_chunk::proofs::LaneFronts::asked_last))]
fn send_chunk<R: Wait>(rt: &R, out: &mut LaneOut, request: Request) -> bool
    requires { is_asked false out.old.sent ≡ false }
    ensures lane { (out.new.name ≡ out.old.name) × (out.new.size ≡ out.old.size) }
    ensures quiet { is_asked false out.new.sent ≡ false }
{
    let mut chunk = out.empty(rt);
    let pushed = chunk.push(request);
    out.send(rt, Parcel::Work(chunk));
    let fits = pushed.is_ok();
    drop(pushed);
    fits
}

// The object of the one request in the chunk that comes.
fn take_chunk<R: Wait>(rt: &R, inside: &mut LaneIn) -> Option<u8>
    ensures lane { inside.new.name ≡ inside.old.name }
{
    let Parcel::Work(chunk) = inside.take(rt) else {
        return None;
    };
    let mut chunk = chunk;
    let request = chunk.take_front();
    let object = request.as_ref().map(|request| request.object);
    drop(request);
    drop(chunk);
    object
}

// Takes three empty chunks, gives one of them back, and takes that; their room in all.
fn take_and_spare<R: Wait>(rt: &R, out: &mut LaneOut, inside: &mut LaneIn) -> usize
    requires { out.old.size ≡ inside.old.size }
    ensures names { (out.new.name ≡ out.old.name) × (inside.new.name ≡ inside.old.name) }
{
    let first = out.empty(rt);
    let second = out.empty(rt);
    let third = out.empty(rt);
    inside.spare(rt, first);
    let again = out.empty(rt);
    let room = second.capacity() + third.capacity() + again.capacity();
    drop(second);
    drop(third);
    drop(again);
    room
}

// What a lane carried: the object's value as it came home; how many Ends of seventeen it had room for, whether one more
// went once one was taken, and how many were taken then; the object of a request, and the room of three chunks.
#[derive(Clone, Copy)]
struct Carried {
    value: i64,
    ends: u8,
    more: u8,
    taken: u8,
    object: Option<u8>,
    room: usize,
}

fn carry<R: Wait>(
    rt: &R,
    alloc: Global,
    out: &mut LaneOut,
    inside: &mut LaneIn,
    held: Held,
) -> Option<Carried>
    requires fresh { (out.old.sent ≡ []) × (inside.old.received ≡ []) × (inside.old.given ≡ []) }
    requires size { out.old.size ≡ inside.old.size }
    ensures names { (out.new.name ≡ out.old.name) × (inside.new.name ≡ inside.old.name) }
{
    let value = lend_once(rt, out, inside, held)?;
    let ends = send_ends(rt, out, 17);
    let first = take_ends(rt, inside, 1);
    let more = send_ends(rt, out, first);
    let taken = take_ends(rt, inside, 17);
    let request = Request {
        object: 5,
        op: Op::Refused,
        args: Args::new(alloc),
    };
    let fits = send_chunk(rt, out, request);
    let room = take_and_spare(rt, out, inside);
    let object = take_chunk(rt, inside);
    Some(Carried {
        value,
        ends,
        more,
        taken,
        object: object.filter(|_| fits),
        room,
    })
}

// What a new lane carries, or that another parcel comes than was sent; none where memory is refused.
fn carry_through<R: Wait>(rt: &R, alloc: Global, size: ChunkSize) -> Option<Option<Carried>> {
    let held = account(alloc)?;
    let Ok((mut out, mut inside)) = lane(rt, alloc, size) else {
        drop(held);
        return None;
    };
    let carried = carry(rt, alloc, &mut out, &mut inside, held);
    agree(out, inside);
    Some(carried)
}

// A lane is dropped with what lies in it: a chunk of one request, and three empty chunks. Whether the chunk was sent;
// none where memory is refused.
fn leave_parcels<R: Wait>(rt: &R, alloc: Global, size: ChunkSize) -> Option<bool> {
    let Ok((mut out, inside)) = lane(rt, alloc, size) else {
        return None;
    };
    let request = Request {
        object: 5,
        op: Op::Refused,
        args: Args::new(alloc),
    };
    let fits = send_chunk(rt, &mut out, request);
    drop(out);
    drop(inside);
    Some(fits)
}

// Takes the parcel that lies in the lane by one try, and gives its chunk back; whether it was a chunk of one request,
// at this object.
fn take_and_give_back<R: Wait>(rt: &R, inside: &mut LaneIn, object: u8) -> bool
    ensures lane { (inside.new.name ≡ inside.old.name) × (inside.new.size ≡ inside.old.size) }
{
    let Some(Parcel::Work(chunk)) = inside.try_take(rt) else {
        return false;
    };
    let mut chunk = chunk;
    let first = chunk.take_front();
    let is_own = first
        .as_ref()
        .is_some_and(|request| request.object == object);
    drop(first);
    let second = chunk.take_front();
    if second.is_some() {
        drop(second);
        drop(chunk);
        return false;
    }
    inside.spare(rt, chunk);
    is_own
}

// A thousand turns of one chunk: nothing lies in the lane, a chunk with one request is sent, it is taken by the first
// try, and goes back. In how many turns it was so.
fn turn_round<R: Wait>(rt: &R, alloc: Global, out: &mut LaneOut, inside: &mut LaneIn) -> u16
    requires quiet { is_asked false out.old.sent ≡ false }
    ensures names { (out.new.name ≡ out.old.name) × (inside.new.name ≡ inside.old.name) }
{
    let mut turns = 0;
    for turn in 0..1000u16 {
        let before = inside.try_take(rt);
        let object = (turn % 7) as u8;
        let request = Request {
            object,
            op: Op::Refused,
            args: Args::new(alloc),
        };
        let fits = send_chunk(rt, out, request);
        if take_and_give_back(rt, inside, object) && fits && before.is_none() {
            turns += 1;
        }
        drop(before);
    }
    turns
}

// How many turns there are in a new lane; none where memory is refused.
fn turns_of<R: Wait>(rt: &R, alloc: Global, size: ChunkSize) -> Option<u16> {
    let Ok((mut out, mut inside)) = lane(rt, alloc, size) else {
        return None;
    };
    let turns = turn_round(rt, alloc, &mut out, &mut inside);
    agree(out, inside);
    Some(turns)
}

// A client's end of which the last parcel is no Sync.
#[derive(Drop)]
struct QuietOut {
    out: LaneOut,
    ghost is_quiet: { is_asked false out.sent ≡ false },
}

// A handler's end at which no more objects were given than asked for.
#[derive(Drop)]
struct ServedIn {
    inside: LaneIn,
    ghost is_served: { length inside.given ≤ syncs inside.received },
}

// What a client sends in one turn: an empty chunk, a Sync, the object home, and an End. Whether the object that it got
// is the account.
#[tactic(auto, using(qs_chunk::proofs::LaneFronts::asked_last))]
fn client_turn<R: Wait>(rt: &R, out: &mut LaneOut) -> bool
    requires quiet { is_asked false out.old.sent ≡ false }
    ensures lane { (out.new.name ≡ out.old.name) × (out.new.size ≡ out.old.size) }
    ensures quiet { is_asked false out.new.sent ≡ false }
{
    let chunk = out.empty(rt);
    out.send(rt, Parcel::Work(chunk));
    out.send(rt, Parcel::Sync);
    let held = out.get(rt);
    let is_own = held.object().value(0) == Some(7);
    out.send(rt, Parcel::Home(held));
    out.send(rt, Parcel::End);
    is_own
}

// How many of a thousand turns a client had as it should. It drops its end then, and does nothing else.
fn client_turns<R: Wait>(rt: &R, quiet: QuietOut) -> u16 {
    let QuietOut { mut out } = quiet;
    let mut turns = 0;
    for _turn in 0..1000u16 {
        if client_turn(rt, &mut out) {
            turns += 1;
        }
    }
    drop(out);
    turns
}

// Takes an empty chunk, and gives it back.
fn serve_chunk<R: Wait>(rt: &R, inside: &mut LaneIn) -> bool
    requires served { length inside.old.given ≤ syncs inside.old.received }
    ensures lane { (inside.new.name ≡ inside.old.name) × (inside.new.size ≡ inside.old.size) }
    ensures served { length inside.new.given ≤ syncs inside.new.received }
{
    let Parcel::Work(chunk) = inside.take(rt) else {
        return false;
    };
    let mut chunk = chunk;
    let request = chunk.take_front();
    if request.is_some() {
        drop(request);
        drop(chunk);
        return false;
    }
    inside.spare(rt, chunk);
    true
}

// Takes an End.
fn serve_end<R: Wait>(rt: &R, inside: &mut LaneIn) -> bool
    requires served { length inside.old.given ≤ syncs inside.old.received }
    ensures lane { (inside.new.name ≡ inside.old.name) × (inside.new.size ≡ inside.old.size) }
    ensures served { length inside.new.given ≤ syncs inside.new.received }
{
    let parcel = inside.take(rt);
    let is_end = matches!(&parcel, Parcel::End);
    drop(parcel);
    is_end
}

// What a handler does in one turn; the object, where all came as it should.
fn handler_turn<R: Wait>(rt: &R, inside: &mut LaneIn, held: Held) -> Option<Held>
    requires served { length inside.old.given ≤ syncs inside.old.received }
    ensures lane { (inside.new.name ≡ inside.old.name) × (inside.new.size ≡ inside.old.size) }
    ensures served { length inside.new.given ≤ syncs inside.new.received }
{
    if !serve_chunk(rt, inside) || !take_sync(rt, inside) {
        drop(held);
        return None;
    }
    inside.give(rt, held);
    let home = take_home(rt, inside)?;
    if !serve_end(rt, inside) {
        drop(home);
        return None;
    }
    Some(home)
}

// How many of a thousand turns a handler had as it should.
fn handler_turns<R: Wait>(rt: &R, served: ServedIn, held: Held) -> u16 {
    let ServedIn { mut inside } = served;
    let mut held = held;
    for turn in 0..1000u16 {
        match handler_turn(rt, &mut inside, held) {
            Some(home) => held = home,
            None => return turn,
        }
    }
    drop(held);
    drop(inside);
    1000
}

// The turns of a client and of a handler, each on a thread of its own.
fn join_turns<R: Threads + Wait + Sync>(
    rt: &R,
    quiet: QuietOut,
    served: ServedIn,
    held: Held,
) -> (u16, u16) {
    thread::join(
        rt,
        move || client_turns(rt, quiet),
        move || handler_turns(rt, served, held),
    )
}

// What both ends of a new lane had, at once on two threads; none where memory is refused.
fn turns_at_once<R: Threads + Wait + Sync>(
    rt: &R,
    alloc: Global,
    size: ChunkSize,
) -> Option<(u16, u16)> {
    let held = account(alloc)?;
    let Ok((out, inside)) = lane(rt, alloc, size) else {
        drop(held);
        return None;
    };
    Some(join_turns(rt, QuietOut { out }, ServedIn { inside }, held))
}

fn is_all(carried: Carried) -> bool {
    carried.value == 7
        && carried.ends == 16
        && carried.more == 1
        && carried.taken == 16
        && carried.object == Some(5)
        && carried.room == 9
}

#[test]
fn a_lane_carries_what_is_sent(rt: HostRuntime) -> Result<(), Fail> {
    let size = ChunkSize::new(3).ok_or("no size")?;
    let carried = carry_through(&rt, rt.alloc(), size).ok_or("out of memory")?;
    assert!(rt; carried.is_some_and(is_all));
    assert!(rt; leave_parcels(&rt, rt.alloc(), size).ok_or("out of memory")?);
    for size in [1, 32] {
        let size = ChunkSize::new(size).ok_or("no size")?;
        let turns = turns_of(&rt, rt.alloc(), size).ok_or("out of memory")?;
        assert_eq!(rt; turns, 1000);
        let turns = turns_at_once(&rt, rt.alloc(), size).ok_or("out of memory")?;
        assert_eq!(rt; turns, (1000, 1000));
    }
    Ok(())
}
