//! A desk by itself: all blocks of two clients, booked one after another and reserved from two threads, and what the
//! handlers take.

ghost use Rattle.std.specs.Prelude.{◌≡◌, IfSome, false};

use crate::scripts::checked;
use qs_desk::laws::{booked, follows};
use qs_desk::{Desk, DeskName, DeskParts, Front, RawDesk, Share, Tickets};
use qs_objects::{Next, Ticket};
use qs_program::Program;
use std::alloc::{AllocError, Global};
use std::marker::Brand;
use std::sync::Wait;
use std::thread;
use std::thread::Threads;

const TRANSFER: &str = "object a account 100 object b account 100
    client ann { separate a b { a.withdraw(30); b.deposit(30); x = a.balance(); y = b.balance(); } }
    client bob { separate a { a.deposit(1); } separate b { b.deposit(1); y = b.balance(); } }";

// Two clients with 64 blocks each, all on the same two objects.
fn write_crowd(text: &mut String) -> Result<(), AllocError> {
    text.push_str("object a account 0 object b account 0")?;
    for name in [" client ann {", " client bob {"] {
        text.push_str(name)?;
        for _ in 0..64u8 {
            text.push_str(" separate a b { a.deposit(1); }")?;
        }
        text.push_str(" }")?;
    }
    Ok(())
}

fn crowd(alloc: Global) -> Option<Program> {
    let mut text = String::new(alloc);
    let written = write_crowd(&mut text);
    let program = checked(alloc, &text);
    drop(text);
    program.filter(|_| written.is_ok())
}

// A desk with the shares of two clients and the tickets of two handlers.
struct Opened<D: DeskName> {
    desk: Desk<D>,
    ann: Share<D>,
    bob: Share<D>,
    a: Tickets<D>,
    b: Tickets<D>,
}

fn first_two<T: Drop>(items: [Option<T>; 8]) -> Option<(T, T)> {
    let mut items = items;
    let first = items[0].take();
    let second = items[1].take();
    drop(items);
    match first {
        Some(first) => match second {
            Some(second) => Some((first, second)),
            None => {
                drop(first);
                None
            }
        },
        None => {
            drop(second);
            None
        }
    }
}

fn open_two<D: DeskName>(raw: RawDesk) -> Option<Opened<D>>
    requires { (D.program ≡ raw.program) × (D.queues ≡ raw.queues) × (D.ledgers ≡ raw.ledgers) }
    ensures { IfSome result (λ opened. opened.desk.closed ≡ false) }
{
    let DeskParts {
        desk,
        shares,
        tickets,
    } = raw.open::<D>();
    let Some((ann, bob)) = first_two(shares) else {
        drop(desk);
        drop(tickets);
        return None;
    };
    let Some((a, b)) = first_two(tickets) else {
        drop(desk);
        drop(ann);
        drop(bob);
        return None;
    };
    Some(Opened {
        desk,
        ann,
        bob,
        a,
        b,
    })
}

// Books a client's next block, where one is left.
fn book_next<D: DeskName, R: Wait>(
    rt: &R,
    desk: &mut Desk<D>,
    share: &mut Share<D>,
) -> Option<Ticket>
    requires { desk.old.closed ≡ false }
    ensures { desk.new.closed ≡ false }
{
    if share.left() {
        return Some(desk.book(rt, share));
    }
    None
}

// Reserves all blocks of a client.
fn reserve_all<D: DeskName, R: Wait>(rt: &R, front: &Front<D>, share: Share<D>) -> Share<D> {
    let mut share = share;
    for _ in 0..64u8 {
        if share.left() {
            let _ = front.reserve(rt, &mut share);
        }
    }
    share
}

fn reserve_both<D: DeskName + Send + Sync, R: Threads + Wait + Sync>(
    rt: &R,
    front: &Front<D>,
    ann: Share<D>,
    bob: Share<D>,
) -> (Share<D>, Share<D>) {
    thread::join(
        rt,
        move || reserve_all(rt, front, ann),
        move || reserve_all(rt, front, bob),
    )
}

// How many blocks a client booked; none where one is left.
fn count_of<D: DeskName>(desk: &mut Desk<D>, share: Share<D>) -> Option<u8> {
    let mut share = share;
    booked(desk, &mut share);
    let count = share.count();
    let left = share.left();
    drop(share);
    (!left).then_some(count)
}

// All that a handler takes, up to the closing mark.
fn take_all<D: DeskName, R: Wait>(
    rt: &R,
    tickets: &mut Tickets<D>,
    taken: &mut Vec<Next>,
) -> Result<(), AllocError> {
    for _ in 0..513u16 {
        let next = tickets.take(rt);
        taken.push(next)?;
        if next == Next::Closed {
            return Ok(());
        }
    }
    Ok(())
}

// All that is taken from a queue of tickets; none where memory is refused.
fn taken_at<D: DeskName, R: Wait>(
    rt: &R,
    alloc: Global,
    desk: &mut Desk<D>,
    tickets: Tickets<D>,
) -> Option<Vec<Next>> {
    let mut tickets = tickets;
    let mut taken = Vec::new(alloc);
    let done = take_all(rt, &mut tickets, &mut taken);
    follows(desk, tickets);
    if done.is_ok() {
        return Some(taken);
    }
    drop(taken);
    None
}

// What three bookings answered, one after another; how many blocks the clients booked in all; the order at the desk,
// and what a and b took.
#[derive(Drop)]
struct Day {
    booked: [Option<Ticket>; 3],
    counts: [Option<u8>; 2],
    order: Vec<Ticket>,
    at_a: Vec<Next>,
    at_b: Vec<Next>,
}

// What stands at a desk that was closed; none where memory is refused.
fn day_of<D: DeskName, R: Wait>(
    rt: &R,
    alloc: Global,
    closed: Opened<D>,
    booked: [Option<Ticket>; 3],
) -> Option<Day> {
    let Opened {
        mut desk,
        ann,
        bob,
        a,
        b,
    } = closed;
    let at_a = taken_at(rt, alloc, &mut desk, a);
    let at_b = taken_at(rt, alloc, &mut desk, b);
    let counts = [count_of(&mut desk, ann), count_of(&mut desk, bob)];
    let order = desk.into_order();
    let at_a = at_a?;
    let at_b = at_b?;
    Some(Day {
        booked,
        counts,
        order,
        at_a,
        at_b,
    })
}

// Ann books a block, and bob two.
fn book_by_hand<D: DeskName, R: Wait>(rt: &R, alloc: Global, opened: Opened<D>) -> Option<Day>
    requires { opened.desk.closed ≡ false }
{
    let mut opened = opened;
    let first = book_next(rt, &mut opened.desk, &mut opened.ann);
    let second = book_next(rt, &mut opened.desk, &mut opened.bob);
    let third = book_next(rt, &mut opened.desk, &mut opened.bob);
    opened.desk.close(rt);
    day_of(rt, alloc, opened, [first, second, third])
}

// Both clients reserve all their blocks, each from a thread.
fn reserve_at_once<D: DeskName + Send + Sync, R: Threads + Wait + Sync>(
    rt: &R,
    alloc: Global,
    opened: Opened<D>,
) -> Option<Day>
    requires { opened.desk.closed ≡ false }
{
    let Opened {
        desk,
        ann,
        bob,
        a,
        b,
    } = opened;
    let front = Front::new(desk);
    let (ann, bob) = reserve_both(rt, &front, ann, bob);
    let closed = Opened {
        desk: front.close(rt),
        ann,
        bob,
        a,
        b,
    };
    day_of(rt, alloc, closed, [None, None, None])
}

fn spend<D: DeskName + Send + Sync, R: Threads + Wait + Sync>(
    rt: &R,
    alloc: Global,
    raw: RawDesk,
    at_once: bool,
) -> Option<Day>
    requires { (D.program ≡ raw.program) × (D.queues ≡ raw.queues) × (D.ledgers ≡ raw.ledgers) }
{
    let opened = open_two::<D>(raw)?;
    if at_once {
        reserve_at_once(rt, alloc, opened)
    } else {
        book_by_hand(rt, alloc, opened)
    }
}

// A day at a new desk; none where memory is refused.
fn day_at<R: Threads + Wait + Sync>(
    rt: &R,
    alloc: Global,
    program: &Program,
    at_once: bool,
) -> Option<Day> {
    let raw = RawDesk::new(alloc, program).ok()?;
    spend::<Brand, R>(rt, alloc, raw, at_once)
}

// How many tickets of ann's 64 blocks a handler took in their order.
fn take_anns<D: DeskName, R: Wait>(rt: &R, tickets: Tickets<D>) -> (Tickets<D>, u8) {
    let mut tickets = tickets;
    let mut taken = 0;
    for index in 0..64u8 {
        if tickets.take(rt) == Next::Ticket(ticket(0, index)) {
            taken += 1;
        }
    }
    (tickets, taken)
}

// Ann reserves all her blocks from one thread, while a handler takes their tickets on another.
fn reserve_and_take<D: DeskName + Send + Sync, R: Threads + Wait + Sync>(
    rt: &R,
    front: &Front<D>,
    ann: Share<D>,
    a: Tickets<D>,
) -> (Share<D>, (Tickets<D>, u8)) {
    thread::join(
        rt,
        move || reserve_all(rt, front, ann),
        move || take_anns(rt, a),
    )
}

// How many tickets a handler took in their order while they were reserved, by no other calls.
fn taken_at_once<D: DeskName + Send + Sync, R: Threads + Wait + Sync>(
    rt: &R,
    opened: Opened<D>,
) -> u8
    requires { opened.desk.closed ≡ false }
{
    let Opened {
        desk,
        ann,
        bob,
        a,
        b,
    } = opened;
    let front = Front::new(desk);
    let (ann, (a, taken)) = reserve_and_take(rt, &front, ann, a);
    drop(front);
    drop(ann);
    drop(bob);
    drop(a);
    drop(b);
    taken
}

fn take_at_desk<D: DeskName + Send + Sync, R: Threads + Wait + Sync>(
    rt: &R,
    raw: RawDesk,
) -> Option<u8>
    requires { (D.program ≡ raw.program) × (D.queues ≡ raw.queues) × (D.ledgers ≡ raw.ledgers) }
{
    let opened = open_two::<D>(raw)?;
    Some(taken_at_once(rt, opened))
}

// Two clients that reserve at once at a new desk; none where memory is refused.
fn taken_at_desk<R: Threads + Wait + Sync>(rt: &R, alloc: Global, program: &Program) -> Option<u8> {
    let raw = RawDesk::new(alloc, program).ok()?;
    take_at_desk::<Brand, R>(rt, raw)
}

const fn ticket(client: u8, index: u8) -> Ticket {
    Ticket { client, index }
}

// Whether a handler took these tickets, and then the closing mark.
fn is_taken(taken: &[Next], due: &[Ticket]) -> bool {
    taken.len() == due.len() + 1
        && taken.last() == Some(&Next::Closed)
        && taken
            .iter()
            .zip(due)
            .all(|(next, due)| *next == Next::Ticket(*due))
}

fn is_transfer(day: &Day) -> bool {
    let [ann, bob, late] = [ticket(0, 0), ticket(1, 0), ticket(1, 1)];
    day.booked == [Some(ann), Some(bob), Some(late)]
        && day.counts == [Some(1), Some(2)]
        && day.order.as_slice() == [ann, bob, late].as_slice()
        && is_taken(&day.at_a, &[ann, bob])
        && is_taken(&day.at_b, &[ann, late])
}

/// Whether bookings by hand come in their order, at the desk and at each handler; none where memory is refused.
pub fn books_in_order<R: Threads + Wait + Sync>(rt: &R, alloc: Global) -> Option<bool> {
    let program = checked(alloc, TRANSFER)?;
    let day = day_at(rt, alloc, &program, false);
    drop(program);
    let day = day?;
    let is_due = is_transfer(&day);
    drop(day);
    Some(is_due)
}

// Whether a client's tickets are 0, 1, .., 63 in this order.
fn all_in_order(order: &[Ticket], client: u8) -> bool {
    let mut next = 0u16;
    for ticket in order {
        if ticket.client == client {
            if u16::from(ticket.index) != next {
                return false;
            }
            next += 1;
        }
    }
    next == 64
}

fn is_crowded(day: &Day) -> bool {
    day.counts == [Some(64), Some(64)]
        && day.order.len() == 128
        && all_in_order(&day.order, 0)
        && all_in_order(&day.order, 1)
        && is_taken(&day.at_a, &day.order)
        && is_taken(&day.at_b, &day.order)
}

// Whether a handler takes all tickets of a client in their order while they are reserved, at each of sixteen desks.
fn takes_all<R: Threads + Wait + Sync>(rt: &R, alloc: Global, program: &Program) -> bool {
    for _ in 0..16u8 {
        if taken_at_desk(rt, alloc, program) != Some(64) {
            return false;
        }
    }
    true
}

/// Whether two threads that reserve at once come in one order, which each handler takes; none where memory is refused.
pub fn reserves_in_one_order<R: Threads + Wait + Sync>(rt: &R, alloc: Global) -> Option<bool> {
    let program = crowd(alloc)?;
    let all_taken = takes_all(rt, alloc, &program);
    let day = day_at(rt, alloc, &program, true);
    drop(program);
    let day = day?;
    let is_due = is_crowded(&day);
    drop(day);
    Some(all_taken && is_due)
}
