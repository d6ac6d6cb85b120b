//! A desk that has no name yet.

ghost use Rattle.std.specs.Prelude.{◌≡◌, ℕ, ◌<◌, ◌≤◌, length, vec_capacity, map, false, [], IfOk, None};
ghost use Rattle.qs_program.specs.Sound.{IsSound};
ghost use Rattle.qs_desk.specs.TicketQueues.{queue_at, queue_name, IsNewQueue, end_at, tickets_at};
ghost use Rattle.qs_desk.specs.Places.{places, share_at};
ghost use Rattle.qs_desk.specs.Plans.{lists_of_program};

use crate::desk::Desk;
use crate::name::DeskName;
use crate::plan::ReservedLists;
use crate::queue::{TicketSender, TicketTaker, TicketWaker, Tickets, make_queue};
use crate::share::{BlankLedgers, Share};
use qs_objects::Ticket;
use qs_program::{MOST_CLIENTS, MOST_HANDLERS, MOST_TICKETS, Program};
use std::alloc::{AllocError, Global};
use std::marker::Model;
use std::snapshot::Snapshot;

/// A desk that has no name yet, with all the memory that it and its handlers' queues will need.
pub struct RawDesk {
    program: Snapshot<Program>,
    plan: ReservedLists,
    history: Vec<Ticket>,
    senders: Vec<TicketSender>,
    wakers: Vec<TicketWaker>,
    ends: [Option<TicketTaker>; MOST_HANDLERS],
    blanks: BlankLedgers,
}

impl Drop for RawDesk {
    fn drop(self) {
        let RawDesk {
            program: _,
            plan: _,
            history: _,
            senders: _,
            wakers: _,
            ends: _,
            blanks: _,
        } = self;
    }
}

impl Model for RawDesk {
    ghost use Rattle.std.specs.Prelude.{◌≡◌, ℕ, ◌≤◌, ◌<◌, map, length, [], vec_capacity};
    ghost use Rattle.qs_program.specs.Sound.{IsSound};
    ghost use Rattle.qs_desk.specs.Limits.{all_bookings};
    ghost use Rattle.qs_desk.specs.TicketQueues.{queue_at, queue_name, IsNewQueue, end_at};
    ghost use Rattle.qs_desk.specs.Places.{places};
    ghost use Rattle.qs_desk.specs.Plans.{lists_of_program};
    ghost use Rattle.qs_desk.specs.Views.{RawView, raw_code};

    ghost Value = { RawView };

    ghost coded = { raw_code };

    ghost view = { λ r. record { program = r.program.value; queues = map queue_name r.senders.items; ledgers = r.blanks } };

    ghost invariant = { λ r.
        IsSound r.program.value
        × (r.plan ≡ lists_of_program r.program.value)
        × (r.history.items ≡ []) × (all_bookings ≤ vec_capacity r.history)
        × (length r.senders.items ≡ length r.program.value.objects)
        × ((h : ℕ) → h < length r.senders.items → IsNewQueue r.program.value h (queue_at r.senders.items h))
        × (r.ends ≡ map (end_at r.program.value (map queue_name r.senders.items)) places)
        × (r.wakers.items ≡ map queue_name r.senders.items) };
}

/// What a desk begins with: the desk, a share for each client, and the tickets of each handler.
#[derive(Drop)]
pub struct DeskParts<D: DeskName> {
    pub desk: Desk<D>,
    pub shares: [Option<Share<D>>; MOST_CLIENTS],
    pub tickets: [Option<Tickets<D>>; MOST_HANDLERS],
}

fn make_queues(
    alloc: Global,
    program: &Program,
) -> Result<(Vec<TicketSender>, [Option<TicketTaker>; MOST_HANDLERS]), AllocError>
    ensures len { IfOk result (λ made. length made.0.items ≡ length program.now.objects) }
    ensures senders { IfOk result (λ made. (h : ℕ) → h < length made.0.items → IsNewQueue program.now h (queue_at made.0.items h)) }
    ensures ends { IfOk result (λ made. made.1 ≡ map (end_at program.now (map queue_name made.0.items)) places) }
{
    program.keeps_sound();
    let mut senders = Vec::new(alloc);
    let mut ends = [None, None, None, None, None, None, None, None];
    for handler in 0..program.objects() {
        let (sender, end) = make_queue(alloc, program, handler as u8)?;
        senders.push(sender)?;
        ends[handler] = Some(end);
    }
    Ok((senders, ends))
}

// What wakes each handler, by their numbers.
fn make_wakers(alloc: Global, senders: &[TicketSender]) -> Result<Vec<TicketWaker>, AllocError>
    ensures own { IfOk result (λ wakers. wakers.items ≡ map queue_name senders.now) }
{
    let mut wakers = Vec::with_capacity(alloc, senders.len())?;
    for sender in senders {
        wakers.push(sender.waker()?)?;
    }
    Ok(wakers)
}

impl RawDesk {
    /// A desk for a program, with all the memory that it will need: its queues have room for all bookings and a closing
    /// mark. An error says that memory was refused.
    pub fn new(alloc: Global, program: &Program) -> Result<RawDesk, AllocError>
        ensures program { IfOk result (λ raw. raw.program ≡ program.now) }
    {
        program.keeps_sound();
        let plan = ReservedLists::new(alloc, program)?;
        let history = Vec::with_capacity(alloc, MOST_TICKETS)?;
        let (senders, ends) = make_queues(alloc, program)?;
        let wakers = make_wakers(alloc, &senders)?;
        Ok(RawDesk {
            program: Snapshot::of(program),
            plan,
            history,
            senders,
            wakers,
            ends,
            blanks: BlankLedgers::new(),
        })
    }

    /// The desk under a name, with a share for each client of the program, and the tickets of each of its handlers;
    /// takes no memory.
    pub fn open<D: DeskName>(self) -> DeskParts<D>
        requires program { D.program ≡ self.program }
        requires queues { D.queues ≡ self.queues }
        requires ledgers { D.ledgers ≡ self.ledgers }
        ensures desk { result.desk ≡ record { history = []; closed = false } }
        ensures shares { result.shares ≡ map (share_at D.program) places }
        ensures tickets { result.tickets ≡ map (tickets_at D.program) places }
    {
        let RawDesk {
            program: _,
            plan,
            history,
            senders,
            wakers,
            ends,
            blanks,
        } = self;
        let (books, shares) = blanks.open::<D>(&plan);
        DeskParts {
            desk: Desk::new(plan, history, senders, books, wakers),
            shares,
            tickets: name_all(ends),
        }
    }
}

// The tickets of a handler whose queue has an end.
fn name_end<D: DeskName>(handler: u8, end: Option<TicketTaker>) -> Option<Tickets<D>>
    requires names { length D.queues ≡ length D.program.objects }
    requires end { end ≡ end_at D.program D.queues handler }
    ensures tickets { result ≡ tickets_at D.program handler }
{
    match end {
        Some(end) => Some(Tickets::new(handler, end)),
        None => None,
    }
}

fn name_all<D: DeskName>(
    ends: [Option<TicketTaker>; MOST_HANDLERS],
) -> [Option<Tickets<D>>; MOST_HANDLERS]
    requires names { length D.queues ≡ length D.program.objects }
    requires ends { ends ≡ map (end_at D.program D.queues) places }
    ensures tickets { result ≡ map (tickets_at D.program) places }
{
    let [a, b, c, d, e, f, g, h] = ends;
    [
        name_end(0, a),
        name_end(1, b),
        name_end(2, c),
        name_end(3, d),
        name_end(4, e),
        name_end(5, f),
        name_end(6, g),
        name_end(7, h),
    ]
}
