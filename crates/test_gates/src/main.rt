//! A desk by itself, and runs on threads in which a gate holds handlers, in each mode, with chunks of 1 and of 32. What
//! is printed depends on no schedule: a run that is not made by threads at once, or whose answer is not the threads',
//! prints something else.
#![tactic(auto)]

mod alone;
mod apart;
mod crowd;
mod desks;
mod gates;
mod refused;
mod scripts;

use crate::crowd::Held;
use crate::gates::Until;
use qs_syncset::Mode;
use std::alloc::Global;
use std::fmt::Display;
use std::io;
use std::io::Write;
use std::process::ExitCode;
use std::sync::Wait;
use std::thread::Threads;

const MODES: [Mode; 4] = [Mode::Plain, Mode::Dynamic, Mode::Static, Mode::Both];

const SIZES: [u8; 2] = [1, 32];

// One handler is held at its tickets, and the others are not.
fn one_held(object: usize, until: Until) -> [Until; 8] {
    let mut all = [Until::Now; 8];
    if let Some(place) = all.get_mut(object) {
        *place = until;
    }
    all
}

fn put<W: Write, D: Display + Drop>(out: &mut W, what: &str, shown: Option<D>) -> io::Result<()> {
    match shown {
        Some(shown) => writeln!(out, "{what}: {shown}"),
        None => writeln!(out, "{what}: late, or refused"),
    }
}

fn put_replies<W: Write>(out: &mut W, what: &str, replies: Option<[u8; 8]>) -> io::Result<()> {
    put(
        out,
        what,
        replies
            .as_ref()
            .and_then(|replies| str::from_utf8(replies).ok())
            .map(|text| text.trim_end()),
    )
}

// Each of two handlers is held until the other has begun a ticket, too.
fn two_blocks_at_once<R: Threads + Wait + Sync, W: Write>(
    rt: &R,
    alloc: Global,
    mode: Mode,
    size: u8,
    out: &mut W,
) -> io::Result<()> {
    let both = [
        Until::Begun(1),
        Until::Begun(0),
        Until::Now,
        Until::Now,
        Until::Now,
        Until::Now,
        Until::Now,
        Until::Now,
    ];
    let two = apart::run(rt, alloc, apart::TWO, mode, size, both);
    put_replies(out, "two_blocks_at_once", two)
}

// Which of two clients comes first at a third object is decided by the gate, which holds the first handler or the
// second.
fn gate_decides<R: Threads + Wait + Sync, W: Write>(
    rt: &R,
    alloc: Global,
    mode: Mode,
    size: u8,
    out: &mut W,
) -> io::Result<()> {
    let a_held = one_held(0, Until::Begun(2));
    let first = apart::run(rt, alloc, apart::DECIDED, mode, size, a_held);
    put_replies(out, "gate_decides, a is held", first)?;
    let b_held = one_held(1, Until::Begun(2));
    let second = apart::run(rt, alloc, apart::DECIDED, mode, size, b_held);
    put_replies(out, "gate_decides, b is held", second)
}

// Each of eight handlers is held until all of them have begun a ticket.
fn eight_at_once<R: Threads + Wait + Sync, W: Write>(
    rt: &R,
    alloc: Global,
    mode: Mode,
    size: u8,
    out: &mut W,
) -> io::Result<()> {
    let all = [Until::AllBegun; 8];
    let eight = apart::run(rt, alloc, apart::EIGHT, mode, size, all);
    put_replies(out, "eight_at_once", eight)
}

// Clients who meet, and one alone.
fn run_together<R: Threads + Wait + Sync, W: Write>(
    rt: &R,
    alloc: Global,
    mode: Mode,
    size: u8,
    out: &mut W,
) -> io::Result<()> {
    let free = crowd::run(rt, alloc, mode, size, Held::Free);
    put(out, "eight clients", free)?;
    let slow = crowd::run(rt, alloc, mode, size, Held::Slow);
    put(out, "eight clients, slow handlers", slow)?;
    let first = crowd::run(rt, alloc, mode, size, Held::First);
    put(out, "eight clients, a0 is held", first)?;
    let chunks = alone::run(rt, alloc, alone::TWENTY_CHUNKS, mode, size);
    put(out, "twenty chunks", chunks)?;
    let blocks = alone::run(rt, alloc, alone::TWENTY_BLOCKS, mode, size);
    put(out, "twenty blocks", blocks)
}

// One client at one account, of whose two workers one may not be started, or a third one that is not there.
fn run_refused<R: Threads + Wait + Sync, W: Write>(
    rt: &R,
    alloc: Global,
    mode: Mode,
    size: u8,
    out: &mut W,
) -> io::Result<()> {
    let handler = refused::run(rt, alloc, 0, mode, size);
    put(out, "the handler is refused", handler)?;
    let client = refused::run(rt, alloc, 1, mode, size);
    put(out, "the client is refused", client)?;
    let nobody = refused::run(rt, alloc, 2, mode, size);
    put(out, "nobody is refused", nobody)
}

fn run_all<R: Threads + Wait + Sync, W: Write>(
    rt: &R,
    alloc: Global,
    out: &mut W,
) -> io::Result<()> {
    let booked = desks::books_in_order(rt, alloc);
    put(out, "bookings_come_in_their_order", booked)?;
    let reserved = desks::reserves_in_one_order(rt, alloc);
    put(out, "two_threads_reserve_in_one_order", reserved)?;
    for mode in MODES {
        for size in SIZES {
            two_blocks_at_once(rt, alloc, mode, size, out)?;
            gate_decides(rt, alloc, mode, size, out)?;
            eight_at_once(rt, alloc, mode, size, out)?;
            run_together(rt, alloc, mode, size, out)?;
            run_refused(rt, alloc, mode, size, out)?;
        }
    }
    for mode in [Mode::Plain, Mode::Both] {
        let many = alone::run(rt, alloc, alone::MANY_COMMANDS, mode, 32);
        put(out, "many commands", many)?;
    }
    out.flush()
}

fn main(rt: HostRuntime) -> ExitCode {
    let alloc = rt.alloc();
    let mut out = io::writer(&rt);
    match run_all(&rt, alloc, &mut out) {
        Ok(()) => ExitCode::SUCCESS,
        Err(_) => ExitCode::FAILURE,
    }
}
