//! A tour of the library, in pieces of some ten lines: a script becomes a program, which is played, run on threads,
//! searched and asked about. What is printed depends on no schedule.
#![tactic(auto)]

mod desks;
mod journals;
mod lanes;
mod minds;
mod playing;
mod scheduling;
mod scripts;
mod searching;
mod threads;

use qs_program::Program;
use qs_syncset::Mode;
use std::alloc::Global;
use std::io;
use std::io::Write;
use std::process::ExitCode;
use std::sync::Wait;
use std::thread::Threads;

// A heading, and below it what a piece of the tour answered.
fn put<W: Write>(out: &mut W, heading: &str, text: Option<Vec<u8>>) -> io::Result<()> {
    writeln!(out, "-- {heading}")?;
    match text {
        Some(text) => out.write_all(text.as_slice()),
        None => writeln!(out, "refused"),
    }
}

// The same for a few words.
fn put_words<W: Write>(out: &mut W, heading: &str, words: &str) -> io::Result<()> {
    writeln!(out, "-- {heading}")?;
    writeln!(out, "{words}")
}

// What one thread plays.
fn put_played<W: Write>(out: &mut W, alloc: Global, program: &Program) -> io::Result<()> {
    let plain = playing::in_a_mode(alloc, program, Mode::Plain);
    put(out, "played without coalescing", plain)?;
    let both = playing::in_a_mode(alloc, program, Mode::Both);
    put(out, "played with both kinds of coalescing", both)?;
    let turned = playing::in_an_order(alloc, program, &[1, 0, 0]);
    put(out, "played in an order, bob first", turned)?;
    let own = scheduling::clients_first(alloc, program, Mode::Both);
    put(out, "played by a scheduler of its own", own)
}

// What a lane, an object and a desk do that are driven by hand.
fn put_by_hand<R: Wait, W: Write>(
    out: &mut W,
    rt: &R,
    alloc: Global,
    program: &Program,
) -> io::Result<()> {
    let words = match lanes::lent_balance(rt, alloc) {
        Some(7) => "an account of 7 was lent through a lane",
        _ => "refused",
    };
    put_words(out, "a lane by hand", words)?;
    let words = match journals::after_a_deposit(alloc) {
        Some((1, 12)) => "the journal has one request, and the account holds 12",
        _ => "refused",
    };
    put_words(out, "an object by hand", words)?;
    let words = match desks::first_ticket_comes(rt, alloc, program) {
        Some(true) => "the first handler took the first block's ticket",
        _ => "refused",
    };
    put_words(out, "a desk by hand", words)
}

// What the minds of a handler and of a client decide that are driven by hand.
fn put_minds<W: Write>(out: &mut W, alloc: Global) -> io::Result<()> {
    let words = match minds::after_an_empty_block(alloc) {
        Some(true) => "the handler closed with its object",
        _ => "refused",
    };
    put_words(out, "a handler's mind by hand", words)?;
    let reply = match scripts::program(alloc, scripts::READS) {
        Some(reads) => minds::last_reply(alloc, &reads),
        None => None,
    };
    let words = match reply {
        Some(7) => "the client read 7",
        _ => "refused",
    };
    put_words(out, "a client's mind by hand", words)
}

// What threads run.
fn put_run<R: Threads + Wait + Sync, W: Write>(
    out: &mut W,
    rt: &R,
    alloc: Global,
    program: &Program,
) -> io::Result<()> {
    let begun = threads::second_handler_waits(rt, alloc, program);
    let words = match begun {
        Some(true) => "the handler of b began after that of a",
        Some(false) => "the handler of b began first",
        None => "refused",
    };
    put_words(out, "run on threads, with a gate of its own", words)?;
    let words = if threads::is_refused(rt, alloc, program) {
        "refused: its starter did not let the second worker start"
    } else {
        "not refused"
    };
    put_words(out, "run on threads, with a starter of its own", words)
}

// What a search finds.
fn put_found<W: Write>(out: &mut W, alloc: Global, program: &Program) -> io::Result<()> {
    let all = searching::all_outcomes(alloc, program);
    put(out, "all outcomes", all)?;
    let condition = "a.balance() + b.balance() == 201";
    let words = match searching::holds_always(alloc, program, condition) {
        Some((true, _)) => "yes",
        Some((false, _)) => "no",
        None => "refused",
    };
    put_words(out, condition, words)
}

// What a search finds where alike clients may change places.
fn put_alike<W: Write>(out: &mut W, alloc: Global) -> io::Result<()> {
    let found = match scripts::program(alloc, scripts::ALIKE) {
        Some(program) => searching::up_to_alike(alloc, &program),
        None => None,
    };
    let words = match found {
        Some((120, 1, 6)) =>
            "120 outcomes are one but for who is who, and 6 configurations lead there",
        _ => "refused",
    };
    put_words(out, "outcomes but for alike clients", words)
}

// What is answered where alike clients may change places.
fn put_answers<W: Write>(out: &mut W, alloc: Global) -> io::Result<()> {
    let found = match scripts::program(alloc, scripts::ALIKE) {
        Some(program) => (
            searching::holds_always(alloc, &program, "a.balance() == 5"),
            searching::holds_always(alloc, &program, "c.x < 4"),
        ),
        None => (None, None),
    };
    let words = match found {
        (Some((true, 6)), Some((false, 20))) =>
            "the account always has 5, by 6 configurations; c may read 4, by 20",
        _ => "refused",
    };
    put_words(out, "answers but for alike clients", words)
}

fn tour<R: Threads + Wait + Sync, W: Write>(rt: &R, alloc: Global, out: &mut W) -> io::Result<()> {
    let Some(program) = scripts::program(alloc, scripts::TRANSFER) else {
        return put(out, "a script", None);
    };
    put_played(out, alloc, &program)?;
    put_found(out, alloc, &program)?;
    put_alike(out, alloc)?;
    put_answers(out, alloc)?;
    put_by_hand(out, rt, alloc, &program)?;
    put_minds(out, alloc)?;
    if let Some(chain) = scripts::program(alloc, scripts::ONE_AFTER_THE_OTHER) {
        put_run(out, rt, alloc, &chain)?;
    }
    out.flush()
}

fn main(rt: HostRuntime) -> ExitCode {
    let alloc = rt.alloc();
    let mut out = io::writer(&rt);
    match tour(&rt, alloc, &mut out) {
        Ok(()) => ExitCode::SUCCESS,
        Err(_) => ExitCode::FAILURE,
    }
}
