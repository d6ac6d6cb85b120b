//! Blocks of two runs on the optimised machine, compared in every two modes, and the line of a run that is refused.
//! What is printed depends on nothing but the scripts below.
#![tactic(auto)]

ghost use Rattle.std.specs.Prelude.{◌<◌, length, IfSome};
ghost use Rattle.qs_meaning.specs.audit.Serial.{IsLegal};
ghost use Rattle.qs_played.specs.Isolation.{IsFitting};

use qs_chunk::ChunkSize;
use qs_core::{Actor, Played, Twin, play, twin};
use qs_program::Program;
use qs_report::{Fault, fault_line};
use qs_syncset::Mode;
use std::alloc::Global;
use std::io;
use std::io::Write;
use std::process::ExitCode;

// So many rounds end each of these runs.
const WHOLE: u32 = 1_000_000;

const ANN: u8 = 0;

const BOB: u8 = 1;

// Who comes first at the account decides which withdrawal is refused.
const BOTH: &str = "object a account 100
    client ann { separate a { a.withdraw(120); x = a.balance(); } }
    client bob { separate a { a.withdraw(80); x = a.balance(); } }";

const ALONE: &str = "object a account 100
    client ann { separate a { a.deposit(5); x = a.balance(); } }";

// The same block, beside another client and another object, with other names of numbers and in another order of
// objects.
const BESIDE: &str = "object b account 7 object a account 100
    client ann { separate a { a.deposit(5); x = a.balance(); } }
    client bob { separate b { b.deposit(1); } }";

const OTHER_NUMBER: &str = "object a account 100
    client ann { separate a { a.deposit(6); x = a.balance(); } }";

const OTHER_VARIABLE: &str = "object a account 100
    client ann { separate a { a.deposit(5); y = a.balance(); } }";

const OTHER_STATE: &str = "object a account 99
    client ann { separate a { a.deposit(5); x = a.balance(); } }";

// Ann's block, written out, and the same as a template's, of which bob's is another one with a single account.
const WRITTEN_OUT: &str = "object a account 100 object b account 100
    client ann { separate a b { a.withdraw(30); b.deposit(30); x = a.balance(); y = b.balance(); } }
    client bob { separate a { a.deposit(1); } separate b { b.deposit(1); y = b.balance(); } }";

const OF_A_TEMPLATE: &str = "object a account 100 object b account 100
    template move(account f, account g) {
        separate f g { f.withdraw(30); g.deposit(30); x = f.balance(); y = g.balance(); }
    }
    client ann = move(a, b) client bob = move(a, a)";

// A program with the actors that step first, and how many rounds come then.
#[derive(Clone, Copy)]
struct Schedule<'a> {
    text: &'a str,
    picks: &'a [Actor],
    rounds: u32,
}

fn checked(alloc: Global, text: &str) -> Option<Program> {
    let script = qs_script::read(alloc, text.as_bytes()).ok()?;
    qs_check::check(alloc, script).ok()
}

// A run, which fits its program.
fn played(
    alloc: Global,
    program: &Program,
    mode: Mode,
    picks: &[Actor],
    rounds: u32,
) -> Option<Played>
    ensures fits { IfSome result (IsFitting program.now) }
    ensures legal { IfSome result (λ played. IsLegal program.now played.order) }
{
    let size = ChunkSize::new(8)?;
    play(alloc, program, mode, size, picks, rounds).ok()
}

// Where a client's first block stands in the order.
fn place_of(played: &Played, client: u8) -> Option<usize>
    ensures place { IfSome result (λ place. place < length played.now.order) }
{
    for place in 0..played.order().len() {
        if played.order()[place].client == client {
            return Some(place);
        }
    }
    None
}

// What a comparison of a client's first blocks in two runs says.
fn compared(
    alloc: Global,
    client: u8,
    here: &Schedule<'_>,
    mode: Mode,
    there: &Schedule<'_>,
    other_mode: Mode,
) -> Option<Twin> {
    let program = checked(alloc, here.text)?;
    let other = checked(alloc, there.text)?;
    let run = played(alloc, &program, mode, here.picks, here.rounds)?;
    let other_run = played(alloc, &other, other_mode, there.picks, there.rounds)?;
    let place = place_of(&run, client)?;
    let other_place = place_of(&other_run, client)?;
    twin(
        alloc,
        &program,
        &run,
        place,
        &other,
        &other_run,
        other_place,
    )
    .ok()
}

// `=` and a digit for so many equal events, `/` where the blocks differ, `?` where there is nothing to compare.
fn sign_of(compared: Option<Twin>) -> [u8; 2] {
    match compared {
        Some(Twin::Agree(count @ 0..=9)) => [b'=', b'0' + count as u8],
        Some(Twin::Different) => [b'/', b' '],
        _ => [b'?', b' '],
    }
}

// A line with the signs of every two modes.
fn put<W: Write>(
    out: &mut W,
    alloc: Global,
    what: &str,
    client: u8,
    here: &Schedule<'_>,
    there: &Schedule<'_>,
) {
    let modes = [Mode::Plain, Mode::Dynamic, Mode::Static, Mode::Both];
    for mode in modes {
        for other_mode in modes {
            let compared = compared(alloc, client, here, mode, there, other_mode);
            let _ = out.write_all(sign_of(compared).as_slice());
            let _ = out.write_all(b" ");
        }
    }
    let _ = out.write_all(what.as_bytes());
    let _ = out.write_all(b"\n");
}

fn scheduled<'a>(text: &'a str, picks: &'a [Actor], rounds: u32) -> Schedule<'a> {
    Schedule {
        text,
        picks,
        rounds,
    }
}

// Ann's and bob's blocks in both orders of their reservations.
fn compare_orders<W: Write>(out: &mut W, alloc: Global) {
    let none = [];
    let bob_first = [Actor::Client(1)];
    let in_turn = scheduled(BOTH, &none, WHOLE);
    let turned = scheduled(BOTH, &bob_first, WHOLE);
    put(
        out,
        alloc,
        "ann's, after bob or before him",
        ANN,
        &in_turn,
        &turned,
    );
    put(
        out,
        alloc,
        "bob's, after ann or before her",
        BOB,
        &in_turn,
        &turned,
    );
}

// Ann's block alone, and in other scripts or runs.
fn compare_texts<W: Write>(out: &mut W, alloc: Global) {
    let none = [];
    let alone = scheduled(ALONE, &none, WHOLE);
    for (what, text, rounds) in [
        ("ann's, alone or beside bob", BESIDE, WHOLE),
        ("ann's, with another number", OTHER_NUMBER, WHOLE),
        ("ann's, with another variable", OTHER_VARIABLE, WHOLE),
        ("ann's, from another state", OTHER_STATE, WHOLE),
        ("ann's, whole or cut after her command", ALONE, 2),
    ] {
        put(
            out,
            alloc,
            what,
            ANN,
            &alone,
            &scheduled(text, &none, rounds),
        );
    }
}

// Ann's block of a template, and the same written out.
fn compare_templates<W: Write>(out: &mut W, alloc: Global) {
    let none = [];
    put(
        out,
        alloc,
        "ann's, of a template or written out",
        ANN,
        &scheduled(OF_A_TEMPLATE, &none, WHOLE),
        &scheduled(WRITTEN_OUT, &none, WHOLE),
    );
}

// A pick of nobody makes no run to compare: its fault's line.
fn put_refused<W: Write>(out: &mut W, alloc: Global) {
    let (Some(program), Some(size)) = (checked(alloc, ALONE), ChunkSize::new(8)) else {
        return;
    };
    if let Err(fault) = play(
        alloc,
        &program,
        Mode::Both,
        size,
        &[Actor::Handler(7)],
        WHOLE,
    ) {
        fault_line(&Fault::Play(fault), out);
    }
}

fn main(rt: HostRuntime) -> ExitCode {
    let mut out = io::writer(&rt);
    compare_orders(&mut out, rt.alloc());
    compare_texts(&mut out, rt.alloc());
    compare_templates(&mut out, rt.alloc());
    put_refused(&mut out, rt.alloc());
    let _ = out.flush();
    ExitCode::SUCCESS
}
