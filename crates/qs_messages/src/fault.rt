// What is said of a fault.

ghost use Rattle.std.specs.Prelude.{◌≡◌, [], None, IfOk, option_map};
ghost use Rattle.std.specs.List.{list_any};
ghost use Rattle.qs_script.specs.audit.tokens.Tokens.{same};
ghost use Rattle.qs_messages.specs.CheckTold.{IsCheckTold};
ghost use Rattle.qs_report.specs.declared.faults.Fault.TheVariants.{Input};
ghost use Rattle.qs_messages.specs.Told.{IsDueOf, IsReadTold, IsFaultTold, IsInputTold, IsToldBy, is_drawing, limit_words, plain_words as words_of};

use crate::causes::{tell_check, tell_read};
use crate::line_causes::{put_front, put_order, put_pick, put_refused};
use qs_check::CheckFault;
use qs_outcomes::OutcomesFault;
use qs_played::{PlayFault, RunFault};
use qs_report::Fault;
use qs_script::ReadFault;
use qs_serial::OrderFault;
use qs_text::{Watch, write_text, write_texts};
use std::alloc::{AllocError, Global};
use std::io::{self, Write};

const UNREAD: &[u8] = b"error: the script could not be read from standard input";

fn is(word: &[u8], other: &[u8]) -> bool
    ensures exact { result ≡ same word.now other.now }
{
    word == other
}

fn is_drawing(word: &[u8]) -> bool
    ensures exact { result ≡ is_drawing word.now }
{
    is(word, b"dot") || is(word, b"--format=dot")
}

// Whether a line asks for a drawing.
fn draws<'a>(words: &'a [&'a str]) -> bool
    ensures exact { result ≡ list_any (λ word. is_drawing word.now) words.now }
{
    words.iter().any(|word| is_drawing(word.as_bytes()))
}

// What is said of more configurations than there may be, by whether a drawing is asked for.
fn limit_words(draws: bool) -> &'static [u8]
    ensures exact { result.now ≡ limit_words draws }
{
    if draws {
        b"error: a drawing has at most 200 configurations, and no more than `--limit` says; there are more\n  = help: `--after LIST` draws only what comes after some blocks\n  = help: without `--format dot` the outcomes are listed; `qs estimate` says how many configurations there can be\n"
    } else {
        b"error: there are more configurations than the limit\n  = help: `--limit N` sets another limit, up to 4294967295; without it, it is 1000000\n  = help: `--after LIST` looks only at what comes after some blocks, so that a search can be cut into parts\n"
    }
}

// What is said of a fault that has no place in the script and no part of the line, by whether a drawing is asked for.
fn plain_words(fault: &Fault, draws: bool) -> Option<&'static [u8]>
    ensures words { option_map (λ words. words.now) result ≡ words_of draws fault.now }
{
    match fault {
        Fault::Memory => Some(b"error: memory ran out\n"),
        Fault::Read(ReadFault::Size) => Some(
            b"error: a script has at most 65536 bytes, and this text has more\n",
        ),
        Fault::Read(ReadFault::Memory) => Some(
            b"error: memory ran out while the script was read\n",
        ),
        Fault::Check(CheckFault::Memory) => Some(
            b"error: memory ran out while the script was checked\n",
        ),
        Fault::Play(PlayFault::Memory) | Fault::Order(OrderFault::Memory) => Some(
            b"error: memory ran out while the script was played\n",
        ),
        Fault::Play(PlayFault::Rounds) => Some(b"error: `--rounds` is at most 1000000\n"),
        Fault::Run(RunFault::Memory) => Some(b"error: memory ran out before the script was run\n"),
        Fault::Run(RunFault::Threads) => Some(
            b"error: a thread could not be started\n  = help: each client and each object has a thread of its own; `qs play` takes none\n",
        ),
        Fault::Outcomes(OutcomesFault::Memory) => Some(
            b"error: memory ran out while outcomes were looked for\n",
        ),
        Fault::Outcomes(OutcomesFault::Limit) => Some(limit_words(draws)),
        _ => None,
    }
}

// The diagnosis of a text that can't be read.
fn told_read(alloc: Global, text: &[u8]) -> Result<Vec<u8>, AllocError>
    ensures due { IfOk result (λ said. IsReadTold text.now said.items) }
{
    let mut out = Vec::new(alloc);
    tell_read(alloc, &mut out, text)?;
    Ok(out)
}

// The diagnosis of a script that is refused.
fn told_check(alloc: Global, text: &[u8]) -> Result<Vec<u8>, AllocError>
    ensures due { IfOk result (λ said. IsCheckTold text.now [] said.items) }
{
    let mut out = Vec::new(alloc);
    tell_check(alloc, &mut out, text)?;
    Ok(out)
}

// What is said of a fault of the line, of a pick, of an order or of a front.
fn told_line<'a>(
    alloc: Global,
    words: &'a [&'a str],
    text: &[u8],
    fault: &Fault,
) -> Result<Vec<u8>, AllocError> {
    let mut out = Vec::new(alloc);
    match fault {
        Fault::CommandLine => put_refused(alloc, &mut out, words, text)?,
        Fault::Play(_) => put_pick(alloc, &mut out, words, text)?,
        Fault::Order(_) => put_order(alloc, &mut out, words, text, "--order")?,
        Fault::Outcomes(_) => put_front(alloc, &mut out, words, text)?,
        _ => {}
    }
    Ok(out)
}

// The text of what is said of a fault of the line, of the script, of a pick or of an order.
fn told<'a>(
    alloc: Global,
    words: &'a [&'a str],
    text: &[u8],
    fault: &Fault,
) -> Result<Vec<u8>, AllocError>
    ensures due { IfOk result (λ said. IsDueOf text.now fault.now said.items) }
{
    match fault {
        Fault::Read(_) => told_read(alloc, text),
        Fault::Check(_) => told_check(alloc, text),
        _ => told_line(alloc, words, text, fault),
    }
}

/// The text of what is said of a fault; nothing of a read that failed.
pub(crate) fn told_whole<'a>(
    alloc: Global,
    words: &'a [&'a str],
    text: &[u8],
    fault: &Fault,
) -> Result<Vec<u8>, AllocError> {
    match plain_words(fault, draws(words)) {
        Some(plain) => {
            let mut out = Vec::new(alloc);
            out.extend_from_slice(plain)?;
            Ok(out)
        }
        None => told(alloc, words, text, fault),
    }
}

// Writes that the input could not be read, and why, where that is known.
fn tell_input<W: Write>(alloc: Global, why: Option<&io::Error>, err: &mut W)
    ensures told { IsInputTold (W.contents err.old) (W.contents err.new) }
{
    let mut watch = Watch::new();
    if let Some(error) = why {
        if let Ok(said) = format!(in alloc; "{error}") {
            write_texts(err, &mut watch, &[UNREAD, b": ", said.as_bytes(), b"\n"]);
            return;
        }
    }
    write_texts(err, &mut watch, &[UNREAD, b"\n"]);
}

// Writes what is said of a fault that has a place or is of a part of the line.
fn tell_due<'a, W: Write>(
    alloc: Global,
    words: &'a [&'a str],
    text: &[u8],
    fault: &Fault,
    err: &mut W,
)
    ensures told { IsToldBy text.now fault.now None (W.contents err.old) (W.contents err.new) }
{
    if let Ok(said) = told(alloc, words, text, fault) {
        let mut watch = Watch::new();
        write_text(err, &mut watch, said.as_slice());
    }
}

/// Writes what is said of a fault: where it is, and what helps; of a read that failed, why. A writer that fails changes
/// nothing else; where memory runs out, nothing is said of a fault that has a place or is of a part of the line.
pub fn tell_fault<'a, W: Write>(
    alloc: Global,
    words: &'a [&'a str],
    text: &[u8],
    fault: &Fault,
    why: Option<&io::Error>,
    err: &mut W,
)
    ensures told { IsFaultTold (list_any (λ word. is_drawing word.now) words.now) text.now fault.now (W.contents err.old) (W.contents err.new) }
{
    if let Fault::Input = fault {
        return tell_input(alloc, why, err);
    }
    match plain_words(fault, draws(words)) {
        Some(plain) => {
            let mut watch = Watch::new();
            write_text(err, &mut watch, plain);
        }
        None => tell_due(alloc, words, text, fault, err),
    }
}
