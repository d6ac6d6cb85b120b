// What a terminal is told beside the report of a run, so that nobody takes one run for all: how many commands were
// refused, and how many ends other orders of blocks lead to. No contract speaks of these words.

use itoa::Buffer;
use qs_check::Program;
use qs_outcomes::{OutcomesFault, Unwatched, outcomes_watched};
use qs_text::{Watch, write_text, write_texts};
use std::alloc::Global;
use std::io::Write;

// So many configurations are looked at for how many ends there are, which takes no time that anybody notices.
const MOST_LOOKED_AT: u32 = 2000;

// Whether the line asks for the report of one run, as text.
fn asks_report(words: &[&str]) -> bool {
    let mut plain = true;
    for word in words {
        if word.starts_with("--format") || word.starts_with("--times") {
            plain = false;
        }
    }
    plain && matches!(words.get(1), Some(&"rules" | &"play" | &"run"))
}

// The number at the end of a line; 0 where none is.
fn last_number(line: &str) -> u64 {
    let mut number = 0u64;
    for byte in line.as_bytes() {
        number = if *byte >= b'0' && *byte <= b'9' {
            number
                .saturating_mul(10)
                .saturating_add(u64::from(*byte - b'0'))
        } else {
            0
        };
    }
    number
}

// How many commands the objects of a report have refused: each says it at the end of its line, below `states`.
fn refused_in(report: &str) -> u64 {
    let mut refused = 0u64;
    let mut has_states = false;
    for line in report.split('\n') {
        if has_states && line.contains(" refused ") {
            refused = refused.saturating_add(last_number(line));
        }
        has_states = has_states || line == "states";
    }
    refused
}

fn tell_refused<W: Write>(refused: u64, watch: &mut Watch<W>, err: &mut W) {
    if refused == 1 {
        write_text(
            err,
            watch,
            b"note: 1 command was refused; `--refusals` marks it\n",
        );
    } else if refused > 1 {
        let mut buffer = Buffer::new();
        let number = buffer.format(refused).as_bytes();
        write_texts(
            err,
            watch,
            &[
                b"note: ",
                number,
                b" commands were refused; `--refusals` marks them\n",
            ],
        );
    }
}

// Says to how many ends the orders of blocks lead, where these are several, or that there may be more.
fn tell_ends<W: Write>(alloc: Global, program: &Program, watch: &mut Watch<W>, err: &mut W) {
    match outcomes_watched(alloc, program, &[], MOST_LOOKED_AT, &mut Unwatched) {
        Ok(all) => {
            let ends = all.found().len();
            drop(all);
            if ends > 1 {
                let mut buffer = Buffer::new();
                let number = buffer.format(ends).as_bytes();
                write_texts(
                    err,
                    watch,
                    &[
                        b"note: this is one of ",
                        number,
                        b" ends; `qs outcomes` lists them\n",
                    ],
                );
            }
        }
        Err(OutcomesFault::Limit) => {
            write_text(
                err,
                watch,
                b"note: other orders of blocks may lead to other ends; `qs outcomes` lists them\n",
            );
        }
        Err(_) => {}
    }
}

/// Says beside a report how many commands were refused, and of a finished run that other orders of blocks lead to other
/// ends, where they do. A writer that fails changes nothing else, and neither does memory that runs out.
pub(crate) fn tell_notes<W: Write>(
    alloc: Global,
    words: &[&str],
    program: &Program,
    report: &[u8],
    err: &mut W,
) {
    if !asks_report(words) {
        return;
    }
    let Ok(report) = str::from_utf8(report) else {
        return;
    };
    let mut watch = Watch::new();
    tell_refused(refused_in(report), &mut watch, err);
    if report.ends_with("\nfinished\n") {
        tell_ends(alloc, program, &mut watch, err);
    }
}
