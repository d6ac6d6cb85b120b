// The line that shows how far a long search is.

ghost use Rattle.std.specs.Prelude.{◌≡◌, false};
ghost use Rattle.std.specs.Io.KnownBytes.{Keeps};
ghost use Rattle.qs_line.specs.Line.{request_of};
ghost use Rattle.qs_report.specs.declared.faults.Fault.TheVariants as fault;
ghost use Rattle.qs_serve.specs.Due.{IsDueWithoutThreads, IsRefusedBy};

use crate::asking::PreparedText;
use crate::due::{Due, due_of_search};
use itoa::Buffer;
use qs_line::Settings;
use qs_outcomes::{Unwatched, Watcher};
use qs_text::{Watch, write_text};
use std::alloc::Global;
use std::io::{Read, Write};
use std::rt::Files;
use std::thread::Threads;
use std::time::{Clock, Duration, Instant};
use std::{fs, str};

const LABEL: &[u8] = b"configurations ";

// As wide as a line with the greatest numbers.
const BLANK: &[u8] = b"                                                            ";

// Where the system says how many pages of memory the program has: of its addresses, and of what is in use.
const PAGES: &str = "/proc/self/statm";

// The bytes of a page.
const PAGE: u64 = 4096;

// Between two lines, in milliseconds.
const BETWEEN: u64 = 100;

// The second number of a text, in which one space stands between each two.
fn second_number(text: &[u8]) -> Option<u64> {
    str::from_utf8(text)
        .ok()?
        .split(' ')
        .nth(1)?
        .parse::<u64>()
        .ok()
}

// How many megabytes of memory the program has in use, where the system says it.
fn megabytes<F: Files>(files: &F) -> Option<u64> {
    let mut file = fs::open(files, PAGES).ok()?;
    let mut text = [0; 64];
    let length = file.read(&mut text).ok()?;
    let pages = second_number(text.get(..length)?)?;
    Some(pages.saturating_mul(PAGE) / 1_000_000)
}

/// Shows on a terminal how many configurations a search has noted, and how much memory the program has in use, where
/// the system says it: on one line, which is written anew at most ten times a second, and first once the search has
/// taken that long. A writer or a clock that fails shows nothing.
#[derive(Drop)]
pub(crate) struct Progress<'a, C: Clock + Files, W: Write> {
    rt: &'a C,
    err: &'a mut W,
    last: Option<Instant>,
    width: usize,
}

impl<'a, C: Clock + Files, W: Write> Progress<'a, C, W> {
    /// Nothing is shown yet.
    pub(crate) fn new(rt: &'a C, err: &'a mut W) -> Progress<'a, C, W> {
        Progress {
            rt,
            err,
            last: Instant::now(rt).ok(),
            width: 0,
        }
    }

    // Whether a line may be written again.
    fn is_due(&mut self) -> bool {
        let (Some(last), Ok(now)) = (self.last, Instant::now(self.rt)) else {
            return false;
        };
        if now.duration_since(last) < Duration::from_millis(BETWEEN) {
            return false;
        }
        self.last = Some(now);
        true
    }

    fn show(&mut self, configurations: usize) {
        let memory = megabytes(self.rt);
        self.clear();
        self.write(b"\r");
        self.write(LABEL);
        self.write(Buffer::new().format(configurations).as_bytes());
        if let Some(memory) = memory {
            self.write(b", ");
            self.write(Buffer::new().format(memory).as_bytes());
            self.write(b" MB");
        }
    }

    fn write(&mut self, text: &[u8]) {
        write_text(self.err, &mut Watch::new(), text);
        self.width = self.width.saturating_add(text.len());
    }

    /// Leaves the line blank, where one was written.
    pub(crate) fn clear(&mut self) {
        let width = self.width.min(BLANK.len());
        if width == 0 {
            return;
        }
        let mut watch = Watch::new();
        write_text(self.err, &mut watch, b"\r");
        write_text(self.err, &mut watch, &BLANK[..width]);
        write_text(self.err, &mut watch, b"\r");
        self.width = 0;
    }
}

impl<C: Clock + Files, W: Write> Watcher for Progress<'_, C, W> {
    fn noted(&mut self, configurations: usize) {
        if self.is_due() {
            self.show(configurations);
        }
    }
}

/// What settings make of a program, where they ask for no run on threads. While outcomes are searched for, `err` shows how
/// far the search is, where it is a terminal; the line is blank again in the end. Where it is none, nothing is written to
/// it. It never waits.
pub(crate) fn due_shown<T: Threads + Clock + Files + Sync, W: Write>(
    rt: &T,
    alloc: Global,
    settings: &Settings,
    it: &PreparedText,
    is_terminal: bool,
    err: &mut W,
) -> Due
    ensures not_input { ¬ IsRefusedBy fault.Input result }
    ensures due { IsDueWithoutThreads (request_of settings.now) it.now.lines it.now.program result }
    ensures silent { is_terminal ≡ false → Keeps (W.contents err.old) (W.contents err.new) }
{
    if !is_terminal {
        return due_of_search(rt, alloc, settings, &it.program, &it.lines, &mut Unwatched);
    }
    let mut progress = Progress::new(rt, err);
    let due = due_of_search(rt, alloc, settings, &it.program, &it.lines, &mut progress);
    progress.clear();
    due
}
