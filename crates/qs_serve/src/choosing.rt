// What is due by words and an input: the line is read, and each word is answered by a call of its own. These functions,
// the two calls for runs on threads and `serve` are all that may wait; a call for any other word has no right to.

ghost use Rattle.std.specs.Prelude.{◌≡◌, ◌+◌, ◌≤◌, ◌⊎◌, false, None, map};
ghost use Rattle.std.specs.Io.KnownBytes.{Keeps};
ghost use Rattle.qs_line.specs.Line.{line_in, request_by, request_of};
ghost use Rattle.qs_report.specs.declared.faults.Fault.TheVariants as fault;
ghost use Rattle.qs_serve.specs.audit.Due.{longest};
ghost use Rattle.qs_serve.specs.Due.{HasAskedFor, IsDue, IsDueOfProgram, IsFormat, IsKeptBy, IsOutOfMemory, IsRefusedBy, IsStartedBy};

use crate::asking::{PreparedText, asked_by};
use crate::due::{Due, due_of_run};
use crate::input::Counted;
use crate::progress::due_shown;
use crate::tallies::due_of_tally;
use qs_line::{Format, Settings};
use qs_run::Starter;
use qs_run::many::Repeats;
use std::alloc::Global;
use std::io::{Read, Write};
use std::rt::Files;
use std::sync::Wait;
use std::thread::Threads;
use std::time::Clock;

// What settings make of a program: one run on threads or many, which may wait; or what never waits. How far a search
// is, is shown on `err`, where that is a terminal.
fn due_chosen<T: Threads + Wait + Clock + Files + Sync, S: Starter, E: Write>(
    rt: &T,
    alloc: Global,
    settings: &Settings,
    it: &PreparedText,
    is_terminal: bool,
    err: &mut E,
    starter: &mut S,
) -> Due
    ensures not_input { ¬ IsRefusedBy fault.Input result }
    ensures due { IsOutOfMemory result ⊎ IsDueOfProgram (request_of settings.now) it.now.lines it.now.program result }
    ensures started { HasAskedFor S.answers (request_of settings.now) it.now.program starter.old starter.new result }
    ensures silent { is_terminal ≡ false → Keeps (E.contents err.old) (E.contents err.new) }
{
    match settings {
        Settings::Run { style, mode, chunk } => due_of_run(
            rt,
            alloc,
            &it.program,
            *style,
            *mode,
            *chunk,
            starter,
        ),
        Settings::Tally {
            format,
            mode,
            chunk,
            times,
        } => {
            let repeats = Repeats {
                mode: *mode,
                size: *chunk,
                times: *times,
            };
            due_of_tally(rt, alloc, &it.program, *format, repeats, starter)
        }
        _ => due_shown(rt, alloc, settings, it, is_terminal, err),
    }
}

/// What is due by a command line and an input, and in which format, as `asked_by` says it of what is due without a
/// program. The text that was read is kept, and so is what was prepared of it. Nothing that is shown of a search on `err` changes what is due; where `err`
/// is no terminal, nothing is written to it.
pub(crate) fn due_of_words<
    'a,
    T: Threads + Wait + Clock + Files + Alloc<A = Global> + Sync,
    S: Starter,
    R: Read,
    E: Write,
>(
    rt: &T,
    words: &'a [&'a str],
    input: &mut Counted<R>,
    kept: &mut Vec<u8>,
    is_terminal: bool,
    err: &mut E,
    starter: &mut S,
) -> (Due, Format, Option<PreparedText>)
    requires fine { input.old.has_failed ≡ false }
    ensures due { IsDue (line_in (map (λ word. word.now) words.entry.now)) input.old.remaining input.new.has_failed result.0 }
    ensures format { IsFormat (line_in (map (λ word. word.now) words.entry.now)) input.old input.new result.0 result.1 }
    ensures kept { IsKeptBy (line_in (map (λ word. word.now) words.entry.now)) input.old.remaining result.0 kept.new.items }
    ensures started { IsStartedBy S.answers (line_in (map (λ word. word.now) words.entry.now)) input.old.remaining starter.old starter.new result.0 }
    ensures unread { request_by (line_in (map (λ word. word.now) words.entry.now)) ≡ None → input.new ≡ input.old }
    ensures reads { input.new.reads ≤ input.old.reads + longest }
    ensures silent { is_terminal ≡ false → Keeps (E.contents err.old) (E.contents err.new) }
{
    let alloc = rt.alloc();
    match asked_by(alloc, words, input, kept) {
        Ok((settings, it)) => {
            let due = due_chosen(rt, alloc, &settings, &it, is_terminal, err, starter);
            let format = settings.format();
            drop(settings);
            (due, format, Some(it))
        }
        Err((due, format)) => (due, format, None),
    }
}
