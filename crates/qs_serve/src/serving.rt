// The program over a reader and a writer.

ghost use Rattle.std.specs.Prelude.{◌≡◌, ◌+◌, ◌≤◌, ◌⊎◌, [], false, None, map, IsTrue, MatchBool};
ghost use Rattle.std.specs.Io.KnownBytes.{Keeps};
ghost use Rattle.qs_line.specs.Line.{is_verbose_in, line_in, request_by, warns_in};
ghost use Rattle.qs_line.specs.declared.line.Format.TheVariants as format;
ghost use Rattle.qs_report.specs.Faults.{fault_text};
ghost use Rattle.qs_text.specs.Texts.{AppendsFront};
ghost use Rattle.qs_serve.specs.audit.Due.{longest};
ghost use Rattle.qs_serve.specs.Due.{IsDone, Serves, ServesStarting};
ghost use Rattle.qs_serve.specs.audit.Headline.{IsHeadline};
ghost use Rattle.qs_serve.specs.Headline.{AreAnswersTrue, AreListsTrue};

use crate::beside::tell_beside;
use crate::choosing::due_of_words;
use crate::due::Due;
use crate::input::Counted;
use crate::output::finish;
use crate::telling::{details_of, is_fine, tell, tell_unread, tell_waiting};
use qs_line::Format;
use qs_report::Fault;
use qs_run::{FreeStart, Starter};
use qs_text::Watch;
use std::alloc::Global;
use std::io::{Read, Write};
use std::rt::Files;
use std::sync::Wait;
use std::thread::Threads;
use std::time::Clock;

/// Which of the streams are terminals.
#[derive(Clone, Copy)]
pub struct Terminals {
    /// The script comes from a terminal.
    pub input: bool,
    /// A terminal shows what is said beside the result.
    pub err: bool,
}

/// What the program is called with: all the process's arguments, the program's name first, and which of the streams are
/// terminals.
#[derive(Clone, Copy)]
pub struct Call<'a> {
    /// The arguments.
    pub words: &'a [&'a str],
    /// Which of the streams are terminals.
    pub terminals: Terminals,
}

/// The whole program, over a reader whose reads are counted and a writer whose failures are watched; its status is the
/// answer. The status is 4 exactly where a read, a write or the flush fails. The word `run` takes threads, and waits
/// for them, if the starter lets all of them start; no other word asks the starter. What was refused is told on `err`
/// in words; beside a result, how much of each limit is left where the line asks for it, and what is warned of in a
/// script where `err` is a terminal or the line asks for it. Where the script comes from a terminal, too, it says so
/// before it is read. While outcomes are searched for, a terminal shows how far the search is, and how much memory it
/// has in use. That changes neither output nor status. Where the status is 0, `err` is no terminal and nothing of it is
/// asked for, nothing is written to `err`.
///
/// The headline: where the status is 0 and the line asks for a run by `rules`, `play` or `run`, what is written is the
/// report of a run of the input's script in which every block had what it would have had alone. Where it asks a claim,
/// or for outcomes, fronts or the ends of many runs, what is written is true of every run.
pub fn serve_with<
    'a,
    T: Threads + Wait + Clock + Files + Alloc<A = Global> + Sync,
    S: Starter,
    R: Read,
    W: Write,
    E: Write,
>(
    rt: &T,
    call: Call<'a>,
    input: &mut Counted<R>,
    out: &mut W,
    watch: &mut Watch<W>,
    err: &mut E,
    starter: &mut S,
) -> u8
    requires readable { input.old.has_failed ≡ false }
    requires writable { watch.old.has_failed ≡ false }
    ensures headline { result ≡ 0 → IsHeadline (map (λ word. word.now) call.entry.words.now) input.old.remaining
        (W.contents out.old) (W.contents out.new) }
    ensures answers { AreAnswersTrue (map (λ word. word.now) call.entry.words.now) input.old.remaining
        (W.contents out.old) (W.contents out.new) result }
    ensures lists { result ≡ 0 → AreListsTrue (map (λ word. word.now) call.entry.words.now) input.old.remaining
        (W.contents out.old) (W.contents out.new) }
    ensures serves { ServesStarting S.answers starter.old starter.new (map (λ word. word.now) call.entry.words.now) input.old input.new
        (W.contents out.old) (W.contents out.new) watch.new.has_failed result }
    ensures gives_up { result ≡ 4 → IsTrue input.new.has_failed ⊎ IsTrue watch.new.has_failed }
    ensures unread { request_by (line_in (map (λ word. word.now) call.entry.words.now)) ≡ None → input.new ≡ input.old }
    ensures reads { input.new.reads ≤ input.old.reads + longest }
    ensures flushed { watch.new.has_failed ≡ false → IsTrue watch.new.is_flushed }
    ensures silent { result ≡ 0 → call.entry.terminals.err ≡ false → warns_in (map (λ word. word.now) call.entry.words.now) ≡ false
        → is_verbose_in (map (λ word. word.now) call.entry.words.now) ≡ false → Keeps (E.contents err.old) (E.contents err.new) }
{
    let Call { words, terminals } = call;
    let alloc = rt.alloc();
    tell_waiting(alloc, words, terminals, err);
    let mut text = Vec::new(alloc);
    let (due, format, it) = due_of_words(rt, words, input, &mut text, terminals.err, err, starter);
    let details = details_of(alloc, words, text.as_slice(), format, &due);
    let status = finish(out, watch, format, details.as_slice(), &due);
    tell(
        alloc,
        words,
        text.as_slice(),
        &due,
        input.why(),
        is_fine(status, watch),
        err,
    );
    tell_beside(alloc, words, text.as_slice(), &it, &due, terminals.err, err);
    status
}

/// The whole program: `serve_with`, with a starter that lets every worker start. The words are all the process's
/// arguments, the program's name first.
pub fn serve<
    'a,
    T: Threads + Wait + Clock + Files + Alloc<A = Global> + Sync,
    R: Read,
    W: Write,
    E: Write,
>(
    rt: &T,
    words: &'a [&'a str],
    input: &mut Counted<R>,
    out: &mut W,
    watch: &mut Watch<W>,
    terminals: Terminals,
    err: &mut E,
) -> u8
    requires readable { input.old.has_failed ≡ false }
    requires writable { watch.old.has_failed ≡ false }
    ensures headline { result ≡ 0 → IsHeadline (map (λ word. word.now) words.entry.now) input.old.remaining
        (W.contents out.old) (W.contents out.new) }
    ensures answers { AreAnswersTrue (map (λ word. word.now) words.entry.now) input.old.remaining
        (W.contents out.old) (W.contents out.new) result }
    ensures lists { result ≡ 0 → AreListsTrue (map (λ word. word.now) words.entry.now) input.old.remaining
        (W.contents out.old) (W.contents out.new) }
    ensures serves { Serves (map (λ word. word.now) words.entry.now) input.old input.new
        (W.contents out.old) (W.contents out.new) watch.new.has_failed result }
    ensures gives_up { result ≡ 4 → IsTrue input.new.has_failed ⊎ IsTrue watch.new.has_failed }
    ensures unread { request_by (line_in (map (λ word. word.now) words.entry.now)) ≡ None → input.new ≡ input.old }
    ensures reads { input.new.reads ≤ input.old.reads + longest }
    ensures flushed { watch.new.has_failed ≡ false → IsTrue watch.new.is_flushed }
    ensures silent { result ≡ 0 → terminals.err ≡ false → warns_in (map (λ word. word.now) words.entry.now) ≡ false
        → is_verbose_in (map (λ word. word.now) words.entry.now) ≡ false → Keeps (E.contents err.old) (E.contents err.new) }
{
    let call = Call { words, terminals };
    serve_with(rt, call, input, out, watch, err, &mut FreeStart)
}

/// Where the words themselves are not there: the line of that fault, and its status, or 4 where a write or the flush
/// fails. `err` is told why.
pub fn refuse<W: Write, E: Write>(
    fault: Fault,
    out: &mut W,
    watch: &mut Watch<W>,
    err: &mut E,
) -> u8
    requires fine { watch.old.has_failed ≡ false }
    ensures front { AppendsFront (W.contents out.old) (W.contents out.new) (fault_text fault) }
    ensures status { MatchBool watch.new.has_failed (result ≡ 4) (IsDone format.Text [] (W.contents out.old) (W.contents out.new) (Due.Refused fault) result) }
{
    let due = Due::Refused(fault);
    let status = finish(out, watch, Format::Text, &[], &due);
    tell_unread(&due, err);
    status
}
