// What is said on standard error beside a result.

ghost use Rattle.std.specs.Prelude.{◌≡◌, false, map};
ghost use Rattle.std.specs.Io.KnownBytes.{Keeps};
ghost use Rattle.qs_line.specs.Line.{is_verbose_in, warns_in};
ghost use Rattle.qs_serve.specs.Due.{IsSomeText};

use crate::asking::PreparedText;
use crate::due::Due;
use crate::notes::tell_notes;
use qs_line::asked_for;
use qs_messages::{tell_limits, tell_warnings};
use std::alloc::Global;
use std::io::Write;

// Whether a word of the line can ask for what is said beside a result; so clap reads a line once more only where it
// may.
fn may_ask(words: &[&str]) -> bool {
    for word in words {
        if *word == "--warn" || *word == "--verbose" {
            return true;
        }
    }
    false
}

/// Says what was asked for beside a result, where one was due, by what was prepared of the script's text: at a terminal, how many commands a run has refused, and to
/// how many ends other orders lead; how much of each limit is left, where the line asks for
/// it, and what is warned of in the script, where the line asks for it or a terminal shows it. A writer that fails
/// changes nothing else, and neither does memory that runs out.
pub(crate) fn tell_beside<'a, W: Write>(
    alloc: Global,
    words: &'a [&'a str],
    text: &[u8],
    it: &Option<PreparedText>,
    due: &Due,
    is_terminal: bool,
    err: &mut W,
)
    ensures unasked { is_terminal ≡ false → warns_in (map (λ word. word.now) words.entry.now) ≡ false → is_verbose_in (map (λ word. word.now) words.entry.now) ≡ false
        → Keeps (W.contents err.old) (W.contents err.new) }
    ensures refused { ¬ IsSomeText due.now → Keeps (W.contents err.old) (W.contents err.new) }
{
    let Some(it) = it else {
        return;
    };
    if let Due::Text(report) = due {
        if is_terminal {
            tell_notes(alloc, words, &it.program, report.as_slice(), err);
        }
    }
    if let Due::Text(_) | Due::No(_) = due {
        if is_terminal || may_ask(words) {
            if let Ok(asked) = asked_for(alloc, words) {
                tell_limits(
                    alloc,
                    text.len(),
                    &it.templates,
                    &it.program,
                    asked.limits,
                    err,
                );
                let warns = asked.warnings || is_terminal;
                tell_warnings(alloc, words, text, &it.program, warns, err);
            }
        }
    }
}
