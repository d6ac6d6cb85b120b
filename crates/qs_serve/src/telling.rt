// What is said on standard error of a run that was refused.

ghost use Rattle.std.specs.Prelude.{◌≡◌, false, IsTrue};
ghost use Rattle.std.specs.Io.KnownBytes.{Keeps};
ghost use Rattle.qs_serve.specs.Due.{IsSomeText};

use crate::due::Due;
use crate::serving::Terminals;
use qs_line::{Format, read_line};
use qs_messages::{fault_details, tell_fault};
use qs_report::Fault;
use qs_text::{Watch, write_text};
use std::alloc::Global;
use std::io::{self, Write};

const WRITE: &[u8] = b"error: the output could not be written\n";

const WAITING: &[u8] =
    b"qs: reading the script from the terminal; Ctrl-D on a line of its own ends it\n";

/// Says, before it is read, that the script comes from a terminal, where it does, the line asks for something, and a
/// terminal shows what is said.
pub(crate) fn tell_waiting<'a, W: Write>(
    alloc: Global,
    words: &'a [&'a str],
    terminals: Terminals,
    err: &mut W,
)
    ensures silent { terminals.err ≡ false → Keeps (W.contents err.old) (W.contents err.new) }
{
    if !terminals.err || !terminals.input {
        return;
    }
    if let Ok(settings) = read_line(alloc, words) {
        drop(settings);
        let mut watch = Watch::new();
        write_text(err, &mut watch, WAITING);
    }
}

/// The fields that a refusal as JSON has beside the fault: where it is and why, and what helps. None beside a result or
/// a refusal as text, and where memory runs out.
pub fn details_of<'a>(
    alloc: Global,
    words: &'a [&'a str],
    text: &[u8],
    format: Format,
    due: &Due,
) -> Vec<u8> {
    if let (Due::Refused(fault), Format::Json) = (due, format) {
        if let Ok(details) = fault_details(alloc, words, text, fault) {
            return details;
        }
    }
    Vec::new(alloc)
}

/// Whether nothing has to be said of the output: it was written, or its reader has closed its end of a pipe.
pub(crate) fn is_fine<W>(status: u8, watch: &Watch<W>) -> bool
    ensures fine { status ≡ 0 → IsTrue result }
{
    status != 4 || watch.is_closed()
}

/// Says why a run was refused, or that its output could not be written. Nothing, where neither is so. Of a read that
/// failed it says why. A writer that fails changes nothing else.
pub(crate) fn tell<'a, W: Write>(
    alloc: Global,
    words: &'a [&'a str],
    text: &[u8],
    due: &Due,
    why: Option<&io::Error>,
    is_written: bool,
    err: &mut W,
)
    ensures silent { IsSomeText due.now → IsTrue is_written → Keeps (W.contents err.old) (W.contents err.new) }
{
    match due {
        Due::Text(_) | Due::No(_) => {
            if !is_written {
                let mut watch = Watch::new();
                write_text(err, &mut watch, WRITE);
            }
        }
        Due::Refused(fault) => tell_fault(alloc, words, text, fault, why, err),
    }
}

/// Says why the words of the command line are not there: one is not UTF-8, or memory ran out.
pub(crate) fn tell_unread<W: Write>(due: &Due, err: &mut W) {
    let said: &'static [u8] = match due {
        Due::Refused(Fault::Memory) => b"error: memory ran out\n",
        _ => b"error: an argument is not UTF-8\n",
    };
    let mut watch = Watch::new();
    write_text(err, &mut watch, said);
}
