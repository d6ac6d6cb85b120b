// The output: all of what is due, and then one flush.

ghost use Rattle.std.specs.Prelude.{◌≡◌, ◌||◌, false, IsTrue, not, MatchBool};
ghost use Rattle.std.specs.Io.KnownBytes.{Appends};
ghost use Rattle.qs_text.specs.Texts.{AppendsFront};
ghost use Rattle.qs_serve.specs.Due.{IsDone, due_text, refusal_in};

use crate::due::Due;
use qs_json::fault_json;
use qs_line::Format;
use qs_report::{Fault, fault_line_watched};
use qs_text::{Watch, write_text};
use std::io::Write;

/// Writes a refusal, as text, or as JSON with further fields. False exactly where a write fails; no more is written then.
pub fn write_refusal<W: Write>(
    out: &mut W,
    watch: &mut Watch<W>,
    format: Format,
    details: &[u8],
    fault: &Fault,
) -> bool
    ensures front { AppendsFront (W.contents out.old) (W.contents out.new) (refusal_in format details.now fault.now) }
    ensures whole { IsTrue result → Appends (W.contents out.old) (W.contents out.new) (refusal_in format details.now fault.now) }
    ensures failed { watch.new.has_failed ≡ (watch.old.has_failed || not result) }
{
    match format {
        Format::Text => fault_line_watched(fault, out, watch),
        Format::Json => fault_json(fault, details, out, watch),
    }
}

// Writes what is due. False exactly where a write fails; no more is written then.
fn write_due<W: Write>(
    out: &mut W,
    watch: &mut Watch<W>,
    format: Format,
    details: &[u8],
    due: &Due,
) -> bool
    ensures front { AppendsFront (W.contents out.old) (W.contents out.new) (due_text format details.now due.now) }
    ensures whole { IsTrue result → Appends (W.contents out.old) (W.contents out.new) (due_text format details.now due.now) }
    ensures failed { watch.new.has_failed ≡ (watch.old.has_failed || not result) }
{
    match due {
        Due::Text(bytes) | Due::No(bytes) => write_text(out, watch, bytes.as_slice()),
        Due::Refused(fault) => write_refusal(out, watch, format, details, fault),
    }
}

/// Writes what is due, and then asks for one flush. False exactly where a write or the flush fails; no more is written
/// then.
pub fn write_whole<W: Write>(
    out: &mut W,
    watch: &mut Watch<W>,
    format: Format,
    details: &[u8],
    due: &Due,
) -> bool
    ensures front { AppendsFront (W.contents out.old) (W.contents out.new) (due_text format details.now due.now) }
    ensures whole { IsTrue result → Appends (W.contents out.old) (W.contents out.new) (due_text format details.now due.now) }
    ensures failed { watch.new.has_failed ≡ (watch.old.has_failed || not result) }
    ensures flushed { IsTrue result → IsTrue watch.new.is_flushed }
{
    if !write_due(out, watch, format, details, due) {
        return false;
    }
    watch.flush(out)
}

/// Writes what is due and flushes, and answers the run's status: 4 where that failed, else what is due says.
pub fn finish<W: Write>(
    out: &mut W,
    watch: &mut Watch<W>,
    format: Format,
    details: &[u8],
    due: &Due,
) -> u8
    requires fine { watch.old.has_failed ≡ false }
    ensures front { AppendsFront (W.contents out.old) (W.contents out.new) (due_text format details.now due.now) }
    ensures status { MatchBool watch.new.has_failed (result ≡ 4) (IsDone format details.now (W.contents out.old) (W.contents out.new) due.now result) }
    ensures flushed { watch.new.has_failed ≡ false → IsTrue watch.new.is_flushed }
{
    if write_whole(out, watch, format, details, due) {
        due.status()
    } else {
        4
    }
}
