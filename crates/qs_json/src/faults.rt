// The objects of refusals.

ghost use Rattle.std.specs.Prelude.{◌≡◌, ◌||◌, IsTrue, not};
ghost use Rattle.std.specs.Io.KnownBytes.{Appends};
ghost use Rattle.qs_text.specs.Texts.{AppendsFront};
ghost use Rattle.qs_json.specs.FaultJson as definitions;

use itoa::Buffer;
use qs_report::{Fault, place_of, words_of};
use qs_text::{Watch, write_texts};
use std::io::Write;

// Writes the pieces of a refusal: its words, a field and the field's number, and further fields.
fn write_pieces<'a, W: Write>(
    out: &mut W,
    watch: &mut Watch<W>,
    words: &'a [u8],
    field: &'a [u8],
    number: &'a [u8],
    details: &'a [u8],
) -> bool
    ensures front { AppendsFront (W.contents out.old) (W.contents out.new) (definitions.pieces words.now field.now number.now details.now) }
    ensures whole { IsTrue result → Appends (W.contents out.old) (W.contents out.new) (definitions.pieces words.now field.now number.now details.now) }
    ensures failed { watch.new.has_failed ≡ (watch.old.has_failed || not result) }
{
    write_texts(
        out,
        watch,
        &[
            b"{\"refused\":{\"fault\":\"",
            words,
            b"\"",
            field,
            number,
            details,
            b"}}\n",
        ],
    )
}

/// Writes a refusal as one object on one line: the fault's words, the line of the script where it has one, and then
/// further fields, each with a comma before it. False exactly where a write fails, which `watch` shows; no more is
/// written then, and what was written is a front of the text. Takes no memory, and asks for no flush.
pub fn fault_json<W: Write>(
    fault: &Fault,
    details: &[u8],
    out: &mut W,
    watch: &mut Watch<W>,
) -> bool
    ensures front { AppendsFront (W.contents out.old) (W.contents out.new) (definitions.fault_json fault.now details.now) }
    ensures whole { IsTrue result → Appends (W.contents out.old) (W.contents out.new) (definitions.fault_json fault.now details.now) }
    ensures failed { watch.new.has_failed ≡ (watch.old.has_failed || not result) }
{
    let words = words_of(fault);
    match place_of(fault) {
        None => write_pieces(out, watch, words, b"", b"", details),
        Some(line) => {
            let mut buffer = Buffer::new();
            let digits = buffer.format(line).as_bytes();
            write_pieces(out, watch, words, b",\"line\":", digits, details)
        }
    }
}
