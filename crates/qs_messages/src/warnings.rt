// What is warned of in a script that was accepted.

ghost use Rattle.std.specs.Prelude.{◌≡◌, false};
ghost use Rattle.std.specs.Io.KnownBytes.{Keeps};

use crate::warned::{put_claim_warnings, put_held_all, warnings_text};
use qs_check::Program;
use qs_text::{Watch, write_text};
use std::alloc::{AllocError, Global};
use std::io::Write;

// What is said of a line, a text and its program.
fn said_of<'a>(
    alloc: Global,
    words: &'a [&'a str],
    text: &[u8],
    program: &Program,
) -> Result<Vec<u8>, AllocError> {
    let mut out = warnings_text(alloc, text, program)?;
    put_held_all(alloc, &mut out, text)?;
    put_claim_warnings(alloc, &mut out, words, text, program)?;
    Ok(out)
}

/// Says what is warned of in the script of a text, by its program, and in the conditions of the line, where that is asked
/// for. A writer that fails changes nothing else, and neither does memory that runs out.
pub fn tell_warnings<'a, W: Write>(
    alloc: Global,
    words: &'a [&'a str],
    text: &[u8],
    program: &Program,
    is_asked: bool,
    err: &mut W,
)
    ensures unasked { is_asked ≡ false → Keeps (W.contents err.old) (W.contents err.new) }
{
    if is_asked {
        if let Ok(said) = said_of(alloc, words, text, program) {
            let mut watch = Watch::new();
            write_text(err, &mut watch, said.as_slice());
        }
    }
}
