// What is said of the limits that a script leaves.

ghost use Rattle.std.specs.Prelude.{◌≡◌, false};
ghost use Rattle.std.specs.Io.KnownBytes.{Keeps};
ghost use Rattle.qs_messages.specs.Told.{AreLimitsTold};

use crate::limit_use::{TemplateUse, limits_text};
use qs_check::Program;
use qs_text::{Watch, write_text};
use std::alloc::Global;
use std::io::Write;

/// Says how much of each limit a script uses and leaves, where that is asked for: by how many bytes its text has, by its
/// templates and by its program. A writer that fails changes nothing else, and neither does memory that runs out: then
/// nothing is said.
pub fn tell_limits<W: Write>(
    alloc: Global,
    bytes: usize,
    templates: &TemplateUse,
    program: &Program,
    is_asked: bool,
    err: &mut W,
)
    ensures unasked { is_asked ≡ false → Keeps (W.contents err.old) (W.contents err.new) }
    ensures told { AreLimitsTold bytes templates.now program.now (W.contents err.old) (W.contents err.new) }
{
    if is_asked {
        if let Ok(said) = limits_text(alloc, bytes, templates, program) {
            let mut watch = Watch::new();
            write_text(err, &mut watch, said.as_slice());
        }
    }
}
