// The counts of a script.

ghost use Rattle.std.specs.Prelude.{◌≡◌, IfOk};
ghost use Rattle.qs_report.specs.Report.{counts_text};

use qs_program::Program;
use qs_text::put_count_line;
use std::alloc::{AllocError, Global};

/// The counts of a program: a line each for objects, clients, blocks, load and weight. An error says that an allocation
/// failed, and nothing is left.
pub fn check_text(alloc: Global, program: &Program) -> Result<Vec<u8>, AllocError>
    ensures text { IfOk result (λ bytes. bytes.items ≡ counts_text program.now) }
{
    let mut out = Vec::new(alloc);
    put_count_line(&mut out, b"objects", program.objects() as u64)?;
    put_count_line(&mut out, b"clients", program.clients() as u64)?;
    put_count_line(&mut out, b"blocks", program.blocks() as u64)?;
    put_count_line(&mut out, b"load", program.load())?;
    put_count_line(&mut out, b"weight", program.weight())?;
    Ok(out)
}
