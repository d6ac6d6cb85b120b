// The counts of a script.

ghost use Rattle.std.specs.Prelude.{◌≡◌, IfOk};
ghost use Rattle.qs_json.specs.RunJson as definitions;

use qs_program::Program;
use qs_text::{put_count, put_word};
use std::alloc::{AllocError, Global};

/// The counts of a program as one object on one line: objects, clients, blocks, load and weight. An error says that an
/// allocation failed, and nothing is left.
pub fn counts_json(alloc: Global, program: &Program) -> Result<Vec<u8>, AllocError>
    ensures text { IfOk result (λ bytes. bytes.items ≡ definitions.counts_json program.now) }
{
    let mut out = Vec::new(alloc);
    put_count(&mut out, b"{\"objects\":", program.objects() as u64)?;
    put_count(&mut out, b",\"clients\":", program.clients() as u64)?;
    put_count(&mut out, b",\"blocks\":", program.blocks() as u64)?;
    put_count(&mut out, b",\"load\":", program.load())?;
    put_count(&mut out, b",\"weight\":", program.weight())?;
    put_word(&mut out, b"}\n")?;
    Ok(out)
}
