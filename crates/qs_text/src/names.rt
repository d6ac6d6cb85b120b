// The names of a client's own text, put at the end of bytes.

ghost use Rattle.std.specs.Prelude.{◌≡◌, ◌<◌, ◌++◌, OnOk, length};
ghost use Rattle.qs_text.specs.Texts.{list_text};
ghost use Rattle.qs_text.specs.Words.{name_of};

use qs_diagnosis::put;
use qs_program::{Program, declared_name};
use std::alloc::AllocError;

/// Puts a word and a name of a client's own text at the end. An error says that an allocation failed.
pub fn put_named(
    out: &mut Vec<u8>,
    program: &Program,
    client: u8,
    word: &[u8],
    name: u8,
) -> Result<(), AllocError>
    requires client { client < length program.now.clients }
    ensures ok { OnOk result (out.new.items ≡ out.old.items ++ (word.now ++ name_of program.now client name)) }
{
    put(out, word)?;
    put(out, declared_name(program, client, name))
}

/// Puts names of a client's own text at the end, each after a space, or a dash where there are none. An error says that
/// an allocation failed.
pub fn put_names(
    out: &mut Vec<u8>,
    program: &Program,
    client: u8,
    names: &[u8],
) -> Result<(), AllocError>
    requires client { client < length program.now.clients }
    ensures ok { OnOk result (out.new.items ≡ out.old.items ++ list_text (name_of program.now client) names.now) }
{
    if names.is_empty() {
        return put(out, b" -");
    }
    for name in names {
        put_named(out, program, client, b" ", *name)?;
    }
    Ok(())
}
