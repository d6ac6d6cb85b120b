// Pieces of texts for machines, put at the end of bytes.

ghost use Rattle.std.specs.Prelude.{◌≡◌, ◌++◌, OnOk, codes};
ghost use Rattle.std.specs.Fmt.{signed_decimal};
ghost use Rattle.qs_program.specs.audit.Program.{client_at, object_at};
ghost use Rattle.qs_text.specs.Texts.{Puts};
ghost use Rattle.qs_json.specs.audit.Pieces.{comma_at, first_field, quoted, truth};

use qs_program::Program;
use qs_text::{client_name, object_name, put, put_all, put_number};
use std::alloc::AllocError;

// The word of a truth.
pub(crate) fn truth_word(is_true: bool) -> &'static [u8]
    ensures word { result.now ≡ truth is_true }
{
    if is_true { b"true" } else { b"false" }
}

// A word and a truth.
pub(crate) fn put_truth(out: &mut Vec<u8>, word: &[u8], is_true: bool) -> Result<(), AllocError>
    ensures ok { OnOk result (Puts (word.now ++ truth is_true) out.old.items out.new.items) }
{
    put(out, word)?;
    put(out, truth_word(is_true))
}

// The name of an object, as a first field.
pub(crate) fn put_object_name(
    out: &mut Vec<u8>,
    program: &Program,
    object: u8,
) -> Result<(), AllocError>
    ensures ok { OnOk result (Puts (first_field (codes "object") (quoted (object_at program.now object).name)) out.old.items out.new.items) }
{
    put_string(
        out,
        b"{\"object\":",
        object_name(program, usize::from(object)),
    )
}

// The name of a client, as a first field.
pub(crate) fn put_client_name(
    out: &mut Vec<u8>,
    program: &Program,
    client: u8,
) -> Result<(), AllocError>
    ensures ok { OnOk result (Puts (first_field (codes "client") (quoted (client_at program.now client).name)) out.old.items out.new.items) }
{
    put_string(out, b"{\"client\":", client_name(program, client))
}

// The comma before an element of an array, but before the first.
pub(crate) fn put_comma(out: &mut Vec<u8>, place: usize) -> Result<(), AllocError>
    ensures ok { OnOk result (Puts (comma_at place) out.old.items out.new.items) }
{
    if place > 0 { put(out, b",") } else { Ok(()) }
}

// A word and a string.
pub(crate) fn put_string(out: &mut Vec<u8>, word: &[u8], string: &[u8]) -> Result<(), AllocError>
    ensures ok { OnOk result (Puts (word.now ++ quoted string.now) out.old.items out.new.items) }
{
    put_all(out, &[word, b"\"", string, b"\""])
}

// A word and a number.
pub(crate) fn put_integer(out: &mut Vec<u8>, word: &[u8], number: i64) -> Result<(), AllocError>
    ensures ok { OnOk result (Puts (word.now ++ signed_decimal number) out.old.items out.new.items) }
{
    put(out, word)?;
    put_number(out, number)
}
