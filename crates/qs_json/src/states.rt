// The states of objects.

ghost use Rattle.std.specs.Prelude.{◌<◌, ◌++◌, OnOk, codes, length, pos, slice_index_or};
ghost use Rattle.std.specs.Fmt.{signed_decimal};
ghost use Rattle.std.specs.List.{AllByRecursion, join_by};
ghost use Rattle.qs_objects.specs.audit.Objects.{kind_of, values_of};
ghost use Rattle.qs_text.specs.TellApart.{IsOfWords, IsWord};
ghost use Rattle.qs_text.specs.Texts.{Puts};
ghost use Rattle.qs_json.specs.audit.Pieces.{array};
ghost use Rattle.qs_json.specs.audit.RunJson.{content_json, state_json};

use crate::pieces::{put_comma, put_integer, put_string};
use qs_objects::{Kind, Object};
use qs_text::put_word;
use std::alloc::AllocError;

// One value of an object.
fn put_value(out: &mut Vec<u8>, object: &Object, place: usize) -> Result<(), AllocError>
    requires { place < length (values_of object.now.content) }
    ensures ok { OnOk result (Puts (signed_decimal (slice_index_or (values_of object.now.content) place (pos 0))) out.old.items out.new.items) }
    ensures word { OnOk result (IsWord (slice_index_or (values_of object.now.content) place (pos 0))) }
{
    put_integer(out, b"", object.value(place).unwrap_or(0))
}

// All values of an object, with a comma between each two.
fn put_joined(out: &mut Vec<u8>, object: &Object) -> Result<(), AllocError>
    ensures ok { OnOk result (Puts (join_by signed_decimal (codes ",") (values_of object.now.content)) out.old.items out.new.items) }
    ensures words { OnOk result (AllByRecursion IsWord (values_of object.now.content)) }
{
    for place in 0..object.len() {
        put_comma(out, place)?;
        put_value(out, object, place)?;
    }
    Ok(())
}

// All values of an object, as a field.
fn put_values(out: &mut Vec<u8>, object: &Object) -> Result<(), AllocError>
    ensures ok { OnOk result (Puts (codes ",\"values\":" ++ array signed_decimal (values_of object.now.content)) out.old.items out.new.items) }
    ensures words { OnOk result (AllByRecursion IsWord (values_of object.now.content)) }
{
    put_word(out, b",\"values\":[")?;
    put_joined(out, object)?;
    put_word(out, b"]")
}

// The kind with its numbers, and the values where there are some.
fn put_content(out: &mut Vec<u8>, object: &Object) -> Result<(), AllocError>
    ensures ok { OnOk result (Puts (content_json (kind_of object.now.content) (values_of object.now.content)) out.old.items out.new.items) }
    ensures words { OnOk result (AllByRecursion IsWord (values_of object.now.content)) }
{
    match object.kind() {
        Kind::Account { balance } => put_integer(
            out,
            b",\"kind\":\"account\",\"balance\":",
            balance,
        ),
        Kind::Buffer { capacity } => {
            put_integer(out, b",\"kind\":\"buffer\",\"capacity\":", capacity)?;
            put_values(out, object)
        }
        Kind::Grid { rows, columns } => {
            put_integer(out, b",\"kind\":\"grid\",\"rows\":", rows)?;
            put_integer(out, b",\"columns\":", columns)?;
            put_values(out, object)
        }
    }
}

/// Puts an object with its name at the end.
pub(crate) fn put_state(out: &mut Vec<u8>, name: &[u8], object: &Object) -> Result<(), AllocError>
    ensures ok { OnOk result (Puts (state_json name.now object.now) out.old.items out.new.items) }
    ensures words { OnOk result (IsOfWords object.now) }
{
    put_string(out, b"{\"object\":", name)?;
    put_content(out, object)?;
    put_integer(out, b",\"refused\":", object.refused())?;
    put_word(out, b"}")
}
