// What an object holds, and how many commands it refused.

ghost use Rattle.std.specs.Prelude.{◌≡◌, ◌<◌, ◌++◌, length, codes, pos, slice_index_or, OnOk};
ghost use Rattle.std.specs.Fmt.{signed_decimal};
ghost use Rattle.std.specs.List.{AllByRecursion, join_by};
ghost use Rattle.qs_objects.specs.audit.Objects.{kind_of, values_of};
ghost use Rattle.qs_text.specs.TellApart.{IsOfWords, IsWord};
ghost use Rattle.qs_text.specs.audit.Texts.{spaced_value};
ghost use Rattle.qs_text.specs.audit.Words.{values_text, content_text, state_text};

use crate::bytes::{put_digits, put_number};
use qs_diagnosis::put;
use qs_objects::{Kind, Object};
use std::alloc::AllocError;

// One value of an object, with a space before it unless it is the first.
fn put_value(out: &mut Vec<u8>, object: &Object, place: usize) -> Result<(), AllocError>
    requires { place < length (values_of object.now.content) }
    ensures ok { OnOk result (out.new.items ≡ out.old.items ++ spaced_value (values_of object.now.content) place) }
    ensures word { OnOk result (IsWord (slice_index_or (values_of object.now.content) place (pos 0))) }
{
    if place > 0 {
        put(out, b" ")?;
    }
    put_number(out, object.value(place).unwrap_or(0))
}

// All values of an object, with a space between each two.
fn put_joined(out: &mut Vec<u8>, object: &Object) -> Result<(), AllocError>
    ensures ok { OnOk result (out.new.items
        ≡ out.old.items ++ join_by signed_decimal (codes " ") (values_of object.now.content)) }
    ensures words { OnOk result (AllByRecursion IsWord (values_of object.now.content)) }
{
    for place in 0..object.len() {
        put_value(out, object, place)?;
    }
    Ok(())
}

fn put_values(out: &mut Vec<u8>, object: &Object) -> Result<(), AllocError>
    ensures ok { OnOk result (out.new.items ≡ out.old.items ++ values_text (values_of object.now.content)) }
    ensures words { OnOk result (AllByRecursion IsWord (values_of object.now.content)) }
{
    put(out, b"[")?;
    put_joined(out, object)?;
    put(out, b"]")
}

// A word between spaces, a number and a space.
fn put_size(out: &mut Vec<u8>, word: &[u8], size: i64) -> Result<(), AllocError>
    ensures ok { OnOk result (out.new.items ≡ out.old.items ++ (word.now ++ signed_decimal size)) }
{
    put(out, word)?;
    put_digits(out, size)
}

// What an object holds: its kind with its numbers, and the values where there are some.
fn put_content(out: &mut Vec<u8>, object: &Object) -> Result<(), AllocError>
    ensures ok { OnOk result (out.new.items
        ≡ out.old.items ++ content_text (kind_of object.now.content) (values_of object.now.content)) }
    ensures words { OnOk result (AllByRecursion IsWord (values_of object.now.content)) }
{
    match object.kind() {
        Kind::Account { balance } => put_size(out, b" account ", balance),
        Kind::Buffer { capacity } => {
            put_size(out, b" buffer ", capacity)?;
            put(out, b" ")?;
            put_values(out, object)
        }
        Kind::Grid { rows, columns } => {
            put_size(out, b" grid ", rows)?;
            put_size(out, b" ", columns)?;
            put(out, b" ")?;
            put_values(out, object)
        }
    }
}

/// Puts an object's name at the end, with what it holds and how many commands it refused: numbers of 64 bits, by which
/// the text tells the object (`texts_tell_apart`). An error says that an allocation failed.
pub fn put_state(out: &mut Vec<u8>, name: &[u8], object: &Object) -> Result<(), AllocError>
    ensures ok { OnOk result (out.new.items ≡ out.old.items ++ state_text name.now object.now) }
    ensures words { OnOk result (IsOfWords object.now) }
{
    put(out, name)?;
    put_content(out, object)?;
    put_size(out, b" refused ", object.refused())
}
