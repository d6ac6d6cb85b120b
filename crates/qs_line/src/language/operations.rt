// The titles of the kinds, and the lines of their operations.

ghost use Rattle.std.specs.Prelude.{◌≡◌, ◌++◌, ◌-◌, OnOk};
ghost use Rattle.qs_objects.specs.audit.Operations.{operations_of};
ghost use Rattle.qs_line.specs.language.Language.{AddsKind, AddsLineOf, AddsLinesOf, IsWithinLine, call, declaration as declared_as, sort_of, spaces_after, title};

use crate::language::words::{about, does};
use qs_diagnosis::put;
use qs_objects::{Kind, Op};
use std::alloc::AllocError;

// The column in which the words of a line begin, after the four spaces before it and the two parentheses.
const COLUMN: usize = 24;

// The spaces that are left of a column, after so many bytes.
fn put_spaces(out: &mut Vec<u8>, width: usize) -> Result<(), AllocError>
    ensures ok { OnOk result (out.new.items ≡ out.old.items ++ spaces_after width) }
{
    for _space in 0..COLUMN.saturating_sub(width) {
        out.push(b' ')?;
    }
    Ok(())
}

// How an operation is called, up to the column of the words.
fn put_call(out: &mut Vec<u8>, op: Op, parameters: &[u8]) -> Result<(), AllocError>
    ensures ok { OnOk result (out.new.items ≡ out.old.items ++ call op parameters.now) }
{
    let word = op.word();
    put(out, b"    ")?;
    put(out, word)?;
    put(out, b"(")?;
    put(out, parameters)?;
    put(out, b")")?;
    put_spaces(out, word.len().saturating_add(parameters.len()))
}

// Whether an operation is a query or a command.
fn put_sort(out: &mut Vec<u8>, op: Op) -> Result<(), AllocError>
    ensures ok { OnOk result (out.new.items ≡ out.old.items ++ sort_of op) }
{
    if op.is_query() {
        put(out, b"query    ")
    } else {
        put(out, b"command  ")
    }
}

fn put_operation(out: &mut Vec<u8>, op: Op) -> Result<(), AllocError>
    ensures ok { OnOk result (AddsLineOf op out.old.items out.new.items) }
{
    let parameters = op.parameters();
    let explained = does(op);
    put_call(out, op, parameters)?;
    put_sort(out, op)?;
    put(out, explained)?;
    put(out, b"\n")
}

fn put_operations(out: &mut Vec<u8>, operations: &[Op]) -> Result<(), AllocError>
    ensures ok { OnOk result (AddsLinesOf operations.now out.old.items out.new.items) }
{
    match operations {
        [] => Ok(()),
        [first, others @ ..] => {
            put_operation(out, *first)?;
            put_operations(out, others)
        }
    }
}

// What a declaration of an object has after the object's name.
fn declaration(kind: Kind) -> &'static [u8]
    ensures declared { result.now ≡ declared_as kind }
{
    match kind {
        Kind::Account { .. } => b"account N",
        Kind::Buffer { .. } => b"buffer N",
        Kind::Grid { .. } => b"grid R C",
    }
}

fn put_title(out: &mut Vec<u8>, kind: Kind, explained: &[u8]) -> Result<(), AllocError>
    ensures ok { OnOk result (out.new.items ≡ out.old.items ++ title kind explained.now) }
{
    put(out, b"\n  ")?;
    put(out, declaration(kind))?;
    put(out, b", ")?;
    put(out, explained)?;
    put(out, b"\n")
}

/// Puts the title of a kind, and a line for each of its operations. An error says that an allocation failed.
pub(crate) fn put_kind(out: &mut Vec<u8>, kind: Kind) -> Result<(), AllocError>
    ensures ok { OnOk result (AddsKind kind out.old.items out.new.items) }
{
    let explained = about(kind);
    put_title(out, kind, explained)?;
    put_operations(out, kind.operations())
}
