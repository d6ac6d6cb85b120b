// What becomes of a request that an object runs.

ghost use Rattle.std.specs.Prelude.{◌≡◌};
ghost use Rattle.qs_objects.specs.audit.Act.{act, below, size_of};
ghost use Rattle.qs_text.specs.audit.fates.Fates.{fate_of, has_no_value, lacks_cells, lacks_first};

use crate::fates::fate::Fate;
use qs_objects::{Kind, Object, Op, Request};

// Whether a number is one of the first so many, from 0 on.
fn is_below(number: i64, count: i64) -> bool
    ensures below { result ≡ below number (size_of count) }
{
    number >= 0 && number < count
}

// Whether a buffer of so many values is asked for its first and has none.
fn is_first_missing(values: usize, op: Op, args: &[i64]) -> bool
    ensures value { result ≡ lacks_first values op args.now }
{
    match (op, args) {
        (Op::TakeFirst | Op::First, []) => values == 0,
        _ => false,
    }
}

// Whether a grid is asked for a cell or a row that it has not.
fn is_cell_missing(rows: i64, columns: i64, op: Op, args: &[i64]) -> bool
    ensures value { result ≡ lacks_cells (size_of rows) (size_of columns) op args.now }
{
    match (op, args) {
        (Op::GetCell, [row, column]) => !(is_below(*row, rows) && is_below(*column, columns)),
        (Op::RowSum, [row]) => !is_below(*row, rows),
        _ => false,
    }
}

// Whether a request asks an object for what is not there.
fn asks_for_nothing(object: &Object, request: &Request) -> bool
    ensures value { result ≡ has_no_value object.now.content request.now.op request.now.args }
{
    let args = request.args.as_slice();
    match object.kind() {
        Kind::Account { .. } => false,
        Kind::Buffer { .. } => is_first_missing(object.len(), request.op, args),
        Kind::Grid { rows, columns } => is_cell_missing(rows, columns, request.op, args),
    }
}

/// Has an object run a request, and tells what became of it, with the reply. Takes no memory.
pub fn run_and_tell(object: &mut Object, request: &Request) -> (Fate, Option<i64>)
    ensures acts { (object.new, result.1) ≡ act object.old request.now.op request.now.args }
    ensures fate { result.0 ≡ fate_of object.old request.now }
{
    let refused = object.refused();
    let is_missing = asks_for_nothing(object, request);
    let reply = object.apply(request);
    let fate = if object.refused() != refused {
        Fate::Refused
    } else if is_missing {
        Fate::NoValue
    } else {
        Fate::Done
    };
    (fate, reply)
}
