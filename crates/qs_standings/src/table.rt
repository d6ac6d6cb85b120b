//! A table of rows, each once, in which one is found again by its content.

ghost use Rattle.std.specs.Prelude.{◌≡◌, true, IfOk};
ghost use Rattle.qs_standings.specs.Lists.{HasOne};
ghost use Rattle.qs_standings.specs.Rows.{IsInserted, drafted, rows_in, shape_of};

use crate::hints::Hints;
use crate::rows::{Draft, Row};
use indexmap::{Equivalent, IndexSet};
use std::alloc::AllocError;

/// Adds a row: whether it is new.
pub fn insert(seen: &mut IndexSet<Row>, row: Row) -> Result<bool, AllocError>
    ensures inserted { IfOk result (λ new. IsInserted (rows_in seen.old.keys) (shape_of row) new (rows_in seen.new.keys)) }
{
    let Ok((_, new)) = seen.insert_full(row) else {
        return Err(AllocError);
    };
    Ok(new)
}

// Whether a row stands at a place of the table.
fn stands_at(seen: &IndexSet<Row>, place: usize, row: &Draft) -> bool
    ensures seen { result ≡ true → HasOne (λ r. drafted row.now ≡ r) (rows_in seen.now.keys) }
{
    match seen.get_index(place) {
        Some(known) => row.equivalent(known),
        None => false,
    }
}

/// Whether a row is found in the table. Where there is no guess it is not looked for: it can hardly be there.
pub fn was_seen(seen: &IndexSet<Row>, hints: &Hints, row: &Draft) -> bool
    ensures seen { result ≡ true → HasOne (λ r. drafted row.now ≡ r) (rows_in seen.now.keys) }
{
    match hints.at(&row.begun) {
        None => false,
        Some(place) => stands_at(seen, place, row) || seen.contains(row),
    }
}
