//! What a part of a level leads to: rows, and where each lead leads.

ghost use Rattle.std.specs.Prelude.{◌≡◌, ◌≤◌, IfOk, OnOk, IsErrOf, [], ◌∷◌, ◌++◌, length};
ghost use Rattle.qs_outcomes.specs.Search.{IsNoted};
ghost use Rattle.qs_standings.specs.Lists.{HasOne};
ghost use Rattle.qs_standings.specs.Rows.{drafted, rows_in};
ghost use Rattle.qs_levels.specs.Founds.{found_of};
ghost use Rattle.qs_levels.specs.Leads.{AreEven, tabled};

use indexmap::IndexSet;
use qs_outcomes::OutcomesFault;
use qs_standings::{Draft, Hints, Packed, Row, Standing, insert};
use std::alloc::{AllocError, Global};

/// From which standing of a level, by its place, and by whose next block a configuration is reached.
#[derive(Clone, Copy, Drop)]
pub(crate) struct Lead {
    pub source: usize,
    pub client: u8,
}

/// A lead, and who goes on from where it leads, client c in bit c.
#[derive(Clone, Copy, Drop)]
pub(crate) struct Mark {
    pub lead: Lead,
    pub going: u8,
}

/// Memory of a part that is done with, for another one.
#[derive(Drop)]
pub(crate) struct Spare {
    pub marks: Vec<Mark>,
    pub standings: Packed,
}

impl Spare {
    /// No memory.
    pub(crate) fn new(alloc: Global) -> Spare {
        Spare {
            marks: Vec::new(alloc),
            standings: Packed::new(alloc),
        }
    }
}

/// Rows, and the lead to each and its standing at the same place.
#[derive(Drop)]
pub(crate) struct Table {
    pub rows: IndexSet<Row>,
    pub marks: Vec<Mark>,
    pub standings: Packed,
}

impl Table {
    /// No rows, in memory of what is done with.
    pub(crate) fn new(alloc: Global, spare: Spare) -> Table
        ensures none { tabled result ≡ record { rows = []; found = [] } }
        ensures even { AreEven result }
    {
        let Spare {
            mut marks,
            mut standings,
        } = spare;
        marks.clear();
        standings.clear();
        Table {
            rows: IndexSet::new(alloc),
            marks,
            standings,
        }
    }
}

/// Adds a mark, and the standing to it, whose objects and variables are taken.
pub(crate) fn add_found(
    table: &mut Table,
    mark: Mark,
    standing: &mut Standing,
) -> Result<(), AllocError>
    requires even { AreEven table.old }
    ensures rows { table.new.rows ≡ table.old.rows }
    ensures even { OnOk result (AreEven table.new) }
    ensures added { OnOk result ((tabled table.new).found ≡ (tabled table.old).found ++ found_of mark standing.old ∷ []) }
{
    table.standings.push(standing)?;
    table.marks.push(mark)?;
    Ok(())
}

/// Notes a row: whether it is new. There is room for so many.
pub(crate) fn note(
    alloc: Global,
    row: &Draft,
    room: usize,
    hints: &mut Hints,
    rows: &mut IndexSet<Row>,
) -> Result<bool, OutcomesFault>
    requires small { length (rows_in rows.old.keys) ≤ room }
    ensures noted { IfOk result (λ new. IsNoted (rows_in rows.old.keys) (drafted row.now) room new (rows_in rows.new.keys)) }
    ensures full { IsErrOf result OutcomesFault.Limit → (length (rows_in rows.old.keys) ≡ room)
        × (HasOne (λ r. drafted row.now ≡ r) (rows_in rows.old.keys) → ⊥) }
    ensures order { ¬ IsErrOf result OutcomesFault.Order }
{
    let new = insert(rows, row.row(alloc)?)?;
    if new && rows.len() > room {
        return Err(OutcomesFault::Limit);
    }
    if new {
        hints.note(alloc, rows.as_slice())?;
    }
    Ok(new)
}
