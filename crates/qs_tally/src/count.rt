//! Counting: the end to which an order comes is looked up by its row, or added, and has one more run.

ghost use Rattle.std.specs.Prelude.{◌≡◌, ◌<◌, ◌+◌, ◌^◌, ◌++◌, ◌∷◌, [], false, slice_get, true, IfOk, OnOk, Some, ℕ};
ghost use Rattle.std.specs.List.{AllByRecursion, AllZip};
ghost use Rattle.qs_meaning.specs.audit.Configurations.{IsComplete};
ghost use Rattle.qs_outcomes.specs.Outcomes.{AreApart, IsListed};
ghost use Rattle.qs_standings.specs.Rows.{IsInserted, rows_in, shape_of};
ghost use Rattle.qs_tally.specs.Counting.{AreTabled, HasNotCome, IsBegun, IsCounted, IsPlaced, IsSameEnd};
ghost use Rattle.qs_tally.specs.Tallies.{CountedShape, standings_in};

use crate::tally::CountedEnd;
use indexmap::IndexSet;
use qs_objects::Ticket;
use qs_outcomes::{OutcomesFault, outcomes};
use qs_program::Program;
use qs_standings::{Row, Standing, standing_after};
use std::alloc::{AllocError, Global};

// Looks up a row, and adds it if it is new: its place, and whether it is.
fn look_up(rows: &mut IndexSet<Row>, row: Row) -> Result<(usize, bool), AllocError>
    ensures inserted { IfOk result (λ found. IsInserted (rows_in rows.old.keys) (shape_of row) found.1 (rows_in rows.new.keys)) }
    ensures place { IfOk result (λ found. slice_get (rows_in rows.new.keys) found.0 ≡ Some (shape_of row)) }
{
    let Ok(found) = rows.insert_full(row) else {
        return Err(AllocError);
    };
    Ok(found)
}

fn add(ends: &mut Vec<CountedEnd>, end: CountedEnd) -> Result<(), AllocError>
    ensures added { OnOk result (ends.new.items ≡ ends.old.items ++ end ∷ []) }
{
    ends.push(end)?;
    Ok(())
}

// The place of the end to which a complete order comes. It is added if it is new.
fn place_of(
    alloc: Global,
    program: &Program,
    order: &[Ticket],
    rows: &mut IndexSet<Row>,
    ends: &mut Vec<CountedEnd>,
) -> Result<usize, AllocError>
    requires complete { IsComplete program.now order.now }
    requires tabled { AreTabled program.now (rows_in rows.old.keys) ends.old.items }
    ensures tabled { OnOk result (AreTabled program.now (rows_in rows.new.keys) ends.new.items) }
    ensures placed { IfOk result (λ place. IsPlaced program.now order.now place ends.old.items ends.new.items) }
{
    program.keeps_sound();
    let standing = standing_after(alloc, program, order)?;
    let row = standing.row(alloc, program, order)?;
    let (place, new) = look_up(rows, row)?;
    if !new {
        return Ok(place);
    }
    add(ends, CountedEnd::new(standing))?;
    Ok(place)
}

/// Counts a run by its order, which is complete.
/// An error says that memory was refused.
pub fn count_run(
    alloc: Global,
    program: &Program,
    order: &[Ticket],
    rows: &mut IndexSet<Row>,
    ends: &mut Vec<CountedEnd>,
) -> Result<(), AllocError>
    requires complete { IsComplete program.now order.now }
    requires tabled { AreTabled program.now (rows_in rows.old.keys) ends.old.items }
    requires few { (k : ℕ) (e : CountedShape) → slice_get ends.old.items k ≡ Some e → e.times + 1 < 2 ^ 32 }
    ensures tabled { OnOk result (AreTabled program.now (rows_in rows.new.keys) ends.new.items) }
    ensures counted { OnOk result (IsCounted program.now order.now ends.old.items ends.new.items) }
{
    let place = place_of(alloc, program, order, rows, ends)?;
    ends[place].count();
    Ok(())
}

// Adds an end for each outcome of a list of all of them.
fn list_all(
    alloc: Global,
    program: &Program,
    found: &[Standing],
    rows: &mut IndexSet<Row>,
    ends: &mut Vec<CountedEnd>,
) -> Result<(), AllocError>
    requires sound { AllByRecursion (IsListed program.now) found.now }
    requires apart { AreApart found.now }
    requires tabled { AreTabled program.now (rows_in rows.old.keys) ends.old.items }
    requires none { ends.old.items ≡ [] }
    ensures tabled { OnOk result (AreTabled program.now (rows_in rows.new.keys) ends.new.items) }
    ensures same { OnOk result (AllZip (IsSameEnd program.now) found.now (standings_in ends.new.items)) }
    ensures none { OnOk result (AllByRecursion HasNotCome ends.new.items) }
{
    for standing in found {
        let _place = place_of(alloc, program, standing.order(), rows, ends)?;
    }
    Ok(())
}

/// The ends before the first run: all outcomes where they are found over so many configurations at most, which the
/// answer says, and else none.
/// An error says that memory was refused.
pub fn begin(
    alloc: Global,
    program: &Program,
    limit: u32,
    rows: &mut IndexSet<Row>,
    ends: &mut Vec<CountedEnd>,
) -> Result<bool, AllocError>
    requires tabled { AreTabled program.now (rows_in rows.old.keys) ends.old.items }
    requires none { ends.old.items ≡ [] }
    ensures tabled { OnOk result (AreTabled program.now (rows_in rows.new.keys) ends.new.items) }
    ensures begun { IfOk result (λ listed. IsBegun program.now limit listed ends.new.items) }
{
    match outcomes(alloc, program, limit) {
        Ok(all) => {
            list_all(alloc, program, all.found(), rows, ends)?;
            Ok(true)
        }
        Err(OutcomesFault::Limit) => Ok(false),
        Err(OutcomesFault::Memory) => Err(AllocError),
        Err(OutcomesFault::Order) => unreachable!(),
    }
}
