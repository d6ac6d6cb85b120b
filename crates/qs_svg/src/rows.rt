// The row of an object.

ghost use Rattle.std.specs.Prelude.{◌≡◌, ◌<◌, ◌-◌, IfOk, OnOk, [], ◌∷◌, ◌++◌, length, slice_get};
ghost use Rattle.qs_objects.specs.audit.Journals.{replay, without_tickets};
ghost use Rattle.qs_text.specs.audit.fates.Fates.{fates_of};
ghost use Rattle.qs_text.specs.fates.Fates.{all_fates};
ghost use Rattle.qs_svg.specs.audit.Shapes.{fitted_text, shapes_up_to};
ghost use Rattle.qs_svg.specs.Shapes.{Draws};
ghost use Rattle.qs_svg.specs.audit.Stretches.{columns_of as columns_in, stretch_start};
ghost use Rattle.qs_svg.specs.audit.Words.{state_words};
ghost use Rattle.qs_svg.specs.audit.Blocks.{cell, left_shapes, row as row_shapes, row_end, row_left, row_name, state_shapes, whole_cell};

use crate::facts::{
    MOST_COLUMNS, all_columns, columns_of, entries_for, journal_of, reserves, ticket_at,
};
use crate::layout::{Layout, Spot, bands_of, column_edge, row_edge, symbol_left, symbol_top};
use crate::pieces::{put_fitted, put_name, put_things};
use crate::stretches::put_stretch;
use crate::words::{put_declared, put_state_words};
use qs_objects::{Entry, Object};
use qs_played::Played;
use qs_program::Program;
use qs_text::fates::{Fate, JournalFates};
use qs_text::{object_name, put_word};
use std::alloc::{AllocError, Global};

// What stands of an object in the column of a ticket.
fn put_cell(
    out: &mut Vec<u8>,
    alloc: Global,
    program: &Program,
    played: &Played,
    spot: Spot,
    entries: &[Entry],
    fates: &[Fate],
) -> Result<(), AllocError>
    requires place { spot.column < length played.now.order }
    ensures ok { OnOk result (Draws (cell program.now played.now spot.layout spot.column spot.row entries.now fates.now) out.old.items out.new.items) }
{
    if reserves(played, usize::from(spot.column), usize::from(spot.row)) {
        put_stretch(out, alloc, program, played, spot, entries, fates)
    } else {
        Ok(())
    }
}

// Has an object run the requests of some entries.
fn run_entries(object: &mut Object, entries: &[Entry])
    ensures state { object.new ≡ replay object.old (without_tickets entries.now) }
{
    for entry in entries {
        let _reply = object.apply(&entry.request);
    }
}

// A state, after a word.
fn put_state_at(
    out: &mut Vec<u8>,
    alloc: Global,
    corner: (u32, u32),
    width: u32,
    word: &[u8],
    object: &Object,
) -> Result<(), AllocError>
    ensures ok { OnOk result (Draws (fitted_text corner.0 corner.1 width (word.now ++ state_words object.now) ∷ []) out.old.items out.new.items) }
{
    let mut words = Vec::new(alloc);
    put_word(&mut words, word)?;
    put_state_words(&mut words, object)?;
    put_fitted(out, corner.0, corner.1, width, words.as_slice())
}

// What an object held after a stretch, where there is one.
fn put_left_state(
    out: &mut Vec<u8>,
    alloc: Global,
    played: &Played,
    spot: Spot,
    object: &Object,
) -> Result<(), AllocError>
    requires place { spot.column < length played.now.order }
    ensures ok { OnOk result (Draws (left_shapes played.now spot.layout spot.column spot.row object.now) out.old.items out.new.items) }
{
    if reserves(played, usize::from(spot.column), usize::from(spot.row)) {
        let y = symbol_top(spot, spot.layout.lines) + 24;
        put_state_at(out, alloc, (symbol_left(spot), y), 170, b"= ", object)
    } else {
        Ok(())
    }
}

// The stretches of a row; answers where in the journal the next stretch would begin.
fn put_cells(
    out: &mut Vec<u8>,
    alloc: Global,
    program: &Program,
    played: &Played,
    layout: Layout,
    row: u8,
    fates: &[Fate],
) -> Result<usize, AllocError>
    requires row { row < length program.now.objects }
    requires fates { fates.now ≡ fates_of program.now played.now row }
    ensures ok { IfOk result (λ start. Draws
        (shapes_up_to (columns_in played.now) (whole_cell program.now played.now layout row)) out.old.items out.new.items) }
    ensures start { IfOk result (λ start. start ≡ stretch_start played.now row (columns_in played.now)) }
{
    let journal = journal_of(played, usize::from(row));
    let mut object = program.declared_object(alloc, row)?;
    let mut start = 0;
    for column in 0..columns_of(played) as u8 {
        let count = entries_for(ticket_at(played, usize::from(column)), journal);
        let end = start + count.min(journal.len() - start);
        let spot = Spot {
            layout,
            column,
            row,
        };
        put_cell(
            out,
            alloc,
            program,
            played,
            spot,
            &journal[start..end],
            &fates[start..end],
        )?;
        run_entries(&mut object, &journal[start..end]);
        put_left_state(out, alloc, played, spot, &object)?;
        start = end;
    }
    Ok(start)
}

// The last state of an object.
fn put_state(
    out: &mut Vec<u8>,
    alloc: Global,
    played: &Played,
    row: u8,
    y: u32,
) -> Result<(), AllocError>
    ensures ok { OnOk result (Draws (state_shapes (slice_get played.now.states row) y) out.old.items out.new.items) }
{
    match played.states().get(usize::from(row)) {
        None => Ok(()),
        Some(object) => put_state_at(out, alloc, (12, y), 180, b"ends as ", object),
    }
}

// How an object is declared, how many requests it ran, and its last state.
fn put_row_end(
    out: &mut Vec<u8>,
    alloc: Global,
    program: &Program,
    played: &Played,
    layout: Layout,
    row: u8,
    band: u8,
) -> Result<(), AllocError>
    requires row { row < length program.now.objects }
    ensures ok { OnOk result (Draws (row_end program.now played.now layout row band) out.old.items out.new.items) }
{
    let y = row_edge(layout, band, row);
    let requests = journal_of(played, usize::from(row)).len();
    let mut words = Vec::new(alloc);
    put_declared(&mut words, program.kind(row), requests)?;
    put_fitted(out, 12, y + 37, 180, words.as_slice())?;
    put_state(out, alloc, played, row, y + 53)
}

// The name of an object before its row of a band.
fn put_row_name(
    out: &mut Vec<u8>,
    program: &Program,
    layout: Layout,
    row: u8,
    band: u8,
) -> Result<(), AllocError>
    ensures ok { OnOk result (Draws (row_name program.now layout row band) out.old.items out.new.items) }
{
    let y = row_edge(layout, band, row);
    put_name(out, 12, y + 21, object_name(program, usize::from(row)))
}

// The same in each band.
fn put_row_names(
    out: &mut Vec<u8>,
    program: &Program,
    layout: Layout,
    row: u8,
    bands: u8,
) -> Result<(), AllocError>
    ensures ok { OnOk result (Draws (shapes_up_to bands (row_name program.now layout row)) out.old.items out.new.items) }
{
    for band in 0..bands {
        put_row_name(out, program, layout, row, band)?;
    }
    Ok(())
}

// How many requests are left for the blocks that have no column.
fn put_left(
    out: &mut Vec<u8>,
    played: &Played,
    layout: Layout,
    row: u8,
    requests: usize,
) -> Result<(), AllocError>
    ensures ok { OnOk result (Draws (row_left played.now layout row requests) out.old.items out.new.items) }
{
    if MOST_COLUMNS < played.order().len() {
        let x = column_edge(64) + 12;
        let y = row_edge(layout, 9, row) + 21;
        put_things(out, x, y, requests, b" request")
    } else {
        Ok(())
    }
}

/// Puts the row of an object: what is said of it, a stretch for each column, and what is left.
pub(crate) fn put_row(
    out: &mut Vec<u8>,
    alloc: Global,
    program: &Program,
    played: &Played,
    layout: Layout,
    row: u8,
    fates: &JournalFates,
) -> Result<(), AllocError>
    requires row { row < length program.now.objects }
    requires fates { fates.now ≡ all_fates program.now played.now }
    ensures ok { OnOk result (Draws (row_shapes program.now played.now layout row) out.old.items out.new.items) }
{
    let bands = bands_of(all_columns(played));
    put_row_names(out, program, layout, row, bands)?;
    put_row_end(out, alloc, program, played, layout, row, bands - 1)?;
    let object = usize::from(row);
    let start = put_cells(out, alloc, program, played, layout, row, fates.of(object))?;
    let requests = journal_of(played, object).len();
    put_left(out, played, layout, row, requests.saturating_sub(start))
}
