// The column of a ticket.

ghost use Rattle.std.specs.Prelude.{◌≡◌, ◌<◌, OnOk, length};
ghost use Rattle.qs_svg.specs.audit.Shapes.{shapes_up_to};
ghost use Rattle.qs_svg.specs.Shapes.{Draws};
ghost use Rattle.qs_text.specs.Texts.{Puts};
ghost use Rattle.qs_svg.specs.audit.Stretches.{columns_of as columns_in};
ghost use Rattle.qs_svg.specs.audit.Places.{first_row as first_of, last_row as last_of, reach};
ghost use Rattle.qs_svg.specs.audit.Blocks.{block_line, column as column_shapes, column_names, columns_left};

use crate::facts::{MOST_COLUMNS, columns_of, has_ended, ticket_at};
use crate::layout::{Layout, band_edge, column_edge, height_of_row, row_edge};
use crate::pieces::{put_counted, put_name, put_path, put_things};
use crate::words::put_block_words;
use qs_objects::Ticket;
use qs_played::Played;
use qs_program::Program;
use qs_text::{client_name, put_count, put_word};
use std::alloc::AllocError;

// The first row of some objects.
fn first_row(objects: &[u8]) -> u8
    ensures row { result ≡ first_of objects.now }
{
    let mut first = 7;
    for object in objects {
        first = first.min(*object);
    }
    first
}

// The last row of some objects.
fn last_row(objects: &[u8]) -> u8
    ensures row { result ≡ last_of objects.now }
{
    let mut last = 0;
    for object in objects {
        last = last.max(*object);
    }
    last
}

// How far it is from the frame in one row to the end of that in another.
fn height(layout: Layout, first: u8, last: u8) -> u64
    ensures height { result ≡ reach layout first last }
{
    let row = u64::from(height_of_row(layout));
    u64::from(last.saturating_sub(first)) * row + (row - 12)
}

// The line of a block, beside all rows of its objects.
fn put_line(
    out: &mut Vec<u8>,
    program: &Program,
    layout: Layout,
    column: u8,
    ticket: Ticket,
    ended: bool,
    rows: (u8, u8),
) -> Result<(), AllocError>
    ensures ok { OnOk result (Puts (block_line program.now ticket ended layout column rows.0 rows.1) out.old.items out.new.items) }
{
    let (first, last) = rows;
    let x = column_edge(column) + 8;
    let y = row_edge(layout, column / 7, first) + 6;
    put_path(out, b"block", ticket.client, x, y)?;
    put_count(out, b"v", height(layout, first, last))?;
    put_word(out, b"'><title>")?;
    put_block_words(out, program, ticket, ended)?;
    put_word(out, b"</title></path>\n")
}

// Whose a ticket is, and the number of its block.
fn put_names(
    out: &mut Vec<u8>,
    program: &Program,
    layout: Layout,
    column: u8,
    ticket: Ticket,
) -> Result<(), AllocError>
    ensures ok { OnOk result (Draws (column_names program.now layout column ticket) out.old.items out.new.items) }
{
    let x = column_edge(column) + 8;
    let y = band_edge(layout, column / 7);
    put_name(out, x, y + 14, client_name(program, ticket.client))?;
    put_counted(out, x, y + 30, b"block ", usize::from(ticket.index), b"")
}

// The column of the ticket at a place of the order.
fn put_column(
    out: &mut Vec<u8>,
    program: &Program,
    played: &Played,
    layout: Layout,
    column: u8,
) -> Result<(), AllocError>
    requires place { column < length played.now.order }
    ensures ok { OnOk result (Draws (column_shapes program.now played.now layout column) out.old.items out.new.items) }
{
    let place = usize::from(column);
    let ticket = ticket_at(played, place);
    let ended = has_ended(played, place);
    let objects = played.sync_objects(place);
    let rows = (first_row(objects), last_row(objects));
    put_names(out, program, layout, column, ticket)?;
    put_line(out, program, layout, column, ticket, ended, rows)
}

/// Puts all columns.
pub(crate) fn put_columns(
    out: &mut Vec<u8>,
    program: &Program,
    played: &Played,
    layout: Layout,
) -> Result<(), AllocError>
    ensures ok { OnOk result (Draws (shapes_up_to (columns_in played.now) (column_shapes program.now played.now layout)) out.old.items out.new.items) }
{
    for column in 0..columns_of(played) as u8 {
        put_column(out, program, played, layout, column)?;
    }
    Ok(())
}

/// Puts how many blocks more there are.
pub(crate) fn put_columns_left(
    out: &mut Vec<u8>,
    played: &Played,
    layout: Layout,
) -> Result<(), AllocError>
    ensures ok { OnOk result (Draws (columns_left played.now layout) out.old.items out.new.items) }
{
    let count = played.order().len();
    if MOST_COLUMNS < count {
        let x = column_edge(64) + 8;
        let y = band_edge(layout, 9) + 14;
        put_things(out, x, y, count - MOST_COLUMNS, b" more block")
    } else {
        Ok(())
    }
}
