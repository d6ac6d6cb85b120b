// How much has room in a picture, and where.

ghost use Rattle.std.specs.Prelude.{◌≡◌, ◌+◌, ◌^◌, ◌<◌, ◌≤◌};
ghost use Rattle.qs_program.specs.audit.Limits.{most_objects};
ghost use Rattle.qs_svg.specs.audit.Stretches.{most_columns, most_symbols as most_of, most_symbols_of_few};
ghost use Rattle.qs_svg.specs.audit.Places.{band_height, band_y, bands_of as bands_for, column_x, layout_of as layout_for, layout_with, row_height, row_y, symbol_x, symbol_y};

use crate::facts::{columns_of, longest};
use qs_played::Played;
use qs_program::Program;

/// How much has room in a picture.
#[derive(Clone, Copy)]
pub struct Layout {
    /// The rows of a band, one for each object.
    pub rows: u8,
    /// The lines of a stretch.
    pub lines: u8,
    /// The requests of a stretch that are drawn at most.
    pub most: u8,
}

/// Where a stretch stands: its column and its row.
#[derive(Clone, Copy)]
pub(crate) struct Spot {
    pub layout: Layout,
    pub column: u8,
    pub row: u8,
}

/// The left edge of a column.
pub(crate) fn column_edge(column: u8) -> u32
    ensures edge { result ≡ column_x column }
{
    200 + 196 * u32::from(column % 7)
}

/// How high a row is.
pub(crate) fn height_of_row(layout: Layout) -> u32
    ensures height { result ≡ row_height layout }
    ensures few { result < 2 ^ 13 }
{
    54 + 16 * u32::from(layout.lines)
}

/// How high a band is.
pub(crate) fn height_of_band(layout: Layout) -> u32
    ensures height { result ≡ band_height layout }
    ensures few { result < 2 ^ 21 }
{
    52 + u32::from(layout.rows) * height_of_row(layout)
}

/// The upper edge of a band.
pub(crate) fn band_edge(layout: Layout, band: u8) -> u32
    ensures edge { result ≡ band_y layout band }
    ensures few { result < 2 ^ 30 }
{
    104 + u32::from(band) * height_of_band(layout)
}

/// The upper edge of a row of a band.
pub(crate) fn row_edge(layout: Layout, band: u8, row: u8) -> u32
    ensures edge { result ≡ row_y layout band row }
    ensures few { result < 2000000000 }
{
    band_edge(layout, band) + 40 + u32::from(row) * height_of_row(layout)
}

/// The corner of the symbol on a line of a stretch.
pub(crate) fn symbol_left(spot: Spot) -> u32
    ensures left { result ≡ symbol_x spot.column }
    ensures few { result < 2 ^ 31 }
{
    column_edge(spot.column) + 16
}

pub(crate) fn symbol_top(spot: Spot, line: u8) -> u32
    ensures top { result ≡ symbol_y spot.layout spot.column spot.row line }
    ensures few { result < 2 ^ 31 }
{
    row_edge(spot.layout, spot.column / 7, spot.row) + 13 + 16 * u32::from(line)
}

/// How many bands there are.
pub(crate) fn bands_of(columns: usize) -> u8
    requires columns { columns ≤ most_columns + 1 }
    ensures bands { result ≡ bands_for columns }
{
    let bands = (columns + 6) / 7;
    bands.max(1) as u8
}

// So many requests of a stretch are drawn, in a picture of few cells and of many.
const MOST_SYMBOLS_OF_FEW: u8 = 12;

const MOST_SYMBOLS_OF_MANY: u8 = 4;

const MOST_FEW_CELLS: usize = 192;

// How many requests of a stretch are drawn.
fn most_symbols(columns: usize, rows: usize) -> u8
    requires columns { columns ≤ most_columns }
    requires rows { rows ≤ most_objects }
    ensures most { result ≡ most_of columns rows }
    ensures few { result ≤ most_symbols_of_few }
{
    if columns * rows <= MOST_FEW_CELLS {
        MOST_SYMBOLS_OF_FEW
    } else {
        MOST_SYMBOLS_OF_MANY
    }
}

// A layout for so many objects, and stretches of so many requests.
fn room_for(rows: usize, most: u8, requests: usize) -> Layout
    requires rows { rows ≤ most_objects }
    requires most { most ≤ most_symbols_of_few }
    ensures layout { result ≡ layout_with rows most requests }
{
    Layout {
        rows: rows as u8,
        lines: requests.min(usize::from(most) + 1).max(1) as u8,
        most,
    }
}

/// How much has room in the picture of a run.
pub(crate) fn layout_of(program: &Program, played: &Played) -> Layout
    ensures layout { result ≡ layout_for program.now played.now }
{
    program.keeps_sound();
    let rows = program.objects();
    let most = most_symbols(columns_of(played), rows);
    room_for(rows, most, longest(played, rows))
}
