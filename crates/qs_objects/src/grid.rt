// Grids: rows of cells, kept one after another in one list.

ghost use Rattle.std.specs.Prelude.{◌≡◌, ◌+◌, ◌*◌, ◌<◌, ◌≤◌, [], ◌∷◌, length, not, replicate, vec_len, IfSome, Some, None, if◌then◌else◌, pos, ◌+ℤ◌};
ghost use Rattle.qs_objects.specs.Objects.{IsFull, cut_rows, grid_state, place as cell_place};
ghost use Rattle.qs_objects.specs.audit.Act.{grid_act, outside, below, cell_at, row_at, with_cell, exact_sum, clamp_to_word};
ghost use Rattle.qs_objects.specs.audit.Limits.{most_lines};

use crate::Op;
use crate::object::count_refusal;

// Serves a request to a grid.
#[inline(never)]
#[tactic(auto, using(crate::proofs::GridRows::cut_length))]
pub(crate) fn apply(
    rows: usize,
    columns: usize,
    cells: &mut Vec<i64>,
    refused: &mut i64,
    op: Op,
    args: &[i64],
) -> Option<i64>
    requires kept { IsFull rows columns cells.old }
    ensures keeps { IsFull rows columns cells.new }
    ensures acts { (grid_state rows columns cells.new.items refused.new, result)
        ≡ grid_act (grid_state rows columns cells.old.items refused.old) columns (cut_rows rows columns cells.old.items) op args.now }
{
    match (op, args) {
        (Op::SetCell, [row, column, n]) => {
            if !set_cell(rows, columns, cells, *row, *column, *n) {
                count_refusal(refused);
            }
            None
        }
        (Op::AddCell, [row, column, n]) => {
            add_cell(rows, columns, cells, refused, *row, *column, *n);
            None
        }
        (Op::Fill, [n]) => {
            fill(rows, columns, cells, *n);
            None
        }
        (Op::GetCell, [row, column]) => Some(cell(rows, columns, cells.as_slice(), *row, *column)),
        (Op::RowSum, [row]) => Some(row_sum(rows, columns, cells.as_slice(), *row)),
        (Op::Refused, []) => Some(*refused),
        _ => None,
    }
}

// Puts a number into a cell; false where there is no such cell.
#[tactic(auto, using(crate::proofs::GridRows::cell_set))]
fn set_cell(
    rows: usize,
    columns: usize,
    cells: &mut Vec<i64>,
    row: i64,
    column: i64,
    n: i64,
) -> bool
    requires kept { IsFull rows columns cells.old }
    ensures keeps { vec_len cells.new ≡ vec_len cells.old }
    ensures inside { result ≡ not (outside rows columns row column) }
    ensures cells { cut_rows rows columns cells.new.items
        ≡ (if outside rows columns row column then cut_rows rows columns cells.old.items
        else with_cell (cut_rows rows columns cells.old.items) row column n) }
{
    match place(rows, columns, row, column) {
        Some(place) => {
            cells[place] = n;
            true
        }
        None => false,
    }
}

// Adds a number to a cell, and clamps the exact sum; where there is no such cell, it is counted as refused.
#[tactic(auto, using(crate::proofs::GridRows::cut_length))]
fn add_cell(
    rows: usize,
    columns: usize,
    cells: &mut Vec<i64>,
    refused: &mut i64,
    row: i64,
    column: i64,
    n: i64,
)
    requires kept { IsFull rows columns cells.old }
    ensures keeps { vec_len cells.new ≡ vec_len cells.old }
    ensures acts { (grid_state rows columns cells.new.items refused.new, None)
        ≡ grid_act (grid_state rows columns cells.old.items refused.old) columns (cut_rows rows columns cells.old.items)
        Op.AddCell (row ∷ column ∷ n ∷ []) }
{
    let Some(place) = place(rows, columns, row, column) else {
        count_refusal(refused);
        return;
    };
    add(&mut cells[place], n);
}

// Puts a number into each cell.
#[tactic(auto, using(crate::proofs::GridRows::cut_filled))]
fn fill(rows: usize, columns: usize, cells: &mut Vec<i64>, n: i64)
    requires kept { IsFull rows columns cells.old }
    ensures keeps { vec_len cells.new ≡ vec_len cells.old }
    ensures cells { cut_rows rows columns cells.new.items ≡ replicate rows (replicate columns n) }
{
    fill_all(cells, n);
}

// Puts a number into each place of a list.
fn fill_all(cells: &mut Vec<i64>, n: i64)
    ensures cells { cells.new.items ≡ replicate (vec_len cells.old) n }
{
    cells.as_mut_slice().fill(n);
}

// The number in a cell, or 0 where there is no such cell; the cells are those of the whole grid.
#[tactic(auto, using(crate::proofs::GridRows::cell_get))]
fn cell(rows: usize, columns: usize, cells: &[i64], row: i64, column: i64) -> i64
    requires small { (rows ≤ most_lines) × (columns ≤ most_lines) }
    requires full { length cells.now ≡ rows * columns }
    ensures value { result ≡ (if outside rows columns row column then pos 0 else cell_at (cut_rows rows columns cells.now) row column) }
{
    match place(rows, columns, row, column) {
        Some(place) => cells[place],
        None => 0,
    }
}

// The place of a cell that is inside.
fn place(rows: usize, columns: usize, row: i64, column: i64) -> Option<usize>
    requires small { (rows ≤ most_lines) × (columns ≤ most_lines) }
    ensures place { result
        ≡ (if outside rows columns row column then None else Some (cell_place columns row column)) }
    ensures within { IfSome result (λ place. place < rows * columns) }
{
    if row < 0 || column < 0 || row as usize >= rows || column as usize >= columns {
        return None;
    }
    Some(row as usize * columns + column as usize)
}

// The sum of a row that is inside; the cells are those of the whole grid.
#[tactic(auto, using(crate::proofs::GridRows::row_get))]
fn row_sum(rows: usize, columns: usize, cells: &[i64], row: i64) -> i64
    requires small { (rows ≤ most_lines) × (columns ≤ most_lines) }
    requires full { length cells.now ≡ rows * columns }
    ensures sum { result
        ≡ (if below row rows then clamp_to_word (exact_sum (row_at (cut_rows rows columns cells.now) row)) else pos 0) }
{
    if row < 0 || row as usize >= rows {
        return 0;
    }
    let start = row as usize * columns;
    clamped_sum(&cells[start..start + columns])
}

// The exact sum, clamped once. Sixteen values cannot leave the range of 128 bits.
#[tactic(auto, using(crate::proofs::Sums::exact_sum_drop))]
fn clamped_sum(values: &[i64]) -> i64
    requires few { length values.now ≤ most_lines }
    ensures sum { result ≡ clamp_to_word (exact_sum values.now) }
{
    let mut sum: i128 = 0;
    for value in values {
        sum += i128::from(*value);
    }
    sum.clamp(i128::from(i64::MIN), i128::from(i64::MAX)) as i64
}

// Adds, and clamps the exact sum.
fn add(cell: &mut i64, n: i64)
    ensures sum { cell.new ≡ clamp_to_word (cell.old +ℤ n) }
{
    *cell = cell.saturating_add(n);
}
