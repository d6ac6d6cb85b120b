//! Rows of values in one list.

ghost use Rattle.std.specs.Prelude.{◌≡◌, ◌<◌, ◌≤◌, ◌+◌, ◌-◌, [], ◌∷◌, ◌++◌, IfOk, IsErr, drop, length, replicate, slice_index_or, slice_set, take};
ghost use Rattle.qs_objects.specs.audit.Rows.{join_rows};
ghost use Rattle.qs_objects.specs.Rows.{IsLast, rows_state};

use crate::memory::{Blank, touch};
use std::alloc::{AllocError, Global};
use std::marker::Model;

/// Rows of values, which lie one row after another in one list. Memory is taken in `new` alone; `room` says for how
/// many values in all.
pub struct Rows<T> {
    items: Vec<T>,
    starts: Vec<usize>,
    lengths: Vec<usize>,
    room: usize,
}

impl<T: Drop> Drop for Rows<T> {
    fn drop(self) {
        let Rows {
            items: _,
            starts: _,
            lengths: _,
            room: _,
        } = self;
    }
}

impl<T> Model for Rows<T> {
    ghost use Rattle.std.specs.Prelude.{length, vec_capacity};
    ghost use Rattle.qs_objects.specs.Rows.{RowsState, room_left, rows_of_lengths, rows_code, rows_state, FillList};

    ghost Value = { RowsState T };

    ghost coded = { rows_code T.code };

    ghost view = { λ r. rows_state (rows_of_lengths r.lengths.items r.items.items) (room_left r.room r.items.items) };

    ghost invariant = { λ r. FillList r.starts.items r.lengths.items (length r.items.items) (room_left r.room r.items.items) (vec_capacity r.items) };
}

// So many values of a list, from a place on.
fn row_slice<T>(items: &[T], start: usize, count: usize) -> &[T]
    requires within { start + count ≤ length items.now }
    ensures value { result.now ≡ take count (drop start items.now) }
{
    &items[start..start + count]
}

// So many zeros; `vec!` does not say when its error comes.
fn zeros(alloc: Global, count: usize) -> Result<Vec<usize>, AllocError>
    ensures value { IfOk result (λ v. v.items ≡ replicate count 0) }
    ensures memory { IsErr result → 0 < count }
{
    let mut zeros = Vec::with_capacity(alloc, count)?;
    zeros.resize(count, 0)?;
    Ok(zeros)
}

impl<T> Rows<T> {
    /// So many empty rows, with room for so many values together. An error says that this memory was refused: it comes
    /// only where there is a row or room.
    pub fn new(alloc: Global, rows: usize, room: usize) -> Result<Rows<T>, AllocError>
        ensures fresh { IfOk result (λ r. r ≡ rows_state (replicate rows []) room) }
        ensures memory { IsErr result → 0 < rows + room }
    {
        let starts = zeros(alloc, rows)?;
        let lengths = zeros(alloc, rows)?;
        let items = Vec::with_capacity(alloc, room)?;
        Ok(Rows {
            items,
            starts,
            lengths,
            room,
        })
    }

    /// How many rows there are.
    pub fn len(&self) -> usize
        ensures value { result ≡ length self.now.rows }
    {
        self.lengths.len()
    }

    /// A row by its number.
    pub fn of(&self, row: usize) -> &[T]
        requires row { row < length self.now.rows }
        ensures value { result.now ≡ slice_index_or self.now.rows row [] }
    {
        row_slice(&self.items, self.starts[row], self.lengths[row])
    }

    /// All rows, one after another.
    pub fn joined(&self) -> &[T]
        ensures value { result.now ≡ join_rows self.now.rows }
    {
        &self.items
    }

    /// Adds a value at the end of a row that no later row has values after.
    pub fn push(&mut self, row: usize, item: T)
        requires row { row < length self.old.rows }
        requires last { IsLast self.old.rows row }
        requires room { 0 < self.old.room }
        ensures pushed { self.new ≡ rows_state (slice_set self.old.rows row (slice_index_or self.old.rows row [] ++ item ∷ [])) (self.old.room - 1) }
    {
        let count = self.lengths[row];
        self.starts[row] = self.items.len() - count;
        self.items.push_reserved(item);
        self.lengths[row] = count + 1;
    }
}

impl<T: Blank> Rows<T> {
    /// Writes to all memory that was taken, where there is no value yet, so that no `push` has to wait until the system
    /// finds it. The rows are as they were.
    pub(crate) fn touch(&mut self)
        ensures same { self.new ≡ self.old }
    {
        if self.items.is_empty() {
            touch(&mut self.items, self.room);
        }
    }
}

impl<T: Copy> Rows<T> {
    /// Puts a value in the place of another.
    pub fn set(&mut self, row: usize, place: usize, item: T)
        requires row { row < length self.old.rows }
        requires place { place < length (slice_index_or self.old.rows row []) }
        ensures value { self.new ≡ rows_state (slice_set self.old.rows row (slice_set (slice_index_or self.old.rows row []) place item)) self.old.room }
    {
        let start = self.starts[row];
        self.items[start + place] = item;
    }
}
