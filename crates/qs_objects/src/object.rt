// Objects: accounts, buffers and grids.

ghost use Rattle.std.specs.Prelude.{◌≡◌, ◌↔◌, ◌≤◌, ◌+◌, ◌++◌, length, Some, None, IfOk, IsErr, IsErrOf, IsSome, IsTrue, slice_get, pos, ◌+ℤ◌, ℤ};
ghost use Rattle.std.specs.VecDeque.{deque_capacity, deque_len};
ghost use Rattle.qs_objects.specs.audit.Objects.{starts, kind_of, values_of};
ghost use Rattle.qs_objects.specs.Objects.{IsInRange, KeepsContent, has_memory, needs_memory, state_of};
ghost use Rattle.qs_objects.specs.audit.Act.{act, clamp_to_word};
ghost use Rattle.qs_objects.specs.audit.Limits.{most_values};

use crate::{Request, account, buffer, grid};
use std::alloc::{AllocError, Global};
use std::collections::VecDeque;
use std::marker::Model;
use thiserror::Error;

/// A kind of object, with its numbers: a balance from 0 to 10^15, a capacity from 1 to 1024, or rows
/// and columns from 1 to 16.
#[derive(Clone, Copy, Debug, PartialEq, Eq)]
pub enum Kind {
    Account { balance: i64 },
    Buffer { capacity: i64 },
    Grid { rows: i64, columns: i64 },
}

/// Why an object was not made.
#[derive(Clone, Copy, Debug, PartialEq, Eq, Error)]
pub enum ObjectFault {
    /// A number of the kind is out of its range.
    #[error("1 Range")]
    Range,
    /// An allocation failed.
    #[error("2 Memory")]
    Memory,
}

#[derive(Drop)]
enum Content {
    Account {
        balance: i64,
    },
    Buffer {
        values: VecDeque<i64>,
    },
    Grid {
        rows: usize,
        columns: usize,
        cells: Vec<i64>,
    },
}

// Cells once more.
fn copied_cells(alloc: Global, cells: &[i64]) -> Result<Vec<i64>, AllocError>
    ensures same { IfOk result (λ copy. copy.items ≡ cells.now) }
{
    let mut copy = Vec::with_capacity(alloc, cells.len())?;
    copy.extend_from_slice(cells)?;
    Ok(copy)
}

// The value at a place; None past the last.
fn value_at(values: &[i64], place: usize) -> Option<i64>
    ensures value { result ≡ slice_get values.now place }
{
    values.get(place).copied()
}

// Adds values at the end of a queue that has room for them.
fn append(queue: &mut VecDeque<i64>, values: &[i64])
    requires room { deque_len queue.old + length values.now ≤ deque_capacity queue.old }
    ensures items { queue.new.items ≡ queue.old.items ++ values.now }
    ensures capacity { deque_capacity queue.new ≡ deque_capacity queue.old }
{
    for value in values {
        queue.push_back_reserved(*value);
    }
}

// A buffer's values once more, in a queue of the same capacity.
fn copied_queue(alloc: Global, values: &VecDeque<i64>) -> Result<VecDeque<i64>, AllocError>
    ensures same { IfOk result (λ copy. copy.items ≡ values.now.items) }
    ensures capacity { IfOk result (λ copy. deque_capacity copy ≡ deque_capacity values.now) }
{
    let mut copy = VecDeque::with_capacity(alloc, values.capacity())?;
    let (front, back) = values.as_slices();
    append(&mut copy, front);
    append(&mut copy, back);
    Ok(copy)
}

impl Content {
    fn copied(&self, alloc: Global) -> Result<Content, AllocError>
        requires kept { KeepsContent self.now }
        ensures same { IfOk result (λ content. (refused : ℤ) → state_of content refused ≡ state_of self.now refused) }
        ensures kept { IfOk result KeepsContent }
        ensures memory { IsErr result → (refused : ℤ) → IsTrue (has_memory (state_of self.now refused).content) }
    {
        match self {
            Content::Account { balance } => Ok(Content::Account { balance: *balance }),
            Content::Buffer { values } => Ok(Content::Buffer {
                values: copied_queue(alloc, values)?,
            }),
            Content::Grid {
                rows,
                columns,
                cells,
            } => Ok(Content::Grid {
                rows: *rows,
                columns: *columns,
                cells: copied_cells(alloc, cells.as_slice())?,
            }),
        }
    }
}

/// An object: what it holds, and how many commands it refused.
pub struct Object {
    content: Content,
    refused: i64,
}

impl Drop for Object {
    fn drop(self) {
        let Object {
            content: _,
            refused: _,
        } = self;
    }
}

impl Model for Object {
    ghost use Rattle.qs_objects.specs.audit.Act.{State};

    ghost Value = { State };

    ghost use Rattle.qs_objects.specs.Objects.{state_of, KeepsContent};

    ghost view = { λ o. state_of o.content o.refused };

    ghost invariant = { λ o. KeepsContent o.content };
}

/// The greatest balance of an account.
pub const GREATEST_BALANCE: i64 = 1_000_000_000_000_000;

/// The largest capacity of a buffer.
pub const MOST_VALUES: i64 = 1024;

/// Rows, and columns, of the largest grid.
pub const MOST_LINES: i64 = 16;

impl Object {
    /// A new object, with all the memory that it will need: no later call takes any. `Range` comes
    /// exactly where a number of the kind is out of range, before any allocation; `Memory` where an allocation
    /// failed, never at an account. After an error nothing is left.
    #[tactic(auto, using(crate::proofs::GridRows::cut_filled))]
    pub fn new(alloc: Global, kind: Kind) -> Result<Object, ObjectFault>
        ensures ok { IfOk result (λ object. starts kind ≡ Some object) }
        ensures range { IsErrOf result ObjectFault.Range ↔ (starts kind ≡ None) }
        ensures memory { IsErrOf result ObjectFault.Memory → IsTrue (needs_memory kind) }
    {
        let content = match kind {
            Kind::Account { balance } => {
                if balance < 0 || balance > GREATEST_BALANCE {
                    return Err(ObjectFault::Range);
                }
                Content::Account { balance }
            }
            Kind::Buffer { capacity } => {
                if capacity < 1 || capacity > MOST_VALUES {
                    return Err(ObjectFault::Range);
                }
                let values = VecDeque::with_capacity(alloc, capacity as usize).map_err(
                    |_| ObjectFault::Memory,
                )?;
                Content::Buffer { values }
            }
            Kind::Grid { rows, columns } => {
                if rows < 1 || rows > MOST_LINES || columns < 1 || columns > MOST_LINES {
                    return Err(ObjectFault::Range);
                }
                let rows = rows as usize;
                let columns = columns as usize;
                let cells = vec![in alloc; 0; rows * columns].map_err(|_| ObjectFault::Memory)?;
                Content::Grid {
                    rows,
                    columns,
                    cells,
                }
            }
        };
        Ok(Object {
            content,
            refused: 0,
        })
    }

    /// The same object once more, with memory of its own. An error says that this memory was refused, never at an
    /// account.
    pub fn copied(&self, alloc: Global) -> Result<Object, AllocError>
        ensures same { IfOk result (λ object. object ≡ self.now) }
        ensures memory { IsErr result → IsTrue (has_memory self.now.content) }
    {
        Ok(Object {
            content: self.content.copied(alloc)?,
            refused: self.refused,
        })
    }

    /// What it holds is in range: its balance, its number of values, its rows and columns. It does nothing.
    #[tactic(auto, using(crate::proofs::GridRows::cut_length, crate::proofs::GridRows::cut_even))]
    pub fn keeps_range(&self)
        ensures range { IsInRange self.now.content }
    {
        match &self.content {
            Content::Account { .. } => {}
            Content::Buffer { values } => {
                let _ = values.len();
            }
            Content::Grid { .. } => {}
        }
    }

    /// How many commands it refused, at most the greatest i64.
    pub fn refused(&self) -> i64
        ensures refused { result ≡ self.now.refused }
    {
        self.refused
    }

    /// How many values it has: an account's one is its balance, a grid's are its cells.
    /// At most 1024.
    #[tactic(auto, using(crate::proofs::GridRows::cut_joined))]
    pub fn len(&self) -> usize
        ensures count { result ≡ length (values_of self.now.content) }
        ensures at_most { result ≤ most_values }
    {
        match &self.content {
            Content::Account { .. } => 1,
            Content::Buffer { values } => values.len(),
            Content::Grid { cells, .. } => cells.len(),
        }
    }

    /// One of its values: a buffer's from the front, a grid's row by row; None exactly past the last.
    #[tactic(auto, using(crate::proofs::GridRows::cut_joined))]
    pub fn value(&self, i: usize) -> Option<i64>
        ensures value { result ≡ slice_get (values_of self.now.content) i }
    {
        match &self.content {
            Content::Account { balance } => (i == 0).then_some(*balance),
            Content::Buffer { values } => values.get(i).copied(),
            Content::Grid { cells, .. } => value_at(cells.as_slice(), i),
        }
    }

    /// Its kind, an account's with its balance now; its numbers are in range.
    #[tactic(auto, using(crate::proofs::GridRows::cut_length))]
    pub fn kind(&self) -> Kind
        ensures kind { result ≡ kind_of self.now.content }
        ensures in_range { IsSome (starts result) }
    {
        match &self.content {
            Content::Account { balance } => Kind::Account { balance: *balance },
            Content::Buffer { values } => Kind::Buffer {
                capacity: values.capacity() as i64,
            },
            Content::Grid { rows, columns, .. } => Kind::Grid {
                rows: *rows as i64,
                columns: *columns as i64,
            },
        }
    }

    /// Serves a request: a query answers, a command that can't be done is counted as refused. An
    /// operation of another kind, or with a wrong number of arguments, answers None and changes
    /// nothing. Takes no memory.
    #[inline(always)]
    pub fn apply(&mut self, request: &Request) -> Option<i64>
        ensures acts { (self.new, result) ≡ act self.old request.now.op request.now.args }
    {
        let op = request.op;
        let args = request.args.as_slice();
        let refused = &mut self.refused;
        match &mut self.content {
            Content::Account { balance } => account::apply(balance, refused, op, args),
            Content::Buffer { values } => buffer::apply(values, refused, op, args),
            Content::Grid {
                rows,
                columns,
                cells,
            } => grid::apply(*rows, *columns, cells, refused, op, args),
        }
    }
}

// One more refused command, up to the greatest count.
pub(crate) fn count_refusal(refused: &mut i64)
    ensures counts { refused.new ≡ clamp_to_word (refused.old +ℤ pos 1) }
{
    *refused = refused.saturating_add(1);
}
