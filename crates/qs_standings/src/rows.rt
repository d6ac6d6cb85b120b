//! Configurations as rows of numbers.

ghost use Rattle.std.specs.Prelude.{◌≡◌, ◌∷◌, ◌++◌, ◌<◌, ◌≤◌, ◌+◌, IfOk, OnOk, [], length, flat_map, slice_index_or, take};
ghost use Rattle.qs_standings.specs.Rows.{AreStarts, named_before, overwritten};
ghost use Rattle.qs_standings.specs.Standings.{counted, named_from, padded, state_row};
ghost use Rattle.qs_program.specs.audit.Limits.{most_clients, most_variables};
ghost use Rattle.qs_program.specs.audit.Program.{client_at};
ghost use Rattle.qs_meaning.specs.audit.Serial.{zeros};
ghost use Rattle.qs_objects.specs.audit.Objects.{values_of};

use crate::variables::Variables;
use indexmap::Equivalent;
use qs_objects::{Kind, Object};
use qs_program::{Locals, MOST_CLIENTS, Program};
use smallvec::SmallVec;
use std::alloc::{AllocError, Global};
use std::hash::{Hash, Hasher};

// So many numbers of a row are kept in place: those of two accounts, say.
const IN_PLACE: usize = 6;

/// A configuration as a row of a table: how many blocks each client has begun, a byte each, and other numbers. A short
/// one takes no memory of its own, so that where it is compared in a table nothing else is looked at.
#[derive(Drop, PartialEq, Eq)]
pub struct Row {
    pub(crate) begun: [u8; MOST_CLIENTS],
    numbers: SmallVec<i64, IN_PLACE>,
}

/// A row that is written again and again, to be looked up in a table.
#[derive(Drop, PartialEq, Eq)]
pub struct Draft {
    pub(crate) begun: [u8; MOST_CLIENTS],
    pub(crate) numbers: Vec<i64>,
}

/// Equal rows have the same hash. The counts are fed at once.
impl Hash for Row {
    ghost use Rattle.std.specs.Hash as fed;
    ghost use Rattle.std.specs.Prelude.{◌∷◌};
    ghost use Rattle.std.proofs.Common.{rules};
    ghost use Rattle.std.specs.Cmp.Rules.{hashing};

    ghost hash_input = { λ r. r.begun ∷ fed.slice fed.i64 r.numbers.items };

    ghost respects_eq = { Prim.search (hashing, rules) };

    fn hash<H: Hasher>(&self, state: &mut H) {
        state.write(&self.begun);
        self.numbers.hash(state);
    }
}

/// A draft has the hash of the row that it is written for.
impl Hash for Draft {
    ghost use Rattle.std.specs.Hash as fed;
    ghost use Rattle.std.specs.Prelude.{◌∷◌};
    ghost use Rattle.std.proofs.Common.{rules};
    ghost use Rattle.std.specs.Cmp.Rules.{hashing};

    ghost hash_input = { λ r. r.begun ∷ fed.slice fed.i64 r.numbers.items };

    ghost respects_eq = { Prim.search (hashing, rules) };

    fn hash<H: Hasher>(&self, state: &mut H) {
        state.write(&self.begun);
        self.numbers.as_slice().hash(state);
    }
}

/// A draft is equivalent to the row that it is written for, and to no other.
impl Equivalent<Row> for &Draft {
    ghost use Rattle.qs_standings.specs.Rows.{drafted, equal, shape_of};
    ghost use Rattle.std.proofs.Common.{rules};
    ghost use Rattle.std.specs.Cmp.Rules.{hashing};

    ghost equivalent = { λ q r. equal (drafted q.now) (shape_of r) };

    ghost respects_hash = { Prim.search (hashing, rules) };

    ghost respects_eq = { Prim.search (hashing, rules) };

    fn equivalent(&self, row: &Row) -> bool {
        self.begun == row.begun && self.numbers.as_slice() == row.numbers.as_slice()
    }
}

impl Draft {
    ghost use Rattle.qs_standings.specs.Rows.{drafted, shape_of};

    /// A draft to write into, which takes no memory.
    pub fn new(alloc: Global) -> Draft {
        Draft {
            begun: [0; MOST_CLIENTS],
            numbers: Vec::new(alloc),
        }
    }

    /// The row itself. An error says that memory was refused.
    pub fn row(&self, alloc: Global) -> Result<Row, AllocError>
        ensures same { IfOk result (λ row. shape_of row ≡ drafted self.now) }
    {
        Ok(Row {
            begun: self.begun,
            numbers: SmallVec::from_slice(alloc, self.numbers.as_slice())?,
        })
    }
}

// A count for each client that there may be.
pub(crate) fn padded(begun: &[u8]) -> [u8; MOST_CLIENTS]
    requires few { length begun.now ≤ most_clients }
    ensures padded { result ≡ padded begun.now }
{
    let mut all = [0; MOST_CLIENTS];
    all[..begun.len()].copy_from_slice(begun);
    all
}

// Adds the variables that the text names.
pub(crate) fn add_locals(
    row: &mut Vec<i64>,
    program: &Program,
    locals: &Variables,
) -> Result<(), AllocError>
    requires each { length locals.now ≡ length program.now.clients }
    ensures added { OnOk result (row.new.items ≡ row.old.items ++ named_from program.now 0 locals.now) }
{
    program.keeps_sound();
    for client in 0..program.clients() as u8 {
        add_named(
            row,
            locals,
            usize::from(client),
            program.variables(client).len(),
        )?;
    }
    Ok(())
}

fn add_named(
    row: &mut Vec<i64>,
    locals: &Variables,
    client: usize,
    count: usize,
) -> Result<(), AllocError>
    requires client { client < length locals.now }
    requires count { count ≤ most_variables }
    ensures added { OnOk result (row.new.items ≡ row.old.items ++ take count (slice_index_or locals.now client zeros)) }
{
    if count > 0 {
        row.extend_from_slice(&locals.at(client)[..count])?;
    }
    Ok(())
}

// Where a client's variables begin among the numbers of a row; past the last client, where the objects begin.
fn named_at(program: &Program, client: usize) -> usize
    requires { client ≤ length program.now.clients }
    ensures place { result ≡ named_before program.now 0 client }
{
    program.keeps_sound();
    let mut place = 0;
    for before in 0..client as u8 {
        place += program.variables(before).len();
    }
    place
}

/// For each client where its variables begin among the numbers of a row, and last where the objects begin.
pub fn row_starts(alloc: Global, program: &Program) -> Result<Vec<usize>, AllocError>
    ensures starts { IfOk result (λ starts. AreStarts program.now starts.items) }
{
    program.keeps_sound();
    let mut starts = Vec::with_capacity(alloc, program.clients() + 1)?;
    for client in 0..program.clients() + 1 {
        starts.push(named_at(program, client))?;
    }
    Ok(starts)
}

// Puts numbers in the place of those from a place on.
pub(crate) fn put_numbers(row: &mut [i64], first: usize, numbers: &[i64])
    requires { first + length numbers.now ≤ length row.old }
    ensures put { row.new ≡ overwritten row.old first numbers.now }
    ensures long { length row.new ≡ length row.old }
{
    for place in 0..numbers.len() {
        row[first + place] = numbers[place];
    }
}

// Puts the first numbers of a row in the place of those that are there.
fn put_front(base: &[i64], count: usize, row: &mut Vec<i64>) -> Result<(), AllocError>
    requires { count ≤ length base.now }
    ensures put { OnOk result (row.new.items ≡ take count base.now) }
{
    row.clear();
    if count > 0 {
        row.extend_from_slice(&base[..count])?;
    }
    Ok(())
}

// Writes the numbers of a row up to its objects from those of another row: the variables of one client are others.
pub(crate) fn put_stem(
    program: &Program,
    starts: &[usize],
    base: &[i64],
    client: u8,
    values: &Locals,
    row: &mut Vec<i64>,
) -> Result<(), AllocError>
    requires client { client < length program.now.clients }
    requires starts { AreStarts program.now starts.now }
    requires base { named_before program.now 0 (length program.now.clients) ≤ length base.now }
    ensures put { OnOk result (row.new.items ≡ overwritten (take (named_before program.now 0 (length program.now.clients)) base.now)
        (named_before program.now 0 client) (take (length (client_at program.now client).variables) values.now)) }
{
    program.keeps_sound();
    put_front(base, starts[program.clients()], row)?;
    put_numbers(
        row.as_mut_slice(),
        starts[usize::from(client)],
        &values[..program.variables(client).len()],
    );
    Ok(())
}

// Adds objects.
pub(crate) fn add_objects(row: &mut Vec<i64>, objects: &[Object]) -> Result<(), AllocError>
    ensures added { OnOk result (row.new.items ≡ row.old.items ++ flat_map state_row objects.now) }
{
    for object in objects {
        add_object(row, object)?;
    }
    Ok(())
}

fn add_object(row: &mut Vec<i64>, object: &Object) -> Result<(), AllocError>
    ensures added { OnOk result (row.new.items ≡ row.old.items ++ state_row object.now) }
{
    row.push(object.refused())?;
    match object.kind() {
        Kind::Account { balance } => {
            row.push(0)?;
            row.push(balance)?;
        }
        Kind::Buffer { capacity } => {
            row.push(1)?;
            row.push(capacity)?;
            add_object_values(row, object)?;
        }
        Kind::Grid { rows, columns } => {
            row.push(2)?;
            row.push(rows)?;
            row.push(columns)?;
            add_object_values(row, object)?;
        }
    }
    Ok(())
}

fn add_number(row: &mut Vec<i64>, number: i64) -> Result<(), AllocError>
    ensures added { OnOk result (row.new.items ≡ row.old.items ++ number ∷ []) }
{
    row.push(number)?;
    Ok(())
}

fn add_object_values(row: &mut Vec<i64>, object: &Object) -> Result<(), AllocError>
    ensures added { OnOk result (row.new.items ≡ row.old.items ++ counted (values_of object.now.content)) }
{
    row.push(object.len() as i64)?;
    for place in 0..object.len() {
        let Some(value) = object.value(place) else {
            unreachable!();
        };
        add_number(row, value)?;
    }
    Ok(())
}
