// What became of the requests in the journals of a run.

ghost use Rattle.std.specs.Prelude.{◌≡◌, ◌<◌, IfOk, [], length, slice_index_or};
ghost use Rattle.qs_meaning.specs.audit.Serial.{declared_states};
ghost use Rattle.qs_played.specs.audit.Isolation.{journal_of};
ghost use Rattle.qs_text.specs.audit.fates.Fates.{fates_from, fates_of};
ghost use Rattle.qs_text.specs.fates.Fates.{all_fates};

use crate::fates::fate::Fate;
use crate::fates::requests::run_and_tell;
use qs_objects::{Entry, Object};
use qs_played::{Played, Sequence};
use qs_program::Program;
use std::alloc::{AllocError, Global};
use std::marker::Model;

/// For each object of a program, what became of the requests that it has run in a run, in the order of its journal.
pub struct JournalFates {
    rows: Vec<Sequence<Fate>>,
}

impl Drop for JournalFates {
    fn drop(self) {
        let JournalFates { rows: _ } = self;
    }
}

impl Model for JournalFates {
    ghost use Rattle.std.specs.Prelude.{List};
    ghost use Rattle.qs_text.specs.declared.fates.fate.Fate.{Fate};

    ghost Value = { List (List Fate) };

    ghost view = { λ f. f.rows.items };
}

impl JournalFates {
    /// How many objects there are.
    pub fn len(&self) -> usize
        ensures count { result ≡ length self.now }
    {
        self.rows.len()
    }

    /// What became of the requests that an object has run.
    pub fn of(&self, object: usize) -> &[Fate]
        requires object { object < length self.now }
        ensures fates { result.now ≡ slice_index_or self.now object [] }
    {
        let row = &self.rows[object];
        row.as_slice()
    }
}

// The journal of an object of a run; empty past the last.
pub(crate) fn journal_at(played: &Played, object: usize) -> &[Entry]
    ensures value { result.now ≡ journal_of played.now object }
{
    match played.journals().get(object) {
        Some(journal) => journal.as_slice(),
        None => &[],
    }
}

// What became of the requests of a journal, from a state on.
fn fates_in(alloc: Global, mut state: Object, journal: &[Entry]) -> Result<Vec<Fate>, AllocError>
    ensures fates { IfOk result (λ fates. fates.items ≡ fates_from state journal.now) }
{
    let mut fates = Vec::with_capacity(alloc, journal.len())?;
    for entry in journal {
        let (fate, _reply) = run_and_tell(&mut state, &entry.request);
        fates.push(fate)?;
    }
    Ok(fates)
}

// What became of the requests that an object has run.
fn object_fates(
    alloc: Global,
    program: &Program,
    played: &Played,
    object: u8,
) -> Result<Sequence<Fate>, AllocError>
    requires object { object < length program.now.objects }
    ensures fates { IfOk result (λ row. row ≡ fates_of program.now played.now object) }
{
    let state = program.declared_object(alloc, object)?;
    let fates = fates_in(alloc, state, journal_at(played, usize::from(object)))?;
    Ok(Sequence::from_vec(fates))
}

/// What became of all requests that the objects of a program have run: each object as it is declared runs its journal
/// once more. An error says that memory was refused.
pub fn journal_fates(
    alloc: Global,
    program: &Program,
    played: &Played,
) -> Result<JournalFates, AllocError>
    ensures fates { IfOk result (λ fates. fates ≡ all_fates program.now played.now) }
{
    program.keeps_sound();
    let mut rows = Vec::with_capacity(alloc, program.objects())?;
    for object in 0..program.objects() as u8 {
        rows.push(object_fates(alloc, program, played, object)?)?;
    }
    Ok(JournalFates { rows })
}
