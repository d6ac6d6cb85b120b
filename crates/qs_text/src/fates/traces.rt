// What became of the requests of a trace.

ghost use Rattle.std.specs.Prelude.{ℕ, ◌≡◌, ◌<◌, ◌==◌, if◌then◌else◌, IfOk, drop, length, slice_get};
ghost use Rattle.qs_text.specs.audit.fates.Fates.{trace_fates};
ghost use Rattle.qs_text.specs.fates.Fates.{all_fates};
ghost use Rattle.qs_text.specs.fates.Picked.{left_on, picked_from};

use crate::fates::fate::Fate;
use crate::fates::journals::{JournalFates, journal_at};
use qs_objects::{Entry, Ticket};
use qs_played::Played;
use qs_program::Program;
use std::alloc::{AllocError, Global};

// What became of a ticket's next request, from a place of a journal on; and the place after that request.
fn next_fate(
    journal: &[Entry],
    fates: &[Fate],
    ticket: Ticket,
    start: usize,
) -> (Option<Fate>, usize)
    ensures fate { result.0 ≡ slice_get (picked_from ticket journal.now fates.now start) 0 }
    ensures rest { picked_from ticket journal.now fates.now result.1 ≡ drop 1 (picked_from ticket journal.now fates.now start) }
{
    for place in start..journal.len() {
        if ticket == journal[place].ticket {
            return (fates.get(place).copied(), place + 1);
        }
    }
    (None, journal.len())
}

// What became of a ticket's next request on an object, from the object's place of a list of places on; its place moves
// past that request.
fn take_next(
    played: &Played,
    fates: &JournalFates,
    ticket: Ticket,
    object: u8,
    places: &mut Vec<usize>,
) -> Option<Fate>
    requires places { length places.old.items ≡ length fates.now }
    ensures fate { result ≡ slice_get (left_on played.now fates.now ticket places.old.items object) 0 }
    ensures rest { (h : ℕ) → left_on played.now fates.now ticket places.new.items h
        ≡ drop (if object == h then 1 else 0) (left_on played.now fates.now ticket places.old.items h) }
    ensures many { length places.new.items ≡ length places.old.items }
{
    let object = usize::from(object);
    if object >= fates.len() {
        return None;
    }
    let start = places[object];
    let (fate, next) = next_fate(journal_at(played, object), fates.of(object), ticket, start);
    places[object] = next;
    fate
}

/// What became of each request of the trace at a place of the order; None where the request's object has not run it
/// yet. An error says that memory was refused.
pub fn trace_fates(
    alloc: Global,
    program: &Program,
    played: &Played,
    fates: &JournalFates,
    place: usize,
) -> Result<Vec<Option<Fate>>, AllocError>
    requires place { place < length played.now.order }
    requires fates { fates.now ≡ all_fates program.now played.now }
    ensures fates { IfOk result (λ fates_so_far. fates_so_far.items ≡ trace_fates program.now played.now place) }
{
    let ticket = played.order()[place];
    let trace = played.trace(place);
    let mut places = vec![in alloc; 0; fates.len()]?;
    let mut fates_so_far = Vec::with_capacity(alloc, trace.len())?;
    for event in trace {
        let object = event.request.object;
        fates_so_far.push(take_next(played, fates, ticket, object, &mut places))?;
    }
    Ok(fates_so_far)
}
