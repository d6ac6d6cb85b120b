//! The states in which blocks found objects.

ghost use Rattle.std.specs.Prelude.{◌≡◌, ◌<◌, IfOk, length, ℕ};
ghost use Rattle.std.specs.Bool.{Decides};
ghost use Rattle.qs_objects.specs.audit.Objects.{values_of};
ghost use Rattle.qs_meaning.specs.audit.Serial.{declared_states};
ghost use Rattle.qs_played.specs.audit.Isolation.{journal_of, ticket_at};
ghost use Rattle.qs_played.specs.twin.Twins.{IsReserved, IsStart, StartsAlike};

use crate::twin::runs::{Reservation, ticket};
use crate::twin::texts::is_same_object;
use qs_objects::{Entry, Object, Ticket};
use std::alloc::{AllocError, Global};

// The state of an object before a ticket's first entry in its journal; None where it has none.
fn state_before(mut state: Object, journal: &[Entry], ticket: Ticket) -> Option<Object>
    ensures start { IsStart state ticket journal.now result }
{
    for entry in journal {
        if entry.ticket == ticket {
            return Some(state);
        }
        let _reply = state.apply(&entry.request);
    }
    None
}

// The state in which a reservation found an object; None where it has no entry on it.
fn start(alloc: Global, run: &Reservation<'_>, object: u8) -> Result<Option<Object>, AllocError>
    requires run { IsReserved run.now.program.now run.now.played.now run.now.place }
    requires object { object < length run.now.program.now.objects }
    ensures start { IfOk result (IsStart (declared_states run.now.program.now object) (ticket_at run.now.played.now run.now.place)
        (journal_of run.now.played.now object)) }
{
    let ticket = ticket(run);
    let journal = &run.played.journals()[usize::from(object)];
    let state = run.program.declared_object(alloc, object)?;
    Ok(state_before(state, journal.as_slice(), ticket))
}

fn are_same_values(here: &Object, there: &Object) -> bool
    ensures same { Decides result (values_of here.now.content ≡ values_of there.now.content) }
{
    if here.len() != there.len() {
        return false;
    }
    for place in 0..here.len() {
        if here.value(place) != there.value(place) {
            return false;
        }
    }
    true
}

#[tactic(auto, using(qs_objects::proofs::GridRows::same_state))]
fn is_same_state(here: &Object, there: &Object) -> bool
    ensures same { Decides result (here.now ≡ there.now) }
{
    here.keeps_range();
    there.keeps_range();
    here.kind() == there.kind() && here.refused() == there.refused() && are_same_values(here, there)
}

// Whether two objects, if they have one name and both blocks have an entry on them, were found in the same state.
fn is_found_alike(
    alloc: Global,
    here: &Reservation<'_>,
    object: u8,
    there: &Reservation<'_>,
    other: u8,
) -> Result<bool, AllocError>
    requires here { IsReserved here.now.program.now here.now.played.now here.now.place }
    requires there { IsReserved there.now.program.now there.now.played.now there.now.place }
    requires object { object < length here.now.program.now.objects }
    requires other { other < length there.now.program.now.objects }
    ensures alike { IfOk result (λ alike. Decides alike (StartsAlike here.now.program.now here.now.played.now here.now.place
        there.now.program.now there.now.played.now there.now.place object other)) }
{
    if !is_same_object(here.program, there.program, object, other) {
        return Ok(true);
    }
    let Some(one) = start(alloc, here, object)? else {
        return Ok(true);
    };
    let Some(two) = start(alloc, there, other)? else {
        return Ok(true);
    };
    Ok(is_same_state(&one, &two))
}

// Whether one object begins in the state of each object of the other program that stands for it.
fn is_alike_to_each(
    alloc: Global,
    here: &Reservation<'_>,
    object: u8,
    there: &Reservation<'_>,
) -> Result<bool, AllocError>
    requires here { IsReserved here.now.program.now here.now.played.now here.now.place }
    requires there { IsReserved there.now.program.now there.now.played.now there.now.place }
    requires object { object < length here.now.program.now.objects }
    ensures alike { IfOk result (λ alike. Decides alike ((g : ℕ) → StartsAlike here.now.program.now here.now.played.now here.now.place
        there.now.program.now there.now.played.now there.now.place object g)) }
{
    there.program.keeps_sound();
    for other in 0..there.program.objects() as u8 {
        if !is_found_alike(alloc, here, object, there, other)? {
            return Ok(false);
        }
    }
    Ok(true)
}

/// Whether each two objects of one name, on which both blocks have an entry, were found in the same state. An error
/// means that memory for an object was refused.
pub(crate) fn are_starts_alike(
    alloc: Global,
    here: &Reservation<'_>,
    there: &Reservation<'_>,
) -> Result<bool, AllocError>
    requires here { IsReserved here.now.program.now here.now.played.now here.now.place }
    requires there { IsReserved there.now.program.now there.now.played.now there.now.place }
    ensures alike { IfOk result (λ alike. Decides alike ((h g : ℕ) → StartsAlike here.now.program.now here.now.played.now here.now.place
        there.now.program.now there.now.played.now there.now.place h g)) }
{
    here.program.keeps_sound();
    for object in 0..here.program.objects() as u8 {
        if !is_alike_to_each(alloc, here, object, there)? {
            return Ok(false);
        }
    }
    Ok(true)
}
