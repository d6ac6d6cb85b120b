//! Two blocks of two runs.

ghost use Rattle.std.specs.Prelude.{◌≡◌, ◌<◌, IfOk, IsErr, length, map};
ghost use Rattle.std.specs.Bool.{Decides};
ghost use Rattle.qs_meaning.specs.Alike.{object_name};
ghost use Rattle.qs_meaning.specs.audit.Serial.{IsLegal};
ghost use Rattle.qs_played.specs.Isolation.{IsFitting};
ghost use Rattle.qs_played.specs.twin.Twins.{IsReserved, Tells, TextsAlike};

use crate::Played;
use crate::twin::answer::Twin;
use crate::twin::runs::{Reservation, text, variables};
use crate::twin::starts::are_starts_alike;
use crate::twin::texts::{Sides, is_same_object};
use qs_meaning::texts::is_same_body;
use qs_program::Program;
use std::alloc::{AllocError, Global};

// Whether two lists name the same objects in the same order.
fn are_same_lists(program: &Program, here: &[u8], other: &Program, there: &[u8]) -> bool
    ensures same { Decides result (map (object_name program.now) here.now ≡ map (object_name other.now) there.now) }
{
    if here.len() != there.len() {
        return false;
    }
    for place in 0..here.len() {
        if !is_same_object(program, other, here[place], there[place]) {
            return false;
        }
    }
    true
}

// Whether the texts are equal, with equal values at entry.
fn are_same_texts(here: &Reservation<'_>, there: &Reservation<'_>) -> bool
    requires here { IsReserved here.now.program.now here.now.played.now here.now.place }
    requires there { IsReserved there.now.program.now there.now.played.now there.now.place }
    ensures same { Decides result (TextsAlike here.now.program.now here.now.played.now here.now.place
        there.now.program.now there.now.played.now there.now.place) }
{
    let sides = Sides {
        program: here.program,
        other: there.program,
        variables: variables(here),
        other_variables: variables(there),
        entry: here.played.entry(here.place),
        other_entry: there.played.entry(there.place),
    };
    let block = text(here);
    let other = text(there);
    are_same_lists(
        here.program,
        block.reserved(),
        there.program,
        other.reserved(),
    ) && is_same_body(&sides, block.body(), other.body())
}

/// Compares the blocks of a place of the one run and of a place of the other, of one program or of two. They agree if
/// their texts are equal, name by name; if each variable that they name had the same value at entry; and if each
/// object, matched by name, on which both journals have an entry of the block's ticket was found in the same state by
/// both. `Different` comes exactly where they do not agree; else `Agree` with the length of the shorter trace: of
/// isolated runs the first events of both traces, as many, are equal, name by name. An error means that memory for an
/// object, on which its journal is replayed, was refused: it comes only where the texts are equal, with equal values at
/// entry; nothing is changed.
pub fn twin(
    alloc: Global,
    program: &Program,
    played: &Played,
    place: usize,
    other: &Program,
    other_played: &Played,
    other_place: usize,
) -> Result<Twin, AllocError>
    requires fits { IsFitting program.now played.now }
    requires legal { IsLegal program.now played.now.order }
    requires place { place < length played.now.order }
    requires other_fits { IsFitting other.now other_played.now }
    requires other_legal { IsLegal other.now other_played.now.order }
    requires other_place { other_place < length other_played.now.order }
    ensures tells { IfOk result (Tells program.now played.now place other.now other_played.now other_place) }
    ensures memory { IsErr result → TextsAlike program.now played.now place other.now other_played.now other_place }
{
    let here = Reservation {
        program,
        played,
        place,
    };
    let there = Reservation {
        program: other,
        played: other_played,
        place: other_place,
    };
    if !are_same_texts(&here, &there) {
        return Ok(Twin::Different);
    }
    if !are_starts_alike(alloc, &here, &there)? {
        return Ok(Twin::Different);
    }
    program.keeps_sound();
    other.keeps_sound();
    let count = played.trace(place).len();
    Ok(Twin::Agree(count.min(other_played.trace(other_place).len())))
}
