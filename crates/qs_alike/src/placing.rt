//! The places of alike clients, in order.

ghost use Rattle.std.specs.Prelude.{◌≡◌, ◌↔◌, ◌+◌, ◌<◌, true, OnOk, length};
ghost use Rattle.std.specs.declared.cmp.Ordering.TheVariants.{Less};
ghost use Rattle.qs_standings.specs.Standings.{IsStanding, configuration_in};
ghost use Rattle.qs_alike.specs.Arranged.{IsArrangedBelow, compared};
ghost use Rattle.qs_alike.specs.Changes.{AreClasses, Becomes};
ghost use Rattle.qs_alike.specs.Keys.{IsPlaced, IsPlacedAs};
ghost use Rattle.qs_alike.specs.Texts.{classes_in};

use crate::classes::{Classes, are_alike};
use qs_program::Program;
use qs_standings::Standing;
use std::alloc::{AllocError, Global};
use std::cmp::Ordering;

// Whether a client's place comes before another's.
fn is_less(standing: &Standing, one: u8, other: u8) -> bool
    requires begun { (one < length standing.now.begun) × (other < length standing.now.begun) }
    requires locals { (one < length standing.now.locals) × (other < length standing.now.locals) }
    ensures less { (result ≡ true) ↔ (compared (configuration_in standing.now) one other ≡ Less) }
{
    let begun = standing.begun();
    match begun[usize::from(one)].cmp(&begun[usize::from(other)]) {
        Ordering::Less => true,
        Ordering::Greater => false,
        Ordering::Equal => standing.locals(one).cmp(&standing.locals(other)) == Ordering::Less,
    }
}

// Puts the least place of a class, among those from a client on, at that client.
fn settle(program: &Program, classes: &Classes, standing: &mut Standing, place: u8)
    requires place { place < length program.now.clients }
    requires classes { AreClasses program.now (classes_in classes.now) }
    requires standing { IsStanding program.now standing.old.order standing.old }
    requires below { IsArrangedBelow (classes_in classes.now) (configuration_in standing.old) place }
    ensures standing { IsStanding program.now standing.new.order standing.new }
    ensures becomes { Becomes (classes_in classes.now) (configuration_in standing.old) (configuration_in standing.new) }
    ensures below { IsArrangedBelow (classes_in classes.now) (configuration_in standing.new) (place + 1) }
{
    program.keeps_sound();
    for other in place + 1..program.clients() as u8 {
        if are_alike(classes, place, other) && is_less(standing, other, place) {
            standing.exchange(place, other);
        }
    }
}

/// Puts the places of each class in order.
pub fn arrange(program: &Program, classes: &Classes, standing: &mut Standing)
    requires classes { AreClasses program.now (classes_in classes.now) }
    requires standing { IsStanding program.now standing.old.order standing.old }
    ensures placed { IsPlaced program.now (classes_in classes.now) standing.new }
    ensures becomes { Becomes (classes_in classes.now) (configuration_in standing.old) (configuration_in standing.new) }
{
    program.keeps_sound();
    for place in 0..program.clients() as u8 {
        settle(program, classes, standing, place);
    }
}

/// Writes a standing with the places of each class in order into another one, whose memory is used again. An error says
/// that an allocation failed.
pub fn put_placed(
    alloc: Global,
    program: &Program,
    classes: &Classes,
    standing: &Standing,
    placed: &mut Standing,
) -> Result<(), AllocError>
    requires classes { AreClasses program.now (classes_in classes.now) }
    requires standing { IsStanding program.now standing.now.order standing.now }
    ensures placed { OnOk result (IsPlacedAs program.now (classes_in classes.now) standing.now placed.new) }
{
    standing.put_copy(alloc, placed)?;
    arrange(program, classes, placed);
    Ok(())
}
