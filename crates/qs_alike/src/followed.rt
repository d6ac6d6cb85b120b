//! Who is followed where alike clients may change places.

ghost use Rattle.std.specs.Prelude.{◌≡◌, ◌<◌, true, length};
ghost use Rattle.std.specs.Bool.{Decides};
ghost use Rattle.qs_meaning.specs.Reduced.{goes_on};
ghost use Rattle.qs_objects.specs.ByteSets.{in_byte};
ghost use Rattle.qs_standings.specs.Standings.{IsStanding, configuration_in};
ghost use Rattle.qs_alike.specs.Followed.{GoesOnUpTo};
ghost use Rattle.qs_alike.specs.Keys.{IsPlacedAs};
ghost use Rattle.qs_alike.specs.Texts.{classes_in};

use crate::classes::{Classes, are_alike};
use qs_program::Program;
use qs_standings::Standing;

// Whether a client of its class, by its place, goes on and has begun as many blocks as a client.
fn is_like(
    classes: &Classes,
    standing: &Standing,
    placed: &Standing,
    goes: u8,
    client: u8,
    place: u8,
) -> bool
    requires within { (client < 8) × (place < 8) }
    requires begun { (client < length standing.now.begun) × (place < length placed.now.begun) }
    ensures like { Decides result ((in_byte goes place ≡ true)
        × (classes_in classes.now place ≡ classes_in classes.now client)
        × ((configuration_in placed.now).begun place ≡ (configuration_in standing.now).begun client)) }
{
    (goes >> place) & 1 == 1
        && are_alike(classes, place, client)
        && placed.begun()[usize::from(place)] == standing.begun()[usize::from(client)]
}

/// Whether a client goes on up to changes of alike clients, by the same standing with the places of each class in order,
/// and by those who go on there, client c in bit c.
pub fn goes_on_up_to(
    program: &Program,
    classes: &Classes,
    standing: &Standing,
    placed: &Standing,
    goes: u8,
    client: u8,
) -> bool
    requires client { client < length program.now.clients }
    requires standing { IsStanding program.now standing.now.order standing.now }
    requires placed { IsPlacedAs program.now (classes_in classes.now) standing.now placed.now }
    requires goes { in_byte goes ≡ goes_on program.now (configuration_in placed.now).begun }
    ensures goes { Decides result (GoesOnUpTo program.now (classes_in classes.now) (configuration_in standing.now)
        client) }
{
    program.keeps_sound();
    for place in 0..program.clients() as u8 {
        if is_like(classes, standing, placed, goes, client, place) {
            return true;
        }
    }
    false
}
