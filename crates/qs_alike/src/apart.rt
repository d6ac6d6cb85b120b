//! Classes in which some clients are alone, so that these change places with nobody.
//!
//! ```rust
//! let classes = classes_apart(&program, &classes_of(&program), 1 << client);
//! ```

ghost use Rattle.std.specs.Prelude.{◌≡◌, ◌<◌};
ghost use Rattle.qs_objects.specs.ByteSets.{in_byte};
ghost use Rattle.qs_alike.specs.Apart.{AreSetApart, IsClassApart};
ghost use Rattle.qs_alike.specs.Changes.{AreClasses};
ghost use Rattle.qs_alike.specs.Texts.{classes_in};

use crate::classes::{ALONE, Classes, are_alike};
use qs_program::{MOST_CLIENTS, Program};

// Whether a client is in a set: client c in bit c.
fn is_in(set: u8, client: u8) -> bool
    requires within { client < 8 }
    ensures in_set { result ≡ in_byte set client }
{
    (set >> client) & 1 == 1
}

// A client's own number where it is set apart, and else that of the first one of its class that isn't.
fn class_apart(classes: &Classes, apart: u8, client: u8) -> u8
    requires within { client < 8 }
    ensures class { IsClassApart (classes_in classes.now) (in_byte apart) client result }
{
    if is_in(apart, client) {
        return client;
    }
    for earlier in 0..client {
        if !is_in(apart, earlier) && are_alike(classes, earlier, client) {
            return earlier;
        }
    }
    client
}

/// The same classes, but each client of a set is in a class of its own. A set is a byte, client c in bit c.
pub fn classes_apart(program: &Program, classes: &Classes, apart: u8) -> Classes
    requires classes { AreClasses program.now (classes_in classes.now) }
    ensures classes { AreClasses program.now (classes_in result) }
    ensures set_apart { AreSetApart (classes_in classes.now) (in_byte apart) (classes_in result) }
{
    program.keeps_sound();
    let mut split = ALONE;
    for client in 0..MOST_CLIENTS as u8 {
        split[usize::from(client)] = class_apart(classes, apart, client);
    }
    split
}
