//! Which clients are alike.

ghost use Rattle.std.specs.Prelude.{◌≡◌, ◌<◌, true, length};
ghost use Rattle.std.specs.Bool.{Decides};
ghost use Rattle.qs_alike.specs.Changes.{AreAllAlike, AreAlone, AreClasses, HaveSameText};
ghost use Rattle.qs_alike.specs.Texts.{IsFirstAlike, classes_in};

use crate::texts::is_equal_block;
use qs_program::{MOST_CLIENTS, Program};

/// The class of each client: the number of the first client with the same text.
pub type Classes = [u8; MOST_CLIENTS];

// Each client in a class of its own.
pub(crate) const ALONE: Classes = [0, 1, 2, 3, 4, 5, 6, 7];

/// Whether each client is in a class of its own.
pub fn are_alone(classes: &Classes) -> bool
    ensures alone { result ≡ true → AreAlone (classes_in classes.now) }
{
    *classes == ALONE
}

/// Classes in which each client is alone, so that nobody changes places.
pub fn each_alone() -> Classes
    ensures alone { AreAlone (classes_in result) }
{
    ALONE
}

/// Whether two clients are of one class.
pub fn are_alike(classes: &Classes, one: u8, other: u8) -> bool
    requires within { (one < 8) × (other < 8) }
    ensures alike { Decides result (classes_in classes.now one ≡ classes_in classes.now other) }
{
    classes[usize::from(one)] == classes[usize::from(other)]
}

// Whether two clients have the same text but for names.
fn have_same_text(program: &Program, one: u8, other: u8) -> bool
    requires within { (one < length program.now.clients) × (other < length program.now.clients) }
    ensures same { Decides result (HaveSameText program.now one other) }
{
    program.keeps_sound();
    if program.variables(one).len() != program.variables(other).len()
        || program.blocks_of(one) != program.blocks_of(other)
    {
        return false;
    }
    for index in 0..program.blocks_of(one) as u8 {
        if !is_equal_block(program.block(one, index), program.block(other, index)) {
            return false;
        }
    }
    true
}

// The first client with the same text.
fn class_of(program: &Program, client: u8) -> u8
    requires within { client < length program.now.clients }
    ensures class { IsFirstAlike program.now client result }
{
    for earlier in 0..client {
        if have_same_text(program, earlier, client) {
            return earlier;
        }
    }
    client
}

/// The classes of a program's clients: those with the same text but for names are of one class.
pub fn classes_of(program: &Program) -> Classes
    ensures classes { AreClasses program.now (classes_in result) }
    ensures all { AreAllAlike program.now (classes_in result) }
{
    program.keeps_sound();
    let mut classes = ALONE;
    for client in 0..program.clients() as u8 {
        classes[usize::from(client)] = class_of(program, client);
    }
    classes
}
