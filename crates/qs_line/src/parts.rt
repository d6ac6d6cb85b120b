//! The parts of a list.

use qs_played::Actor;
use qs_script::tokens::Name;

/// Whom a part names: an actor by its number, or a client or an object by its name.
#[derive(Drop)]
pub enum Who {
    Number(Actor),
    Name(Name),
}

/// A part of a list: whom it names, and how often.
#[derive(Drop)]
pub struct Part {
    pub who: Who,
    pub count: u32,
}
