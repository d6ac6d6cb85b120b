//! The tickets before a handler, read without taking them.

ghost use Rattle.std.specs.Prelude.{◌≡◌, ◌++◌};

use super::CoreHandler;
use qs_objects::Ticket;

impl CoreHandler {
    /// The tickets of its queue, the first first, as two lists one behind the other.
    pub fn tickets(&self) -> (&[Ticket], &[Ticket])
        ensures tickets { result.0.now ++ result.1.now ≡ self.now.tickets }
    {
        self.tickets.as_slices()
    }
}
