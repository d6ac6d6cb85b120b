//! What lies before a handler, read without taking it.

ghost use Rattle.std.specs.Prelude.{◌≡◌};

use super::HandlerState;
use crate::client::PrivateQueue;
use qs_objects::Held;

impl HandlerState {
    /// Its private queues, the first of which it serves.
    pub fn queues(&self) -> &[PrivateQueue]
        ensures value { result.now ≡ self.now.queues }
    {
        &self.queues[self.left..]
    }

    /// Its object, with the journal.
    pub fn held(&self) -> &Held
        ensures value { result.now ≡ self.now.held }
    {
        &self.held
    }
}
