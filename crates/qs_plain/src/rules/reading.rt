//! What lies where under the plain rules, and what the clients wait for.

ghost use Rattle.std.specs.Prelude.{◌≡◌, map, option_copied, option_map, slice_get};
ghost use Rattle.qs_plain.specs.client.Queues.{QueueState};
ghost use Rattle.qs_plain_laws.specs.audit.Plain.{Handler, client_at, handler_at};
ghost use Rattle.qs_plain_laws.specs.audit.PlainSchedule.{is_finished, is_out};
ghost use Rattle.qs_plain.specs.Awaiting.{awaited_at};
ghost use Rattle.qs_plain.specs.Blocks.{blocks_begun};
ghost use Rattle.qs_plain.specs.Rules.{plain_of};

use super::Rules;
use crate::awaited::Awaited;
use crate::client::PrivateQueue;
use qs_objects::Held;

impl Rules<'_> {
    /// Whether the run is finished: no block is to come or goes on, and no private queue is there.
    pub fn is_finished(&self) -> bool
        ensures value { result ≡ is_finished self.now.program (plain_of self.now) }
    {
        self.machine.is_finished()
    }

    /// The private queues of a handler, the first of which it serves; of a handler that is not there none.
    pub fn queues(&self, handler: u8) -> &[PrivateQueue]
        ensures value { map (λ (q : QueueState). q.queue) result.now ≡ (handler_at (plain_of self.now).handlers handler).queues }
    {
        self.machine.queues(handler)
    }

    /// The object of a handler, with its journal; None of a handler that is not there.
    pub fn held(&self, handler: u8) -> Option<&Held>
        ensures value { option_copied result ≡ option_map (λ (x : Handler). x.held) (slice_get (plain_of self.now).handlers handler) }
    {
        self.machine.held(handler)
    }

    /// Whether a client stands between two blocks; one that is not there does.
    pub fn is_out(&self, client: u8) -> bool
        ensures value { result ≡ is_out (client_at (plain_of self.now) client).stage }
    {
        self.machine.is_out(client)
    }

    /// How many blocks a client has begun; one that is not there none.
    pub fn begun(&self, client: u8) -> usize
        ensures value { result ≡ blocks_begun self.now client }
    {
        self.machine.begun(client)
    }

    /// What a client waits for; one that is not there is done.
    pub fn awaited(&self, client: u8) -> Awaited
        ensures value { result ≡ awaited_at self.now.program (plain_of self.now) client }
    {
        self.machine.awaited(client)
    }
}
