//! What lies where in the machine of the plain rules, and what its clients wait for.

ghost use Rattle.std.specs.Prelude.{◌≡◌, map, option_copied, option_map, slice_get};
ghost use Rattle.qs_plain.specs.client.Queues.{QueueState};
ghost use Rattle.qs_plain_laws.specs.audit.Plain.{Handler, handler_at as the_handler};
ghost use Rattle.qs_plain_laws.specs.audit.PlainSchedule.{is_finished};
ghost use Rattle.qs_plain.specs.Awaiting.{awaited_at};
ghost use Rattle.qs_plain.specs.Rules.{plain_of};

use super::Machine;
use crate::awaited::Awaited;
use crate::client::{PrivateQueue, Stage};
use crate::showing;
use qs_objects::Held;

impl Machine<'_> {
    /// Whether the run is finished.
    pub(crate) fn is_finished(&self) -> bool
        ensures value { result ≡ is_finished self.now.program (plain_of self.now) }
    {
        showing::are_done(&self.clients) && showing::are_idle(&self.handlers)
    }

    /// The private queues of a handler, the first of which it serves.
    pub(crate) fn queues(&self, number: u8) -> &[PrivateQueue]
        ensures value { map (λ (q : QueueState). q.queue) result.now ≡ (the_handler (plain_of self.now).handlers number).queues }
    {
        match self.handlers.get(usize::from(number)) {
            Some(handler) => handler.queues(),
            None => &[],
        }
    }

    /// The object of a handler, with its journal.
    pub(crate) fn held(&self, number: u8) -> Option<&Held>
        ensures value { option_copied result ≡ option_map (λ (x : Handler). x.held) (slice_get (plain_of self.now).handlers number) }
    {
        match self.handlers.get(usize::from(number)) {
            Some(handler) => Some(handler.held()),
            None => None,
        }
    }

    /// What a client waits for.
    pub(crate) fn awaited(&self, number: u8) -> Awaited
        ensures value { result ≡ awaited_at self.now.program (plain_of self.now) number }
    {
        match self.clients.get(usize::from(number)) {
            None => Awaited::Done,
            Some(client) => match client.stage() {
                Stage::Out => {
                    if client.has_more() {
                        Awaited::Nothing
                    } else {
                        Awaited::Done
                    }
                }
                Stage::Within => Awaited::Nothing,
                Stage::Waiting(_) => Awaited::Reply,
            },
        }
    }
}
