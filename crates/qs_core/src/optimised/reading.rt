//! What lies where in the optimised machine, and what its clients want next.

ghost use Rattle.std.specs.Prelude.{◌≡◌, ◌<◌, ℕ, IfOk, Some, drop, length};
ghost use Rattle.qs_client.specs.audit.ClientModel.{has_ended};
ghost use Rattle.qs_core_laws.specs.audit.CoreSchedule.{is_finished};
ghost use Rattle.qs_core.specs.parts.CarriedRequests.{first_requests};
ghost use Rattle.qs_core.specs.parts.CoreClients.{turns_to};
ghost use Rattle.qs_core.specs.parts.CoreHandlers.{handler_with_act};
ghost use Rattle.qs_core.specs.state.CoreState.{codes_of, core_of};
ghost use Rattle.qs_core.specs.CoreEffects.{AreLanesOf, act_at};
ghost use Rattle.qs_core.specs.CoreOrders.{blocks_begun};

use super::Core;
use crate::parts::{CoreClient, CoreHandler};
use crate::shown::{are_finished, client_at, handler_at};
use qs_objects::Request;
use std::alloc::{AllocError, Global};

impl Core<'_> {
    /// Whether the run is finished: no block is to come or goes on, and nothing lies in a queue or a lane.
    pub fn is_finished(&self) -> bool
        ensures value { result ≡ is_finished self.now.program (core_of self.now) }
    {
        self.machine.keeps_machine();
        are_finished(self.machine.clients(), self.machine.handlers())
    }

    /// A handler of the program, with the ticket that it serves and those of its queue.
    pub fn handler(&self, handler: u8) -> &CoreHandler
        requires { handler < length self.now.program.objects }
        ensures mind { handler_with_act result.now ≡ (core_of self.now).handler handler }
        ensures tickets { result.now.tickets ≡ (core_of self.now).tickets handler }
    {
        self.machine.keeps_machine();
        handler_at(self.machine.handlers(), handler)
    }

    /// How many blocks a client of the program has begun.
    pub fn begun(&self, client: u8) -> usize
        requires { client < length self.now.program.clients }
        ensures value { result ≡ blocks_begun self.now client }
    {
        self.machine.keeps_machine();
        self.machine.begun(client)
    }

    /// Whether the block of this number of a client of the program has ended.
    pub fn has_ended(&self, client: u8, index: u8) -> bool
        requires { client < length self.now.program.clients }
        ensures value { result ≡ has_ended ((core_of self.now).client client) index }
    {
        self.machine.keeps_machine();
        self.machine.has_ended(client, index)
    }

    /// A client of the program, with what it wants next and its lanes. It turns to the lane to a handler of the
    /// program.
    pub fn client(&self, client: u8) -> &CoreClient
        requires { client < length self.now.program.clients }
        ensures act { result.now.act ≡ act_at (codes_of self.now) self.now.size (core_of self.now) client }
        ensures turned { (h : ℕ) → turns_to result.now.act ≡ Some h → h < length self.now.program.objects }
        ensures many { length result.now.lanes ≡ length self.now.program.objects }
        ensures lanes { AreLanesOf (core_of self.now) client result.now.lanes }
    {
        self.machine.program().keeps_sound();
        self.machine.keeps_machine();
        let client = client_at(self.machine.clients(), usize::from(client));
        client.has_next_act();
        client
    }

    /// The requests of the parcel at a place in the lane from a client to a handler; nothing changes. An error says
    /// that their memory was refused.
    pub fn lane_requests(
        &mut self,
        alloc: Global,
        client: u8,
        handler: u8,
        place: usize,
    ) -> Result<Vec<Request>, AllocError>
        requires client { client < length self.old.program.clients }
        requires handler { handler < length self.old.program.objects }
        ensures value { IfOk result (λ requests. requests.items ≡ first_requests (drop place ((core_of self.old).down client handler))) }
        ensures same { self.new ≡ self.old }
    {
        self.machine.lane_requests(alloc, client, handler, place)
    }
}
