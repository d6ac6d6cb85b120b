//! The parts of the optimised machine, for those who read what lies where.

ghost use Rattle.std.specs.Prelude.{◌≡◌, ◌<◌, IfOk, drop, length, vec_len};
ghost use Rattle.qs_core.specs.parts.CarriedRequests.{first_requests};
ghost use Rattle.qs_core.specs.parts.LaneStates.{lane_at};
ghost use Rattle.qs_core.specs.state.CoreState.{core_of, client_part_at};

use super::CoreMachine;
use crate::parts::{CoreClient, CoreHandler};
use qs_objects::Request;
use std::alloc::{AllocError, Global};

// The requests of the parcel at a place in the lane from a client to a handler.
fn requests_at(
    alloc: Global,
    clients: &mut Vec<CoreClient>,
    client: u8,
    handler: u8,
    place: usize,
) -> Result<Vec<Request>, AllocError>
    requires client { client < length clients.old.items }
    requires lane { handler < length (client_part_at clients.old.items client).lanes }
    ensures value { IfOk result (λ requests. requests.items ≡ first_requests (drop place (lane_at (client_part_at clients.old.items client).lanes handler).down)) }
    ensures same { clients.new.items ≡ clients.old.items }
    ensures len { vec_len clients.new ≡ vec_len clients.old }
{
    let client = &mut clients[usize::from(client)];
    client.requests_at(alloc, handler, place)
}

impl CoreMachine<'_> {
    /// Its clients.
    pub(crate) fn clients(&self) -> &[CoreClient]
        ensures value { result.now ≡ self.now.clients }
    {
        self.clients.as_slice()
    }

    /// Its handlers.
    pub(crate) fn handlers(&self) -> &[CoreHandler]
        ensures value { result.now ≡ self.now.handlers }
    {
        self.handlers.as_slice()
    }

    /// The requests of the parcel at a place in the lane from a client to a handler; nothing changes. An error says
    /// that their memory was refused.
    pub(crate) fn lane_requests(
        &mut self,
        alloc: Global,
        client: u8,
        handler: u8,
        place: usize,
    ) -> Result<Vec<Request>, AllocError>
        requires client { client < length self.old.program.clients }
        requires handler { handler < length self.old.program.objects }
        ensures value { IfOk result (λ requests. requests.items ≡ first_requests (drop place ((core_of self.old).down client handler))) }
        ensures same { self.new ≡ self.old }
    {
        self.keeps_machine();
        requests_at(alloc, &mut self.clients, client, handler, place)
    }
}
