//! What lies in a client's lanes, read without taking it.

ghost use Rattle.std.specs.Prelude.{◌≡◌, ◌<◌, IfOk, drop, length};
ghost use Rattle.qs_core.specs.parts.CarriedRequests.{first_requests};
ghost use Rattle.qs_core.specs.parts.LaneStates.{lane_at};

use super::CoreClient;
use qs_objects::Request;
use std::alloc::{AllocError, Global};

impl CoreClient {
    /// The requests of the parcel at a place in the lane to a handler; nothing changes. An error says that their memory
    /// was refused.
    pub fn requests_at(
        &mut self,
        alloc: Global,
        handler: u8,
        place: usize,
    ) -> Result<Vec<Request>, AllocError>
        requires { handler < length self.old.lanes }
        ensures value { IfOk result (λ requests. requests.items ≡ first_requests (drop place (lane_at self.old.lanes handler).down)) }
        ensures same { self.new ≡ self.old }
    {
        let lane = &mut self.lanes[usize::from(handler)];
        lane.requests_at(alloc, place)
    }
}
