//! A handler's ends of its clients' lanes.

ghost use Rattle.std.specs.Prelude.{◌≡◌, ◌+◌, ◌<◌, ◌⊎◌, [], ◌∷◌, ◌++◌, false, true, length, slice_set, IsSome, Some};
ghost use Rattle.qs_program.specs.audit.Limits.{most_clients};
ghost use Rattle.qs_chunk.specs.audit.Batch.{batch};
ghost use Rattle.qs_chunk.specs.audit.LaneRun.{syncs};
ghost use Rattle.qs_chunk.specs.audit.Lanes.{is_asked};
ghost use Rattle.qs_chunk.specs.Lanes.{MayFollow};
ghost use Rattle.qs_run.specs.handler.HandlerThreads.{in_lane_at};
ghost use Rattle.qs_lane.specs.Views.{InView};

use qs_chunk::{Chunk, Parcel};
use qs_lane::LaneIn;
use qs_objects::{Held, Request};
use qs_program::MOST_CLIENTS;
use std::sync::Wait;

/// The handler's end of the lane from each client that has one.
pub type HandlerLanes = [Option<LaneIn>; MOST_CLIENTS];

/// Takes the next parcel of a client's lane. Sleeps until there is one.
pub(crate) fn take_parcel<R: Wait>(rt: &R, lanes: &mut HandlerLanes, client: u8) -> Parcel
    requires client { client < most_clients }
    requires lane { IsSome (in_lane_at lanes.old client) }
    ensures took { (lane : InView) → in_lane_at lanes.old client ≡ Some lane
        → (lanes.new ≡ slice_set lanes.old client (Some (record lane { received = lane.received ++ result ∷ [] })))
        × MayFollow lane.size (is_asked false lane.received) result }
{
    match &mut lanes[usize::from(client)] {
        Some(lane) => lane.take_or_sleep(rt),
        None => unreachable!(),
    }
}

/// Gives the object to a client, which asked for it by the last parcel, and wakes the client. Waits while an object
/// lies in the lane.
pub(crate) fn give<R: Wait>(rt: &R, lanes: &mut HandlerLanes, client: u8, held: Held)
    requires client { client < most_clients }
    requires lane { IsSome (in_lane_at lanes.old client) }
    requires asked { (lane : InView) → in_lane_at lanes.old client ≡ Some lane
        → (is_asked false lane.received ≡ true) × (length lane.given + 1 ≡ syncs lane.received) }
    ensures given { (lane : InView) → in_lane_at lanes.old client ≡ Some lane
        → lanes.new ≡ slice_set lanes.old client (Some (record lane { given = lane.given ++ held ∷ [] })) }
{
    match &mut lanes[usize::from(client)] {
        Some(lane) => lane.give_and_wake_client(rt, held),
        None => unreachable!(),
    }
}

/// Gives an empty chunk back to a client.
pub(crate) fn spare<R: Wait>(rt: &R, lanes: &mut HandlerLanes, client: u8, chunk: Chunk<Request>)
    requires client { client < most_clients }
    requires lane { IsSome (in_lane_at lanes.old client) }
    requires empty { (lane : InView) → in_lane_at lanes.old client ≡ Some lane → chunk ≡ batch [] lane.size }
    ensures spared { (lane : InView) → in_lane_at lanes.old client ≡ Some lane
        → (lanes.new ≡ slice_set lanes.old client (Some (record lane { spared = lane.spared + 1 }))) ⊎ (lanes.new ≡ lanes.old) }
{
    match &mut lanes[usize::from(client)] {
        Some(lane) => lane.spare(rt, chunk),
        None => unreachable!(),
    }
}
