//! A client's ends of its lanes to handlers.

ghost use Rattle.std.specs.Prelude.{◌≡◌, ◌+◌, ◌<◌, [], ◌∷◌, ◌++◌, false, slice_set, IsSome, Some};
ghost use Rattle.qs_program.specs.audit.Limits.{most_handlers};
ghost use Rattle.qs_chunk.specs.audit.Batch.{batch};
ghost use Rattle.qs_chunk.specs.audit.Lanes.{is_asked};
ghost use Rattle.qs_chunk.specs.Lanes.{MayFollow};
ghost use Rattle.qs_run.specs.client.ClientThreads.{out_lane_at};
ghost use Rattle.qs_lane.specs.Views.{OutView};

use qs_chunk::{Chunk, Parcel};
use qs_lane::LaneOut;
use qs_objects::{Held, Request};
use qs_program::MOST_HANDLERS;
use std::sync::Wait;

/// The client's end of the lane to each handler that has one.
pub type ClientLanes = [Option<LaneOut>; MOST_HANDLERS];

/// Sends a parcel, which may follow what was sent, to a handler. Waits until there is room.
pub(crate) fn send<R: Wait>(rt: &R, lanes: &mut ClientLanes, handler: u8, parcel: Parcel)
    requires handler { handler < most_handlers }
    requires lane { IsSome (out_lane_at lanes.old handler) }
    requires follows { (lane : OutView) → out_lane_at lanes.old handler ≡ Some lane → MayFollow lane.size (is_asked false lane.sent) parcel }
    ensures sent { (lane : OutView) → out_lane_at lanes.old handler ≡ Some lane
        → lanes.new ≡ slice_set lanes.old handler (Some (record lane { sent = lane.sent ++ parcel ∷ [] })) }
{
    match &mut lanes[usize::from(handler)] {
        Some(lane) => lane.send_and_wake_handler(rt, parcel),
        None => unreachable!(),
    }
}

/// Wakes each handler that sleeps and may have been left something to do.
pub(crate) fn wake_all(lanes: &ClientLanes) {
    for lane in lanes {
        if let Some(lane) = lane {
            lane.wake_handler();
        }
    }
}

/// Takes the next object that a handler gave. Sleeps until there is one.
pub(crate) fn get<R: Wait>(rt: &R, lanes: &mut ClientLanes, handler: u8) -> Held
    requires handler { handler < most_handlers }
    requires lane { IsSome (out_lane_at lanes.old handler) }
    ensures got { (lane : OutView) → out_lane_at lanes.old handler ≡ Some lane
        → lanes.new ≡ slice_set lanes.old handler (Some (record lane { got = lane.got ++ result ∷ [] })) }
{
    match &mut lanes[usize::from(handler)] {
        Some(lane) => lane.get_or_sleep(rt),
        None => unreachable!(),
    }
}

/// Takes an empty chunk of the lane to a handler. Sleeps until there is one.
pub(crate) fn empty<R: Wait>(rt: &R, lanes: &mut ClientLanes, handler: u8) -> Chunk<Request>
    requires handler { handler < most_handlers }
    requires lane { IsSome (out_lane_at lanes.old handler) }
    ensures taken { (lane : OutView) → out_lane_at lanes.old handler ≡ Some lane
        → (lanes.new ≡ slice_set lanes.old handler (Some (record lane { taken = lane.taken + 1 }))) × (result ≡ batch [] lane.size) }
{
    match &mut lanes[usize::from(handler)] {
        Some(lane) => lane.empty_or_sleep(rt),
        None => unreachable!(),
    }
}
