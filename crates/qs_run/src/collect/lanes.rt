//! Joining the two ends of each lane: what one of them had is compared with what the other had.

ghost use Rattle.std.specs.Prelude.{◌≡◌, ◌<◌, ◌≤◌, length, map, slice_set, None};
ghost use Rattle.qs_program.specs.audit.Limits.{most_clients, most_handlers};
ghost use Rattle.qs_run.specs.client.ClientThreads as running;
ghost use Rattle.qs_run.specs.handler.HandlerThreads as handling;
ghost use Rattle.qs_run.specs.Collected.{AreEndsJoined, AreLanesJoined, AreLanesPaired, without_lane_of};
ghost use Rattle.qs_run.specs.Workers.{AreOneLane};

use crate::client::ClientLanes;
use crate::worker::HandlerWorker;
use qs_desk::DeskName;
use qs_lane::laws::agree;
use qs_lane::{LaneIn, LaneOut};

// Joins the two ends of a lane, if there is one.
fn join_ends(out: Option<LaneOut>, inside: Option<LaneIn>)
    requires lane { AreOneLane out inside }
    ensures joined { AreEndsJoined out inside }
{
    if let (Some(out), Some(inside)) = (out, inside) {
        agree(out, inside);
    }
}

// Takes the client's end and the handler's end of a lane out of their places, and joins them.
fn join_lane<D: DeskName>(
    lanes: &mut ClientLanes,
    worker: &mut HandlerWorker<D>,
    client: usize,
    handler: usize,
)
    requires client { client < most_clients }
    requires handler { handler < most_handlers }
    requires lane { AreOneLane (running.out_lane_at lanes.old handler) (handling.in_lane_at worker.old.lanes client) }
    ensures joined { AreEndsJoined (running.out_lane_at lanes.old handler) (handling.in_lane_at worker.old.lanes client) }
    ensures lanes { lanes.new ≡ slice_set lanes.old handler None }
    ensures worker { worker.new ≡ without_lane_of client worker.old }
{
    let out = lanes[handler].take();
    let inside = worker.lanes[client].take();
    join_ends(out, inside);
}

/// Joins all ends of a client with those that the handlers have from it, which are taken out of their places.
pub(crate) fn join_lanes<D: DeskName>(
    lanes: ClientLanes,
    client: usize,
    handlers: &mut [HandlerWorker<D>],
)
    requires client { client < most_clients }
    requires few { length handlers.old ≤ most_handlers }
    requires paired { AreLanesPaired lanes client handlers.old }
    ensures joined { AreLanesJoined lanes client handlers.old }
    ensures lanes_taken { handlers.new ≡ map (without_lane_of client) handlers.old }
{
    let mut lanes = lanes;
    for handler in 0..handlers.len() {
        join_lane(&mut lanes, &mut handlers[handler], client, handler);
    }
}
