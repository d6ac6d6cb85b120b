//! A client's whole run.

ghost use Rattle.std.specs.Prelude.{◌≡◌, ◌<◌, ℕ, List, IsSome, true};
ghost use Rattle.qs_program.specs.audit.Program.{blocks_of};
ghost use Rattle.qs_program.specs.Sound.{IsSound};
ghost use Rattle.qs_client.specs.audit.ClientRuns.{Deed, RunsTo};
ghost use Rattle.qs_client.specs.audit.ClientModel.{fresh_mind};
ghost use Rattle.qs_client.specs.MindState.{mind_of};
ghost use Rattle.qs_run.specs.client.ClientThreads.{AreDone, IsFresh, out_lane_at};
ghost use Rattle.qs_desk.specs.Tickets.{ticket};
ghost use Rattle.qs_meaning.specs.audit.Following.{reserves};
ghost use Rattle.qs_syncset.specs.audit.Codes.{IsCodeOf};
ghost use Rattle.qs_syncset.specs.declared.mode.Mode.{Mode};

use crate::client::client_lanes::{ClientLanes, empty, get, send, wake_all};
use qs_client::{Act, Mind};
use qs_desk::{DeskName, Front, Share};
use std::sync::Wait;

/// Runs all blocks of a client: what its mind asks for, one thing after another, from before its first block. It
/// reserves at the desk, and sends, gets and takes chunks at its lanes; there is one to each handler that a block of it
/// reserves. Waits for the desk, for room, for objects and for chunks.
pub fn run<D: DeskName, R: Wait>(
    rt: &R,
    mind: Mind,
    front: &Front<D>,
    share: Share<D>,
    lanes: ClientLanes,
) -> (Mind, Share<D>, ClientLanes)
    requires sound { IsSound D.program }
    requires code { (mode : Mode) × IsCodeOf D.program mode share.client (mind_of mind).code }
    requires begins { mind_of mind ≡ fresh_mind (mind_of mind).code (mind_of mind).size }
    requires unbooked { share.count ≡ 0 }
    requires fresh { (h : ℕ) → IsFresh (mind_of mind).size (out_lane_at lanes h) }
    requires reached { (k h : ℕ) → k < blocks_of D.program share.client → reserves D.program (ticket share.client k) h ≡ true
        → IsSome (out_lane_at lanes h) }
    ensures run { (deeds : List Deed) × RunsTo share.client (mind_of mind) deeds (mind_of result.0)
        × AreDone share.client lanes deeds result.1 result.2 }
{
    let mut mind = mind;
    mind.touch();
    let mut share = share;
    let mut lanes = lanes;
    for _ in rt.forever() {
        match mind.next() {
            Act::Reserve => {
                mind.booked(front.reserve_and_wake_handlers(rt, &mut share));
            }
            Act::Send(handler, parcel) => send(rt, &mut lanes, handler, parcel),
            Act::Await(handler) => mind.got(get(rt, &mut lanes, handler)),
            Act::NeedChunk(handler) => mind.chunk(empty(rt, &mut lanes, handler)),
            Act::Finished => {
                wake_all(&lanes);
                return (mind, share, lanes);
            }
        }
    }
    unreachable!()
}
