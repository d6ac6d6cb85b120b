//! A private queue by hand.

ghost use Rattle.std.specs.Prelude.{◌≡◌, []};

use qs_chunk::{ChunkSize, Parcel};
use qs_lane::{LaneIn, LaneOut, lane};
use qs_objects::{Held, Kind, Object};
use std::alloc::Global;
use std::sync::Wait;

/// An account by itself.
pub(crate) fn account(alloc: Global, balance: i64) -> Option<Held> {
    let object = Object::new(alloc, Kind::Account { balance }).ok()?;
    Held::new(alloc, object, 1).ok()
}

// The client asks for the object, and the handler gives it. What one end sends the other takes, in order and once
// (law `agree` of `qs_lane`); `give` asks that a Sync was taken and not yet served.
#[tactic(auto, using(qs_chunk::proofs::LaneFronts::asked_last))]
fn lend<R: Wait>(rt: &R, out: &mut LaneOut, inside: &mut LaneIn, held: Held) -> Option<Held>
    requires { (out.old.sent ≡ []) × (inside.old.received ≡ []) × (inside.old.given ≡ []) }
{
    out.send(rt, Parcel::Sync);
    let asked = inside.take(rt);
    if let Parcel::Sync = asked {
        inside.give(rt, held);
        return Some(out.get(rt));
    }
    drop(asked);
    drop(held);
    None
}

/// What an account holds that a handler lends to its client through a lane, both on one thread.
pub(crate) fn lent_balance<R: Wait>(rt: &R, alloc: Global) -> Option<i64> {
    let (mut out, mut inside) = lane(rt, alloc, ChunkSize::new(4)?).ok()?;
    let held = lend(rt, &mut out, &mut inside, account(alloc, 7)?)?;
    let balance = held.object().value(0);
    drop(held);
    balance
}
