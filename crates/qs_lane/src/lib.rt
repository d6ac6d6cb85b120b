//! The lane, a client's private queue at a handler: parcels go down, and objects and empty chunks come up.
//!
//! ```rust
//! let (mut out, mut inside) = qs_lane::lane(rt, alloc, ChunkSize::new(8)?).ok()?;
//! out.send(rt, Parcel::Sync);
//! let parcel = inside.take(rt);
//! ```
#![tactic(auto)]

mod lane_ends;
pub mod laws;
mod protocols;
#[cfg(test)]
mod tests;

pub use lane_ends::{LaneIn, LaneOut, lane, lane_at, make_events};
pub use qs_queue::Events;
