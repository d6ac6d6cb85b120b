//! Requests travel from a client to a handler in chunks, and chunks, objects and marks in lanes: the values, and the
//! form of a lane.
#![tactic(auto)]

mod cells;
mod chunk;
pub mod laws;
mod limits;
mod parcel;
mod places;
mod size;
#[cfg(test)]
mod tests;

pub use chunk::Chunk;
pub use limits::{LANE_ROOM, SPARE_ROOM};
pub use parcel::Parcel;
pub use size::ChunkSize;
