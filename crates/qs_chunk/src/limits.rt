//! The limits of chunks and lanes.

/// Requests in a chunk.
pub(crate) const LARGEST_CHUNK: u8 = 32;

/// Parcels that a lane takes.
pub const LANE_ROOM: usize = 16;

/// A lane's empty chunks.
pub const SPARE_ROOM: usize = 4;
