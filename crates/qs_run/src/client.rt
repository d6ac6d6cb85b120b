//! What a client's thread does: it reserves its blocks at the desk, and runs each over its ends of lanes, until no
//! further one is left.

mod client_lanes;
pub mod laws;
mod running;

pub use client_lanes::ClientLanes;
pub use running::run;
