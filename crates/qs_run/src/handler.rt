//! What a handler's thread does: it takes tickets and serves each at its client's lane, until no further one comes.

mod gate;
mod handler_lanes;
mod serving;

pub use gate::{FreeGate, Gate, Passage};
pub use handler_lanes::HandlerLanes;
pub use serving::serve;
