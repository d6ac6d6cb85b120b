//! A client under the plain rules: the frames of its block, and all that its later blocks will need, prepared; and
//! private queues.

mod client;
mod frames;
mod private_queue;
mod stage;

pub use client::{Asked, ClientState, Prepared, answer, fresh_clients};
pub use frames::{Ask, Frame, Frames, grow};
pub use private_queue::{PrivateQueue, last_place};
pub use stage::Stage;
