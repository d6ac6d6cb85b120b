//! One kind of queue for all that goes from one thread to another: one end sends, the other takes, and all that was
//! sent keeps to a protocol.
#![tactic(auto)]

mod events;
mod long_spins;
mod protocol;
mod queue_ends;
mod rule;
#[cfg(test)]
mod tests;

pub use events::Events;
pub use protocol::{Key, Protocol};
pub use queue_ends::{Sender, Taker, Waker, make_ends};
