//! The plain rules as a step function, and what holds of them after every list of steps.
#![tactic(auto)]

mod item;
pub mod laws;
pub mod orders;
pub mod progress;

pub use item::QueueItem;
