//! Schedules: who steps, and whether each pick names somebody.

mod actor;
mod picks;

pub use actor::Actor;
pub use picks::{MOST_ROUNDS, are_named};
