//! How many configurations a search can have at most, and how many it has at least, before it is made.

mod estimate;
mod laws;
mod ways;

pub use estimate::{Estimate, MOST_TOLD, estimate_after};
pub use laws::{least_is_there, most_suffices};
