//! Of all outcomes one of all that differ by a change of alike clients, and for how many each stands.

mod counts;
pub mod laws;
mod list;

pub use counts::stands_for;
pub use list::{AlikeOutcomes, outcomes_alike};
