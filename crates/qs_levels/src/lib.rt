//! The search over configurations level by level: after each number of blocks all configurations at once.
#![tactic(auto)]

mod fronts;
pub mod laws;
mod leading;
mod level;
pub mod meaning;
mod merging;
mod part;
mod parts;
mod search;
mod share;
mod step;
mod table;
mod threads;

pub use fronts::fronts_after;
pub use search::outcomes_by_levels;
