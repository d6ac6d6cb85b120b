//! How often each end of a program came in many runs on threads.
#![tactic(auto)]

mod count;
mod tally;

pub use count::{begin, count_run};
pub use tally::{CountedEnd, Tally};
