//! How many synchronisations a client's blocks have sent, for each object of their lists.
#![tactic(auto)]

mod sync_counts;

pub use sync_counts::{SyncCount, SyncCounts};
