//! Everything that a program can come to: a search over the configurations between whole blocks.
//!
//! ```rust
//! let all = qs_outcomes::outcomes(alloc, &program, 1_000_000).ok()?;
//! ```
#![tactic(auto)]

pub mod alike;
mod answer;
mod depth;
pub mod estimate;
mod fault;
mod lists;
mod question;
mod search;
pub mod throughout;
mod watcher;

pub use answer::Answer;
pub use fault::OutcomesFault;
pub use lists::{AllOutcomes, ask_watched, outcomes, outcomes_after, outcomes_watched};
pub use qs_standings::Standing;
pub use question::Question;
pub use watcher::{Unwatched, Watcher};
