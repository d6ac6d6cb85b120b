//! What became of each request of a run: done, refused, or a query of what is not there.
//!
//! A report says of a command that it was logged, and of an object how many commands it refused, but not which of them.
//! The replay of the journals says it.

mod fate;
mod journals;
mod requests;
mod traces;

pub use fate::Fate;
pub use journals::{JournalFates, journal_fates};
pub use requests::run_and_tell;
pub use traces::trace_fates;
