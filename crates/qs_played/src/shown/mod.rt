//! What a run has shown: its order of reservations, each block's trace and counts, and each object's journal and state.

mod outcome;
mod played;
mod sequence;

pub use outcome::Outcome;
pub use played::{ClientRows, Endings, Played};
pub use sequence::Sequence;
