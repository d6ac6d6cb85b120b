//! Two blocks of two runs, of one program or of two, compared by their texts, by their values at entry and by the
//! states that they found.

mod answer;
mod runs;
mod starts;
mod texts;
mod twins;

pub use answer::Twin;
pub use twins::twin;
