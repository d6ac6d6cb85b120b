//! What `ask` asks of a program.

use qs_conditions::{Claim, Sum};

/// What is asked of a program.
#[derive(Drop)]
pub enum Question {
    /// Whether a condition holds.
    Claim(Claim),
    /// Which values a sum has at the ends.
    Values(Sum),
}
