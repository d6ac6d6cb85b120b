//! The optimised machine as a step function, and what holds of it after every list of steps, in each mode and with each
//! chunk size.
#![tactic(auto)]

pub mod laws;
pub mod orders;
pub mod progress;
pub mod protocol;
