//! What may be relied on of every run: seven promises, each a law composed of what the crates below have proved.
#![tactic(auto)]

pub mod laws;
