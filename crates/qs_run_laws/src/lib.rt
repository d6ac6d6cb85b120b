//! The law of running threads, from lists alone: what clients, handlers, lanes and the desk did, once all have ended,
//! is what the blocks do one after another.
#![tactic(auto)]

pub mod laws;
