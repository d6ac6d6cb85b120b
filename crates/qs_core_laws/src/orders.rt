//! Runs of the optimised machine in which whole blocks follow one another.

pub mod laws;
