//! Runs by the plain rules in which whole blocks follow one another.

pub mod laws;
