//! That runs of the optimised machine go on until they are finished.

pub mod laws;
