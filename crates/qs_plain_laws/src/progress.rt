//! That runs by the plain rules go on until they are finished.

pub mod laws;
