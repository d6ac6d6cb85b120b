//! What the two ends of one lane know together.

pub use crate::lane_ends::agree;
