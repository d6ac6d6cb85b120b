//! The meaning of a checked program: a block's interaction tree, a block alone, and the serial run along an order of
//! reservations. It is law but for the comparison of two texts.
#![tactic(auto)]

pub mod laws;
pub mod texts;
