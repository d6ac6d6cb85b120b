//! The token of a script at which its first fault stands.

mod anchor;
mod anchors;
mod blocks;
mod finding;
pub mod laws;

pub use anchor::is_anchor;
pub use blocks::block_anchor;
pub use finding::{Anchored, first_fault};
