//! The line of the script on which the statement of each node of its graphs stands.

mod anchor_lines;
pub mod laws;
mod lines;
mod nodes;
mod skipping;

pub use lines::{BlockLines, ClientLines, NodeLines, node_lines};
