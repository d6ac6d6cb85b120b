//! The handlers that a client is known to hold at each node of a block's graph, whatever path leads there.

mod dataflow;
pub mod laws;
mod sets;
mod worklist;

pub use sets::{Sets, held_sets, held_sets_counted};
pub use worklist::Turns;
