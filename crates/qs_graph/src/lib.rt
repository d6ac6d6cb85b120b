//! The control-flow graph of a block, and what a walk through it does.
#![tactic(auto)]

mod binding;
mod build;
mod copies;
mod counts;
mod graphs;
pub mod laws;
mod node;

pub use build::{graph, graph_in};
pub use graphs::Graph;
pub use node::{Action, Choice, Named, Node};
