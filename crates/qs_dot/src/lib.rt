//! Graphs in the language of graphviz: the control-flow graphs of a program, and the chart of all that it can come to.
//!
//! ```rust
//! let graphs = qs_dot::dot_text(alloc, &program, &lines).ok()?;
//! ```
#![tactic(auto)]

mod blocks;
mod chart;
mod chart_text;
mod end_text;
pub mod laws;
pub mod node_lines;
mod nodes;
mod short_text;
mod written;

pub use blocks::dot_text;
pub use chart::{Chart, Lead, chart_after};
pub use chart_text::{MOST_PLACES, chart_dot};
