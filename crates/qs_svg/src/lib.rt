//! A run as one picture in SVG: a row for each object, a column for each block.
//!
//! ```rust
//! let picture = qs_svg::run_svg(alloc, &program, &played, None).ok()?;
//! ```
#![tactic(auto)]

mod blocks;
mod ends;
mod facts;
mod head;
pub mod laws;
mod layout;
mod legend;
mod pieces;
mod rows;
mod run;
mod stretches;
mod words;

pub use run::run_svg;
