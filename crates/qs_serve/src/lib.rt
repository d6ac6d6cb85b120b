//! The program over a reader and a writer: words and bytes in, bytes and a status out.
#![tactic(auto)]

mod alone;
mod asking;
mod beside;
mod choosing;
mod due;
mod estimates;
mod fronts;
mod input;
pub mod laws;
mod notes;
mod output;
mod plays;
mod progress;
mod questions;
mod reports;
mod run_report;
mod searches;
mod serving;
mod syncs;
mod tallies;
mod telling;
mod values;

pub use alone::{bytes_of, due_without_threads};
pub use due::Due;
pub use input::Counted;
pub use qs_report::Fault;
pub use qs_text::Watch;
pub use serving::{Call, Terminals, refuse, serve, serve_with};
pub use telling::details_of;
