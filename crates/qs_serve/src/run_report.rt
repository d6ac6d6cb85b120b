//! The report of a run, in the style that a line asks for.

mod ends;
mod reports;

pub use reports::{styled_report, styled_run_report};
