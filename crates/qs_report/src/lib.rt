//! The texts of results and faults, byte for byte.
//!
//! ```rust
//! let text = qs_report::report(alloc, &program, &played).ok()?;
//! ```
#![tactic(auto)]

mod alike;
mod answers;
mod counts;
mod ends;
mod estimates;
mod faults;
mod fronts;
mod graphs;
pub mod laws;
mod lines;
mod outcomes;
mod refusals;
mod runs;
mod states;
mod sync_table;
mod syncs;
mod tallies;
mod tickets;
mod values;

pub use alike::{alike_text, all_of};
pub use answers::{answer_text, is_yes};
pub use counts::check_text;
pub use ends::ends_text;
pub use estimates::estimate_text;
pub use faults::{Fault, fault_line, fault_line_watched, place_of, status, words_of};
pub use fronts::fronts_text;
pub use graphs::graph_text;
pub use outcomes::{outcome_at, outcomes_text};
pub use runs::{report, report_counts, report_run, report_run_counts, report_with_refusals};
pub use sync_table::{ModeCounts, SyncTable};
pub use syncs::syncs_text;
pub use tallies::{came, end_at, tally_text};
pub use values::values_text;
