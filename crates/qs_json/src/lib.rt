//! The texts of results and refusals for machines: objects of named fields, one on a line.
//!
//! ```rust
//! let graphs = qs_json::graph_json(alloc, &program).ok()?;
//! ```
#![tactic(auto)]

mod alike;
mod answers;
mod counts;
mod ends;
mod estimates;
mod events;
mod faults;
mod fronts;
mod graphs;
pub mod laws;
mod outcomes;
mod pieces;
mod replay;
mod runs;
mod states;
mod syncs;
mod tallies;
mod values;

pub use alike::alike_json;
pub use answers::answer_json;
pub use counts::counts_json;
pub use ends::ends_json;
pub use estimates::estimate_json;
pub use events::put_event;
pub use faults::fault_json;
pub use fronts::fronts_json;
pub use graphs::graph_json;
pub use outcomes::outcomes_json;
pub use runs::run_json;
pub use syncs::syncs_json;
pub use tallies::tally_json;
pub use values::values_json;
