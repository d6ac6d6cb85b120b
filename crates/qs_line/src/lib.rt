//! The command line of `qs`, read by `clap`, with lists of actors as they are written, and whom they name in a program.
#![tactic(auto)]

mod apart;
mod command;
mod fault;
mod found;
mod help;
pub mod language;
pub mod laws;
mod limits;
mod line;
mod named;
mod parts;
mod plan;
mod question;
mod reading;
mod script_claims;
mod told;

pub use apart::{APART, Setting};
pub use fault::{ListFault, Why};
pub use limits::MOST_ACTORS;
pub use line::{
    Asked, Format, GraphFormat, LineFault, OutcomesFormat, ReportFormat, ReportStyle, Settings,
    asked_for, read_line,
};
pub use named::{actors_of, clients_of};
pub use parts::{Part, Who};
pub use plan::Plan;
pub use question::Question;
pub use reading::{clients_in, list_in, part_of};
pub use script_claims::{claim_parts, claims_in, quantifier_of};
pub use told::{refusal, value_after};
