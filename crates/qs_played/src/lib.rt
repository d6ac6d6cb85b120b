//! What a run shows, the schedules that it is played by, and what is said of every run, by whatever machine.
//!
//! `shown` has what a run has shown, `schedule` who steps when. Isolation and the counts of synchronisations are
//! statements about what is shown (`specs/Isolation.antt`, `specs/SyncSums.antt`); one proof of them, of an abstract
//! run, serves every machine.
#![tactic(auto)]

mod fault;
mod journal_rooms;
mod schedule;
mod shown;
pub mod twin;

pub use fault::{PlayFault, RunFault};
pub use journal_rooms::declared_held;
pub use schedule::{Actor, MOST_ROUNDS, are_named};
pub use shown::{ClientRows, Endings, Outcome, Played, Sequence};
