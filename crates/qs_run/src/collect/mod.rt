//! Collecting the outcome of a run: lanes are joined, clients and handlers are collected, and what they have is shown.
//! No thread is left here.

mod clients;
mod handlers;
mod lanes;
mod outcome;
mod room;
mod show;

pub(crate) use outcome::collect_outcome;
pub(crate) use room::OutcomeRoom;
