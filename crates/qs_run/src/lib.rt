//! Runs of programs on threads: each client and each handler has a thread of its own.
//!
//! `execution` has the public call, `execute`. It prepares what the run begins with (`prepare`), has all workers run on
//! threads of their own (`start`), and collects what they gave back into the outcome that is shown (`collect`). What a
//! worker is says `worker`.
//!
//! ```rust
//! let outcome = qs_run::execute(rt, alloc, &program, Mode::Both, ChunkSize::new(8)?, &FreeGate).ok()?;
//! ```
#![tactic(auto)]

pub mod client;
mod collect;
mod execution;
pub mod handler;
pub mod laws;
pub mod many;
mod prepare;
mod start;
mod starter;
mod worker;

pub use crate::handler::{FreeGate, Gate};
pub use execution::{execute, execute_with};
pub use qs_played::{Outcome, RunFault};
pub use starter::{FreeStart, Starter};
