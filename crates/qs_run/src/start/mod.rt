//! Starting a run: all workers on threads of their own, none of which does anything before all are started.

mod group;
mod latch;
mod threads;

pub(crate) use group::NewGroup;
pub(crate) use threads::{RunResults, run_workers};
