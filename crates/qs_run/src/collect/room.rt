//! The room for a run's outcome, which is taken before the run.

ghost use Rattle.std.specs.Prelude.{◌≡◌, ◌≤◌, vec_len, vec_capacity};
ghost use Rattle.qs_program.specs.audit.Limits.{most_clients, most_objects};
ghost use Rattle.qs_program.specs.Limits.{most_tickets};

use qs_objects::{Journal, Object};
use qs_played::ClientRows;
use qs_program::{MOST_CLIENTS, MOST_OBJECTS, MOST_TICKETS};
use std::alloc::{AllocError, Global};

/// Empty vectors with room for the outcome of any program's run: for each of 512 tickets whether its block has ended,
/// for each of 8 clients its rows, and for each of 8 objects its journal and its state.
#[derive(Drop)]
pub(crate) struct OutcomeRoom {
    pub(crate) ended: Vec<bool>,
    pub(crate) rows: Vec<ClientRows>,
    pub(crate) journals: Vec<Journal>,
    pub(crate) states: Vec<Object>,
    ghost empty: { (vec_len ended ≡ 0) × (vec_len rows ≡ 0) × (vec_len journals ≡ 0) × (vec_len states ≡ 0) },
    ghost room: { (most_tickets ≤ vec_capacity ended) × (most_clients ≤ vec_capacity rows)
        × (most_objects ≤ vec_capacity journals) × (most_objects ≤ vec_capacity states) },
}

impl OutcomeRoom {
    /// Takes all the room. An error says that an allocation failed.
    pub(crate) fn new(alloc: Global) -> Result<OutcomeRoom, AllocError> {
        let ended = Vec::with_capacity(alloc, MOST_TICKETS)?;
        let rows = Vec::with_capacity(alloc, MOST_CLIENTS)?;
        let journals = Vec::with_capacity(alloc, MOST_OBJECTS)?;
        let states = Vec::with_capacity(alloc, MOST_OBJECTS)?;
        Ok(OutcomeRoom {
            ended,
            rows,
            journals,
            states,
        })
    }
}
