//! What the optimised machine does, for callers' proofs and for readers.

ghost use Rattle.qs_core_laws.specs.CoreSchedule.{CoreRunsAreIsolated};
ghost use Rattle.qs_core_laws.specs.CoreSyncSums.{CoreSyncsAreCounted};

/// In the optimised machine, for every checked program, mode, chunk size and list of actors, at every moment: each
/// reservation has done what its block does alone, at its place in the order of reservations. It does nothing.
pub fn core_runs_are_isolated()
    ensures isolated { CoreRunsAreIsolated }
{}

/// In the optimised machine, for every checked program, mode, chunk size and list of actors, at every moment: the Syncs
/// that each reservation has sent for each object are counted by its trace, as its mode says, and make up all that were
/// sent. It does nothing.
pub fn core_syncs_are_counted()
    ensures counted { CoreSyncsAreCounted }
{}
