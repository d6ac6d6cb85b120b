//! What the plain rules do, for callers' proofs and for readers.

ghost use Rattle.qs_plain_laws.specs.IsolationExamples.{IsolationExamples};
ghost use Rattle.qs_plain_laws.specs.PlainIsolation.{PlainRunsAreIsolated};
ghost use Rattle.qs_plain_laws.specs.PlainSyncSums.{PlainSyncsAreCounted};

/// Two clients that meet on one object, in both orders, with the states that each finds there and its commands on their
/// way, computed by the definitions; it does nothing.
pub fn isolation_examples()
    ensures examples { IsolationExamples }
{}

/// Under the plain rules, for every checked program and every list of actors, at every moment: each reservation has
/// done what its block does alone, at its place in the order of reservations. It does nothing.
pub fn plain_runs_are_isolated()
    ensures isolated { PlainRunsAreIsolated }
{}

/// Under the plain rules, for every checked program and every list of actors, at every moment: each reservation has
/// asked for each of its queries once, and these make up all synchronisations. It does nothing.
pub fn plain_syncs_are_counted()
    ensures counted { PlainSyncsAreCounted }
{}
