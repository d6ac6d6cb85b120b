//! What is so of all running threads, for callers' proofs and for readers.

ghost use Rattle.qs_run_laws.specs.Outcomes.{ThreadRunsHaveOutcomes};

/// The law of running threads, whatever their schedule, in each mode and with each chunk size: once all have ended,
/// what is shown of the run is an outcome. `IsOutcome` is a list of promises, each of which can be read by itself: the
/// order is legal and has each block of the program exactly once, traces, journals and states are those of the serial
/// run along it, and the synchronisations are the exact counts of the mode. This function does nothing.
pub fn settled()
    ensures outcomes { ThreadRunsHaveOutcomes }
{}
