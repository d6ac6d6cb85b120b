//! What holds of the counts, for callers' proofs and for readers.

ghost use Rattle.qs_outcomes.specs.alike.AlikeOutcomes.{CountsAreAll};

/// The counts of what is listed add up to how many outcomes there are in all. It does nothing.
pub fn counts_are_all()
    ensures all { CountsAreAll }
{}
