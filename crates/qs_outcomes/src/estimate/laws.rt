//! What the bounds say of a search, for callers' proofs and for readers.

ghost use Rattle.qs_outcomes.specs.estimate.Laws.{LeastIsThere, MostSuffices, MostSufficesForAnswers};

/// No search after a front notes more configurations than there are orders of up to as many blocks of each client as it
/// has left, neither one for all outcomes nor one for an answer. It does nothing.
pub fn most_suffices()
    ensures reduced { MostSuffices }
    ensures answers { MostSufficesForAnswers }
{}

/// Where a search over all that is on the way has come to its end, and nobody changes places, it has noted as many configurations as there are
/// choices of how many of its blocks each client has run, or more. It does nothing.
pub fn least_is_there()
    ensures there { LeastIsThere }
{}
