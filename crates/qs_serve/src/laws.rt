//! What the headline says of what is written.

ghost use Rattle.qs_serve.specs.Headline.{ReportsAreUnique};

/// By the plain rules and on the optimised machine the headline allows one text alone: two texts that it allows for one
/// line, by picks and rounds and without lines of steps or of queues, and for one input are the same. So each text but
/// the one that is due breaks it. It does nothing.
pub fn reports_are_unique()
    ensures unique { ReportsAreUnique }
{}
