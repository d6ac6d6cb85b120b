//! What the definitions say, for readers.

ghost use Rattle.qs_messages.specs.Certainties.{CertaintiesAreAll, CertaintiesAreSo};

/// A request of which a warning says what becomes of it fares so in each state that its object may be in; it does
/// nothing.
pub fn certainties_are_so()
    ensures so { CertaintiesAreSo }
{}

/// A request that fares so in each state that its object may be in is warned of; it does nothing.
pub fn certainties_are_all()
    ensures all { CertaintiesAreAll }
{}
