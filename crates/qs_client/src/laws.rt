//! What the definitions say of clients, for callers' proofs and for readers.

ghost use Rattle.qs_client.specs.ClientLanes.{ClientLaneLaws};

pub use crate::rules::laws::{acts_lose_nothing, client_examples, sends_are_parted};

/// What a mind gives out to be sent to a handler may follow what it sent there before, in chunks of its size, whatever
/// comes to it meanwhile. It does nothing.
pub fn sends_may_follow()
    ensures lanes { ClientLaneLaws }
{}
