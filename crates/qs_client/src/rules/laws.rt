//! What holds of each client's acts; and worked examples.

ghost use Rattle.qs_client.specs.rules.ClientExamples.{ClientExamples};
ghost use Rattle.qs_client.specs.rules.ClientLaws.{ActsLoseNothing, SendsAreParted};

/// Clients with their acts, computed by the definitions; it does nothing.
pub fn client_examples()
    ensures examples { ClientExamples }
{}

/// What a client does once it sent a parcel it does without what the parcel carried; it does nothing.
pub fn sends_are_parted()
    ensures parted { SendsAreParted }
{}

/// What an act carries was the client's own, and with it the client is as it was; a chunk has the size of all chunks.
/// It does nothing.
pub fn acts_lose_nothing()
    ensures whole { ActsLoseNothing }
{}
