//! What a client does next.

ghost use Rattle.std.specs.Prelude.{◌≡◌};
ghost use Rattle.qs_client.specs.audit.rules.Outgoings.{outgoing_of};

use crate::rules::outgoing::Outgoing;
use qs_chunk::Parcel;

/// What a client does next: reserves its next block, sends a parcel to a handler, waits for the handler's object, takes
/// an empty chunk of that lane, or has ended.
#[derive(Drop)]
pub enum Act {
    Reserve,
    Send(u8, Parcel),
    Await(u8),
    NeedChunk(u8),
    Finished,
}

impl Act {
    /// What the act gives out, as far as something is left to be done once that was sent.
    pub fn outgoing(&self) -> Outgoing
        ensures value { result ≡ outgoing_of self.now }
    {
        let Act::Send(handler, parcel) = self else {
            return Outgoing::Nothing;
        };
        match parcel {
            Parcel::Home(_) => Outgoing::Value,
            Parcel::Work(_) => Outgoing::Value,
            Parcel::Sync => Outgoing::Sync(*handler),
            Parcel::End => Outgoing::End,
        }
    }
}
