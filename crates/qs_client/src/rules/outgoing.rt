//! What a client's last act gave out.

ghost use Rattle.std.specs.Prelude.{◌≡◌};
ghost use Rattle.qs_client.specs.audit.rules.Outgoings.{count_sync};

/// What the last act gave out and is still to be confirmed as sent: nothing, an object or a chunk, a Sync to this
/// handler, or an End.
#[derive(Clone, Copy)]
pub enum Outgoing {
    Nothing,
    Value,
    Sync(u8),
    End,
}

impl Outgoing {
    /// How many Syncs were sent.
    pub fn syncs(self) -> u64
        ensures value { result ≡ count_sync self }
    {
        match self {
            Outgoing::Sync(_) => 1,
            Outgoing::Nothing | Outgoing::Value | Outgoing::End => 0,
        }
    }
}
