//! What a client's step under the plain rules did.

ghost use Rattle.std.specs.Prelude.{◌≡◌};
ghost use Rattle.qs_plain.specs.StepEffects.{has_stepped};

use qs_program::Call;

/// What a client's step did, a request as its text has it.
#[derive(Clone, Copy)]
pub(crate) enum Did<'p> {
    Nothing,
    Reserved,
    Logged(&'p Call),
    Asked(&'p Call),
    Ended,
}

impl Did<'_> {
    /// Whether it stepped.
    pub(crate) fn has_stepped(self) -> bool
        ensures value { result ≡ has_stepped self.entry }
    {
        !matches!(self, Did::Nothing)
    }
}
