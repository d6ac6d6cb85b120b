//! Why a search was refused.

use std::alloc::{AllocError, AllocFailed};
use thiserror::Error;

/// Why the outcomes of a program were not found. Nothing is left of the search.
#[derive(Clone, Copy, Debug, PartialEq, Eq, Error)]
pub enum OutcomesFault {
    /// An allocation failed.
    #[error("1 Memory")]
    Memory,
    /// There are more configurations than the limit.
    #[error("2 Limit")]
    Limit,
    /// The list of clients names no order: it names no client, or more blocks than a client has.
    #[error("3 Order")]
    Order,
}

impl From<AllocError> for OutcomesFault {
    ghost use Rattle.std.specs.Prelude.{◌≡◌};
    ghost use Rattle.qs_outcomes.specs.declared.fault.OutcomesFault.TheVariants.{Memory};

    ghost from_gives = { λ _ e. e ≡ Memory };

    fn from(_: AllocError) -> OutcomesFault {
        OutcomesFault::Memory
    }
}
