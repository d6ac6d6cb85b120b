//! Why a run was refused.

use std::alloc::AllocError;
use thiserror::Error;

/// Why a run was not played. Nothing is left of it.
#[derive(Clone, Copy, Debug, PartialEq, Eq, Error)]
pub enum PlayFault {
    /// An allocation failed.
    #[error("1 Memory")]
    Memory,
    /// A pick names no actor of the program.
    #[error("2 Actor")]
    Actor,
    /// More than 1,000,000 rounds; this is tested before the picks.
    #[error("3 Rounds")]
    Rounds,
}

impl From<AllocError> for PlayFault {
    ghost use Rattle.std.specs.Prelude.{◌≡◌};
    ghost use Rattle.qs_played.specs.declared.fault.PlayFault.TheVariants.{Memory};

    ghost from_gives = { λ _ e. e ≡ Memory };

    fn from(_: AllocError) -> PlayFault {
        PlayFault::Memory
    }
}

/// Why a program was not run on threads. It comes before the first step: no request has run.
#[derive(Clone, Copy, Debug, PartialEq, Eq, Error)]
pub enum RunFault {
    /// An allocation failed.
    #[error("1 Memory")]
    Memory,
    /// A worker's thread could not be started; those that were started have ended.
    #[error("2 Threads")]
    Threads,
}

impl From<AllocError> for RunFault {
    ghost use Rattle.std.specs.Prelude.{◌≡◌};
    ghost use Rattle.qs_played.specs.declared.fault.RunFault.TheVariants.{Memory};

    ghost from_gives = { λ _ e. e ≡ Memory };

    fn from(_: AllocError) -> RunFault {
        RunFault::Memory
    }
}
