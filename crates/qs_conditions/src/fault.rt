// Faults of reading.

use std::alloc::AllocError;
use thiserror::Error;

/// Why a text is no condition. A place is how many bytes stand before the fault in the text.
#[derive(Clone, Copy, Debug, PartialEq, Eq, Error)]
pub enum ConditionFault {
    /// A byte that begins no sign; a `=`, `&` or `|` alone too.
    #[error("byte at {place}")]
    Byte { place: usize },
    /// A number of more than 18 digits. Its place is the first of them.
    #[error("number at {place}")]
    Number { place: usize },
    /// A name of more than 16 bytes. Its place is the first of them.
    #[error("name at {place}")]
    Name { place: usize },
    /// The signs are no condition's. Its place is the first sign with which no reading goes on, or the text's end.
    #[error("form at {place}")]
    Form { place: usize },
    /// Memory ran out.
    #[error("memory")]
    Memory,
}

impl From<AllocError> for ConditionFault {
    ghost use Rattle.std.specs.Prelude.{◌≡◌};
    ghost use Rattle.qs_conditions.specs.declared.fault.ConditionFault.TheVariants.{Memory};

    ghost from_gives = { λ _ e. e ≡ Memory };

    fn from(_: AllocError) -> ConditionFault {
        ConditionFault::Memory
    }
}

// Why no condition was read: no reading goes on at a sign, and so many signs were left there; or memory ran out.
#[derive(Drop)]
pub(crate) enum SignFault {
    Form(usize),
    Memory,
}

impl From<AllocError> for SignFault {
    ghost use Rattle.std.specs.Prelude.{◌≡◌};
    ghost use Rattle.qs_conditions.specs.declared.fault.SignFault.TheVariants.{Memory};

    ghost from_gives = { λ _ e. e ≡ Memory };

    fn from(_: AllocError) -> SignFault {
        SignFault::Memory
    }
}
