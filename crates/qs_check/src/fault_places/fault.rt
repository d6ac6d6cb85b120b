//! Why a script is refused.

use std::alloc::AllocError;
use thiserror::Error;

/// The first fault of a script in text order; `Load` and `Weight` come after the whole text, in this order.
#[derive(Clone, Copy, Debug, PartialEq, Eq, Error)]
pub enum CheckFault {
    /// An earlier object, client, template, or formal of the same template has the name.
    #[error("1 Twice")]
    Twice,
    /// No object of the name was declared before.
    #[error("2 UnknownObject")]
    UnknownObject,
    /// The block's list has the object already.
    #[error("3 ReservedTwice")]
    ReservedTwice,
    /// The block does not reserve the object.
    #[error("4 NotReserved")]
    NotReserved,
    /// The object's kind has no command, or no query, of the name.
    #[error("5 UnknownOp")]
    UnknownOp,
    /// The operation takes another number of arguments.
    #[error("6 Arity")]
    Arity,
    /// A `leave` stands inside no `repeat`.
    #[error("7 LeaveOutside")]
    LeaveOutside,
    /// A ninth object, client, template, or formal of a template; a 65th block or a 17th variable of a client or a
    /// template.
    #[error("8 Limit")]
    Limit,
    /// A number is out of its range.
    #[error("9 Range")]
    Range,
    /// There can be more than 100,000 requests.
    #[error("10 Load")]
    Load,
    /// There can be more than 1,000,000 steps.
    #[error("11 Weight")]
    Weight,
    /// An allocation failed.
    #[error("12 Memory")]
    Memory,
    /// No template of the name was declared before.
    #[error("13 UnknownTemplate")]
    UnknownTemplate,
    /// The template has another number of formals.
    #[error("14 Count")]
    Count,
    /// The object is of another kind than the formal for which it is given.
    #[error("15 OtherKind")]
    OtherKind,
}

impl From<AllocError> for CheckFault {
    ghost use Rattle.std.specs.Prelude.{◌≡◌};
    ghost use Rattle.qs_check.specs.declared.fault_places.fault.CheckFault.TheVariants.{Memory};

    ghost from_gives = { λ _ e. e ≡ Memory };

    fn from(_: AllocError) -> CheckFault {
        CheckFault::Memory
    }
}
