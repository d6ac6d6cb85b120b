//! Why a list names nobody.

use std::alloc::AllocError;

/// What is wrong with a part.
#[derive(Clone, Copy, Debug, PartialEq, Eq)]
pub enum Why {
    /// The program has no client and no object of the name.
    Unknown,
    /// A client and an object have the name.
    Both,
    /// A list of clients names an object.
    NoClient,
}

/// Why a list names no actors.
#[derive(Clone, Copy, Debug, PartialEq, Eq)]
pub enum ListFault {
    /// The part at this place, from 0.
    Part { place: usize, why: Why },
    /// Out of memory.
    Memory,
}

impl From<AllocError> for ListFault {
    ghost use Rattle.std.specs.Prelude.{◌≡◌};
    ghost use Rattle.qs_line.specs.declared.fault.ListFault.TheVariants as fault;

    ghost from_gives = { λ _ f. f ≡ fault.Memory };

    fn from(_error: AllocError) -> ListFault {
        ListFault::Memory
    }
}
