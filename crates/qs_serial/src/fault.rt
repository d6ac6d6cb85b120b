//! Why an order was not played.

use std::alloc::AllocError;
use thiserror::Error;

/// Why the blocks of a list of clients were not played. Nothing is left of it.
#[derive(Clone, Copy, Debug, PartialEq, Eq, Error)]
pub enum OrderFault {
    /// An allocation failed.
    #[error("1 Memory")]
    Memory,
    /// The list of clients names no order: it names no client, or more blocks than a client has.
    #[error("4 Order")]
    Order,
}

impl From<AllocError> for OrderFault {
    ghost use Rattle.std.specs.Prelude.{◌≡◌};
    ghost use Rattle.qs_serial.specs.declared.fault.OrderFault.TheVariants.{Memory};

    ghost from_gives = { λ _ e. e ≡ Memory };

    fn from(_: AllocError) -> OrderFault {
        OrderFault::Memory
    }
}
