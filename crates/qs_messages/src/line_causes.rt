//! Why a command line is refused, in words: of its settings, its lists and its conditions.

mod claims;
mod condition;
mod hints;
mod line;
mod lists;
mod order;
mod pick;
mod program;
mod refused;
mod unknown;

pub(crate) use claims::placed_claims;
pub(crate) use condition::conditions_on;
pub use order::{put_front, put_order};
pub use pick::put_pick;
pub(crate) use refused::is_of_claims;
pub use refused::put_refused;
pub(crate) use unknown::{kind_of, operation_of};
