//! Questions to a program: whether a condition speaks of what the program has, and whether it holds where an order has
//! come to its end.
//!
//! ```rust
//! let claim = Claim { line: 0, quantifier: Quantifier::Always, condition };
//! let found = qs_questions::answer(alloc, &program, &claim, &[], 1_000_000, &mut watcher).ok()?;
//! ```
#![tactic(auto)]

mod asking;
mod claims;
mod clients;
pub mod laws;
mod named;
mod stack;
mod sums;
mod unknown;
mod values;

pub use asking::holds;
pub use claims::answer;
pub use clients::named_clients;
pub use named::{ClientVariable, ObjectQuery};
pub use sums::{SumValue, values_of};
pub use unknown::{first_unknown, first_unknown_in_sum};
