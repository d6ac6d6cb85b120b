//! What a handler does next: a pure value, which the machine of lists and the handler's thread both ask.
//!
//! ```rust
//! let mut mind = qs_handler::Mind::new(held);
//! mind.ticket(Next::Closed);
//! let act = mind.next();
//! ```
#![tactic(auto)]

pub mod laws;
mod mind;

pub use mind::{Act, Mind};
