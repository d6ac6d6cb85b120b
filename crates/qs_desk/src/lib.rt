//! The desk, at which clients reserve handlers: one order of all reservations, and a queue of tickets for each handler.
//!
//! ```rust
//! let raw = qs_desk::RawDesk::new(alloc, &program).ok()?;
//! let DeskParts { mut desk, shares, tickets } = raw.open::<D>();
//! ```
#![tactic(auto)]

mod bookings;
mod desk;
mod front;
pub mod laws;
mod name;
mod plan;
mod queue;
mod raw;
mod share;
mod wake;

pub use desk::Desk;
pub use front::Front;
pub use name::DeskName;
pub use queue::Tickets;
pub use raw::{DeskParts, RawDesk};
pub use share::Share;
