//! The machine of the plain rules: for each handler a queue of queues, and in it a private queue of single requests for
//! each reservation.
#![tactic(auto)]

mod awaited;
pub mod client;
mod did;
pub mod handler;
mod machine;
mod orders;
mod rules;
mod schedules;
mod showing;

pub use crate::handler::Effect;
pub use awaited::Awaited;
pub use orders::play_plain_in_order;
pub use rules::Rules;
pub use schedules::play_plain;
