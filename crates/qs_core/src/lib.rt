//! The optimised machine, and what is played on it; with it all that the plain rules, the laws of both, and comparisons
//! offer.
//!
//! ```rust
//! let played = qs_core::play(alloc, &program, Mode::Both, ChunkSize::new(8)?, &[], MOST_ROUNDS).ok()?;
//! ```
#![tactic(auto)]

mod core_effect;
mod core_effects;
mod core_machine;
mod core_orders;
mod core_schedules;
pub mod laws;
mod optimised;
pub mod parts;
pub mod shown;
pub mod state;
mod stuck;

pub use core_effect::CoreEffect;
pub use core_orders::play_in_order;
pub use core_schedules::play;
pub use optimised::Core;
pub use qs_objects::Traces;
pub use qs_plain::{Awaited, Effect, Rules, play_plain, play_plain_in_order};
pub use qs_plain_laws::QueueItem;
pub use qs_played::twin::{Twin, twin};
pub use qs_played::{Actor, PlayFault, Played, Sequence};
