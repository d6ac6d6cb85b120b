//! The modes of coalescing: the removal of synchronisations with handlers that are held, and the code that a client
//! runs.
#![tactic(auto)]

mod code;
pub mod held;
pub mod laws;
mod mode;
mod removal;

pub use crate::held::{Sets, Turns, held_sets, held_sets_counted};
pub use code::{Code, compile};
pub use mode::Mode;
pub use removal::coalesce;
