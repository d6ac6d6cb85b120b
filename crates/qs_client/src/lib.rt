//! What a client does next: its mind.
//!
//! ```rust
//! let mut mind = qs_client::Mind::new(alloc, code, ChunkSize::new(8)?).ok()?;
//! let act = mind.next();
//! ```
#![tactic(auto)]

pub mod laws;
mod mind;
pub mod rules;
pub mod run;

pub use crate::rules::Act;
pub use mind::Mind;
