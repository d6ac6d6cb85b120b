//! What a client does next, as a definition; the laws of its acts; and worked examples.

mod act;
pub mod laws;
mod outgoing;

pub use act::Act;
pub use outgoing::Outgoing;
