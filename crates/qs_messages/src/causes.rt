//! Where a script is at fault, and what is wrong there.

mod bytes;
mod excess;
mod expected;
mod filled;
mod finding;
mod follow;
mod foreign;
mod known;
mod operations;
mod refusal;
mod said;
mod shape;
mod source;
mod spans;
mod stage;
mod telling;
mod usual;
mod words;

pub(crate) use bytes::name_bytes;
pub(crate) use foreign::open_before;
pub(crate) use said::{joined, part};
pub use source::Source;
pub use spans::{PlacedToken, SpanFault, placed_tokens};
pub(crate) use stage::token_back;
pub use telling::{tell_check, tell_read};
pub use words::is_near;
