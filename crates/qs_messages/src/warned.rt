//! What is warned of in a script that is accepted, and its words.

mod certainties;
mod claims;
mod doings;
mod finding;
mod held;
pub mod laws;
mod places;
mod warning;
mod words;

pub use claims::put_claim_warnings;
pub use finding::warnings;
pub use held::put_held_all;
pub use warning::Warning;
pub use words::warnings_text;
