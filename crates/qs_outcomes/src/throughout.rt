//! A question to every configuration on the way, not only to the ends: a search breadth first.

mod search;

pub use search::ask_throughout;
