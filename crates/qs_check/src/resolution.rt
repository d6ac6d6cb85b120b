//! From names to numbers: the objects and the clients of a script whose text has no fault.

mod resolve;
mod start;

pub use resolve::{resolve_clients, resolve_objects};
