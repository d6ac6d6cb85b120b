//! Alike clients: those with the same text, which may change places. A search looks at one of all configurations that
//! differ by this alone.
#![tactic(auto)]

mod apart;
mod classes;
mod followed;
pub mod laws;
mod placing;
mod texts;

pub use apart::classes_apart;
pub use classes::{Classes, are_alike, are_alone, classes_of, each_alone};
pub use followed::goes_on_up_to;
pub use placing::{arrange, put_placed};
