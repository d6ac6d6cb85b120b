//! The places of a script where something may be wrong, in text order, and the first fault among them.

mod fault;
mod listed;
mod operators;
mod scope;
mod walk;

pub use fault::CheckFault;
pub use operators::find_op;
pub use scope::{Scope, check_number, formal_value, kind_at};
pub use walk::{check_client, check_object, check_started, check_template, check_text, kind_value};
