//! Conditions on what a program comes to: their text, the tree that it has, and the steps by which they are answered.
//!
//! ```rust
//! let condition = qs_conditions::read_condition(alloc, b"a.balance() == 100").ok()?;
//! ```
#![tactic(auto)]

mod claim;
mod condition;
mod expect;
mod fault;
pub mod laws;
mod limits;
mod parts;
mod reader;
mod signs;
mod values;

pub use claim::{Claim, Quantifier};
pub use condition::{Condition, Step, Sum, Summand, Value};
pub use fault::ConditionFault;
pub use limits::MOST_NESTED;
pub use qs_objects::Args;
pub use qs_script::tokens::Name;
pub use qs_script::tree::Relation;
pub use reader::{read_condition, read_sum};
pub use signs::{Placed, Sign};
