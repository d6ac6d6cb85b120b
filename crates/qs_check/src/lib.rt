//! The check of a script: its names become numbers, and what a program may not have is refused.
//!
//! ```rust
//! let program = qs_check::check(alloc, script).ok()?;
//! ```
#![tactic(auto)]

pub mod anchors;
pub mod binding;
mod checker;
mod excess;
pub mod fault_places;
pub mod laws;
pub mod resolution;

pub use crate::fault_places::CheckFault;
pub use checker::check;
pub use excess::{Excess, Measure, first_excess};
pub use qs_program::{
    Atom, Atoms, Block, Body, Call, Client, Declared, Expr, Locals, Names, Program, Start, Stmt,
    Test,
};
