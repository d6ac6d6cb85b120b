//! Checked programs: statements with names by number, values, limits, loads and weights.
#![tactic(auto)]

mod code;
mod hashing;
mod kinds;
mod limits;
mod name_texts;
mod names;
mod program;
mod totals;
mod values;

pub use code::{Atom, Atoms, Body, Call, Expr, Stmt, Test};
pub use hashing::NameHasher;
pub use kinds::same_kind;
pub use limits::{
    MOST_BLOCKS, MOST_CLIENTS, MOST_HANDLERS, MOST_OBJECTS, MOST_REQUESTS, MOST_STEPS,
    MOST_TICKETS, MOST_TURNS, MOST_VARIABLES,
};
pub use name_texts::{client_name, declared_name, object_name, short_name, variable_name};
pub use names::Names;
pub use program::{Block, Client, Declared, Program, Start};
pub use totals::{all_load, all_weight, block_load};
pub use values::{Locals, set_variable};
