//! Scripts: from a text to its tree.
//!
//! ```rust
//! let script = qs_script::read(alloc, text.as_bytes()).ok()?;
//! ```
#![tactic(auto)]

mod expect;
mod fault;
pub mod grammar;
mod items;
pub mod laws;
mod lines;
mod lists;
mod reader;
mod statements;
mod templates;
pub mod tokens;
pub mod tree;
mod values;

pub use crate::tree::{
    ArgumentList, Atom, Block, Blocks, Body, Call, ClientItem, Expr, Formal, Formals, Item,
    KindText, KindWord, LONGEST_TEXT, Name, NameList, Number, ObjectItem, Operator, Relation,
    Script, StartedItem, Stmt, TemplateItem, Test,
};
pub use fault::ReadFault;
pub use reader::{begins_script, form_place, read};
