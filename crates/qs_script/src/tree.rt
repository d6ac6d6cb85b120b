//! Trees of scripts: what a script is, as a value.

mod limits;
mod lists;
mod tree;

pub use crate::tokens::{Name, Number};
pub use limits::{LONGEST_TEXT, MOST_LEVELS};
pub use lists::add;
pub use tree::{
    ArgumentList, Atom, Block, Blocks, Body, Call, ClientItem, Expr, Formal, Formals, Item,
    KindText, KindWord, NameList, ObjectItem, Operator, Relation, Script, StartedItem, Stmt,
    TemplateItem, Test,
};
