//! The page that says the whole language of scripts: `qs help language`.
//!
//! The lines of the operations are made from the table of `qs_objects`, so that none is missing.

mod operations;
mod page;
mod words;

pub use page::language_page;
