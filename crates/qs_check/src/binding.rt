//! The blocks of a template, with each formal replaced by the object that is given for it.

mod bind;

pub use bind::bind_blocks;
