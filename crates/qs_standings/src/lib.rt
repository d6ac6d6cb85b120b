//! Configurations as code has them: where a program stands between blocks, who goes on there, and the row by which it
//! is found again.
#![tactic(auto)]

mod copies;
mod front;
pub mod going;
mod hints;
mod packed;
mod rows;
mod scratch;
mod standing;
mod table;
mod variables;

pub use crate::going::{Last, last_blocks};
pub use copies::copied;
pub use front::{placed, standing_after};
pub use hints::Hints;
pub use packed::Packed;
pub use rows::{Draft, Row, row_starts};
pub use scratch::{Scratch, put_by, spare_standing};
pub use standing::Standing;
pub use table::{insert, was_seen};
