//! Who goes on at a configuration, found in bytes and without memory.

mod going;

pub use going::{Last, goes_on, groups, last_blocks, size};
