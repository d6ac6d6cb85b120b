//! The limits of a script.

/// Bytes of a script.
pub const LONGEST_TEXT: usize = 65_536;

/// Statements one inside another: each inside at most eight others.
pub const MOST_LEVELS: u8 = 9;
