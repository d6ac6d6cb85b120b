//! The limits of a condition.

/// Bytes of a name.
pub(crate) const LONGEST_NAME: usize = 16;

/// Digits of a number.
pub(crate) const MOST_DIGITS: usize = 18;

/// Negations and brackets one inside another.
pub const MOST_NESTED: u8 = 16;
