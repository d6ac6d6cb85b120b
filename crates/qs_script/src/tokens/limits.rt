//! The limits of a token.

/// Bytes of a name.
pub(crate) const LONGEST_NAME: usize = 16;

/// Digits of a number.
pub(crate) const MOST_DIGITS: usize = 18;
