//! Where a client stands under the plain rules.

/// Between two blocks, in a block, or waiting for the reply that goes into a variable.
#[derive(Clone, Copy, Debug, PartialEq, Eq)]
pub enum Stage {
    Out,
    Within,
    Waiting(u8),
}
