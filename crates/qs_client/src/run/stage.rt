//! The stage of a client.

/// Between blocks; in a block; there with a full chunk for a handler; waiting for an object; or at the block's end,
/// leaving the handler at this place of the block's list.
#[derive(Clone, Copy)]
pub enum Stage {
    Between,
    Runs,
    Full(u8),
    Awaits(u8),
    Leaves(usize),
}
