//! What a client waits for under the plain rules.

/// What a client waits for: for nothing, as it has a step; for the reply of its query; or it is done.
#[derive(Clone, Copy, Debug, PartialEq, Eq)]
pub enum Awaited {
    Nothing,
    Reply,
    Done,
}
