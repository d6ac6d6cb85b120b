//! Who steps.

/// Who makes a step: a client or an object's handler, by its number in text order.
#[derive(Clone, Copy, Debug, PartialEq, Eq)]
pub enum Actor {
    Client(u8),
    Handler(u8),
}
