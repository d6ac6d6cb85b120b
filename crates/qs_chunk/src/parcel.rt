//! What travels from a client to a handler.

use crate::chunk::Chunk;
use qs_objects::{Held, Request};

/// What a client sends to a handler: a chunk of requests to run, a wish for the object, the object on its way home, or
/// the end of the block.
#[derive(Drop)]
pub enum Parcel {
    Work(Chunk<Request>),
    Sync,
    Home(Held),
    End,
}
