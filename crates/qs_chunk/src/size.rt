//! How many values a chunk holds.

ghost use Rattle.std.specs.Prelude.{◌≡◌, ◌≤◌, ◌↔◌, IsSome, IfSome};
ghost use Rattle.qs_chunk.specs.Limits.{largest_chunk};

use crate::limits::LARGEST_CHUNK;
use std::marker::Model;

/// How many values a chunk holds: from 1 to 32.
#[derive(Clone, Copy, Debug, PartialEq, Eq)]
pub struct ChunkSize {
    size: u8,
}

impl Model for ChunkSize {
    ghost use Rattle.std.specs.Prelude.{ℕ, ◌≤◌};
    ghost use Rattle.qs_chunk.specs.Limits.{largest_chunk};

    ghost Value = { ℕ };

    ghost view = { λ s. s.size };

    ghost invariant = { λ s. (1 ≤ s.size) × (s.size ≤ largest_chunk) };

    ghost inverse = { λ n. record { size = n } };
}

impl ChunkSize {
    /// The size, where it is from 1 to 32.
    pub fn new(size: u8) -> Option<ChunkSize>
        ensures within { IsSome result ↔ ((1 ≤ size) × (size ≤ largest_chunk)) }
        ensures size { IfSome result (λ made. made ≡ size) }
    {
        if 1 <= size && size <= LARGEST_CHUNK {
            Some(ChunkSize { size })
        } else {
            None
        }
    }

    /// The number.
    pub fn get(self) -> u8
        ensures size { result ≡ self }
        ensures within { (1 ≤ result) × (result ≤ largest_chunk) }
    {
        self.size
    }
}
