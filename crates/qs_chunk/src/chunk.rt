//! The chunk: values in order, in a ring of places.

ghost use Rattle.std.specs.Prelude.{◌≡◌, ◌==◌, ◌<◌, ◌≤◌, ◌↔◌, [], ◌∷◌, ◌++◌, length, IfNone, IfSome, IfOk, IfErr, IsOk};
ghost use Rattle.qs_chunk.specs.audit.Batch.{batch};
ghost use Rattle.qs_chunk.specs.Limits.{largest_chunk};
ghost use Rattle.std.specs.Vec.Ownership.{FitsInBlock};

use crate::cells::{Room, make};
use crate::places::{place_after, place_on};
use crate::size::ChunkSize;
use std::alloc::{AllocError, Global};
use std::marker::Model;
use std::mem::size_of;

/// Values in order, at most as many as the capacity. No call but the constructor takes memory. They lie from the place
/// `start` on, and go on at place 0 behind the last place.
pub struct Chunk<T> {
    room: Room<T, Global>,
    capacity: usize,
    start: usize,
    count: usize,
    alloc: Global,
}

// A pointer and three numbers, and no other field that has a size.
const _: () = prove!(size_of::<Chunk<u8>>() == 32);

impl<T> Model for Chunk<T> {
    ghost use Rattle.std.specs.Prelude.{◌≡◌, ◌≤◌};
    ghost use Rattle.qs_chunk.specs.audit.Batch.{Batch, batch, batch_code};
    ghost use Rattle.qs_chunk.specs.Limits.{largest_chunk};
    ghost use Rattle.qs_chunk.specs.Ring.{ring_values, IsRing};

    ghost Value = { Batch T };

    ghost coded = { batch_code T.code };

    ghost view = { λ c. batch (ring_values c.start c.room.places) c.capacity };

    ghost invariant = { λ c. IsRing c.room.places c.capacity c.start c.count × (c.room.giver ≡ c.alloc) × (1 ≤ c.capacity) × (c.capacity ≤ largest_chunk) };
}

impl<T> Chunk<T> {
    /// An empty chunk with all its memory. An error says that the allocator refused this memory. Of the values as many
    /// as the largest chunk has fit into one block of memory, which may have 2^63 - 1 bytes.
    pub fn with_capacity(alloc: Global, size: ChunkSize) -> Result<Chunk<T>, AllocError>
        requires fits { FitsInBlock T.row largest_chunk }
        ensures empty { IfOk result (λ chunk. chunk ≡ batch [] size) }
    {
        let capacity = usize::from(size.get());
        let room = make(&alloc, capacity)?;
        Ok(Chunk {
            room,
            capacity,
            start: 0,
            count: 0,
            alloc,
        })
    }

    /// How many values there are.
    pub fn len(&self) -> usize
        ensures count { result ≡ length self.now.items }
        ensures within { result ≤ self.now.capacity }
    {
        self.count
    }

    /// How many values there may be: from 1 to 32.
    pub fn capacity(&self) -> usize
        ensures capacity { result ≡ self.now.capacity }
        ensures within { (1 ≤ result) × (result ≤ largest_chunk) }
    {
        self.capacity
    }

    /// Adds a value at the end of a chunk that is not full. Answers whether it is full then.
    #[inline(always)]
    pub fn add(&mut self, item: T) -> bool
        requires room { length self.old.items < self.old.capacity }
        ensures added { self.new ≡ batch (self.old.items ++ item ∷ []) self.old.capacity }
        ensures full { result ≡ (length self.new.items == self.new.capacity) }
    {
        let count = self.count;
        let capacity = self.capacity;
        let back = place_on(self.start, count, capacity);
        self.room.write(back, item);
        self.count = count + 1;
        count + 1 == capacity
    }

    /// Adds a value at the end. It comes back exactly where the chunk is full, and nothing changes then.
    pub fn push(&mut self, item: T) -> Result<(), T>
        ensures fits { IsOk result ↔ (length self.old.items < self.old.capacity) }
        ensures ok { IfOk result (λ _. self.new ≡ batch (self.old.items ++ item ∷ []) self.old.capacity) }
        ensures err { IfErr result (λ back. (back ≡ item) × (self.new ≡ self.old)) }
    {
        if self.count >= self.capacity {
            return Err(item);
        }
        self.add(item);
        Ok(())
    }

    /// Takes the first value out. There is none exactly where the chunk is empty.
    pub fn take_front(&mut self) -> Option<T>
        ensures none { IfNone result ((self.old.items ≡ []) × (self.new ≡ self.old)) }
        ensures some { IfSome result (λ item. self.old ≡ batch (item ∷ self.new.items) self.new.capacity) }
    {
        if self.count == 0 {
            return None;
        }
        let front = self.start;
        self.start = place_after(front, self.capacity);
        self.count -= 1;
        Some(self.room.read(front))
    }
}

impl<T: Drop> Drop for Chunk<T> {
    // The pattern names each field, so that a further one would be seen.
    fn drop(self) {
        let Chunk {
            mut room,
            capacity,
            start,
            count,
            alloc,
        } = self;
        room.drop_values(capacity, start, count);
        room.free(&alloc, capacity);
    }
}
