//! How many Syncs a client has sent, for each block and each object of its list.

ghost use Rattle.std.specs.Prelude.{◌≡◌, ◌<◌, ◌≤◌, ◌+◌, ◌-◌, ◌==◌, suc, if◌then◌else◌, [], ◌∷◌, ◌++◌, IfOk, IsErr, length, map, replicate, slice_index_or, slice_set};
ghost use Rattle.qs_objects.specs.audit.Rows.{join_rows};
ghost use Rattle.qs_objects.specs.Rows.{IsLast};
ghost use Rattle.qs_sync_counts.specs.audit.SyncRows.{count_of, no_syncs, object_of, one_more, sync_count, with_sync};
ghost use Rattle.qs_sync_counts.specs.SyncRows.{AreFew, all_counts, counts_state, greatest_count};

use qs_objects::Rows;
use std::alloc::{AllocError, Global};
use std::marker::Model;

/// An object and how many Syncs were sent for it.
#[derive(Clone, Copy, Debug, PartialEq, Eq)]
pub struct SyncCount {
    pub object: u8,
    pub count: u32,
}

/// For each block of a client, and each object of the block's list in order, how many Syncs were sent for it: the
/// counts of all blocks lie in one row. Memory is taken in `new` alone.
pub struct SyncCounts {
    objects: Rows<u8>,
    counts: Rows<u32>,
}

impl Drop for SyncCounts {
    fn drop(self) {
        let SyncCounts {
            objects: _,
            counts: _,
        } = self;
    }
}

impl Model for SyncCounts {
    ghost use Rattle.qs_sync_counts.specs.SyncRows.{AreAlike, CountsState, counts_state, with_counts};

    ghost Value = { CountsState };

    ghost view = { λ s. counts_state (with_counts s.objects.rows s.counts.rows) s.objects.room };

    ghost invariant = { λ s. AreAlike s.objects s.counts };
}

// The count at a place of a list, and one more where the list has the object there.
fn next_count(objects: &[u8], counts: &[u32], place: usize, object: u8) -> u32
    requires object { place < length objects.now }
    requires count { place < length counts.now }
    requires few { slice_index_or counts.now place 0 < greatest_count }
    ensures value { result ≡ (if slice_index_or objects.now place 0 == object then suc (slice_index_or counts.now place 0) else slice_index_or counts.now place 0) }
{
    if objects[place] == object {
        counts[place] + 1
    } else {
        counts[place]
    }
}

impl SyncCounts {
    /// So many blocks without objects, with room for so many objects together. An error says that this memory was
    /// refused: it comes only where there is a block or room.
    pub fn new(alloc: Global, blocks: usize, room: usize) -> Result<SyncCounts, AllocError>
        ensures fresh { IfOk result (λ s. s ≡ counts_state (replicate blocks []) room) }
        ensures memory { IsErr result → 0 < blocks + room }
    {
        let objects = Rows::new(alloc, blocks, room)?;
        let counts = Rows::new(alloc, blocks, room)?;
        Ok(SyncCounts { objects, counts })
    }

    /// Adds an object at the end of a block's list, without a Sync; later blocks have none yet.
    pub fn push(&mut self, block: usize, object: u8)
        requires block { block < length self.old.rows }
        requires last { IsLast self.old.rows block }
        requires room { 0 < self.old.room }
        ensures pushed { self.new ≡ counts_state (slice_set self.old.rows block (slice_index_or self.old.rows block [] ++ sync_count object 0 ∷ [])) (self.old.room - 1) }
    {
        self.objects.push(block, object);
        self.counts.push(block, 0);
    }

    /// Adds the objects of a list at the end of a block's, each without a Sync; later blocks have none yet.
    pub fn push_list(&mut self, block: usize, list: &[u8])
        requires block { block < length self.old.rows }
        requires last { IsLast self.old.rows block }
        requires room { length list.now ≤ self.old.room }
        ensures pushed { self.new ≡ counts_state (slice_set self.old.rows block (slice_index_or self.old.rows block [] ++ no_syncs list.now)) (self.old.room - length list.now) }
    {
        for object in list {
            self.push(block, *object);
        }
    }

    /// How many blocks there are.
    pub fn len(&self) -> usize
        ensures value { result ≡ length self.now.rows }
    {
        self.objects.len()
    }

    /// The objects of a block's list.
    pub fn objects(&self, block: usize) -> &[u8]
        requires block { block < length self.now.rows }
        ensures value { result.now ≡ map object_of (slice_index_or self.now.rows block []) }
    {
        self.objects.of(block)
    }

    /// How many Syncs a block has sent for each object of its list.
    pub fn counts(&self, block: usize) -> &[u32]
        requires block { block < length self.now.rows }
        ensures value { result.now ≡ map count_of (slice_index_or self.now.rows block []) }
    {
        self.counts.of(block)
    }

    /// The counts of all blocks, block after block.
    pub fn joined(&self) -> &[u32]
        ensures value { result.now ≡ join_rows (all_counts self.now.rows) }
    {
        self.counts.joined()
    }

    // A Sync more at one place of a block's list, where the list has the object there.
    fn add_at(&mut self, block: usize, place: usize, object: u8)
        requires block { block < length self.old.rows }
        requires place { place < length (slice_index_or self.old.rows block []) }
        requires few { count_of (slice_index_or (slice_index_or self.old.rows block []) place (sync_count 0 0)) < greatest_count }
        ensures added { self.new ≡ counts_state (slice_set self.old.rows block (slice_set (slice_index_or self.old.rows block []) place
            (one_more object (slice_index_or (slice_index_or self.old.rows block []) place (sync_count 0 0))))) self.old.room }
    {
        let count = next_count(self.objects.of(block), self.counts.of(block), place, object);
        self.counts.set(block, place, count);
    }

    /// A Sync more for an object, in a block.
    pub fn add(&mut self, block: usize, object: u8)
        requires block { block < length self.old.rows }
        requires few { AreFew greatest_count (slice_index_or self.old.rows block []) }
        ensures added { self.new ≡ counts_state (slice_set self.old.rows block (with_sync object (slice_index_or self.old.rows block []))) self.old.room }
    {
        for place in 0..self.objects.of(block).len() {
            self.add_at(block, place, object);
        }
    }
}
