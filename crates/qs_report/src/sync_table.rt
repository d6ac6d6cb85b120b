//! How many synchronisations the blocks of one order send in each mode.

ghost use Rattle.std.specs.Prelude.{◌≡◌, ◌<◌, length, slice_index_or};
ghost use Rattle.qs_played.specs.SyncSums.{AreSyncsCounted};
ghost use Rattle.qs_report.specs.SyncTable.{counts_in, object_in, sums_of, table_of, width_at};
ghost use Rattle.qs_syncset.specs.declared.mode.Mode.TheVariants as mode;

use qs_objects::Ticket;
use qs_played::Played;
use qs_program::Program;
use std::marker::Model;

/// How many synchronisations each mode sends.
#[derive(Clone, Copy, Debug, PartialEq, Eq)]
pub struct ModeCounts {
    /// Without coalescing.
    pub none: u64,
    /// With the dynamic test alone.
    pub dynamic: u64,
    /// With static removal alone.
    pub fixed: u64,
    /// With both.
    pub both: u64,
}

/// The blocks of an order, and how many synchronisations each of them sends in each mode for each object of its list: of
/// four runs of this order, one in each mode.
pub struct SyncTable {
    none: Played,
    dynamic: Played,
    fixed: Played,
    both: Played,
}

impl Drop for SyncTable {
    fn drop(self) {
        let SyncTable {
            none: _,
            dynamic: _,
            fixed: _,
            both: _,
        } = self;
    }
}

impl Model for SyncTable {
    ghost use Rattle.qs_report.specs.SyncTable.{AreOfOneOrder, TableShape, table_of};

    ghost Value = { TableShape };

    ghost view = { λ t. table_of t.none t.dynamic t.fixed t.both };

    ghost invariant = { λ t. AreOfOneOrder t.none t.dynamic t.fixed t.both };
}

// The count at a place of a list.
fn count_at(counts: &[u32], place: usize) -> u64
    requires place { place < length counts.now }
    ensures value { result ≡ slice_index_or counts.now place 0 }
{
    u64::from(counts[place])
}

impl SyncTable {
    /// The table of what a program has shown in four runs of one order, one in each mode; takes no memory.
    pub fn new(
        program: &Program,
        none: Played,
        dynamic: Played,
        fixed: Played,
        both: Played,
    ) -> SyncTable
        requires none { AreSyncsCounted program.now mode.Plain none }
        requires dynamic { AreSyncsCounted program.now mode.Dynamic dynamic }
        requires fixed { AreSyncsCounted program.now mode.Static fixed }
        requires both { AreSyncsCounted program.now mode.Both both }
        requires dynamic_order { dynamic.order ≡ none.order }
        requires fixed_order { fixed.order ≡ none.order }
        requires both_order { both.order ≡ none.order }
        ensures value { result ≡ table_of none dynamic fixed both }
    {
        SyncTable {
            none,
            dynamic,
            fixed,
            both,
        }
    }

    /// The tickets of the blocks.
    pub fn order(&self) -> &[Ticket]
        ensures value { result.now ≡ self.now.order }
    {
        self.none.order()
    }

    /// For how many objects the synchronisations of the block at a place are counted.
    pub fn width(&self, place: usize) -> usize
        requires place { place < length self.now.order }
        ensures value { result ≡ width_at self.now place }
    {
        self.none.sync_objects(place).len()
    }

    /// An object of the list of the block at a place.
    pub fn object(&self, place: usize, index: usize) -> u8
        requires place { place < length self.now.order }
        requires index { index < width_at self.now place }
        ensures value { result ≡ object_in self.now place index }
    {
        self.none.sync_objects(place)[index]
    }

    /// How many synchronisations the block at a place sends for it in each mode.
    pub fn counts(&self, place: usize, index: usize) -> ModeCounts
        requires place { place < length self.now.order }
        requires index { index < width_at self.now place }
        ensures value { result ≡ counts_in self.now place index }
    {
        ModeCounts {
            none: count_at(self.none.sync_counts(place), index),
            dynamic: count_at(self.dynamic.sync_counts(place), index),
            fixed: count_at(self.fixed.sync_counts(place), index),
            both: count_at(self.both.sync_counts(place), index),
        }
    }

    /// How many synchronisations all blocks send in each mode.
    pub fn sums(&self) -> ModeCounts
        ensures value { result ≡ sums_of self.now }
    {
        ModeCounts {
            none: self.none.syncs(),
            dynamic: self.dynamic.syncs(),
            fixed: self.fixed.syncs(),
            both: self.both.syncs(),
        }
    }
}
