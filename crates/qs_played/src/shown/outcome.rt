//! What a run of threads has shown.

ghost use Rattle.std.specs.Prelude.{◌≡◌, ◌<◌, [], length, map, slice_index_or};
ghost use Rattle.qs_sync_counts.specs.audit.SyncRows.{count_of, object_of};
ghost use Rattle.qs_played.specs.Outcomes.{IsOver};
ghost use Rattle.qs_played.specs.Played.{no_events};

use crate::shown::Played;
use qs_objects::{Event, Journal, Object, Ticket};
use std::marker::Model;

/// What a run of threads has shown: each of its blocks has ended, and the run is finished.
pub struct Outcome {
    played: Played,
}

impl Drop for Outcome {
    fn drop(self) {
        let Outcome { played: _ } = self;
    }
}

impl Model for Outcome {
    ghost use Rattle.qs_played.specs.Outcomes.{IsOver};
    ghost use Rattle.qs_played.specs.audit.Played as shown;

    ghost Value = { shown.Played };

    ghost view = { λ o. o.played };

    ghost invariant = { λ o. IsOver o.played };
}

impl Outcome {
    /// The outcome of a run that is over; takes no memory.
    pub fn new(played: Played) -> Outcome
        requires over { IsOver played }
        ensures value { result ≡ played }
    {
        Outcome { played }
    }

    /// All that the run has shown, which is over.
    pub fn played(&self) -> &Played
        ensures value { result.now ≡ self.now }
        ensures over { IsOver self.now }
    {
        &self.played
    }

    /// The tickets in the order of reservations.
    pub fn order(&self) -> &[Ticket]
        ensures value { result.now ≡ self.now.order }
    {
        self.played.order()
    }

    /// The trace of a place of the order.
    pub fn trace(&self, place: usize) -> &[Event]
        requires place { place < length self.now.order }
        ensures value { result.now ≡ slice_index_or self.now.traces place no_events }
    {
        self.played.trace(place)
    }

    /// The objects of the list of a place's block, for each of which its Syncs are counted.
    pub fn sync_objects(&self, place: usize) -> &[u8]
        requires place { place < length self.now.order }
        ensures value { result.now ≡ map object_of (slice_index_or self.now.sync_counts place []) }
    {
        self.played.sync_objects(place)
    }

    /// How many Syncs a place's block has sent for each of these objects.
    pub fn sync_counts(&self, place: usize) -> &[u32]
        requires place { place < length self.now.order }
        ensures value { result.now ≡ map count_of (slice_index_or self.now.sync_counts place []) }
    {
        self.played.sync_counts(place)
    }

    /// For each object its journal.
    pub fn journals(&self) -> &[Journal]
        ensures value { result.now ≡ self.now.journals }
    {
        self.played.journals()
    }

    /// For each object its state.
    pub fn states(&self) -> &[Object]
        ensures value { result.now ≡ self.now.states }
    {
        self.played.states()
    }

    /// How many Syncs were sent.
    pub fn syncs(&self) -> u64
        ensures value { result ≡ self.now.syncs }
    {
        self.played.syncs()
    }
}
