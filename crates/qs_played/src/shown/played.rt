//! What a run has shown.

ghost use Rattle.std.specs.Prelude.{◌≡◌, ◌<◌, [], length, map, slice_index_or};
ghost use Rattle.qs_objects.specs.Traces.{events_of};
ghost use Rattle.qs_sync_counts.specs.audit.SyncRows.{count_of, object_of};
ghost use Rattle.qs_played.specs.Played.{HaveRows, no_events, shown_with};

use crate::shown::Sequence;
use qs_objects::{Event, Journal, Object, Ticket, Traces};
use qs_program::Locals;
use qs_sync_counts::SyncCounts;
use std::marker::Model;

/// A client's blocks: for each of them its trace, its client's variables at entry, and how many Syncs it has sent for
/// each object of its list.
pub struct ClientRows {
    traces: Traces,
    entries: Vec<Locals>,
    counts: SyncCounts,
}

impl Drop for ClientRows {
    fn drop(self) {
        let ClientRows {
            traces: _,
            entries: _,
            counts: _,
        } = self;
    }
}

impl Model for ClientRows {
    ghost use Rattle.qs_objects.specs.Traces.{events_of};
    ghost use Rattle.qs_played.specs.Played as shown;
    ghost use Rattle.qs_played.specs.audit.Played as shown_audit;

    ghost Value = { shown.ClientRows };

    ghost view = { λ r. record { traces = events_of r.traces; entries = r.entries.items; counts = r.counts.rows } };
}

impl ClientRows {
    /// These rows; takes no memory.
    pub fn new(traces: Traces, entries: Vec<Locals>, counts: SyncCounts) -> ClientRows
        ensures value { result ≡ record { traces = events_of traces; entries = entries.items; counts = counts.rows } }
    {
        ClientRows {
            traces,
            entries,
            counts,
        }
    }
}

/// What a run has shown: the tickets in the order of reservations, and for each whether its block has ended, its
/// client's variables at entry, its trace, and how many Syncs it has sent for each object of its list; for each object
/// its journal and state; how many Syncs there were, and whether the run is finished. A ticket's trace is found by its
/// client and number: the clients' rows are taken as they are, and no trace is copied.
pub struct Played {
    order: Sequence<Ticket>,
    ended: Sequence<bool>,
    clients: Vec<ClientRows>,
    journals: Sequence<Journal>,
    states: Sequence<Object>,
    syncs: u64,
    finished: bool,
}

impl Drop for Played {
    fn drop(self) {
        let Played {
            order: _,
            ended: _,
            clients: _,
            journals: _,
            states: _,
            syncs: _,
            finished: _,
        } = self;
    }
}

impl Model for Played {
    ghost use Rattle.qs_played.specs.Played as shown;
    ghost use Rattle.qs_played.specs.audit.Played as shown_audit;
    ghost use Rattle.qs_played.specs.Played.{HaveRows, shown_with};

    ghost Value = { shown_audit.Played };

    ghost view = { λ p. shown_with p.order p.ended p.clients.items p.journals p.states p.syncs p.finished };

    ghost invariant = { λ p. HaveRows p.clients.items p.order };
}

/// What a run shows beside the clients' rows: whether each block has ended, the objects' journals and states, how many
/// Syncs there were, and whether the run is finished.
#[derive(Drop)]
pub struct Endings {
    pub ended: Sequence<bool>,
    pub journals: Sequence<Journal>,
    pub states: Sequence<Object>,
    pub syncs: u64,
    pub finished: bool,
}

impl Played {
    /// What is shown of this order by these clients; takes no memory.
    pub fn new(order: Sequence<Ticket>, clients: Vec<ClientRows>, endings: Endings) -> Played
        requires rows { HaveRows clients.items order }
        ensures value { result ≡ shown_with order endings.ended clients.items endings.journals endings.states endings.syncs endings.finished }
    {
        let Endings {
            ended,
            journals,
            states,
            syncs,
            finished,
        } = endings;
        Played {
            order,
            ended,
            clients,
            journals,
            states,
            syncs,
            finished,
        }
    }

    /// This run, shown with this number of Syncs; takes no memory.
    pub fn with_syncs(self, syncs: u64) -> Played
        ensures value { result ≡ record self { syncs = syncs } }
    {
        let Played {
            order,
            ended,
            clients,
            journals,
            states,
            syncs: _,
            finished,
        } = self;
        Played {
            order,
            ended,
            clients,
            journals,
            states,
            syncs,
            finished,
        }
    }

    /// The tickets in the order of reservations.
    pub fn order(&self) -> &[Ticket]
        ensures value { result.now ≡ self.now.order }
    {
        self.order.as_slice()
    }

    /// For each place of the order whether its block has ended.
    pub fn ended(&self) -> &[bool]
        ensures value { result.now ≡ self.now.ended }
    {
        self.ended.as_slice()
    }

    // The rows of a ticket's client, and the ticket's number among them.
    fn rows(&self, place: usize) -> (&ClientRows, usize)
        requires place { place < length self.now.order }
        ensures entry { slice_index_or result.0.now.entries result.1 [] ≡ slice_index_or self.now.entries place [] }
        ensures trace { slice_index_or result.0.now.traces result.1 [] ≡ slice_index_or self.now.traces place no_events }
        ensures counts { slice_index_or result.0.now.counts result.1 [] ≡ slice_index_or self.now.sync_counts place [] }
        ensures in_entries { result.1 < length result.0.now.entries }
        ensures in_traces { result.1 < length result.0.now.traces }
        ensures in_counts { result.1 < length result.0.now.counts }
    {
        let ticket = self.order.as_slice()[place];
        (
            &self.clients[usize::from(ticket.client)],
            usize::from(ticket.index),
        )
    }

    /// The variables at entry of the client of a place of the order.
    pub fn entry(&self, place: usize) -> &Locals
        requires place { place < length self.now.order }
        ensures value { result.now ≡ slice_index_or self.now.entries place [] }
    {
        let (rows, block) = self.rows(place);
        &rows.entries[block]
    }

    /// The trace of a place of the order.
    pub fn trace(&self, place: usize) -> &[Event]
        requires place { place < length self.now.order }
        ensures value { result.now ≡ slice_index_or self.now.traces place no_events }
    {
        let (rows, block) = self.rows(place);
        rows.traces.of(block)
    }

    /// The objects of the list of a place's block, for each of which its Syncs are counted.
    pub fn sync_objects(&self, place: usize) -> &[u8]
        requires place { place < length self.now.order }
        ensures value { result.now ≡ map object_of (slice_index_or self.now.sync_counts place []) }
    {
        let (rows, block) = self.rows(place);
        rows.counts.objects(block)
    }

    /// How many Syncs a place's block has sent for each of these objects.
    pub fn sync_counts(&self, place: usize) -> &[u32]
        requires place { place < length self.now.order }
        ensures value { result.now ≡ map count_of (slice_index_or self.now.sync_counts place []) }
    {
        let (rows, block) = self.rows(place);
        rows.counts.counts(block)
    }

    /// For each object its journal.
    pub fn journals(&self) -> &[Journal]
        ensures value { result.now ≡ self.now.journals }
    {
        self.journals.as_slice()
    }

    /// For each object its state.
    pub fn states(&self) -> &[Object]
        ensures value { result.now ≡ self.now.states }
    {
        self.states.as_slice()
    }

    /// How many Syncs were sent.
    pub fn syncs(&self) -> u64
        ensures value { result ≡ self.now.syncs }
    {
        self.syncs
    }

    /// Whether the run is finished.
    pub fn is_finished(&self) -> bool
        ensures value { result ≡ self.now.finished }
    {
        self.finished
    }
}
