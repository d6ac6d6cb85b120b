// What is read off a run: its tickets, and how many entries and synchronisations there are.

ghost use Rattle.std.specs.Prelude.{◌≡◌, ◌+◌, ◌<◌, ◌≤◌, [], length, max, slice_index_or};
ghost use Rattle.qs_svg.specs.audit.Stretches.{most_columns};
ghost use Rattle.qs_svg.specs.audit.Stretches as stretches;

use qs_objects::{Entry, Ticket};
use qs_played::Played;

/// So many columns are drawn at most.
pub(crate) const MOST_COLUMNS: usize = 64;

/// How many columns are drawn.
pub(crate) fn columns_of(played: &Played) -> usize
    ensures columns { result ≡ stretches.columns_of played.now }
    ensures few { result ≤ most_columns }
    ensures places { result ≤ length played.now.order }
{
    played.order().len().min(MOST_COLUMNS)
}

/// How many columns there are, with the one that says how much more there is.
pub(crate) fn all_columns(played: &Played) -> usize
    ensures columns { result ≡ stretches.all_columns played.now }
    ensures few { result ≤ most_columns + 1 }
{
    played.order().len().min(MOST_COLUMNS + 1)
}

/// The ticket at a place of the order.
pub(crate) fn ticket_at(played: &Played, place: usize) -> Ticket
    requires place { place < length played.now.order }
    ensures ticket { result ≡ stretches.ticket_at played.now place }
{
    played.order()[place]
}

/// Whether the block of the ticket at a place has ended.
pub(crate) fn has_ended(played: &Played, place: usize) -> bool
    ensures ended { result ≡ stretches.ended_at played.now place }
{
    played.ended().get(place).copied().unwrap_or(false)
}

/// The journal of an object.
pub(crate) fn journal_of(played: &Played, object: usize) -> &[Entry]
    ensures journal { result.now ≡ stretches.journal_of played.now object }
{
    match played.journals().get(object) {
        None => &[],
        Some(journal) => journal.as_slice(),
    }
}

/// Whether the block of the ticket at a place reserves an object.
pub(crate) fn reserves(played: &Played, place: usize, object: usize) -> bool
    requires place { place < length played.now.order }
    ensures reserves { result ≡ stretches.reserves played.now place object }
{
    played
        .sync_objects(place)
        .iter()
        .any(|reserved| usize::from(*reserved) == object)
}

// The count at a place of a list.
fn count_at(counts: &[u32], place: usize) -> u32
    ensures count { result ≡ slice_index_or counts.now place 0 }
{
    counts.get(place).copied().unwrap_or(0)
}

/// How many synchronisations the block of the ticket at a place has sent for an object.
pub(crate) fn sent_for(played: &Played, place: usize, object: usize) -> u32
    requires place { place < length played.now.order }
    ensures sent { result ≡ stretches.sent_for object (stretches.syncs_at played.now place) }
{
    let objects = played.sync_objects(place);
    let counts = played.sync_counts(place);
    for number in 0..objects.len() {
        if usize::from(objects[number]) == object {
            return count_at(counts, number);
        }
    }
    0
}

/// How many entries a journal has of a ticket.
pub(crate) fn entries_for(ticket: Ticket, journal: &[Entry]) -> usize
    ensures count { result ≡ stretches.entries_for ticket journal.now }
{
    let mut count = 0;
    for entry in journal {
        if entry.ticket == ticket {
            count += 1;
        }
    }
    count
}

/// How many of some entries are queries.
pub(crate) fn queries_in(entries: &[Entry]) -> usize
    ensures count { result ≡ stretches.queries_in entries.now }
{
    let mut count = 0;
    for entry in entries {
        if entry.request.op.is_query() {
            count += 1;
        }
    }
    count
}

fn greater(first: usize, second: usize) -> usize
    ensures greater { result ≡ max first second }
{
    first.max(second)
}

// The most requests that a block with a column has at an object.
fn longest_at(played: &Played, object: usize) -> usize
    ensures longest { result ≡ stretches.longest_at played.now object }
{
    let journal = journal_of(played, object);
    let mut most = 0;
    for column in 0..columns_of(played) {
        let count = entries_for(ticket_at(played, column), journal);
        most = greater(most, count);
    }
    most
}

/// The most requests that a block with a column has at whichever object.
pub(crate) fn longest(played: &Played, objects: usize) -> usize
    ensures longest { result ≡ stretches.longest objects played.now }
{
    let mut most = 0;
    for object in 0..objects {
        most = greater(most, longest_at(played, object));
    }
    most
}
