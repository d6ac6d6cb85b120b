//! What is shown of a run in which each block has ended.

ghost use Rattle.std.specs.Prelude.{◌≡◌, ◌≤◌, ◌*◌, true, length, map, sum, sum_by, vec_len, vec_capacity};
ghost use Rattle.std.specs.List.{AllByRecursion};
ghost use Rattle.qs_program.specs.audit.Limits.{most_objects};
ghost use Rattle.qs_program.specs.Limits.{most_tickets};
ghost use Rattle.qs_sync_counts.specs.audit.SyncRows.{syncs_of};
ghost use Rattle.qs_sync_counts.specs.SyncRows.{greatest_count};
ghost use Rattle.qs_played.specs.Played.{HaveRows};
ghost use Rattle.qs_run.specs.Collected.{AreCountsShort, shown_when_over};

use qs_objects::{Journal, Object, Ticket};
use qs_played::{ClientRows, Endings, Outcome, Played, Sequence};

// Says of each ticket that its block has ended.
fn ended_blocks(order: &[Ticket], ended: Vec<bool>) -> Vec<bool>
    requires room { (vec_len ended ≡ 0) × (length order.now ≤ vec_capacity ended) }
    ensures ended { result.items ≡ map (λ t. true) order.now }
{
    let mut ended = ended;
    for _ticket in order {
        ended.push_reserved(true);
    }
    ended
}

// How many synchronisations a block has sent, for all objects of its list together.
fn block_syncs(counts: &[u32]) -> u64
    requires few { length counts.now ≤ most_objects }
    ensures sum { result ≡ sum counts.now }
    ensures limit { result ≤ most_objects * greatest_count }
{
    let mut total = 0u64;
    for count in counts {
        total += u64::from(*count);
    }
    total
}

// How many synchronisations all blocks have sent together.
fn all_syncs(played: &Played) -> u64
    requires few { length played.now.order ≤ most_tickets }
    requires counts { length played.now.sync_counts ≡ length played.now.order }
    requires short { AllByRecursion (λ row. length row ≤ most_objects) played.now.sync_counts }
    ensures syncs { result ≡ sum_by syncs_of played.now.sync_counts }
{
    let mut syncs = 0;
    for place in 0..played.order().len() {
        syncs += block_syncs(played.sync_counts(place));
    }
    syncs
}

/// What is shown of a run along this order, by its clients' rows and by its objects with their journals. Nothing is
/// allocated.
pub(crate) fn shown_outcome(
    order: Vec<Ticket>,
    rows: Vec<ClientRows>,
    journals: Vec<Journal>,
    states: Vec<Object>,
    ended: Vec<bool>,
) -> Outcome
    requires room { (vec_len ended ≡ 0) × (most_tickets ≤ vec_capacity ended) }
    requires few { vec_len order ≤ most_tickets }
    requires rows { HaveRows rows.items order.items }
    requires short { AreCountsShort rows.items order.items }
    ensures shown { result ≡ shown_when_over order.items rows.items journals.items states.items }
{
    let ended = ended_blocks(order.as_slice(), ended);
    let endings = Endings {
        ended: Sequence::from_vec(ended),
        journals: Sequence::from_vec(journals),
        states: Sequence::from_vec(states),
        syncs: 0,
        finished: true,
    };
    let played = Played::new(Sequence::from_vec(order), rows, endings);
    let syncs = all_syncs(&played);
    Outcome::new(played.with_syncs(syncs))
}
