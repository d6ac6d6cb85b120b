//! How many orders there can be, from how many blocks each client has left.

ghost use Rattle.std.specs.Prelude.{◌≡◌, ◌≤◌, ℕ, suc};
ghost use Rattle.qs_outcomes.specs.estimate.Estimates.{AreBlocksLeft, IsRow, capped, insertions, least_orders, most_orders};

use crate::estimate::estimate::MOST_TOLD;
use qs_program::{MOST_BLOCKS, MOST_CLIENTS};

// One more than the greatest bound that is told: no count goes further, as what is more is not told all the same.
const PAST_TOLD: u64 = MOST_TOLD + 1;

// The blocks of all clients but one.
const MOST_OTHERS: usize = (MOST_CLIENTS - 1) * MOST_BLOCKS;

// Goes on from so many equal letters to one more.
fn allow_one_more(row: &mut [u64])
    ensures more { (b : ℕ) → IsRow b row.old → IsRow (suc b) row.new }
{
    let mut before = 1u64;
    for ways in row.iter_mut() {
        before = ways.saturating_add(before).min(PAST_TOLD);
        *ways = before;
    }
}

// In how many ways up to so many equal letters can be put into a word of so many others.
fn insertions(equal: u8, others: usize) -> u64
    requires few { others ≤ 448 }
    ensures ways { result ≡ capped (insertions equal others) }
{
    let mut row = [1u64; MOST_OTHERS + 1];
    for _ in 0..equal {
        allow_one_more(&mut row);
    }
    row[others]
}

// How many orders of so many blocks of each client there can be at most.
pub(crate) fn most_orders(left: &[u8]) -> u64
    requires left { AreBlocksLeft left.now }
    ensures most { result ≡ capped (most_orders left.now) }
{
    let mut most = 1u64;
    let mut others = 0usize;
    for blocks in left {
        most = most
            .saturating_mul(insertions(*blocks, others))
            .min(PAST_TOLD);
        others += usize::from(*blocks);
    }
    most
}

// How many choices there are of how many of its blocks each client has done.
pub(crate) fn least_orders(left: &[u8]) -> u64
    requires left { AreBlocksLeft left.now }
    ensures least { result ≡ least_orders left.now }
{
    let mut least = 1u64;
    for blocks in left {
        least *= u64::from(*blocks) + 1;
    }
    least
}
