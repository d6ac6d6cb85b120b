//! Which configurations each thread leads to, by how many blocks each client has begun there: so no two threads lead to
//! the same one.

ghost use Rattle.std.specs.Prelude.{◌≡◌, ◌<◌, ◌≤◌, ◌+◌, ◌%◌, ◌==◌, ℕ, IfOk, OnOk, ◌∷◌, ◌++◌, [], length, slice_index_or};
ghost use Rattle.qs_program.specs.audit.Limits.{most_clients};
ghost use Rattle.qs_standings.specs.going.Going.{begun_counts, in_byte};
ghost use Rattle.qs_levels.specs.Founds.{no_standing};
ghost use Rattle.qs_levels.specs.meaning.Weights.{weighted};
ghost use Rattle.qs_levels.specs.Shares.{AreGoing, AreMasks, AreTaken, weight};

use crate::level::Level;
use qs_program::{MOST_CLIENTS, Program};
use std::alloc::{AllocError, Global};

/// The share with a number, of so many.
#[derive(Clone, Copy, Drop)]
pub(crate) struct LevelShare {
    pub number: usize,
    pub count: usize,
}

// What a block of a client counts for: half of the clients lead on in their share, and the others to the one behind it.
// So each standing is looked at by two threads, also where only every second client goes on.
fn weight(client: u8) -> usize
    requires few { client < most_clients }
    ensures weight { result ≡ weight client }
    ensures small { result ≤ 1 }
{
    let client = usize::from(client);
    client * (client + 1) / 2 % 2
}

/// In which share, of so many, a standing is whose clients have begun so many blocks.
pub(crate) fn share_of(begun: &[u8], count: usize) -> u8
    requires clients { length begun.now ≤ most_clients }
    requires some { 0 < count }
    requires few { count ≤ 256 }
    ensures share { result ≡ weighted weight (length begun.now) (begun_counts begun.now) % count }
{
    let mut mark = 0;
    for client in 0..begun.len() {
        mark += usize::from(begun[client]) * weight(client as u8);
    }
    (mark % count) as u8
}

// Whose next blocks lead from a share to this one, client c in bit c.
fn mask(from: usize, share: LevelShare) -> u8
    requires from { from < share.count }
    requires few { share.count ≤ 256 }
    ensures mask { (c : ℕ) → c < most_clients → in_byte result c ≡ ((from + weight c) % share.count == share.number) }
{
    let mut set = 0;
    for client in 0..MOST_CLIENTS as u8 {
        if (from + weight(client)) % share.count == share.number {
            set |= 1 << client;
        }
    }
    set
}

fn add(masks: &mut Vec<u8>, mask: u8) -> Result<(), AllocError>
    ensures added { OnOk result (masks.new.items ≡ masks.old.items ++ mask ∷ []) }
{
    masks.push(mask)?;
    Ok(())
}

/// For each share, whose next blocks lead from there to this one.
pub(crate) fn masks(alloc: Global, share: LevelShare) -> Result<Vec<u8>, AllocError>
    requires few { share.count ≤ 256 }
    ensures masks { IfOk result (λ masks. AreMasks share.number share.count masks.items) }
{
    let mut masks = Vec::with_capacity(alloc, share.count)?;
    for from in 0..share.count {
        add(&mut masks, mask(from, share))?;
    }
    Ok(masks)
}

/// Who goes on from the standing at a place of a level and leads to a configuration of the share, client c in bit c.
pub(crate) fn taken(
    program: &Program,
    level: &Level,
    place: usize,
    share: LevelShare,
    masks: &[u8],
) -> u8
    requires within { place < length level.now.standings }
    requires going { AreGoing program.now share.count level.now.standings level.now.going }
    requires masks { AreMasks share.number share.count masks.now }
    requires some { 0 < share.count }
    ensures taken { AreTaken program.now share.number share.count (slice_index_or level.now.standings place no_standing) result }
{
    program.keeps_sound();
    let going = level.going(place);
    going.clients & masks[usize::from(going.share)]
}
