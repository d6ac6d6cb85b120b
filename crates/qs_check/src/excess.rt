//! The block with which a script passes the limit of its load, or of its weight.

ghost use Rattle.std.specs.Prelude.{◌≡◌, ◌≤◌, ◌+◌, min, IfOk, IfErr, MatchOption, None, sum_by};
ghost use Rattle.qs_script.specs.tree.Form.{HasForm};
ghost use Rattle.qs_program.specs.audit.Limits.{most_steps};
ghost use Rattle.qs_check.specs.Checked.{shape_of};
ghost use Rattle.qs_check.specs.Excess.{counted_by, counted_in, limit_by, IsPassedIn, IsPassedBy, IsFirstExcess, IsExcessOf};

use crate::checker::{Resolved, resolve};
use crate::fault_places::CheckFault;
use qs_program::{Block, Client, MOST_REQUESTS, MOST_STEPS, block_load};
use qs_script::tree::{Item, Script};
use std::alloc::{AllocError, Global};

/// What is counted of a program, and has a limit.
#[derive(Clone, Copy, Debug, PartialEq, Eq)]
pub enum Measure {
    /// Its load: the requests that its blocks can make.
    Load,
    /// Its weight: the steps that its blocks can take.
    Weight,
}

/// The block with which a program passes a limit: with all blocks before it the program keeps the limit, and with it no
/// more.
#[derive(Clone, Copy, Debug, PartialEq, Eq)]
pub struct Excess {
    /// Which limit.
    pub measure: Measure,
    /// The block's client, by its number in text order.
    pub client: usize,
    /// The block's number among those of its client.
    pub block: usize,
    /// What all blocks before it count together.
    pub before: u64,
    /// What it counts itself, counted to one past the limit.
    pub count: u64,
}

fn limit(measure: Measure) -> u64
    ensures limit { result ≡ limit_by measure }
    ensures within { result ≤ most_steps }
{
    match measure {
        Measure::Load => MOST_REQUESTS,
        Measure::Weight => MOST_STEPS,
    }
}

// What a block counts, to one past the limit.
fn count(measure: Measure, block: &Block) -> u64
    ensures capped { result ≡ min (counted_by measure block.now) (limit_by measure + 1) }
{
    match measure {
        Measure::Load => block_load(block),
        Measure::Weight => block.body().weight(),
    }
}

// The count after a client's blocks, from what is counted before them; or the block with which it passes the limit.
fn pass_blocks(
    measure: Measure,
    client: usize,
    blocks: &[Block],
    before: u64,
) -> Result<u64, Excess>
    requires within { before ≤ limit_by measure }
    ensures total { IfOk result (λ total. total ≡ before + sum_by (counted_by measure) blocks.now) }
    ensures within { IfOk result (λ total. total ≤ limit_by measure) }
    ensures passed { IfErr result (IsPassedIn measure client before blocks.now) }
{
    let most = limit(measure);
    let mut total = before;
    for block in 0..blocks.len() {
        let count = count(measure, &blocks[block]);
        if total + count > most {
            return Err(Excess {
                measure,
                client,
                block,
                before: total,
                count,
            });
        }
        total += count;
    }
    Ok(total)
}

// The block with which a count passes its limit, if there is one.
fn pass(measure: Measure, clients: &[Client]) -> Option<Excess>
    ensures passed { MatchOption result (counted_in measure clients.now ≤ limit_by measure) (IsPassedBy measure clients.now) }
{
    let mut total = 0;
    for client in 0..clients.len() {
        match pass_blocks(measure, client, clients[client].blocks(), total) {
            Ok(after) => total = after,
            Err(excess) => return Some(excess),
        }
    }
    None
}

// The load first, then the weight.
fn first_of(resolved: &Resolved) -> Option<Excess>
    ensures first { IsFirstExcess (shape_of resolved.now) result }
{
    let clients = resolved.clients.as_slice();
    match pass(Measure::Load, clients) {
        Some(excess) => Some(excess),
        None => pass(Measure::Weight, clients),
    }
}

/// The block with which a script passes the limit of its load; or, where it keeps that, the limit of its weight.
/// Nothing, where it keeps both, or where its text has a fault. It fails only where memory runs out.
pub fn first_excess(alloc: Global, script: &Script) -> Result<Option<Excess>, AllocError>
    ensures excess { IfOk result (IsExcessOf script.now) }
{
    script.keeps_form();
    excess_in(alloc, script.as_slice())
}

// The first excess of items in the form of a script.
fn excess_in(alloc: Global, items: &[Item]) -> Result<Option<Excess>, AllocError>
    requires form { HasForm items.now }
    ensures excess { IfOk result (IsExcessOf items.now) }
{
    match resolve(alloc, items) {
        Ok(resolved) => {
            let found = first_of(&resolved);
            drop(resolved);
            Ok(found)
        }
        Err(CheckFault::Memory) => Err(AllocError),
        Err(_) => Ok(None),
    }
}
