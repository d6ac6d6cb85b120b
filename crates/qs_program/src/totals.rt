//! Loads and weights of whole programs, counted no further than one past their limits.

ghost use Rattle.std.specs.Prelude.{◌≡◌, ◌+◌, min, sum_by};
ghost use Rattle.qs_program.specs.audit.Limits.{most_requests, most_steps};
ghost use Rattle.qs_program.specs.audit.Loads.{weight_of};
ghost use Rattle.qs_program.specs.audit.Program.{block_load as block_load_of};

use crate::limits::{PAST_REQUESTS, PAST_STEPS};
use crate::program::{Block, Client};

/// The load of all blocks of all clients, counted to one past its limit.
pub fn all_load(clients: &[Client]) -> u64
    ensures capped { result ≡ min (sum_by (λ c. sum_by block_load_of c.blocks) clients.now) (most_requests + 1) }
{
    let mut load = 0;
    for client in clients {
        load = (load + blocks_load(client.blocks())).min(PAST_REQUESTS);
    }
    load
}

fn blocks_load(blocks: &[Block]) -> u64
    ensures capped { result ≡ min (sum_by block_load_of blocks.now) (most_requests + 1) }
{
    let mut load = 0;
    for block in blocks {
        load = (load + block_load(block)).min(PAST_REQUESTS);
    }
    load
}

/// The load of a block, counted to one past the limit of a program: its requests on the objects of its list.
pub fn block_load(block: &Block) -> u64
    ensures capped { result ≡ min (block_load_of block.now) (most_requests + 1) }
{
    let mut load = 0;
    for object in block.reserved() {
        load = (load + block.load(*object)).min(PAST_REQUESTS);
    }
    load
}

/// The weight of all blocks of all clients, counted to one past its limit.
pub fn all_weight(clients: &[Client]) -> u64
    ensures capped { result ≡ min (sum_by (λ c. sum_by (λ b. weight_of b.body) c.blocks) clients.now) (most_steps + 1) }
{
    let mut weight = 0;
    for client in clients {
        weight = (weight + blocks_weight(client.blocks())).min(PAST_STEPS);
    }
    weight
}

fn blocks_weight(blocks: &[Block]) -> u64
    ensures capped { result ≡ min (sum_by (λ b. weight_of b.body) blocks.now) (most_steps + 1) }
{
    let mut weight = 0;
    for block in blocks {
        weight = (weight + block.weight()).min(PAST_STEPS);
    }
    weight
}
