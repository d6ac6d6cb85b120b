// Which client, or which block, uses the most of a limit.

ghost use Rattle.std.specs.Prelude.{◌≡◌, ◌<◌, length};
ghost use Rattle.qs_program.specs.audit.Program.{block_at, blocks_of};
ghost use Rattle.qs_messages.specs.Greatest.{client_use, greater, most_in_client, most_of_blocks as most_of_blocks_in, most_of_clients as most_of_clients_in, of_block};

use crate::limit_use::extents::{body_levels, body_turns};
use qs_program::Program;

/// A limit of each client.
#[derive(Clone, Copy, Debug)]
pub enum OfClient {
    /// How many blocks it has.
    Blocks,
    /// How many variables it has.
    Variables,
}

/// A limit of each block.
#[derive(Clone, Copy, Debug)]
pub enum OfBlock {
    /// In how many `if`s and `repeat`s a statement stands.
    Nesting,
    /// How many turns a `repeat` has.
    Turns,
}

/// How much of a limit is used, and by whom: a client, and one of its blocks where the limit is of each block. They are
/// named by their numbers, and where nothing is used they name nobody.
#[derive(Clone, Copy, Debug)]
pub struct Use {
    pub amount: u64,
    pub client: u8,
    pub block: u8,
}

fn greater_of(first: Use, second: Use) -> Use
    ensures greater { result ≡ greater first second }
{
    if first.amount < second.amount {
        second
    } else {
        first
    }
}

fn use_of_client(program: &Program, what: OfClient, client: u8) -> Use
    requires client { client < length program.now.clients }
    ensures exact { result ≡ client_use what program.now client }
{
    let amount = match what {
        OfClient::Blocks => program.blocks_of(client) as u64,
        OfClient::Variables => program.variables(client).len() as u64,
    };
    Use {
        amount,
        client,
        block: 0,
    }
}

fn amount_in_block(program: &Program, what: OfBlock, client: u8, block: u8) -> u64
    requires client { client < length program.now.clients }
    requires block { block < blocks_of program.now client }
    ensures exact { result ≡ of_block what (block_at program.now client block) }
{
    program.keeps_sound();
    let body = program.block(client, block).body();
    match what {
        OfBlock::Nesting => u64::from(body_levels(body).saturating_sub(1)),
        OfBlock::Turns => body_turns(body),
    }
}

// The greatest so far, or that of a client's blocks where one of them uses more.
fn with_client(program: &Program, what: OfBlock, so_far: Use, client: u8) -> Use
    requires client { client < length program.now.clients }
    ensures exact { result ≡ most_in_client what program.now so_far client }
{
    program.keeps_sound();
    let mut most = so_far;
    for block in 0..program.blocks_of(client) as u8 {
        let amount = amount_in_block(program, what, client, block);
        let one = Use {
            amount,
            client,
            block,
        };
        most = greater_of(most, one);
    }
    most
}

/// Which client uses the most of a limit of each client, and how much: the first of those that use as much. Nothing and
/// nobody, where there is no client.
pub fn most_of_clients(program: &Program, what: OfClient) -> Use
    ensures exact { result ≡ most_of_clients_in what program.now }
{
    program.keeps_sound();
    let mut most = Use {
        amount: 0,
        client: 0,
        block: 0,
    };
    for client in 0..program.clients() as u8 {
        most = greater_of(most, use_of_client(program, what, client));
    }
    most
}

/// Which block uses the most of a limit of each block, and how much: the first of those that use as much. Nothing and
/// nobody, where there is no block.
pub fn most_of_blocks(program: &Program, what: OfBlock) -> Use
    ensures exact { result ≡ most_of_blocks_in what program.now }
{
    program.keeps_sound();
    let mut most = Use {
        amount: 0,
        client: 0,
        block: 0,
    };
    for client in 0..program.clients() as u8 {
        most = with_client(program, what, most, client);
    }
    most
}
