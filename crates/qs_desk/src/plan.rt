//! Which handlers each block reserves.

ghost use Rattle.std.specs.Prelude.{◌≡◌, ◌<◌, length, IfOk, slice_index_or, []};
ghost use Rattle.qs_meaning.specs.audit.Following.{reserves};
ghost use Rattle.qs_program.specs.audit.Program.{ProgramShape, blocks_of, client_at, block_at};
ghost use Rattle.qs_program.specs.audit.Sound.{is_in};
ghost use Rattle.qs_desk.specs.Plans.{list_of, lists_of_client, lists_of_program};

use qs_objects::Ticket;
use qs_program::Program;
use std::alloc::{AllocError, Global};
use std::marker::Model;

/// The handlers that a block reserves.
pub struct Reserved {
    objects: Vec<u8>,
}

impl Drop for Reserved {
    fn drop(self) {
        let Reserved { objects: _ } = self;
    }
}

impl Model for Reserved {
    ghost use Rattle.std.specs.Prelude.{List, ℕ};

    ghost Value = { List ℕ };

    ghost view = { λ r. r.objects.items };
}

/// What each block of a client reserves.
pub struct Blocks {
    blocks: Vec<Reserved>,
}

impl Drop for Blocks {
    fn drop(self) {
        let Blocks { blocks: _ } = self;
    }
}

impl Model for Blocks {
    ghost use Rattle.std.specs.Prelude.{List, ℕ};

    ghost Value = { List (List ℕ) };

    ghost view = { λ b. b.blocks.items };
}

/// What each block of each client reserves.
pub struct ReservedLists {
    clients: Vec<Blocks>,
}

impl Drop for ReservedLists {
    fn drop(self) {
        let ReservedLists { clients: _ } = self;
    }
}

impl Model for ReservedLists {
    ghost use Rattle.std.specs.Prelude.{List, ℕ};

    ghost Value = { List (List (List ℕ)) };

    ghost view = { λ p. p.clients.items };
}

fn reserved_by(
    alloc: Global,
    program: &Program,
    client: u8,
    block: u8,
) -> Result<Reserved, AllocError>
    requires client { client < length program.now.clients }
    requires block { block < blocks_of program.now client }
    ensures list { IfOk result (λ r. r ≡ list_of (block_at program.now client block)) }
{
    let objects = program.block(client, block).reserved().to_vec(alloc)?;
    Ok(Reserved { objects })
}

fn blocks_by(alloc: Global, program: &Program, client: u8) -> Result<Blocks, AllocError>
    requires client { client < length program.now.clients }
    ensures lists { IfOk result (λ b. b ≡ lists_of_client (client_at program.now client)) }
{
    program.keeps_sound();
    let mut blocks = Vec::new(alloc);
    for block in 0..program.blocks_of(client) {
        blocks.push(reserved_by(alloc, program, client, block as u8)?)?;
    }
    Ok(Blocks { blocks })
}

impl ReservedLists {
    /// The lists of a program's blocks. An error says that memory was refused.
    pub(crate) fn new(alloc: Global, program: &Program) -> Result<ReservedLists, AllocError>
        ensures lists { IfOk result (λ plan. plan ≡ lists_of_program program.now) }
    {
        program.keeps_sound();
        let mut clients = Vec::new(alloc);
        for client in 0..program.clients() {
            clients.push(blocks_by(alloc, program, client as u8)?)?;
        }
        Ok(ReservedLists { clients })
    }

    /// How many clients there are.
    pub(crate) fn clients(&self) -> usize
        ensures value { result ≡ length self.now }
    {
        self.clients.len()
    }

    /// How many blocks a client has.
    pub(crate) fn blocks_of(&self, client: u8) -> usize
        requires { client < length self.now }
        ensures value { result ≡ length (slice_index_or self.now client []) }
    {
        let blocks = &self.clients[usize::from(client)];
        blocks.blocks.len()
    }

    /// Whether a ticket's block reserves a handler, in the program of which these are the lists.
    pub(crate) fn reserves(&self, ticket: Ticket, handler: usize) -> bool
        ensures value { (p : ProgramShape) → self.now ≡ lists_of_program p → result ≡ reserves p ticket handler }
    {
        let Some(client) = self.clients.get(usize::from(ticket.client)) else {
            return false;
        };
        let Some(block) = client.blocks.get(usize::from(ticket.index)) else {
            return false;
        };
        is_among(&block.objects, handler)
    }
}

fn is_among(objects: &[u8], handler: usize) -> bool
    ensures value { result ≡ is_in objects.now handler }
{
    objects.iter().any(|object| usize::from(*object) == handler)
}
