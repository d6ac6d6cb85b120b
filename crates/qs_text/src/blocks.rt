// Texts of a program's graphs, block by block.

ghost use Rattle.std.specs.Prelude.{◌≡◌, ◌<◌, ◌++◌, ℕ, List, length, OnOk};
ghost use Rattle.std.proofs.Props.{props};
ghost use Rattle.std.specs.List.{AllByRecursion};
ghost use Rattle.qs_program.specs.audit.Limits.{most_handlers};
ghost use Rattle.qs_program.specs.audit.Program.{ProgramShape, blocks_of};
ghost use Rattle.qs_text.specs.Blocks.{AreBlocks, AreBlocksOf, IsBlockBy, NodesText};
ghost use Rattle.qs_text.specs.Texts.{IsAdded};

use crate::held::reserved_by;
use qs_graph::{Graph, graph};
use qs_objects::Ticket;
use qs_program::Program;
use qs_syncset::{Sets, held_sets};
use std::alloc::{AllocError, Global};

/// A block whose nodes are written.
#[derive(Drop)]
pub struct Block<'a> {
    /// Its program.
    pub program: &'a Program,
    /// Its client and its number.
    pub ticket: Ticket,
    /// The names of its list, each one of 8.
    pub reserved: &'a [u8],
    /// Its graph.
    pub graph: &'a Graph,
    /// What is held at each node.
    pub sets: &'a Sets,
    ghost client: { ticket.client < length program.now.clients },
    ghost names: { AllByRecursion (λ h. h < most_handlers) reserved.now } by { Prim.hlevel props },
    ghost held: { length sets.now ≡ length graph.now.nodes },
}

/// How blocks are written: each has a head, and then its nodes.
pub trait BlockWriter {
    /// The head of a block of a client.
    ghost head: { Self → ProgramShape → (client block : ℕ) → List ℕ };

    /// Its nodes.
    ghost nodes: { Self → ProgramShape → (client block : ℕ) → NodesText };

    /// Puts the head of a block at the end. An error says that an allocation failed.
    fn put_head(
        &self,
        out: &mut Vec<u8>,
        program: &Program,
        ticket: Ticket,
    ) -> Result<(), AllocError>
        ensures ok { OnOk result (out.new.items ≡ out.old.items ++ head self.now program.now ticket.client ticket.index) };

    /// Puts the nodes of a block at the end. An error says that an allocation failed.
    fn put_nodes(&self, alloc: Global, out: &mut Vec<u8>, block: &Block) -> Result<(), AllocError>
        ensures ok { OnOk result (out.new.items
            ≡ out.old.items ++ nodes self.now block.now.program.now block.now.ticket.client block.now.ticket.index block.now.reserved.now block.now.graph.now block.now.sets.now) };
}

fn put_block<W: BlockWriter>(
    alloc: Global,
    out: &mut Vec<u8>,
    program: &Program,
    writer: &W,
    ticket: Ticket,
) -> Result<(), AllocError>
    requires client { ticket.client < length program.now.clients }
    requires block { ticket.index < blocks_of program.now ticket.client }
    ensures ok { OnOk result (IsAdded (IsBlockBy program.now (W.head writer.now program.now) (W.nodes writer.now program.now) ticket.client ticket.index) out.old.items out.new.items) }
{
    writer.put_head(out, program, ticket)?;
    let graph = graph(alloc, program, ticket.client, ticket.index)?;
    let sets = held_sets(alloc, &graph)?;
    let block = Block {
        program,
        ticket,
        reserved: reserved_by(program, ticket.client, ticket.index),
        graph: &graph,
        sets: &sets,
    };
    writer.put_nodes(alloc, out, &block)
}

fn put_blocks_of<W: BlockWriter>(
    alloc: Global,
    out: &mut Vec<u8>,
    program: &Program,
    writer: &W,
    client: u8,
) -> Result<(), AllocError>
    requires client { client < length program.now.clients }
    ensures ok { OnOk result (IsAdded (AreBlocksOf program.now (IsBlockBy program.now (W.head writer.now program.now) (W.nodes writer.now program.now)) client) out.old.items out.new.items) }
{
    program.keeps_sound();
    for block in 0..program.blocks_of(client) {
        let ticket = Ticket {
            client,
            index: block as u8,
        };
        put_block(alloc, out, program, writer, ticket)?;
    }
    Ok(())
}

/// Puts all blocks of a program at the end, client by client, each with what is held at its nodes. An error says that
/// an allocation failed.
pub fn put_blocks<W: BlockWriter>(
    alloc: Global,
    out: &mut Vec<u8>,
    program: &Program,
    writer: &W,
) -> Result<(), AllocError>
    ensures ok { OnOk result (IsAdded (AreBlocks program.now (IsBlockBy program.now (W.head writer.now program.now) (W.nodes writer.now program.now))) out.old.items out.new.items) }
{
    program.keeps_sound();
    for client in 0..program.clients() {
        put_blocks_of(alloc, out, program, writer, client as u8)?;
    }
    Ok(())
}
