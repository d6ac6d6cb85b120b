// The control-flow graphs of a program.

ghost use Rattle.std.specs.Prelude.{◌≡◌, ◌<◌, ◌++◌, decimal, length, IfOk, OnOk};
ghost use Rattle.std.specs.List.{filter};
ghost use Rattle.qs_graph.specs.audit.Nodes.{place_at};
ghost use Rattle.qs_syncset.specs.held.Table.{has};
ghost use Rattle.qs_text.specs.Blocks.{node_at, removed_at};
ghost use Rattle.qs_text.specs.Texts.{list_text};
ghost use Rattle.qs_text.specs.Words.{name_of};
ghost use Rattle.qs_report.specs.GraphText.{removed_text, label_text, node_line, block_line, graph_nodes_text, step_text, IsGraphText};

use itoa::Buffer;
use qs_graph::Node;
use qs_objects::Ticket;
use qs_program::Program;
use qs_text::{
    Block, BlockWriter, client_name, held_at, put, put_all, put_blocks, put_named, put_names,
};
use std::alloc::{AllocError, Global};

fn removed_word(is_removed: bool) -> &'static [u8]
    ensures word { result.now ≡ removed_text is_removed }
{
    if is_removed { b" removed" } else { b" kept" }
}

// What a node does.
fn put_label(out: &mut Vec<u8>, block: &Block, n: usize) -> Result<(), AllocError>
    requires node { n < length block.now.graph.now.nodes }
    ensures ok { OnOk result (out.new.items
        ≡ out.old.items ++ label_text block.now.program.now block.now.ticket.client (removed_at block.now.graph.now.nodes block.now.sets.now n) (place_at block.now.graph.now.nodes n).node) }
{
    let client = block.ticket.client;
    block.graph.keeps_graph();
    match block.graph.node(n) {
        Node::Entry => put(out, b"entry"),
        Node::Local(_) => put(out, b"local"),
        Node::Branch(_) => put(out, b"branch"),
        Node::Sync(handler) => {
            put_named(out, block.program, client, b"sync ", *handler)?;
            put(out, removed_word(block.sets.holds(n, *handler)))
        }
        Node::Query(_, call) => put_named(out, block.program, client, b"query ", call.object),
        Node::Call(call) => put_named(out, block.program, client, b"call ", call.object),
        Node::Exit => put(out, b"exit"),
    }
}

// The numbers of the nodes that a node leads to.
fn put_targets(out: &mut Vec<u8>, targets: &[usize]) -> Result<(), AllocError>
    ensures ok { OnOk result (out.new.items ≡ out.old.items ++ list_text decimal targets.now) }
{
    if targets.is_empty() {
        return put(out, b" -");
    }
    for target in targets {
        let mut buffer = Buffer::new();
        put_all(out, &[b" ", buffer.format(*target).as_bytes()])?;
    }
    Ok(())
}

// The number of a node, what it does, and the numbers of the nodes that it leads to.
fn put_step(out: &mut Vec<u8>, block: &Block, n: usize) -> Result<(), AllocError>
    requires node { n < length block.now.graph.now.nodes }
    ensures ok { OnOk result (out.new.items
        ≡ out.old.items ++ step_text block.now.program.now block.now.ticket.client n (place_at block.now.graph.now.nodes n) (removed_at block.now.graph.now.nodes block.now.sets.now n)) }
{
    let mut buffer = Buffer::new();
    put_all(out, &[buffer.format(n).as_bytes(), b" "])?;
    put_label(out, block, n)?;
    put(out, b" ->")?;
    put_targets(out, block.graph.edges(n))
}

// The names of a block's list that are held at a node, as text.
fn put_held(alloc: Global, out: &mut Vec<u8>, block: &Block, n: usize) -> Result<(), AllocError>
    requires node { n < length block.now.sets.now }
    ensures ok { OnOk result (out.new.items
        ≡ out.old.items ++ list_text (name_of block.now.program.now block.now.ticket.client) (filter (has block.now.sets.now n) block.now.reserved.now)) }
{
    let held = held_at(alloc, block.reserved, block.sets, n)?;
    put_names(out, block.program, block.ticket.client, held.as_slice())
}

fn put_node(alloc: Global, out: &mut Vec<u8>, block: &Block, n: usize) -> Result<(), AllocError>
    requires node { n < length block.now.graph.now.nodes }
    ensures ok { OnOk result (out.new.items
        ≡ out.old.items ++ node_at (node_line block.now.program.now block.now.ticket.client) block.now.reserved.now block.now.graph.now.nodes block.now.sets.now n) }
{
    put_step(out, block, n)?;
    put(out, b" held")?;
    put_held(alloc, out, block, n)?;
    put(out, b"\n")
}

// A block as text.
#[derive(Drop)]
struct BlockText;

impl BlockWriter for BlockText {
    ghost head = { λ writer. block_line };

    ghost nodes = { λ writer p client block. graph_nodes_text p client };

    fn put_head(
        &self,
        out: &mut Vec<u8>,
        program: &Program,
        ticket: Ticket,
    ) -> Result<(), AllocError> {
        let mut buffer = Buffer::new();
        let name = client_name(program, ticket.client);
        let number = buffer.format(ticket.index).as_bytes();
        put_all(out, &[b"block ", name, b" ", number, b"\n"])
    }

    fn put_nodes(&self, alloc: Global, out: &mut Vec<u8>, block: &Block) -> Result<(), AllocError> {
        for n in 0..block.graph.len() {
            put_node(alloc, out, block, n)?;
        }
        Ok(())
    }
}

/// The text of a program's control-flow graphs: for each block its nodes as they are built, each with its number, what
/// it does, the nodes that it leads to, and the names that are held as it is reached. An error says that an allocation
/// failed, and nothing is left.
pub fn graph_text(alloc: Global, program: &Program) -> Result<Vec<u8>, AllocError>
    ensures text { IfOk result (λ bytes. IsGraphText program.now bytes.items) }
{
    let mut out = Vec::new(alloc);
    put_blocks(alloc, &mut out, program, &BlockText)?;
    Ok(out)
}
