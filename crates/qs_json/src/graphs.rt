// The control-flow graphs of a program.

ghost use Rattle.std.specs.Prelude.{◌≡◌, ◌<◌, ◌++◌, IfOk, OnOk, codes, decimal, length};
ghost use Rattle.std.specs.List.{filter, join_by};
ghost use Rattle.qs_graph.specs.audit.Nodes.{place_at};
ghost use Rattle.qs_text.specs.Blocks.{node_at, removed_at};
ghost use Rattle.qs_text.specs.audit.Texts.{texts_up_to};
ghost use Rattle.qs_text.specs.Texts.{Puts};
ghost use Rattle.qs_syncset.specs.held.Table.{has};
ghost use Rattle.qs_json.specs.audit.Pieces.{array, element};
ghost use Rattle.qs_json.specs.GraphJson.{IsGraphJson, graph_nodes_json, label_json, name_json, node_json, owner_json, step_json};

use crate::pieces::{put_client_name, put_comma, put_string, put_truth};
use qs_graph::Node;
use qs_objects::Ticket;
use qs_program::Program;
use qs_text::{Block, BlockWriter, declared_name, held_at, put_blocks, put_count, put_word};
use std::alloc::{AllocError, Global};

// A word and a name of a client's own text, as a string.
fn put_name(
    out: &mut Vec<u8>,
    program: &Program,
    client: u8,
    word: &[u8],
    name: u8,
) -> Result<(), AllocError>
    requires client { client < length program.now.clients }
    ensures ok { OnOk result (Puts (word.now ++ name_json program.now client name) out.old.items out.new.items) }
{
    put_string(out, word, declared_name(program, client, name))
}

// What a node does.
fn put_label(out: &mut Vec<u8>, block: &Block, n: usize) -> Result<(), AllocError>
    requires node { n < length block.now.graph.now.nodes }
    ensures ok { OnOk result (Puts (label_json block.now.program.now block.now.ticket.client (removed_at block.now.graph.now.nodes block.now.sets.now n) (place_at block.now.graph.now.nodes n).node) out.old.items out.new.items) }
{
    let (program, client) = (block.program, block.ticket.client);
    block.graph.keeps_graph();
    match block.graph.node(n) {
        Node::Entry => put_word(out, b",\"label\":\"entry\""),
        Node::Local(_) => put_word(out, b",\"label\":\"local\""),
        Node::Branch(_) => put_word(out, b",\"label\":\"branch\""),
        Node::Sync(handler) => {
            let word = b",\"label\":\"sync\",\"handler\":";
            put_name(out, program, client, word, *handler)?;
            put_truth(out, b",\"removed\":", block.sets.holds(n, *handler))
        }
        Node::Query(_, call) => {
            let word = b",\"label\":\"query\",\"handler\":";
            put_name(out, program, client, word, call.object)
        }
        Node::Call(call) => {
            let word = b",\"label\":\"call\",\"handler\":";
            put_name(out, program, client, word, call.object)
        }
        Node::Exit => put_word(out, b",\"label\":\"exit\""),
    }
}

// The numbers of nodes, with a comma between each two.
fn put_targets(out: &mut Vec<u8>, targets: &[usize]) -> Result<(), AllocError>
    ensures ok { OnOk result (Puts (join_by decimal (codes ",") targets.now) out.old.items out.new.items) }
{
    for place in 0..targets.len() {
        put_comma(out, place)?;
        put_count(out, b"", targets[place] as u64)?;
    }
    Ok(())
}

// Names of a client's own text, with a comma between each two.
fn put_joined(
    out: &mut Vec<u8>,
    program: &Program,
    client: u8,
    names: &[u8],
) -> Result<(), AllocError>
    requires client { client < length program.now.clients }
    ensures ok { OnOk result (Puts (join_by (name_json program.now client) (codes ",") names.now) out.old.items out.new.items) }
{
    for place in 0..names.len() {
        put_comma(out, place)?;
        put_name(out, program, client, b"", names[place])?;
    }
    Ok(())
}

// The number of a node, what it does, and the numbers of the nodes that it leads to.
fn put_step(out: &mut Vec<u8>, block: &Block, n: usize) -> Result<(), AllocError>
    requires node { n < length block.now.graph.now.nodes }
    ensures ok { OnOk result (Puts (step_json block.now.program.now block.now.ticket.client n (place_at block.now.graph.now.nodes n) (removed_at block.now.graph.now.nodes block.now.sets.now n)) out.old.items out.new.items) }
{
    put_count(out, b"{\"node\":", n as u64)?;
    put_label(out, block, n)?;
    put_word(out, b",\"targets\":[")?;
    put_targets(out, block.graph.edges(n))?;
    put_word(out, b"]")
}

// The names of a block's list that are held at a node, as a field.
fn put_held(alloc: Global, out: &mut Vec<u8>, block: &Block, n: usize) -> Result<(), AllocError>
    requires node { n < length block.now.sets.now }
    ensures ok { OnOk result (Puts (codes ",\"held\":" ++ array (name_json block.now.program.now block.now.ticket.client) (filter (has block.now.sets.now n) block.now.reserved.now)) out.old.items out.new.items) }
{
    let held = held_at(alloc, block.reserved, block.sets, n)?;
    put_word(out, b",\"held\":[")?;
    put_joined(out, block.program, block.ticket.client, held.as_slice())?;
    put_word(out, b"]")
}

fn put_node(alloc: Global, out: &mut Vec<u8>, block: &Block, n: usize) -> Result<(), AllocError>
    requires node { n < length block.now.graph.now.nodes }
    ensures ok { OnOk result (Puts (node_at (node_json block.now.program.now block.now.ticket.client) block.now.reserved.now block.now.graph.now.nodes block.now.sets.now n) out.old.items out.new.items) }
{
    put_step(out, block, n)?;
    put_held(alloc, out, block, n)?;
    put_word(out, b"}")
}

// All nodes of a graph, with a comma between each two.
fn put_all_nodes(alloc: Global, out: &mut Vec<u8>, block: &Block) -> Result<(), AllocError>
    ensures ok { OnOk result (Puts (texts_up_to (length block.now.graph.now.nodes) (element (node_at (node_json block.now.program.now block.now.ticket.client) block.now.reserved.now block.now.graph.now.nodes block.now.sets.now))) out.old.items out.new.items) }
{
    for n in 0..block.graph.len() {
        put_comma(out, n)?;
        put_node(alloc, out, block, n)?;
    }
    Ok(())
}

// A block as an object.
#[derive(Drop)]
struct BlockJson;

impl BlockWriter for BlockJson {
    ghost head = { λ writer. owner_json };

    ghost nodes = { λ writer p client block. graph_nodes_json p client };

    fn put_head(
        &self,
        out: &mut Vec<u8>,
        program: &Program,
        ticket: Ticket,
    ) -> Result<(), AllocError> {
        put_client_name(out, program, ticket.client)?;
        put_count(out, b",\"block\":", u64::from(ticket.index))
    }

    fn put_nodes(&self, alloc: Global, out: &mut Vec<u8>, block: &Block) -> Result<(), AllocError> {
        put_word(out, b",\"nodes\":[")?;
        put_all_nodes(alloc, out, block)?;
        put_word(out, b"]")?;
        put_word(out, b"}\n")
    }
}

/// A program's control-flow graphs, an object on a line for each block: whose it is, and its nodes as they are built,
/// each with its number, what it does, the nodes that it leads to, and the names that are held as it is reached. An
/// error says that an allocation failed, and nothing is left.
pub fn graph_json(alloc: Global, program: &Program) -> Result<Vec<u8>, AllocError>
    ensures text { IfOk result (λ bytes. IsGraphJson program.now bytes.items) }
{
    let mut out = Vec::new(alloc);
    put_blocks(alloc, &mut out, program, &BlockJson)?;
    Ok(out)
}
