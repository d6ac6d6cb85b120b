// The nodes of a block in the drawing, each with its edges.

ghost use Rattle.std.specs.Prelude.{◌≡◌, ◌<◌, ◌++◌, length, slice_get, OnOk};
ghost use Rattle.std.specs.List.{filter};
ghost use Rattle.qs_graph.specs.audit.Nodes.{place_at};
ghost use Rattle.qs_text.specs.Blocks.{node_at, removed_at};
ghost use Rattle.qs_text.specs.audit.Texts.{texts_up_to};
ghost use Rattle.qs_syncset.specs.held.Table.{has};
ghost use Rattle.qs_dot.specs.DotText.{edge_line, edge_text, head_text, held_text, line_text, node_line, node_name, node_text, nodes_text, outline_text, place_text};

use crate::written::put_written;
use itoa::Buffer;
use qs_graph::{Choice, Node};
use qs_objects::Ticket;
use qs_program::Program;
use qs_text::{Block, held_at, put, put_all, put_names};
use std::alloc::{AllocError, Global};

fn outline_word(node: &Node) -> &'static [u8]
    ensures word { result.now ≡ outline_text node.now }
{
    match node {
        Node::Entry | Node::Exit => b"oval",
        Node::Local(_) => b"box",
        Node::Branch(Choice::If(_)) => b"diamond",
        Node::Branch(Choice::Repeat) => b"hexagon",
        Node::Sync(_) => b"octagon",
        Node::Query(_, _) => b"parallelogram",
        Node::Call(_) => b"note",
    }
}

// How the outline of a node is drawn.
fn line_word(block: &Block, n: usize) -> &'static [u8]
    requires node { n < length block.now.graph.now.nodes }
    ensures word { result.now ≡ line_text (removed_at block.now.graph.now.nodes block.now.sets.now n) }
{
    block.graph.keeps_graph();
    match block.graph.node(n) {
        Node::Sync(handler) => {
            if block.sets.holds(n, *handler) {
                b", style=dashed"
            } else {
                b""
            }
        }
        _ => b"",
    }
}

// What stands at the edge of a place among a node's edges.
fn edge_word(node: &Node, place: usize) -> &'static [u8]
    ensures word { result.now ≡ edge_text node.now place }
{
    match node {
        Node::Branch(Choice::If(_)) => {
            if place == 0 {
                b" [label=\"true\"]"
            } else {
                b" [label=\"false\"]"
            }
        }
        Node::Branch(Choice::Repeat) => {
            if place == 0 {
                b" [label=\"once more\"]"
            } else {
                b" [label=\"done\"]"
            }
        }
        _ => b"",
    }
}

// The name of a node of a block.
fn put_name(out: &mut Vec<u8>, ticket: Ticket, n: usize) -> Result<(), AllocError>
    ensures ok { OnOk result (out.new.items ≡ out.old.items ++ node_name ticket.client ticket.index n) }
{
    let mut client = Buffer::new();
    let mut block = Buffer::new();
    let mut node = Buffer::new();
    put_all(
        out,
        &[
            b"n",
            client.format(ticket.client).as_bytes(),
            b"_",
            block.format(ticket.index).as_bytes(),
            b"_",
            node.format(n).as_bytes(),
        ],
    )
}

// The line on which a node's statement stands, where it has one.
fn put_place(out: &mut Vec<u8>, lines: &[u32], n: usize) -> Result<(), AllocError>
    ensures ok { OnOk result (out.new.items ≡ out.old.items ++ place_text (slice_get lines.now n)) }
{
    match lines.get(n) {
        Some(line) => {
            let mut buffer = Buffer::new();
            put_all(out, &[b"\\nline ", buffer.format(*line).as_bytes()])
        }
        None => Ok(()),
    }
}

// The names that are held, where there are some.
fn put_held(out: &mut Vec<u8>, program: &Program, client: u8, held: &[u8]) -> Result<(), AllocError>
    requires client { client < length program.now.clients }
    ensures ok { OnOk result (out.new.items ≡ out.old.items ++ held_text program.now client held.now) }
{
    if held.is_empty() {
        return Ok(());
    }
    put(out, b"\\nheld")?;
    put_names(out, program, client, held)
}

// The names of a block's list that are held at a node.
fn put_held_at(alloc: Global, out: &mut Vec<u8>, block: &Block, n: usize) -> Result<(), AllocError>
    requires node { n < length block.now.sets.now }
    ensures ok { OnOk result (out.new.items
        ≡ out.old.items ++ held_text block.now.program.now block.now.ticket.client (filter (has block.now.sets.now n) block.now.reserved.now)) }
{
    let held = held_at(alloc, block.reserved, block.sets, n)?;
    put_held(out, block.program, block.ticket.client, held.as_slice())
}

// The beginning of a node's line, up to the number in its label.
fn put_node_head(out: &mut Vec<u8>, block: &Block, n: usize) -> Result<(), AllocError>
    requires node { n < length block.now.graph.now.nodes }
    ensures ok { OnOk result (out.new.items
        ≡ out.old.items ++ head_text block.now.ticket.client block.now.ticket.index n (place_at block.now.graph.now.nodes n) (removed_at block.now.graph.now.nodes block.now.sets.now n)) }
{
    let outline = outline_word(block.graph.node(n));
    let line = line_word(block, n);
    let mut buffer = Buffer::new();
    let number = buffer.format(n).as_bytes();
    put(out, b"    ")?;
    put_name(out, block.ticket, n)?;
    put_all(
        out,
        &[b" [shape=", outline, line, b", label=\"", number, b" "],
    )
}

fn put_line(
    alloc: Global,
    out: &mut Vec<u8>,
    block: &Block,
    lines: &[u32],
    n: usize,
) -> Result<(), AllocError>
    requires node { n < length block.now.graph.now.nodes }
    ensures ok { OnOk result (out.new.items
        ≡ out.old.items ++ node_at (node_line block.now.program.now block.now.ticket.client block.now.ticket.index lines.now) block.now.reserved.now block.now.graph.now.nodes block.now.sets.now n) }
{
    put_node_head(out, block, n)?;
    put_written(out, block.program, block.ticket.client, block.graph.node(n))?;
    put_place(out, lines, n)?;
    put_held_at(alloc, out, block, n)?;
    put(out, b"\"];\n")
}

// The edge of a place among those of a node.
fn put_edge(out: &mut Vec<u8>, block: &Block, n: usize, place: usize) -> Result<(), AllocError>
    requires node { n < length block.now.graph.now.nodes }
    requires place { place < length (place_at block.now.graph.now.nodes n).edges }
    ensures ok { OnOk result (out.new.items
        ≡ out.old.items ++ edge_line block.now.ticket.client block.now.ticket.index n (place_at block.now.graph.now.nodes n) place) }
{
    put(out, b"    ")?;
    put_name(out, block.ticket, n)?;
    put(out, b" -> ")?;
    put_name(out, block.ticket, block.graph.edges(n)[place])?;
    put_all(out, &[edge_word(block.graph.node(n), place), b";\n"])
}

fn put_edges(out: &mut Vec<u8>, block: &Block, n: usize) -> Result<(), AllocError>
    requires node { n < length block.now.graph.now.nodes }
    ensures ok { OnOk result (out.new.items
        ≡ out.old.items ++ texts_up_to (length (place_at block.now.graph.now.nodes n).edges) (edge_line block.now.ticket.client block.now.ticket.index n (place_at block.now.graph.now.nodes n))) }
{
    for place in 0..block.graph.edges(n).len() {
        put_edge(out, block, n, place)?;
    }
    Ok(())
}

/// Puts the nodes of a block at the end, each with its edges.
pub(crate) fn put_all_nodes(
    alloc: Global,
    out: &mut Vec<u8>,
    block: &Block,
    lines: &[u32],
) -> Result<(), AllocError>
    ensures ok { OnOk result (out.new.items
        ≡ out.old.items ++ nodes_text block.now.program.now block.now.ticket.client block.now.ticket.index lines.now block.now.reserved.now block.now.graph.now.nodes block.now.sets.now) }
{
    for n in 0..block.graph.len() {
        put_line(alloc, out, block, lines, n)?;
        put_edges(out, block, n)?;
    }
    Ok(())
}
